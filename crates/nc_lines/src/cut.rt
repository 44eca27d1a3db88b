//! The lines of a text, and the words of a line.

ghost use Rattle.std.specs.Prelude.{◌≡◌, ℕ, ◌<◌, ◌==◌, not, Bool, length, [], ◌∷◌, position, MatchOption, IfSome, IfNone};
ghost use Rattle.std.specs.List.{slice_split};
ghost use Rattle.nc_lines.specs.Blocks.{is_idle};
ghost use Rattle.nc_lines.specs.Lines.{is_gap, words_of, first_byte, is_indented, without_return};

use memchr::memchr;

// Where a byte stands first.
pub(crate) fn place_of(bytes: &[u8], byte: u8) -> Option<usize>
    ensures { result ≡ position (λ b. b == byte) bytes.now }
{
    memchr(byte, bytes)
}

// Cuts at the first such byte, and gives what stands before it and behind it; `None` where there is
// none.
pub(crate) fn cut_at(bytes: &[u8], byte: u8) -> Option<(&[u8], &[u8])>
    ensures parts { MatchOption result (slice_split (λ b. b == byte) bytes.now ≡ bytes.now ∷ [])
        (λ cut. slice_split (λ b. b == byte) bytes.now ≡ cut.0.now ∷ slice_split (λ b. b == byte) cut.1.now) }
    ensures shorter { IfSome result (λ cut. length cut.1.now < length bytes.now) }
{
    let at = place_of(bytes, byte)?;
    let (before, _) = bytes.split_at(at);
    let (_, behind) = bytes.split_at(at + 1);
    Some((before, behind))
}

// A line without the carriage return at its end.
pub(crate) fn trim_return(line: &[u8]) -> &[u8]
    ensures { result.now ≡ without_return line.now }
{
    if line.is_empty() {
        return line;
    }
    let last = line.len() - 1;
    if line[last] != b'\r' {
        return line;
    }
    line.split_at(last).0
}

// Whether a byte is a space or a tab.
fn is_gap(byte: u8) -> bool
    ensures { result ≡ is_gap byte }
{
    byte == b' ' || byte == b'\t'
}

// Where the first gap is.
pub(crate) fn gap_place(line: &[u8]) -> Option<usize>
    ensures { result ≡ position is_gap line.now }
{
    line.iter().position(|b| is_gap(*b))
}

// Where the first word begins.
pub(crate) fn word_place(line: &[u8]) -> Option<usize>
    ensures { result ≡ position (λ b. not (is_gap b)) line.now }
{
    line.iter().position(|b| !is_gap(*b))
}

/// Whether a line begins with a gap.
pub fn is_indented(line: &[u8]) -> bool
    ensures { result ≡ is_indented line.now }
{
    line.first().is_some_and(|b| is_gap(*b))
}

/// The first byte of the first word of a line, by which a comment is told; `None` where the line is blank.
pub fn first_byte(line: &[u8]) -> Option<u8>
    ensures byte { result ≡ first_byte (words_of line.now) }
    ensures comment { MatchOption result (words_of line.now ≡ []) (λ byte. is_idle (words_of line.now) ≡ (byte == 33)) }
{
    let start = word_place(line)?;
    Some(line[start])
}

/// Takes the first word off a line; `None` where the line is blank.
pub fn cut_word(line: &[u8]) -> Option<(&[u8], &[u8])>
    ensures word { MatchOption result (words_of line.now ≡ []) (λ cut. words_of line.now ≡ cut.0.now ∷ words_of cut.1.now) }
    ensures shorter { IfSome result (λ cut. length cut.1.now < length line.now) }
{
    let start = word_place(line)?;
    let (_, from) = line.split_at(start);
    let end = gap_place(from).unwrap_or(from.len());
    Some(from.split_at(end))
}
