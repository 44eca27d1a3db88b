//! Banners: text for people, between two marks.

ghost use Rattle.std.specs.Prelude.{◌≡◌, MatchOption, None, Some};
ghost use Rattle.nc_lines.specs.Lines.{words_of};
ghost use Rattle.nc_lines.specs.Blocks.{behind_mark, has_mark, begins_banner, leaves_open, is_idle};

use crate::cut::{cut_word, first_byte, is_indented};

// What stands behind the first mark of a line, the two bytes `^C`; `None` where it has none.
#[tactic(auto, unfolding(crate::specs::Blocks::behind_mark))]
fn behind_mark(line: &[u8]) -> Option<&[u8]>
    ensures { MatchOption result (behind_mark line.now ≡ None) (λ rest. behind_mark line.now ≡ Some rest.now) }
{
    let mut rest = line;
    'places: while let Some((first, behind)) = rest.split_first() {
        if *first == b'^' && behind.first() == Some(&b'C') {
            return Some(behind.split_at(1).1);
        }
        rest = behind;
    }
    None
}

/// Whether a line has a mark.
pub fn has_mark(line: &[u8]) -> bool
    ensures { result ≡ has_mark line.now }
{
    behind_mark(line).is_some()
}

/// Whether a line is unindented and its first word is `banner`.
pub fn begins_banner(line: &[u8]) -> bool
    ensures { result ≡ begins_banner line.now }
{
    if is_indented(line) {
        return false;
    }
    match cut_word(line) {
        None => false,
        Some((word, _)) => word == b"banner".as_slice(),
    }
}

/// Whether a mark opens a banner in its first line and no second one closes it there.
pub fn leaves_open(line: &[u8]) -> bool
    ensures { result ≡ leaves_open line.now }
{
    match behind_mark(line) {
        None => false,
        Some(text) => !has_mark(text),
    }
}

/// Whether a line is blank or a comment.
pub fn is_idle(line: &[u8]) -> bool
    ensures { result ≡ is_idle (words_of line.now) }
{
    match first_byte(line) {
        None => true,
        Some(byte) => byte == b'!',
    }
}
