//! Numbers and prefixes at the front of a text, read in one pass over its bytes.

ghost use Rattle.std.specs.Prelude.{◌≡◌, ◌≤◌, ◌∷◌, ◌+◌, IfSome};
ghost use Rattle.nc_lines.specs.Lines.{words_of};
ghost use Rattle.nc_read_policy.specs.Fronts.{IsFrontNumber, IsFrontPrefix, ends_word};

use nc_lines::cut::is_indented;
use nc_types::Addr;

/// Whether a word that stands in front of this text ends there.
pub(crate) fn ends_word(text: &[u8]) -> bool
    ensures { result ≡ ends_word text.now }
{
    text.is_empty() || is_indented(text)
}

/// What is behind a gap at the front; `None` where there is none.
pub(crate) fn behind_gap(text: &[u8]) -> Option<&[u8]>
    ensures { IfSome result (λ rest. words_of text.now ≡ words_of rest.now) }
{
    if !is_indented(text) {
        return None;
    }
    let (_, rest) = text.split_first()?;
    Some(rest)
}

/// The number that the digits at the front write, and what is behind them; `None` where they write
/// none up to this great.
pub(crate) fn cut_number(text: &[u8], most: u32) -> Option<(u32, &[u8])>
    ensures read { IfSome result (λ cut. IsFrontNumber most text.now cut.0 cut.1.now) }
    ensures within { IfSome result (λ cut. cut.0 ≤ most) }
{
    let mut value: u64 = 0;
    let mut len = 0;
    'digits: while len < text.len() && text[len].is_ascii_digit() {
        value = value * 10 + u64::from(text[len] - b'0');
        if value > u64::from(most) {
            return None;
        }
        len += 1;
    }
    if len == 0 {
        return None;
    }
    if len > 1 && text[0] == b'0' {
        return None;
    }
    let (_, behind) = text.split_at(len);
    Some((value as u32, behind))
}

// The digit at the front, as a number, and what is behind it.
fn cut_digit(text: &[u8]) -> Option<(u32, &[u8])>
    ensures read { IfSome result (λ cut. text.now ≡ (cut.0 + 48) ∷ cut.1.now) }
    ensures within { IfSome result (λ cut. cut.0 ≤ 9) }
{
    let (byte, rest) = text.split_first()?;
    if !byte.is_ascii_digit() {
        return None;
    }
    Some((u32::from(*byte - b'0'), rest))
}

// What is behind this byte at the front.
fn behind_mark(text: &[u8], mark: u8) -> Option<&[u8]>
    ensures { IfSome result (λ rest. text.now ≡ mark ∷ rest.now) }
{
    let (byte, rest) = text.split_first()?;
    if *byte != mark {
        return None;
    }
    Some(rest)
}

// The octet at the front, and what is behind the mark that follows it. It has three digits at most,
// which are told apart without a loop.
fn cut_octet(text: &[u8], mark: u8) -> Option<(u32, &[u8])>
    ensures read { IfSome result (λ cut. IsFrontNumber 255 text.now cut.0 (mark ∷ cut.1.now)) }
    ensures within { IfSome result (λ cut. cut.0 ≤ 255) }
{
    let (first, rest) = cut_digit(text)?;
    if let Some(behind) = behind_mark(rest, mark) {
        return Some((first, behind));
    }
    if first == 0 {
        return None;
    }
    let (second, rest) = cut_digit(rest)?;
    let two = first * 10 + second;
    if let Some(behind) = behind_mark(rest, mark) {
        return Some((two, behind));
    }
    let (third, rest) = cut_digit(rest)?;
    let octet = two * 10 + third;
    if octet > 255 {
        return None;
    }
    let behind = behind_mark(rest, mark)?;
    Some((octet, behind))
}

/// The length up to 32 at the front, and what is behind it.
#[inline(always)]
pub(crate) fn cut_len(text: &[u8]) -> Option<(u32, &[u8])>
    ensures read { IfSome result (λ cut. IsFrontNumber 32 text.now cut.0 cut.1.now) }
    ensures within { IfSome result (λ cut. cut.0 ≤ 32) }
{
    let (first, rest) = cut_digit(text)?;
    let Some((second, behind)) = cut_digit(rest) else {
        return Some((first, rest));
    };
    let len = first * 10 + second;
    if first == 0 || len > 32 {
        return None;
    }
    Some((len, behind))
}

/// The address at the front and the length up to 32 behind it, with a slash between them, and what
/// follows; `None` where there is none.
pub(crate) fn cut_prefix(text: &[u8]) -> Option<(Addr, u32, &[u8])>
    ensures read { IfSome result (λ cut. IsFrontPrefix text.now cut.0.0 cut.1 cut.2.now) }
    ensures within { IfSome result (λ cut. cut.1 ≤ 32) }
{
    let (first, rest) = cut_octet(text, b'.')?;
    let (second, rest) = cut_octet(rest, b'.')?;
    let (third, rest) = cut_octet(rest, b'.')?;
    let (fourth, rest) = cut_octet(rest, b'/')?;
    let (len, behind) = cut_len(rest)?;
    let address = Addr(((first * 256 + second) * 256 + third) * 256 + fourth);
    Some((address, len, behind))
}
