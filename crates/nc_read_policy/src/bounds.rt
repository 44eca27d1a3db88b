//! The lengths that an entry of a prefix list is of.

ghost use Rattle.std.specs.Prelude.{◌≡◌, ◌≤◌, IfSome};
ghost use Rattle.nc_lines.specs.Lines.{words_of};
ghost use Rattle.nc_read_policy.specs.Entries.{length_of, one_bound, two_bounds, written_bounds};
ghost use Rattle.nc_read_policy.specs.Entries.{bounds_of};

use crate::frequent::frequent_bounds;
use nc_lines::cut::cut_word;
use nc_lines::numbers::read_number;
use nc_lines::statement::is_word;

// The length of a prefix, up to 32.
fn length(word: &[u8]) -> Option<u8>
    ensures { result ≡ length_of word.now }
{
    let length = read_number(word, 32)?;
    Some(length as u8)
}

// `ge G`, or `le E`, behind a prefix of this length.
fn one_bound(len: u8, word: &[u8], value: &[u8]) -> Option<(u8, u8)>
    ensures { result ≡ one_bound len word.now value.now }
{
    if is_word(word, "ge") {
        let low = length(value)?;
        return Some((low, 32));
    }
    if is_word(word, "le") {
        let high = length(value)?;
        return Some((len, high));
    }
    None
}

// `ge G le E`
fn two_bounds(first: &[u8], low: &[u8], second: &[u8], high: &[u8]) -> Option<(u8, u8)>
    ensures { result ≡ two_bounds first.now low.now second.now high.now }
{
    if !is_word(first, "ge") || !is_word(second, "le") {
        return None;
    }
    let low = length(low)?;
    let high = length(high)?;
    Some((low, high))
}

// The least and the greatest length, as words behind a prefix of this length write them.
fn written_bounds(len: u8, text: &[u8]) -> Option<(u8, u8)>
    ensures { result ≡ written_bounds len (words_of text.now) }
{
    if text.is_empty() {
        return Some((len, len));
    }
    if let Some(frequent) = frequent_bounds(len, text) {
        return Some(frequent);
    }
    let Some((first, rest)) = cut_word(text) else {
        return Some((len, len));
    };
    let (low, rest) = cut_word(rest)?;
    let Some((second, rest)) = cut_word(rest) else {
        return one_bound(len, first, low);
    };
    let (high, rest) = cut_word(rest)?;
    if cut_word(rest).is_some() {
        return None;
    }
    two_bounds(first, low, second, high)
}

/// The least and the greatest length that words behind a prefix of this length write; `None` where
/// a length is less than the prefix's own, or the least is above the greatest.
pub(crate) fn bounds(len: u8, text: &[u8]) -> Option<(u8, u8)>
    ensures { result ≡ bounds_of len (words_of text.now) }
{
    let (low, high) = written_bounds(len, text)?;
    if len <= low && low <= high {
        Some((low, high))
    } else {
        None
    }
}
