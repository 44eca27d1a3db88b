//! What the statements of a clause are given: numbers, and the numbers of autonomous systems.

ghost use Rattle.std.specs.Prelude.{◌≡◌, ◌<◌, ◌^◌, IfSome, IfOk};
ghost use Rattle.std.specs.List.{filter_map};
ghost use Rattle.nc_lines.specs.Lines.{words_of};
ghost use Rattle.nc_read_policy.specs.Clauses.{value_of, asn_of, are_asns};

use crate::PREPEND_LIMIT;
use nc_lines::cut::cut_word;
use nc_lines::numbers::read_number;
use std::alloc::{AllocError, Global};

/// The one number below 2^32 that is there.
pub(crate) fn value(text: &[u8]) -> Option<u32>
    ensures { result ≡ value_of (words_of text.now) }
{
    let (word, rest) = cut_word(text)?;
    if cut_word(rest).is_some() {
        return None;
    }
    read_number(word, u32::MAX)
}

// The number of an autonomous system, from 1.
fn asn(word: &[u8]) -> Option<u32>
    ensures { result ≡ asn_of word.now }
{
    let number = read_number(word, u32::MAX)?;
    if number == 0 { None } else { Some(number) }
}

/// Whether these are numbers of autonomous systems, at least one and at most
/// [`crate::PREPEND_LIMIT`].
pub(crate) fn are_asns(text: &[u8]) -> bool
    ensures { result ≡ are_asns (words_of text.now) }
{
    let mut rest = text;
    let mut count = 0u8;
    'numbers: while let Some((word, behind)) = cut_word(rest) {
        if count == PREPEND_LIMIT || asn(word).is_none() {
            return false;
        }
        count += 1;
        rest = behind;
    }
    count > 0
}

/// The numbers of autonomous systems among the words, in order.
///
/// # Errors
///
/// Memory that runs out.
pub(crate) fn asns(alloc: Global, text: &[u8]) -> Result<Vec<u32>, AllocError>
    ensures { IfOk result (λ numbers. numbers.items ≡ filter_map asn_of (words_of text.now)) }
{
    let mut numbers = Vec::new(alloc);
    let mut rest = text;
    'numbers: while let Some((word, behind)) = cut_word(rest) {
        if let Some(number) = asn(word) {
            numbers.push(number)?;
        }
        rest = behind;
    }
    Ok(numbers)
}
