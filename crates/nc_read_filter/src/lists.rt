//! The headers of access lists, and the statements that name their list by a number.

ghost use Rattle.std.specs.Prelude.{◌≡◌};
ghost use Rattle.std.specs.Option.{option_map};
ghost use Rattle.nc_lines.specs.Lines.{words_of};
ghost use Rattle.nc_read_filter.specs.Lists.{is_standard, is_between, is_standard_number, list_of};
ghost use Rattle.nc_read_filter.specs.Lists.{numbered_list, opens_list, begins_entry, opened_by};
ghost use Rattle.nc_read_filter.specs.Lists.{numbered_by};
ghost use Rattle.nc_read_filter.specs.Readings.{head_view};

use crate::action::begins_action;
use nc_lines::cut::cut_word;
use nc_lines::numbers::read_number;
use nc_lines::statement::{after_one, after_two, is_word};

// The greatest number of a list.
const GREATEST_NUMBER: u32 = 2699;

/// A list as a statement names it.
#[derive(Clone, Copy)]
pub(crate) struct ListHead<'a> {
    pub(crate) name: &'a [u8],
    /// Whether its entries are of where packets come from alone.
    pub(crate) standard: bool,
}

// Whether the word is `standard`, or else `extended`; `None` where it is neither.
fn is_standard(word: &[u8]) -> Option<bool>
    ensures { result ≡ is_standard word.now }
{
    if is_word(word, "standard") {
        return Some(true);
    }
    if is_word(word, "extended") {
        return Some(false);
    }
    None
}

// Whether a number is in a range.
fn is_between(low: u32, high: u32, number: u32) -> bool
    ensures { result ≡ is_between low high number }
{
    low <= number && number <= high
}

// Whether a number is that of a standard list, or else of an extended one; `None` where it is of
// neither.
fn is_standard_number(number: u32) -> Option<bool>
    ensures { result ≡ is_standard_number number }
{
    if is_between(1, 99, number) || is_between(1300, 1999, number) {
        return Some(true);
    }
    if is_between(100, 199, number) || is_between(2000, 2699, number) {
        return Some(false);
    }
    None
}

// The list by what is behind `ip access-list`: its kind and its name.
fn list(rest: &[u8]) -> Option<ListHead<'_>>
    ensures { option_map head_view result ≡ list_of (words_of rest.now) }
{
    let (kind, rest) = cut_word(rest)?;
    let (name, rest) = cut_word(rest)?;
    if cut_word(rest).is_some() {
        return None;
    }
    let standard = is_standard(kind)?;
    Some(ListHead { name, standard })
}

/// Whether what is behind `ip access-list` opens a list: `standard W` or `extended W`, with nothing
/// behind it.
#[tactic(auto, unfolding(crate::specs::Lists::opens_list))]
pub fn opens_list(rest: &[u8]) -> bool
    ensures { result ≡ opens_list (words_of rest.now) }
{
    list(rest).is_some()
}

// The list of a number.
fn numbered_list(word: &[u8]) -> Option<ListHead<'_>>
    ensures { option_map head_view result ≡ numbered_list word.now }
{
    let number = read_number(word, GREATEST_NUMBER)?;
    let standard = is_standard_number(number)?;
    Some(ListHead {
        name: word,
        standard,
    })
}

/// Whether what is behind `access-list` begins as an entry: the number of a list, 1 to 199 or 1,300
/// to 2,699, and `permit` or `deny`.
#[tactic(auto, unfolding(crate::specs::Lists::begins_entry))]
pub fn begins_entry(rest: &[u8]) -> bool
    ensures { result ≡ begins_entry (words_of rest.now) }
{
    let Some((word, rest)) = cut_word(rest) else {
        return false;
    };
    if numbered_list(word).is_none() {
        return false;
    }
    begins_action(rest)
}

/// The list that an unindented line opens.
pub(crate) fn read_opening(text: &[u8]) -> Option<ListHead<'_>>
    ensures { option_map head_view result ≡ opened_by (words_of text.now) }
{
    let rest = after_two(text, "ip", "access-list")?;
    list(rest)
}

/// The list of an unindented line that names it by its number, and what is behind the number.
pub(crate) fn read_numbered(text: &[u8]) -> Option<(ListHead<'_>, &[u8])>
    ensures { option_map (λ p. (head_view p.0, words_of p.1.now)) result
        ≡ numbered_by (words_of text.now) }
{
    let rest = after_one(text, "access-list")?;
    let (word, rest) = cut_word(rest)?;
    let list = numbered_list(word)?;
    Some((list, rest))
}
