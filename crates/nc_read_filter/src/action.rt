//! What an entry does with the packets on which it decides.

ghost use Rattle.std.specs.Prelude.{◌≡◌};
ghost use Rattle.std.specs.List.{list_all};
ghost use Rattle.nc_lines.specs.Numbers.{is_digit, is_plain};
ghost use Rattle.nc_lines.specs.Lines.{words_of};
ghost use Rattle.nc_read_filter.specs.Entries.{action_of, behind_number, begins_action};

use nc_lines::cut::cut_word;
use nc_lines::statement::is_word;

/// Whether the word is `permit`, or else `deny`; `None` where it is neither.
pub(crate) fn action(word: &[u8]) -> Option<bool>
    ensures { result ≡ action_of word.now }
{
    if is_word(word, "permit") {
        return Some(true);
    }
    if is_word(word, "deny") {
        return Some(false);
    }
    None
}

/// Whether words begin with an action.
pub(crate) fn begins_action(text: &[u8]) -> bool
    ensures { result ≡ begins_action (words_of text.now) }
{
    match cut_word(text) {
        None => false,
        Some((word, _)) => action(word).is_some(),
    }
}

// Whether each byte is a decimal digit.
fn are_digits(word: &[u8]) -> bool
    ensures { result ≡ list_all is_digit word.now }
{
    word.iter().all(|b| b.is_ascii_digit())
}

// Whether a word writes a number of any size.
fn is_number(word: &[u8]) -> bool
    ensures { result ≡ is_plain word.now }
{
    let Some((first, rest)) = word.split_first() else {
        return false;
    };
    if rest.is_empty() {
        return first.is_ascii_digit();
    }
    b'0' < *first && are_digits(word)
}

/// What is behind the number of an entry, which may be missing.
pub(crate) fn behind_number(text: &[u8]) -> &[u8]
    ensures { words_of result.now ≡ behind_number (words_of text.now) }
{
    let Some((word, rest)) = cut_word(text) else {
        return text;
    };
    if is_number(word) { rest } else { text }
}
