//! The options of a static route.

ghost use Rattle.std.specs.Prelude.{◌≡◌, ◌≤◌, ◌∷◌, [], MatchOption};
ghost use Rattle.std.specs.List.{list_all};
ghost use Rattle.nc_lines.specs.Lines.{words_of};
ghost use Rattle.nc_lines.specs.Numbers.{is_digit, is_plain};
ghost use Rattle.nc_read_link.specs.Statics.{distance_of, takes_value, is_condition, is_conditional, is_name_option, is_tag_option, are_options};

use crate::DEFAULT_DISTANCE;
use nc_lines::cut::cut_word;
use nc_lines::numbers::read_number;
use nc_lines::statement::is_word;
use nc_types::UNUSED_DISTANCE;

/// The distance in front of the options, [`crate::DEFAULT_DISTANCE`] where none is written, and the options.
pub(crate) fn distance(text: &[u8]) -> (u8, &[u8])
    ensures { (result.0, words_of result.1.now) ≡ distance_of (words_of text.now) }
{
    let Some((word, rest)) = cut_word(text) else {
        return (DEFAULT_DISTANCE, text);
    };
    match read_number(word, u32::from(UNUSED_DISTANCE)) {
        None => (DEFAULT_DISTANCE, text),
        Some(distance) => {
            if distance == 0 {
                (DEFAULT_DISTANCE, text)
            } else {
                (distance as u8, rest)
            }
        }
    }
}

// The word `name` or `tag`.
fn takes_value(word: &[u8]) -> bool
    ensures { result ≡ takes_value word.now }
{
    is_word(word, "name") || is_word(word, "tag")
}

// The word `permanent` or `track`.
fn is_condition(word: &[u8]) -> bool
    ensures { result ≡ is_condition word.now }
{
    is_word(word, "permanent") || is_word(word, "track")
}

/// Whether such a word stands in the place of an option.
#[tactic(auto, unfolding(crate::specs::Statics::is_conditional))]
pub(crate) fn is_conditional(text: &[u8]) -> bool
    ensures { result ≡ is_conditional (words_of text.now) }
{
    let mut rest = text;
    'options: while let Some((word, behind)) = cut_word(rest) {
        if is_condition(word) {
            return true;
        }
        if !takes_value(word) {
            return false;
        }
        let Some((_, further)) = cut_word(behind) else {
            return false;
        };
        rest = further;
    }
    false
}

// Whether a byte is a decimal digit.
fn is_digit(byte: u8) -> bool
    ensures { result ≡ is_digit byte }
{
    byte.is_ascii_digit()
}

// Whether each byte is a decimal digit.
fn are_digits(word: &[u8]) -> bool
    ensures { result ≡ list_all is_digit word.now }
{
    word.iter().all(|b| is_digit(*b))
}

// Whether a word writes a number of any size.
fn is_number(word: &[u8]) -> bool
    ensures { result ≡ is_plain word.now }
{
    let Some((first, rest)) = word.split_first() else {
        return false;
    };
    if rest.is_empty() {
        return is_digit(*first);
    }
    b'0' < *first && are_digits(word)
}

// Whether an option is a name.
fn is_name_option(word: &[u8]) -> bool
    ensures { result ≡ is_name_option word.now }
{
    is_word(word, "name")
}

// Whether an option and its value are a tag.
fn is_tag_option(word: &[u8], value: &[u8]) -> bool
    ensures { result ≡ is_tag_option word.now value.now }
{
    is_word(word, "tag") && is_number(value)
}

/// Whether these are a name and a tag, each at most once.
pub(crate) fn are_options(text: &[u8]) -> bool
    ensures { result ≡ are_options (words_of text.now) }
{
    let Some((first, rest)) = cut_word(text) else {
        return true;
    };
    let Some((value, rest)) = cut_word(rest) else {
        return false;
    };
    let Some((second, rest)) = cut_word(rest) else {
        return is_name_option(first) || is_tag_option(first, value);
    };
    let Some((other, rest)) = cut_word(rest) else {
        return false;
    };
    if cut_word(rest).is_some() {
        return false;
    }
    (is_name_option(first) && is_tag_option(second, other))
        || (is_tag_option(first, value) && is_name_option(second))
}
