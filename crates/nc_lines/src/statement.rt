//! Statements, read by the words that they begin with.

ghost use Rattle.std.specs.Prelude.{◌≡◌, ◌∷◌, [], MatchOption, None, Some};
ghost use Rattle.std.specs.Str.{bytes_eq};
ghost use Rattle.nc_lines.specs.Lines.{words_of};
ghost use Rattle.nc_lines.specs.Statements.{after, begins, alone_says};
ghost use Rattle.nc_lines.specs.Readings.{reading_of};

use crate::cut::cut_word;
use nc_types::Cause;

/// What a statement says.
#[derive(Clone, Copy, PartialEq, Eq)]
pub enum Reading<S> {
    /// Nothing that is read.
    Outside,
    /// What is wrong with it.
    Faulty(Cause),
    /// Something of its own kind.
    Says(S),
}

/// What follows one word at the beginning of a line; `None` where the line begins otherwise.
pub fn after_one<'a>(line: &'a [u8], first: &str) -> Option<&'a [u8]>
    ensures { MatchOption result (after (first.now ∷ []) (words_of line.now) ≡ None)
        (λ rest. after (first.now ∷ []) (words_of line.now) ≡ Some (words_of rest.now)) }
{
    let (word, rest) = cut_word(line)?;
    if word == first.as_bytes() {
        Some(rest)
    } else {
        None
    }
}

/// What follows two words at the beginning of a line; `None` where the line begins otherwise.
pub fn after_two<'a>(line: &'a [u8], first: &str, second: &str) -> Option<&'a [u8]>
    ensures { MatchOption result (after (first.now ∷ second.now ∷ []) (words_of line.now) ≡ None)
        (λ rest. after (first.now ∷ second.now ∷ []) (words_of line.now) ≡ Some (words_of rest.now)) }
{
    after_one(after_one(line, first)?, second)
}

/// What follows three words at the beginning of a line; `None` where the line begins otherwise.
pub fn after_three<'a>(line: &'a [u8], first: &str, second: &str, third: &str) -> Option<&'a [u8]>
    ensures { MatchOption result (after (first.now ∷ second.now ∷ third.now ∷ []) (words_of line.now) ≡ None)
        (λ rest. after (first.now ∷ second.now ∷ third.now ∷ []) (words_of line.now) ≡ Some (words_of rest.now)) }
{
    after_one(after_two(line, first, second)?, third)
}

/// Whether a word is this text.
pub fn is_word(word: &[u8], text: &str) -> bool
    ensures { result ≡ bytes_eq word.now text.now }
{
    word == text.as_bytes()
}

/// Whether a line begins with this word.
pub fn begins_one(line: &[u8], first: &str) -> bool
    ensures { result ≡ begins (first.now ∷ []) (words_of line.now) }
{
    after_one(line, first).is_some()
}

/// Whether a line begins with these two words.
pub fn begins_two(line: &[u8], first: &str, second: &str) -> bool
    ensures { result ≡ begins (first.now ∷ second.now ∷ []) (words_of line.now) }
{
    after_two(line, first, second).is_some()
}

/// Whether a line begins with these three words.
pub fn begins_three(line: &[u8], first: &str, second: &str, third: &str) -> bool
    ensures { result ≡ begins (first.now ∷ second.now ∷ third.now ∷ []) (words_of line.now) }
{
    after_three(line, first, second, third).is_some()
}

/// What a statement says that takes no further words, by what follows it: a further word is an error of syntax.
pub fn alone<S: Copy>(setting: S, rest: &[u8]) -> Reading<S>
    ensures { reading_of result ≡ alone_says setting (words_of rest.now) }
{
    match cut_word(rest) {
        None => Reading::Says(setting),
        Some(_) => Reading::Faulty(Cause::Syntax),
    }
}
