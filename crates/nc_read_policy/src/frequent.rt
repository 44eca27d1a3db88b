//! Entries in their frequent form, which is read without cutting it into words: a word that is known
//! with a blank before it, and numbers of digits alone. Where it is another one, `None` says nothing.

ghost use Rattle.std.specs.Prelude.{◌≡◌, ◌≤◌, ◌∷◌, [], ℕ, List, true, IfSome, MatchOption, None, Some, codes};
ghost use Rattle.nc_lines.specs.Lines.{words_of};
ghost use Rattle.nc_lines.specs.Statements.{after, Says};
ghost use Rattle.nc_read_policy.specs.Entries.{entry_of, numbered_entry, written_bounds};
ghost use Rattle.nc_read_policy.specs.Fronts.{IsFrontBound, action_word, entry_behind};
ghost use Rattle.nc_read_policy.specs.Lists.{list_name_says};

use crate::entries::GREATEST_SEQ;
use crate::fronts::{behind_gap, cut_len, cut_number, cut_prefix, ends_word};
use crate::heads::{behind, behind_known};
use nc_lines::statement::after_one;
use nc_types::Prefix;

/// What follows `seq`; `None` where the text begins otherwise.
pub(crate) fn behind_seq(text: &[u8]) -> Option<&[u8]>
    ensures { MatchOption result (after (codes "seq" ∷ []) (words_of text.now) ≡ None)
        (λ rest. after (codes "seq" ∷ []) (words_of text.now) ≡ Some (words_of rest.now)) }
{
    if let Some(rest) = behind_known(text, b" seq") {
        return Some(rest);
    }
    if cut_action(text).is_some() {
        return None;
    }
    after_one(text, "seq")
}

/// Whether what follows the name of a list is the number or the action of an entry.
pub(crate) fn begins_entry(text: &[u8]) -> bool
    ensures { result ≡ true → (name : List ℕ)
        → list_name_says (name ∷ words_of text.now) ≡ Says name }
{
    match behind_known(text, b" seq") {
        Some(_) => true,
        None => cut_action(text).is_some(),
    }
}

/// The number of an entry, from 1, and what follows.
pub(crate) fn cut_seq(text: &[u8]) -> Option<(u32, &[u8])>
    ensures { IfSome result (λ cut. (line : ℕ) → numbered_entry line (words_of text.now)
        ≡ entry_of line cut.0 (words_of cut.1.now)) }
{
    let digits = behind_gap(text)?;
    let (number, rest) = cut_number(digits, GREATEST_SEQ)?;
    if number == 0 || !ends_word(rest) {
        return None;
    }
    Some((number, rest))
}

// Whether the action is `permit`, and what follows it and a blank.
#[inline(always)]
fn cut_action(text: &[u8]) -> Option<(bool, &[u8])>
    ensures { IfSome result (λ cut. words_of text.now ≡ action_word cut.0 ∷ words_of cut.1.now) }
{
    if let Some(rest) = behind(text, b" per") {
        let rest = behind(rest, b"mit ")?;
        return Some((true, rest));
    }
    let rest = behind(text, b" den")?;
    let rest = behind(rest, b"y ")?;
    Some((false, rest))
}

/// The action and the prefix of an entry, and what follows.
pub(crate) fn cut_target(text: &[u8]) -> Option<(bool, Prefix, &[u8])>
    ensures { IfSome result (λ cut. (line seq : ℕ) → entry_of line seq (words_of text.now)
        ≡ entry_behind line seq cut.0 cut.1 (words_of cut.2.now)) }
{
    let (permit, rest) = cut_action(text)?;
    let (address, len, rest) = cut_prefix(rest)?;
    if !ends_word(rest) {
        return None;
    }
    Some((permit, Prefix::around(address, len as u8), rest))
}

// The length behind a word that is known, and what follows.
fn cut_bound<'a>(text: &'a [u8], word: &[u8]) -> Option<(u32, &'a [u8])>
    ensures read { IfSome result (λ cut. IsFrontBound text.now word.now cut.0 cut.1.now) }
    ensures within { IfSome result (λ cut. cut.0 ≤ 32) }
{
    let rest = behind_known(text, word)?;
    let (bound, behind) = cut_len(behind_gap(rest)?)?;
    if !ends_word(behind) {
        return None;
    }
    Some((bound, behind))
}

/// The least and the greatest length behind a prefix of this length: `le E`, `ge G` or both.
pub(crate) fn frequent_bounds(len: u8, text: &[u8]) -> Option<(u8, u8)>
    ensures { IfSome result (λ b. written_bounds len (words_of text.now) ≡ Some b) }
{
    if let Some((high, rest)) = cut_bound(text, b" le") {
        if !rest.is_empty() {
            return None;
        }
        return Some((len, high as u8));
    }
    let (low, rest) = cut_bound(text, b" ge")?;
    if rest.is_empty() {
        return Some((low as u8, 32));
    }
    let (high, behind) = cut_bound(rest, b" le")?;
    if !behind.is_empty() {
        return None;
    }
    Some((low as u8, high as u8))
}
