//! The words in front of an entry, `ip prefix-list W`: the lines of a list mostly have them alike.

ghost use Rattle.std.specs.Prelude.{◌≡◌, ◌++◌, true, Some, None, IfSome, MatchOption};
ghost use Rattle.nc_lines.specs.Lines.{words_of, is_indented};
ghost use Rattle.nc_read_policy.specs.Lists.{behind_name};
ghost use Rattle.nc_read_policy.specs.Heads.{IsHead};

use nc_lines::cut::{cut_word, is_indented};
use nc_lines::statement::after_two;

/// What follows a known beginning; `None` where the text begins otherwise. Two or four bytes that
/// the caller knows are compared as one number where it is inlined, so longer ones go piece by
/// piece.
#[inline(always)]
pub(crate) fn behind<'a>(text: &'a [u8], head: &[u8]) -> Option<&'a [u8]>
    ensures { IfSome result (λ rest. text.now ≡ head.now ++ rest.now) }
{
    let rest = text.strip_prefix(head)?;
    Some(rest)
}

/// What follows a known beginning, with a gap between them; `None` where the line begins otherwise.
#[inline(always)]
pub(crate) fn behind_known<'a>(text: &'a [u8], head: &[u8]) -> Option<&'a [u8]>
    ensures whole { IfSome result (λ rest. text.now ≡ head.now ++ rest.now) }
    ensures gap { IfSome result (λ rest. is_indented rest.now ≡ true) }
{
    let rest = text.strip_prefix(head)?;
    if is_indented(rest) { Some(rest) } else { None }
}

// What follows `ip prefix-list W`; `None` where a line begins otherwise.
fn cut_name(text: &[u8]) -> Option<&[u8]>
    ensures { MatchOption result (behind_name (words_of text.now) ≡ None)
        (λ rest. behind_name (words_of text.now) ≡ Some (words_of rest.now)) }
{
    let rest = after_two(text, "ip", "prefix-list")?;
    let (_, behind) = cut_word(rest)?;
    Some(behind)
}

// The beginning of a line in front of what is behind the name.
fn head_of<'a>(text: &'a [u8], rest: &[u8]) -> Option<&'a [u8]>
    ensures { IfSome result (λ head. IsHead head.now) }
{
    if text.len() < rest.len() {
        return None;
    }
    let (head, _) = text.split_at(text.len() - rest.len());
    let behind = cut_name(head)?;
    match cut_word(behind) {
        Some(_) => None,
        None => Some(head),
    }
}

/// The words `ip prefix-list W` at the beginning of a line; `None` where it begins otherwise.
pub(crate) fn read_head(text: &[u8]) -> Option<&[u8]>
    ensures { IfSome result (λ head. IsHead head.now) }
{
    let rest = cut_name(text)?;
    head_of(text, rest)
}

/// What is behind the name of a list in a line, which is not cut again where it begins as another
/// one does; `None` where it doesn't begin with `ip prefix-list W`.
pub(crate) fn cut_behind<'a>(text: &'a [u8], head: Option<&[u8]>) -> Option<&'a [u8]>
    requires { IfSome head (λ head. IsHead head.now) }
    ensures { MatchOption result (behind_name (words_of text.now) ≡ None)
        (λ rest. behind_name (words_of text.now) ≡ Some (words_of rest.now)) }
{
    if let Some(known) = head {
        if let Some(rest) = behind_known(text, known) {
            return Some(rest);
        }
    }
    cut_name(text)
}
