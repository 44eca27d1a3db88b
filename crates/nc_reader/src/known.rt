//! Statements that are told by their first bytes, before their words are cut.

ghost use Rattle.std.specs.Prelude.{◌≡◌, ◌++◌, ℕ, List, true, false, IfSome, codes};
ghost use Rattle.nc_lines.specs.Lines.{is_indented};
ghost use Rattle.nc_reader.specs.Readings.{role_of_header};
ghost use Rattle.nc_reader.specs.Steps.{Heads, kind_of};

use crate::header::{Header, behind_interface, prefix_list};
use crate::topic::Subject;
use nc_lines::cut::is_indented;

// What follows a known beginning; `None` where the line begins otherwise. Four bytes that the
// caller knows are compared as one number where it is inlined, so longer ones go piece by piece.
#[inline(always)]
fn behind<'a>(line: &'a [u8], head: &[u8]) -> Option<&'a [u8]>
    ensures { IfSome result (λ rest. line.now ≡ head.now ++ rest.now) }
{
    let rest = line.strip_prefix(head)?;
    Some(rest)
}

// What follows a known end of a word, with a gap between them.
#[inline(always)]
fn behind_word<'a>(line: &'a [u8], end: &[u8]) -> Option<&'a [u8]>
    ensures whole { IfSome result (λ rest. line.now ≡ end.now ++ rest.now) }
    ensures gap { IfSome result (λ rest. is_indented rest.now ≡ true) }
{
    let rest = behind(line, end)?;
    if is_indented(rest) { Some(rest) } else { None }
}

// What follows `ip prefix-list`.
#[inline(always)]
fn behind_list(line: &[u8]) -> Option<&[u8]>
    ensures whole { IfSome result (λ rest. line.now ≡ codes "ip prefix-list" ++ rest.now) }
    ensures gap { IfSome result (λ rest. is_indented rest.now ≡ true) }
{
    let first = behind(line, b"ip p")?;
    let second = behind(first, b"refi")?;
    let third = behind(second, b"x-li")?;
    behind_word(third, b"st")
}

// What follows `interface`.
#[inline(always)]
fn behind_header(line: &[u8]) -> Option<&[u8]>
    ensures whole { IfSome result (λ rest. line.now ≡ codes "interface" ++ rest.now) }
    ensures gap { IfSome result (λ rest. is_indented rest.now ≡ true) }
{
    let first = behind(line, b"inte")?;
    let second = behind(first, b"rfac")?;
    behind_word(second, b"e")
}

// What follows `ip route`.
#[inline(always)]
fn behind_route(line: &[u8]) -> Option<&[u8]>
    ensures whole { IfSome result (λ rest. line.now ≡ codes "ip route" ++ rest.now) }
    ensures gap { IfSome result (λ rest. is_indented rest.now ≡ true) }
{
    let first = behind(line, b"ip r")?;
    behind_word(first, b"oute")
}

/// What a line is that begins as the frequent statements do, with one blank between its words;
/// `None` says nothing.
pub(crate) fn known_header(line: &[u8]) -> Option<Header<'_>>
    ensures { IfSome result (λ header. (later : List (List ℕ))
        → kind_of false line.now later ≡ Heads (role_of_header header)) }
{
    if let Some(rest) = behind_list(line) {
        return Some(prefix_list(rest));
    }
    if let Some(rest) = behind_header(line) {
        return Some(behind_interface(rest));
    }
    if let Some(_rest) = behind_route(line) {
        return Some(Header::Speaks(Subject::Statics));
    }
    None
}
