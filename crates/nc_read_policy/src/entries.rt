//! The `ip prefix-list` statement.

ghost use Rattle.std.specs.Prelude.{◌≡◌, ◌<◌, ◌≤◌, ◌∷◌, [], ℕ, None, MatchOption, length};
ghost use Rattle.std.specs.Prelude.{option_and_then, codes};
ghost use Rattle.std.specs.Option.{option_map};
ghost use Rattle.nc_lines.specs.Lines.{words_of, line_at};
ghost use Rattle.nc_lines.specs.Statements.{after};
ghost use Rattle.nc_read_policy.specs.Entries.{seq_of, counted_seq, entry_of, numbered_entry};
ghost use Rattle.nc_read_policy.specs.Entries.{any_entry, named_entry, entry_at};
ghost use Rattle.nc_read_policy.specs.Fronts.{entry_behind};
ghost use Rattle.nc_read_policy.specs.Outcomes.{IsEntry};

use crate::action::action;
use crate::bounds::bounds;
use crate::frequent::{behind_seq, cut_seq, cut_target};
use nc_lines::Lines;
use nc_lines::cut::cut_word;
use nc_lines::numbers::{read_around, read_number};
use nc_lines::statement::after_two;
use nc_types::{Cause, ConfigFault, ListEntry, Prefix, Text};
use std::alloc::Global;

/// The greatest number of an entry.
pub(crate) const GREATEST_SEQ: u32 = u32::MAX - 1;

// The number of an entry, from 1.
fn seq(word: &[u8]) -> Option<u32>
    ensures { result ≡ seq_of word.now }
{
    let number = read_number(word, GREATEST_SEQ)?;
    if number == 0 { None } else { Some(number) }
}

// The number of an entry that writes none: five more than the highest.
fn counted_seq(highest: u32) -> Option<u32>
    ensures { result ≡ counted_seq highest }
{
    if highest <= GREATEST_SEQ - 5 {
        Some(highest + 5)
    } else {
        None
    }
}

// The action and the prefix of an entry, and what follows.
fn target(text: &[u8]) -> Option<(bool, Prefix, &[u8])>
    ensures { MatchOption result ((line seq : ℕ) → entry_of line seq (words_of text.now) ≡ None)
        (λ cut. (line seq : ℕ) → entry_of line seq (words_of text.now)
        ≡ entry_behind line seq cut.0 cut.1 (words_of cut.2.now)) }
{
    if let Some(frequent) = cut_target(text) {
        return Some(frequent);
    }
    let (word, rest) = cut_word(text)?;
    let (prefix, rest) = cut_word(rest)?;
    let permit = action(word)?;
    let prefix = read_around(prefix)?;
    Some((permit, prefix, rest))
}

// What follows the number of an entry: an action, a prefix and bounds.
fn entry(line: u32, seq: u32, text: &[u8]) -> Option<ListEntry>
    ensures { result ≡ entry_of line seq (words_of text.now) }
{
    let Some((permit, prefix, rest)) = target(text) else {
        return None;
    };
    let (low, high) = bounds(prefix.len(), rest)?;
    Some(ListEntry {
        seq,
        permit,
        prefix,
        low,
        high,
        line,
        element: 0,
    })
}

// What follows `seq`.
fn numbered_entry(line: u32, text: &[u8]) -> Option<ListEntry>
    ensures { result ≡ numbered_entry line (words_of text.now) }
{
    if let Some((number, rest)) = cut_seq(text) {
        return entry(line, number, rest);
    }
    let (word, rest) = cut_word(text)?;
    let number = seq(word)?;
    entry(line, number, rest)
}

/// What follows the name of a list.
pub(crate) fn any_entry(line: u32, highest: u32, text: &[u8]) -> Option<ListEntry>
    ensures { result ≡ any_entry line highest (words_of text.now) }
{
    if let Some(rest) = behind_seq(text) {
        return numbered_entry(line, rest);
    }
    let number = counted_seq(highest)?;
    entry(line, number, text)
}

// What follows `ip prefix-list`: the name of a list, and the entry.
fn named_entry(line: u32, highest: u32, text: &[u8]) -> Option<(&[u8], ListEntry)>
    ensures { option_map (λ named. (named.0.now, named.1)) result
        ≡ named_entry line highest (words_of text.now) }
{
    let (name, rest) = cut_word(text)?;
    let entry = any_entry(line, highest, rest)?;
    Some((name, entry))
}

// The name of a list and the entry of a line; `None` where it is in another form.
fn line_entry(line: u32, highest: u32, text: &[u8]) -> Option<(&[u8], ListEntry)>
    ensures { option_map (λ named. (named.0.now, named.1)) result
        ≡ option_and_then (named_entry line highest)
        (after (codes "ip" ∷ codes "prefix-list" ∷ []) (words_of text.now)) }
{
    let rest = after_two(text, "ip", "prefix-list")?;
    named_entry(line, highest, rest)
}

/// The entry of a line, which begins with `ip prefix-list`, and the name of its list. An entry that
/// writes no number has the highest number of its list so far, 0 where there is none, and 5. Lines
/// count from 1. Its element is 0, which the reader of the whole file fills in.
///
/// # Errors
///
/// The line, where it is faulty or its number would be above 4,294,967,294; memory that runs out.
#[tactic(auto, unfolding(crate::specs::Entries::entry_at))]
pub fn read_list_entry(
    alloc: Global,
    lines: &Lines,
    line: u32,
    highest: u32,
) -> Result<(Text, ListEntry), ConfigFault>
    requires first { 0 < line }
    requires last { line ≤ length lines.now }
    ensures { IsEntry result (entry_at line highest (line_at line lines.now)) }
{
    let Some((name, entry)) = line_entry(line, highest, lines.line(line)) else {
        return Err(ConfigFault::Bad {
            line,
            cause: Cause::Syntax,
        });
    };
    Ok((Text::new(alloc, name)?, entry))
}
