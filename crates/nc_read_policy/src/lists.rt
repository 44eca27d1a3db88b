//! The prefix list that its statements make.

ghost use Rattle.std.specs.Prelude.{◌≡◌, ◌<◌, ◌≤◌, All, length, IfSome, option_and_then};
ghost use Rattle.nc_lines.specs.Readings.{reading_of};
ghost use Rattle.nc_lines.specs.Lines.{words_of};
ghost use Rattle.nc_lines.specs.Parts.{numbered};
ghost use Rattle.nc_read_policy.specs.Entries.{any_entry};
ghost use Rattle.nc_read_policy.specs.Lists.{list_name_says, list_in, higher, behind_name};
ghost use Rattle.nc_read_policy.specs.Lists.{stated_from};
ghost use Rattle.nc_lines.specs.Statements.{said_as};
ghost use Rattle.nc_read_policy.specs.Heads.{IsHead};
ghost use Rattle.nc_read_policy.specs.Outcomes.{AreStatements, AreEntries};

use crate::entries::any_entry;
use crate::frequent::begins_entry;
use crate::heads::{cut_behind, read_head};
use crate::parts::{EntryLines, gather_entries};
use nc_lines::cut::cut_word;
use nc_lines::statement::{Reading, is_word};
use nc_lines::{Block, Lines};
use nc_types::{Cause, ConfigFault, ListEntry};
use std::alloc::Global;

/// The name of the list by what follows `ip prefix-list`, by which its lines are gathered; outside
/// where it writes no entry, as `W description ..` and `sequence-number` alone. What is behind the
/// name isn't looked at further.
pub fn read_list_name(rest: &[u8]) -> Reading<&[u8]>
    ensures { said_as (λ name. name.now) (reading_of result) ≡ list_name_says (words_of rest.now) }
{
    let Some((name, rest)) = cut_word(rest) else {
        return Reading::Faulty(Cause::Syntax);
    };
    if begins_entry(rest) {
        return Reading::Says(name);
    }
    let is_remark = match cut_word(rest) {
        None => is_word(name, "sequence-number"),
        Some((second, _)) => is_word(second, "description"),
    };
    if is_remark {
        Reading::Outside
    } else {
        Reading::Says(name)
    }
}

// The entry that a line writes, given how the first line of its list begins; `None` where it is
// faulty.
fn read_entry(line: u32, highest: u32, text: &[u8], head: Option<&[u8]>) -> Option<ListEntry>
    requires { IfSome head (λ head. IsHead head.now) }
    ensures { result
        ≡ option_and_then (any_entry line highest) (behind_name (words_of text.now)) }
{
    let rest = cut_behind(text, head)?;
    any_entry(line, highest, rest)
}

// How the first line of a list begins.
fn first_head<'a>(lines: &'a Lines, block: &Block) -> Option<&'a [u8]>
    requires { All (λ k. (0 < k) × (k ≤ length lines.now)) block.now.lines.items }
    ensures { IfSome result (λ head. IsHead head.now) }
{
    match block.lines.first() {
        None => None,
        Some(first) => read_head(lines.line(*first)),
    }
}

// The higher of two numbers.
fn higher(a: u32, b: u32) -> u32
    ensures { result ≡ higher a b }
{
    if a < b { b } else { a }
}

// The entries that the lines of one list write, in order.
fn read_entries(alloc: Global, lines: &Lines, block: &Block) -> Result<Vec<ListEntry>, ConfigFault>
    requires { All (λ k. (0 < k) × (k ≤ length lines.now)) block.now.lines.items }
    ensures { AreStatements result (stated_from 0 (numbered lines.now block.now.lines.items)) }
{
    let mut entries = Vec::with_capacity(alloc, block.lines.len())?;
    let mut highest = 0;
    let head = first_head(lines, block);
    for line in &block.lines {
        let Some(entry) = read_entry(*line, highest, lines.line(*line), head) else {
            return Err(ConfigFault::Bad {
                line: *line,
                cause: Cause::Syntax,
            });
        };
        highest = higher(highest, entry.seq);
        entries.push(entry)?;
    }
    Ok(entries)
}

/// The entries of one prefix list, each with the lines of its statements, from the lines of the
/// list in order: they ascend in their numbers, of several statements with one number the last
/// holds, and a statement without a number counts on from the highest before it. Their elements are
/// 0, which the reader of the whole file fills in. The lines exist.
///
/// # Errors
///
/// The first faulty line, with its cause; memory that runs out.
#[tactic(auto, unfolding(crate::specs::Lists::list_in))]
pub fn read_list(
    alloc: Global,
    lines: &Lines,
    block: &Block,
) -> Result<Vec<EntryLines>, ConfigFault>
    requires { All (λ k. (0 < k) × (k ≤ length lines.now)) block.now.lines.items }
    ensures { AreEntries result (list_in (numbered lines.now block.now.lines.items)) }
{
    let mut entries = read_entries(alloc, lines, block)?;
    Ok(gather_entries(alloc, &mut entries)?)
}
