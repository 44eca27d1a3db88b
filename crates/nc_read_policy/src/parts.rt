//! The entries of a prefix list from its statements.

ghost use Rattle.std.specs.Prelude.{◌≡◌, ◌≢◌, ◌≤◌, ◌∷◌, [], List, Some, length, map, take, drop, All};
ghost use Rattle.std.specs.Prelude.{IfOk};
ghost use Rattle.std.specs.Ordering.{nat_cmp};
ghost use Rattle.std.specs.List.Sorted.{IsSortedByKey};
ghost use Rattle.nc_types.specs.declared.config.ListEntry.{ListEntry};
ghost use Rattle.nc_read_policy.specs.Lists.{part_of, parts_of};
ghost use Rattle.nc_read_policy.specs.Outcomes.{entry_part};

use nc_types::ListEntry;
use std::alloc::{AllocError, Global};

/// An entry of a prefix list with the lines of its statements: those before the one that holds, and
/// the entry's own. Mostly there is one statement, and the earlier lines take no memory.
#[derive(Drop)]
pub struct EntryLines {
    pub entry: ListEntry,
    /// The lines of the statements before, ascending, from 1.
    pub earlier: Vec<u32>,
}

// How many statements at the front have this number.
fn run_len(entries: &[ListEntry], seq: u32) -> usize
    ensures within { result ≤ length entries.now }
    ensures run { All (λ e. e.seq ≡ seq) (take result entries.now) }
    ensures behind { (e : ListEntry) (es : List ListEntry)
        → drop result entries.now ≡ e ∷ es → e.seq ≢ seq }
{
    for (count, entry) in entries.iter().enumerate() {
        if entry.seq != seq {
            return count;
        }
    }
    entries.len()
}

// The entry that the statements of one number make, of which there is a first one.
fn part(alloc: Global, first: ListEntry, run: &[ListEntry]) -> Result<EntryLines, AllocError>
    ensures { IfOk result (λ p. part_of (first ∷ run.now) ≡ Some (entry_part p)) }
{
    let mut entry = first;
    let mut earlier = Vec::new(alloc);
    for statement in run {
        earlier.push(entry.line)?;
        entry = *statement;
    }
    Ok(EntryLines { entry, earlier })
}

// The entry that the only statement of a number makes.
fn alone(alloc: Global, entry: ListEntry) -> EntryLines
    ensures { part_of (entry ∷ []) ≡ Some (entry_part result) }
{
    EntryLines {
        entry,
        earlier: Vec::new(alloc),
    }
}

// The entries that statements in order of their numbers make.
fn join_runs(alloc: Global, entries: &[ListEntry]) -> Result<Vec<EntryLines>, AllocError>
    requires { IsSortedByKey (λ e. e.seq) nat_cmp entries.now }
    ensures { IfOk result (λ parts. map entry_part parts.items ≡ parts_of entries.now) }
{
    let mut parts = Vec::with_capacity(alloc, entries.len())?;
    let mut rest = entries;
    'runs: while let Some((first, others)) = rest.split_first() {
        let count = run_len(others, first.seq);
        if count == 0 {
            parts.push(alone(alloc, *first))?;
            rest = others;
            continue;
        }
        let (run, behind) = others.split_at(count);
        parts.push(part(alloc, *first, run)?)?;
        rest = behind;
    }
    Ok(parts)
}

/// The entries that the statements of a list make: one for each number, in order, with the lines of
/// all its statements, of which the last holds.
///
/// # Errors
///
/// Memory that runs out.
pub(crate) fn gather_entries(
    alloc: Global,
    statements: &mut Vec<ListEntry>,
) -> Result<Vec<EntryLines>, AllocError>
    ensures { IfOk result (λ parts. map entry_part parts.items ≡ parts_of statements.old.items) }
{
    statements.sort_by_key(|entry| entry.seq)?;
    join_runs(alloc, statements)
}
