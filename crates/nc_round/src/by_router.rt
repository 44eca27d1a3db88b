//! What changed, router by router.

ghost use Rattle.std.specs.Prelude.{◌≡◌, ◌<◌, ◌≤◌, ◌==◌, ℕ, [], All, List, length, map, IfOk, slice_index_or};
ghost use Rattle.std.specs.List.{take_while};
ghost use Rattle.nc_types.specs.Cidr.{Cidr};
ghost use Rattle.nc_tables.specs.LocRibs.{IsNumbered};
ghost use Rattle.nc_round.specs.Keys.{AreInOrder};
ghost use Rattle.nc_round.specs.Parts.{cut_at};
ghost use Rattle.nc_round.specs.Rows.{listed, prefixes_of, row_key, AreListed, AreRows};
ghost use Rattle.nc_round.specs.Waking.{changed_at};

use crate::changed::NumberedRow;
use nc_tables::Numbered;
use nc_types::RouterId;
use std::alloc::{AllocError, Global};
use std::marker::Model;

// Where the prefixes of a router stand among those of all.
#[derive(Clone, Copy)]
struct Part {
    from: usize,
    to: usize,
}

/// The prefixes of rows that changed, a list for each router. They stand in one vector, each
/// router's behind those of the one before it, so that no router takes memory of its own.
#[derive(Drop)]
pub(crate) struct ByRouter {
    all: Vec<Numbered>,
    parts: Vec<Part>,
}

impl Model for ByRouter {
    ghost use Rattle.std.specs.Prelude.{◌≤◌, All, List, length};
    ghost use Rattle.nc_tables.specs.declared.ribs.Numbered.{Numbered};
    ghost use Rattle.nc_round.specs.Parts.{cut_at};

    ghost Value = { List (List Numbered) };

    ghost view = { λ r. cut_at r.all.items r.parts.items };

    ghost invariant = { λ r. All (λ p. (p.from ≤ p.to) × (p.to ≤ length r.all.items)) r.parts.items };
}

// How many rows at the front are of a router.
fn count_of(rows: &[NumberedRow], router: usize) -> usize
    ensures { result ≡ length (take_while (λ r. r.router.0 == router) rows.now) }
{
    rows.iter()
        .take_while(|row| row.router.0 as usize == router)
        .count()
}

// Where the rows of each of so many routers stand among rows in order.
fn parts_of(alloc: Global, count: usize, rows: &[NumberedRow]) -> Result<Vec<Part>, AllocError>
    requires { AreInOrder (map row_key rows.now) }
    ensures count { IfOk result (λ parts. length parts.items ≡ count) }
    ensures within { IfOk result
        (λ parts. All (λ p. (p.from ≤ p.to) × (p.to ≤ length rows.now)) parts.items) }
    ensures each { IfOk result (λ parts. (r : ℕ) → r < count
        → slice_index_or (listed (cut_at (map (λ r. r.of) rows.now) parts.items)) r []
        ≡ changed_at (map row_key rows.now) r) }
{
    let mut parts = Vec::with_capacity(alloc, count)?;
    let mut from = 0;
    'routers: for router in 0..count {
        let to = from + count_of(&rows[from..], router);
        parts.push(Part { from, to })?;
        from = to;
    }
    Ok(parts)
}

// The prefixes of rows, under their numbers.
fn all_of(alloc: Global, rows: &[NumberedRow]) -> Result<Vec<Numbered>, AllocError>
    ensures { IfOk result (λ all. all.items ≡ map (λ r. r.of) rows.now) }
{
    let all = rows.iter().map(|row| row.of).collect(alloc)?;
    Ok(all)
}

/// The prefixes of the rows that changed, a list for each of so many routers.
pub(crate) fn by_router(
    alloc: Global,
    count: usize,
    changed: &[NumberedRow],
) -> Result<ByRouter, AllocError>
    requires { AreInOrder (map row_key changed.now) }
    ensures count { IfOk result (λ lists. length lists ≡ count) }
    ensures each { IfOk result (λ lists. (r : ℕ) → r < count
        → slice_index_or (listed lists) r [] ≡ changed_at (map row_key changed.now) r) }
    ensures numbers { IfOk result (λ lists. (prefixes : List Cidr) → AreRows prefixes changed.now
        → AreListed prefixes lists) }
{
    let parts = parts_of(alloc, count, changed)?;
    let all = all_of(alloc, changed)?;
    Ok(ByRouter { all, parts })
}

impl ByRouter {
    /// The prefixes of the rows that changed at a router; none where there is no such router.
    pub(crate) fn changed_at(&self, router: RouterId) -> &[Numbered]
        ensures prefixes { prefixes_of result.now ≡ slice_index_or (listed self.now) router.0 [] }
        ensures numbers { (prefixes : List Cidr) → AreListed prefixes self.now
            → All (IsNumbered prefixes) result.now }
    {
        match self.parts.get(router.0 as usize) {
            Some(part) => &self.all[part.from..part.to],
            None => &[],
        }
    }
}
