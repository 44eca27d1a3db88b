//! Rows made anew, of which those that differ are put into the table.

ghost use Rattle.std.specs.Prelude.{◌≡◌, ◌↔◌, ◌+◌, ◌<◌, ◌++◌, ℕ, [], All, Contains, List, length, map, IfOk, IsTrue, OnOk};
ghost use Rattle.std.specs.List.{cons_option, filter_map};
ghost use Rattle.nc_types.specs.Cidr.{Cidr};
ghost use Rattle.nc_tables.specs.declared.bgp.Chosen.{Chosen};
ghost use Rattle.nc_tables.specs.LocRibs.{Ascend, IsNumbered};
ghost use Rattle.nc_tables.specs.Rounds.{chosen_at};
ghost use Rattle.nc_message.specs.Inputs.{AreRoutingInputs};
ghost use Rattle.nc_decision.specs.Peerings.{AreNetworkPeerings, ArePeerings};
ghost use Rattle.nc_round.specs.Next.{next_of};
ghost use Rattle.nc_round.specs.Changes.{IsDifference};
ghost use Rattle.nc_round.specs.Keys.{Key, key, AreInOrder};
ghost use Rattle.nc_round.specs.Rows.{listed, numbered_row, row_key, AreListed, AreRows};
ghost use Rattle.nc_round.specs.Waking.{woken_at, AreWoken, HaveAggregates, IsWoken};
ghost use Rattle.nc_round.specs.Renewing.{row_change, change_at, AreChangesOf, AreEnough, IsLocRibChange, IsCompletedBy, MakeNext};

use crate::by_router::{ByRouter, by_router};
use crate::changed::{Changed, NumberedRow};
use crate::loc_rib_change::LocRibChange;
use crate::waking::wake;
use nc_decision::{NetworkPeerings, Peerings, chosen_anew};
use nc_message::RoutingInputs;
use nc_tables::{LocRibs, Numbered, RecentAttributes, RibEntry};
use nc_types::RouterId;
use std::alloc::{AllocError, Global};

/// Rows that are woken, and what is chosen anew of each of them that differs.
#[derive(Drop)]
pub(crate) struct Renewed {
    pub(crate) rows: Vec<NumberedRow>,
    pub(crate) changes: Vec<LocRibChange>,
}

// Whether the same is chosen, candidate by candidate.
fn same_chosen(a: &[RibEntry], b: &[RibEntry]) -> bool
    ensures { IsTrue result ↔ (a.now ≡ b.now) }
{
    if a.len() != b.len() {
        return false;
    }
    'candidates: for place in 0..a.len() {
        if !a[place].is_same(&b[place]) {
            return false;
        }
    }
    true
}

// Adds what is chosen anew of a prefix at a router, if it differs.
fn add_of(
    alloc: Global,
    changes: &mut Vec<LocRibChange>,
    recent: &mut RecentAttributes,
    inputs: RoutingInputs<'_>,
    peerings: &Peerings<'_>,
    ribs: &LocRibs,
    router: RouterId,
    of: &Numbered,
) -> Result<(), AllocError>
    requires inputs { AreRoutingInputs inputs }
    requires peerings { ArePeerings inputs.network.now inputs.base.now inputs.sessions.now
        router.0 peerings.now }
    requires ribs { length ribs.now.rows ≡ length inputs.network.now }
    requires number { IsNumbered ribs.now.prefixes of.now }
    requires router { router.0 < length inputs.network.now }
    requires changes { All (IsLocRibChange (length inputs.network.now) ribs.now.prefixes) changes.old.items }
    ensures rows { OnOk result (map row_change changes.new.items ≡ map row_change changes.old.items
        ++ cons_option (change_at inputs.entry ribs.now.rows (router, of.now.prefix)) []) }
    ensures changes { All (IsLocRibChange (length inputs.entry.network.now) ribs.now.prefixes) changes.new.items }
{
    let chosen = chosen_anew(alloc, &inputs, peerings, ribs, router, of, recent)?;
    if same_chosen(chosen.as_slice(), ribs.chosen(router, *of)) {
        return Ok(());
    }
    changes.push(LocRibChange {
        router,
        of: *of,
        chosen,
    })?;
    Ok(())
}

// What is chosen anew of rows, of each that differs.
fn changes_of(
    alloc: Global,
    recent: &mut RecentAttributes,
    inputs: RoutingInputs<'_>,
    all: &NetworkPeerings<'_>,
    ribs: &LocRibs,
    rows: &[NumberedRow],
) -> Result<Vec<LocRibChange>, AllocError>
    requires inputs { AreRoutingInputs inputs }
    requires all { AreNetworkPeerings inputs.network.now inputs.base.now inputs.sessions.now all.now }
    requires ribs { length ribs.now.rows ≡ length inputs.network.now }
    requires numbers { AreRows ribs.now.prefixes rows.now }
    requires within { All (λ k. k.0.0 < length inputs.network.now) (map row_key rows.now) }
    ensures rows { IfOk result (λ changes. map row_change changes.items
        ≡ filter_map (change_at inputs.entry ribs.now.rows) (map row_key rows.now)) }
    ensures changes { IfOk result
        (λ changes. All (IsLocRibChange (length inputs.entry.network.now) ribs.now.prefixes) changes.items) }
{
    let mut changes = Vec::with_capacity(alloc, rows.len())?;
    'rows: for row in rows {
        let peerings = all.get(row.router);
        add_of(
            alloc,
            &mut changes,
            recent,
            inputs,
            peerings,
            ribs,
            row.router,
            &row.of,
        )?;
    }
    Ok(changes)
}

// Adds what is chosen anew of prefixes at a router, of each that differs.
fn add_each(
    alloc: Global,
    changes: &mut Vec<LocRibChange>,
    recent: &mut RecentAttributes,
    inputs: RoutingInputs<'_>,
    peerings: &Peerings<'_>,
    ribs: &LocRibs,
    router: RouterId,
    noted: &[Numbered],
) -> Result<(), AllocError>
    requires inputs { AreRoutingInputs inputs }
    requires peerings { ArePeerings inputs.network.now inputs.base.now inputs.sessions.now
        router.0 peerings.now }
    requires ribs { length ribs.now.rows ≡ length inputs.network.now }
    requires numbers { All (IsNumbered ribs.now.prefixes) noted.now }
    requires router { router.0 < length inputs.network.now }
    requires changes { All (IsLocRibChange (length inputs.network.now) ribs.now.prefixes) changes.old.items }
    ensures rows { OnOk result (map row_change changes.new.items ≡ map row_change changes.old.items
        ++ filter_map (change_at inputs.entry ribs.now.rows)
        (map row_key (map (numbered_row router) noted.now))) }
    ensures changes { All (IsLocRibChange (length inputs.entry.network.now) ribs.now.prefixes) changes.new.items }
{
    'noted: for of in noted {
        add_of(alloc, changes, recent, inputs, peerings, ribs, router, of)?;
    }
    Ok(())
}

// Wakes the rows of a router that may come from rows that changed, and adds at once, while its
// sessions are at hand, what is chosen anew of them.
fn renew_at(
    alloc: Global,
    renewed: &mut Renewed,
    noted: &mut Vec<Numbered>,
    recent: &mut RecentAttributes,
    inputs: RoutingInputs<'_>,
    all: &NetworkPeerings<'_>,
    ribs: &LocRibs,
    lists: &ByRouter,
    router: RouterId,
) -> Result<(), AllocError>
    requires inputs { AreRoutingInputs inputs }
    requires all { AreNetworkPeerings inputs.network.now inputs.base.now inputs.sessions.now all.now }
    requires ribs { length ribs.now.rows ≡ length inputs.network.now }
    requires ordered { Ascend ribs.now.prefixes }
    requires known { HaveAggregates inputs.network.now ribs.now.prefixes }
    requires numbers { AreListed ribs.now.prefixes lists.now }
    requires router { router.0 < length inputs.network.now }
    requires woken { AreWoken router.0 ribs.now.prefixes renewed.old.rows.items }
    requires anew { AreChangesOf inputs ribs.now.prefixes ribs.now.rows
        renewed.old.rows.items renewed.old.changes.items }
    ensures kept { OnOk result ((k : Key) → Contains (map row_key renewed.old.rows.items) k
        → Contains (map row_key renewed.new.rows.items) k) }
    ensures woken { OnOk result ((p : Cidr) → Contains (woken_at inputs.entry ribs.now.rows
        (listed lists.now) router.0) p → Contains (map row_key renewed.new.rows.items) (router, p)) }
    ensures rows { OnOk result (AreWoken (router.0 + 1) ribs.now.prefixes renewed.new.rows.items) }
    ensures anew { OnOk result (AreChangesOf inputs.entry ribs.now.prefixes ribs.now.rows
        renewed.new.rows.items renewed.new.changes.items) }
{
    let peerings = all.get(router);
    wake(&mut renewed.rows, noted, &inputs, all, ribs, lists, router)?;
    let changes = &mut renewed.changes;
    add_each(
        alloc, changes, recent, inputs, peerings, ribs, router, noted,
    )?;
    Ok(())
}

// All rows that may come from rows that changed, given the prefixes of these at each router, and
// what is chosen anew of them.
fn renew_each(
    alloc: Global,
    recent: &mut RecentAttributes,
    inputs: RoutingInputs<'_>,
    all: &NetworkPeerings<'_>,
    ribs: &LocRibs,
    lists: &ByRouter,
) -> Result<Renewed, AllocError>
    requires inputs { AreRoutingInputs inputs }
    requires all { AreNetworkPeerings inputs.network.now inputs.base.now inputs.sessions.now all.now }
    requires ribs { length ribs.now.rows ≡ length inputs.network.now }
    requires ordered { Ascend ribs.now.prefixes }
    requires known { HaveAggregates inputs.network.now ribs.now.prefixes }
    requires numbers { AreListed ribs.now.prefixes lists.now }
    ensures woken { IfOk result (λ r. (router : ℕ) (p : Cidr)
        → router < length inputs.entry.network.now
        → Contains (woken_at inputs.entry ribs.now.rows (listed lists.now) router) p
        → Contains (map row_key r.rows.items) (key router p)) }
    ensures rows { IfOk result
        (λ r. AreWoken (length inputs.entry.network.now) ribs.now.prefixes r.rows.items) }
    ensures anew { IfOk result (λ r. AreChangesOf inputs.entry ribs.now.prefixes ribs.now.rows
        r.rows.items r.changes.items) }
{
    let mut made = Renewed {
        rows: Vec::new(alloc),
        changes: Vec::new(alloc),
    };
    let mut noted = Vec::new(alloc);
    'routers: for router in 0..inputs.network.routers().len() {
        let router = RouterId(router as u32);
        renew_at(
            alloc, &mut made, &mut noted, recent, inputs, all, ribs, lists, router,
        )?;
    }
    Ok(made)
}

/// The rows that may come from rows that changed in a table, in order, each once, and what is
/// chosen anew of each that differs, given the sessions of the routers.
pub(crate) fn renewed_in_order(
    alloc: Global,
    recent: &mut RecentAttributes,
    inputs: RoutingInputs<'_>,
    all: &NetworkPeerings<'_>,
    ribs: &LocRibs,
    changed: &[NumberedRow],
) -> Result<Renewed, AllocError>
    requires inputs { AreRoutingInputs inputs }
    requires all { AreNetworkPeerings inputs.network.now inputs.base.now inputs.sessions.now all.now }
    requires ribs { length ribs.now.rows ≡ length inputs.network.now }
    requires ordered { Ascend ribs.now.prefixes }
    requires known { HaveAggregates inputs.network.now ribs.now.prefixes }
    requires numbers { AreRows ribs.now.prefixes changed.now }
    requires changed { AreInOrder (map row_key changed.now) }
    ensures woken { IfOk result (λ r. (router : ℕ) (p : Cidr)
        → router < length inputs.entry.network.now
        → (All (λ k. k.0.0 < length inputs.entry.network.now) (map row_key changed.now))
        → IsWoken inputs.entry ribs.now.rows (map row_key changed.now) router p
        → Contains (map row_key r.rows.items) (key router p)) }
    ensures rows { IfOk result
        (λ r. AreWoken (length inputs.entry.network.now) ribs.now.prefixes r.rows.items) }
    ensures anew { IfOk result (λ r. AreChangesOf inputs.entry ribs.now.prefixes ribs.now.rows
        r.rows.items r.changes.items) }
{
    let lists = by_router(alloc, inputs.network.routers().len(), changed)?;
    let made = renew_each(alloc, recent, inputs, all, ribs, &lists)?;
    Ok(made)
}

// Which rows these are.
fn rows_of(alloc: Global, changes: &[LocRibChange]) -> Result<Vec<NumberedRow>, AllocError>
    ensures keys { IfOk result
        (λ rows. map row_key rows.items ≡ map (λ n. (row_change n).key) changes.now) }
    ensures numbers { IfOk result (λ rows. (count : ℕ) (prefixes : List Cidr)
        → All (IsLocRibChange count prefixes) changes.now → AreRows prefixes rows.items) }
{
    let mut rows = Vec::with_capacity(alloc, changes.len())?;
    'changes: for new in changes {
        rows.push(NumberedRow {
            router: new.router,
            of: new.of,
        })?;
    }
    Ok(rows)
}

// Puts what is chosen anew in its places.
fn put_all(ribs: &mut LocRibs, mut changes: Vec<LocRibChange>)
    requires { All (IsLocRibChange (length ribs.old.rows) ribs.old.prefixes) changes.items }
    ensures prefixes { ribs.new.prefixes ≡ ribs.old.prefixes }
    ensures count { length ribs.new.rows ≡ length ribs.old.rows }
    ensures leads { (target : ℕ → Cidr → List Chosen)
        → IsCompletedBy target ribs.old.rows (map row_change changes.items)
        → (router : ℕ) (p : Cidr) → chosen_at ribs.new.rows router p ≡ target router p }
{
    'changes: while let Some(new) = changes.pop() {
        ribs.put(new.router, new.of, new.chosen);
    }
}

/// The table into which all that is chosen anew is put, and the rows that this changes. It is the
/// next table where no other row may differ.
pub(crate) fn complete(
    alloc: Global,
    mut ribs: LocRibs,
    changes: Vec<LocRibChange>,
) -> Result<(LocRibs, Changed), AllocError>
    requires { All (IsLocRibChange (length ribs.rows) ribs.prefixes) changes.items }
    ensures prefixes { IfOk result (λ r. r.0.prefixes ≡ ribs.prefixes) }
    ensures table { IfOk result (λ r. (i : RoutingInputs) (rows : List NumberedRow)
        → MakeNext i ribs.prefixes ribs.rows rows changes.items
        → r.0.rows ≡ next_of ribs.prefixes i ribs.rows) }
    ensures changed { IfOk result (λ r. (i : RoutingInputs) (rows : List NumberedRow)
        → MakeNext i ribs.prefixes ribs.rows rows changes.items
        → IsDifference ribs.rows r.0.rows (map row_key r.1.rows.items)) }
    ensures numbers { IfOk result (λ r. AreRows ribs.prefixes r.1.rows.items) }
{
    let _prefixes = ribs.prefixes();
    let rows = rows_of(alloc, &changes)?;
    put_all(&mut ribs, changes);
    let _count = ribs.count();
    Ok((ribs, Changed { rows }))
}

/// The next table over the prefixes that a table has, and the rows in which it differs, where these
/// are all rows that may differ. The others aren't visited.
pub(crate) fn renew(
    alloc: Global,
    recent: &mut RecentAttributes,
    inputs: RoutingInputs<'_>,
    all: &NetworkPeerings<'_>,
    ribs: LocRibs,
    rows: &[NumberedRow],
) -> Result<(LocRibs, Changed), AllocError>
    requires inputs { AreRoutingInputs inputs }
    requires all { AreNetworkPeerings inputs.network.now inputs.base.now inputs.sessions.now all.now }
    requires rows { AreEnough inputs ribs.prefixes ribs.rows (map row_key rows.now) }
    requires numbers { AreRows ribs.prefixes rows.now }
    ensures prefixes { IfOk result (λ r. r.0.prefixes ≡ ribs.prefixes) }
    ensures table { IfOk result (λ r. r.0.rows ≡ next_of ribs.prefixes inputs.entry ribs.rows) }
    ensures changed { IfOk result
        (λ r. IsDifference ribs.rows r.0.rows (map row_key r.1.rows.items)) }
    ensures numbers { IfOk result (λ r. AreRows ribs.prefixes r.1.rows.items) }
{
    let changes = changes_of(alloc, recent, inputs, all, &ribs, rows)?;
    let made = complete(alloc, ribs, changes)?;
    Ok(made)
}
