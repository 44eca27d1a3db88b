ghost use Rattle.std.specs.Prelude.{◌≡◌, ◌++◌, [], List, IfOk, OnOk, map};
ghost use Rattle.std.specs.List.{cons_option};
ghost use Rattle.nc_tables.specs.LocRibs.{Ascend};
ghost use Rattle.nc_tables.specs.Rounds.{BgpRowView, no_routes, prefixes};
ghost use Rattle.nc_message.specs.Inputs.{AreRoutingInputs};
ghost use Rattle.nc_decision.specs.Peerings.{AreNetworkPeerings};
ghost use Rattle.nc_round.specs.Next.{next, next_of};
ghost use Rattle.nc_round.specs.Rows.{row_among, row_key, rows_among, AreRows};
ghost use Rattle.nc_round.specs.Changes.{IsDifference, IsRoundOf, IsRoundOver};
ghost use Rattle.nc_round.specs.Waking.{HaveAggregates};

use crate::changed::{Changed, NumberedRow};
use crate::likeness::likeness_of;
use crate::renewal::{complete, renew, renewed_in_order};
use crate::waking::begun_in_order;
use nc_decision::NetworkPeerings;
use nc_message::RoutingInputs;
use nc_tables::{LocRibs, RecentAttributes};
use nc_types::{Network, Prefix, RouterId};
use std::alloc::{AllocError, Global};

// No route anywhere, of these prefixes.
fn none_chosen(alloc: Global, network: &Network, prefixes: &[Prefix]) -> Result<LocRibs, AllocError>
    requires { Ascend prefixes.now }
    ensures prefixes { IfOk result (λ ribs. ribs.prefixes ≡ prefixes.now) }
    ensures rows { IfOk result (λ ribs. ribs.rows ≡ no_routes network.now) }
{
    let own = Vec::from_slice(alloc, prefixes)?;
    let ribs = LocRibs::new(alloc, own, network.routers().len())?;
    Ok(ribs)
}

// Adds the row of a prefix, under its number, at a router, where the prefix has a number.
fn add_row(
    rows: &mut Vec<NumberedRow>,
    ribs: &LocRibs,
    key: (RouterId, Prefix),
) -> Result<(), AllocError>
    requires { AreRows ribs.now.prefixes rows.old.items }
    ensures key { OnOk result (map row_key rows.new.items
        ≡ map row_key rows.old.items ++ cons_option (row_among ribs.now.prefixes key) []) }
    ensures numbers { OnOk result (AreRows ribs.now.prefixes rows.new.items) }
{
    let (router, prefix) = key;
    let Some(of) = ribs.numbered(prefix) else {
        return Ok(());
    };
    rows.push(NumberedRow { router, of })?;
    Ok(())
}

// Those of some rows whose prefixes have numbers, under these.
fn numbered_rows(
    alloc: Global,
    ribs: &LocRibs,
    keys: &[(RouterId, Prefix)],
) -> Result<Vec<NumberedRow>, AllocError>
    ensures keys { IfOk result (λ rows. map row_key rows.items
        ≡ rows_among ribs.now.prefixes keys.now) }
    ensures numbers { IfOk result (λ rows. AreRows ribs.now.prefixes rows.items) }
{
    let mut rows = Vec::with_capacity(alloc, keys.len())?;
    'keys: for key in keys {
        add_row(&mut rows, ribs, *key)?;
    }
    Ok(rows)
}

/// The first round over these prefixes, which are in order, given the sessions of the routers.
pub(crate) fn first_by(
    alloc: Global,
    recent: &mut RecentAttributes,
    inputs: RoutingInputs<'_>,
    all: &NetworkPeerings<'_>,
    prefixes: &[Prefix],
) -> Result<(LocRibs, Changed), AllocError>
    requires inputs { AreRoutingInputs inputs }
    requires all { AreNetworkPeerings inputs.network.now inputs.base.now inputs.sessions.now all.now }
    requires ordered { Ascend prefixes.now }
    ensures prefixes { IfOk result (λ r. r.0.prefixes ≡ prefixes.now) }
    ensures table { IfOk result (λ r. r.0.rows
        ≡ next_of prefixes.now inputs.entry (no_routes inputs.entry.network.now)) }
    ensures changed { IfOk result (λ r. IsDifference (no_routes inputs.entry.network.now) r.0.rows
        (map row_key r.1.rows.items)) }
    ensures numbers { IfOk result (λ r. AreRows r.0.prefixes r.1.rows.items) }
{
    let none = none_chosen(alloc, inputs.network, prefixes)?;
    let keys = begun_in_order(alloc, inputs.network)?;
    let rows = numbered_rows(alloc, &none, &keys)?;
    let made = renew(alloc, recent, inputs, all, none, &rows)?;
    Ok(made)
}

/// The first round, from no route anywhere: the table that it makes, and the rows that it has.
///
/// # Errors
///
/// Memory that runs out.
pub fn first_round(
    alloc: Global,
    inputs: RoutingInputs<'_>,
) -> Result<(LocRibs, Changed), AllocError>
    requires inputs { AreRoutingInputs inputs }
    ensures prefixes { IfOk result (λ r. r.0.prefixes ≡ prefixes inputs.entry.network.now) }
    ensures table { IfOk result
        (λ r. r.0.rows ≡ next inputs.entry (no_routes inputs.entry.network.now)) }
    ensures changed { IfOk result (λ r. IsDifference (no_routes inputs.entry.network.now) r.0.rows
        (map row_key r.1.rows.items)) }
    ensures numbers { IfOk result (λ r. AreRows r.0.prefixes r.1.rows.items) }
{
    let all = NetworkPeerings::of(alloc, &inputs)?;
    let mut recent = RecentAttributes::new(alloc)?;
    let likeness = likeness_of(alloc, &inputs)?;
    let made = first_by(alloc, &mut recent, inputs, &all, &likeness.all)?;
    Ok(made)
}

/// One more round over the prefixes that a table has, given the sessions of the routers.
pub(crate) fn next_by(
    alloc: Global,
    recent: &mut RecentAttributes,
    inputs: RoutingInputs<'_>,
    all: &NetworkPeerings<'_>,
    old: LocRibs,
    changed: Changed,
) -> Result<(LocRibs, Changed), AllocError>
    requires inputs { AreRoutingInputs inputs }
    requires all { AreNetworkPeerings inputs.network.now inputs.base.now inputs.sessions.now all.now }
    requires known { HaveAggregates inputs.network.now old.prefixes }
    requires made { (before : List (List BgpRowView))
        × IsRoundOver inputs.network.now inputs.base.now inputs.sessions.now old.prefixes before
        old.rows (map row_key changed.rows.items) }
    requires numbers { AreRows old.prefixes changed.rows.items }
    ensures prefixes { IfOk result (λ r. r.0.prefixes ≡ old.prefixes) }
    ensures table { IfOk result (λ r. r.0.rows ≡ next_of old.prefixes inputs.entry old.rows) }
    ensures changed { IfOk result
        (λ r. IsDifference old.rows r.0.rows (map row_key r.1.rows.items)) }
    ensures numbers { IfOk result (λ r. AreRows old.prefixes r.1.rows.items) }
{
    let _count = old.count();
    let _prefixes = old.prefixes();
    let _routers = inputs.network.routers();
    let renewed = renewed_in_order(alloc, recent, inputs, all, &old, &changed.rows)?;
    let made = complete(alloc, old, renewed.changes)?;
    Ok(made)
}

/// One more round: the table that comes from one that a round made, given the rows in which that
/// one differs from the table before it, and the rows in which the new one differs. It takes time
/// in proportion to the rows that changed, the sessions over which they are heard, and the
/// aggregates around them; a row that can't differ is neither copied nor visited, and one whose
/// router learns nothing that counts beside what stands isn't made anew.
///
/// # Errors
///
/// Memory that runs out.
pub fn round_changed(
    alloc: Global,
    inputs: RoutingInputs<'_>,
    old: LocRibs,
    changed: Changed,
) -> Result<(LocRibs, Changed), AllocError>
    requires inputs { AreRoutingInputs inputs }
    requires prefixes { old.prefixes ≡ prefixes inputs.network.now }
    requires made { (before : List (List BgpRowView))
        × IsRoundOf inputs.network.now inputs.base.now inputs.sessions.now before old.rows
        (map row_key changed.rows.items) }
    requires numbers { AreRows old.prefixes changed.rows.items }
    ensures prefixes { IfOk result (λ r. r.0.prefixes ≡ old.prefixes) }
    ensures table { IfOk result (λ r. r.0.rows ≡ next inputs.entry old.rows) }
    ensures changed { IfOk result
        (λ r. IsDifference old.rows r.0.rows (map row_key r.1.rows.items)) }
    ensures numbers { IfOk result (λ r. AreRows old.prefixes r.1.rows.items) }
{
    let all = NetworkPeerings::of(alloc, &inputs)?;
    let mut recent = RecentAttributes::new(alloc)?;
    let made = next_by(alloc, &mut recent, inputs, &all, old, changed)?;
    Ok(made)
}
