//! What a router begins: its networks, and its aggregates with what they gather.

ghost use Rattle.std.specs.Prelude.{◌≡◌, ◌<◌, ◌≤◌, ◌++◌, [], ◌∷◌, All, IfNone, IfSome, length, take, slice_get, slice_index_or, OnOk};
ghost use Rattle.std.specs.List.{flat_map};
ghost use Rattle.std.specs.Option.{ForSome, option_map};
ghost use Rattle.nc_types.specs.Config.{process_view};
ghost use Rattle.nc_types.specs.declared.TheConstants.{MULTIPATH_LIMIT};
ghost use Rattle.nc_tables.specs.State.{IsState};
ghost use Rattle.nc_tables.specs.Sessions.{process_of};
ghost use Rattle.nc_tables.specs.Rounds.{AreBgpRows};
ghost use Rattle.nc_tables.specs.SpreadView.{row_view};
ghost use Rattle.nc_fact.specs.declared.fact.Fact.TheVariants as fact;
ghost use Rattle.nc_rules_route.specs.Parents.{element_in, each_chosen, chosen_inside, parents};

use crate::configs::config_of;
use nc_fact::{Fact, aggregate_of};
use nc_tables::{ChosenRow, RouterRows, Stable};
use nc_types::{AggregateStatement, NetworkStatement, Prefix, Process, RouterId};
use std::alloc::AllocError;

// The process of a router.
fn process_of(state: &Stable, router: RouterId) -> Option<&Process>
    ensures process { option_map (λ p. process_view p.now) result
        ≡ process_of state.now.routers router.0 }
    ensures state { IsState state.now }
{
    let _routers = state.network();
    config_of(state, router)?.process.as_ref()
}

// The network statement at a place of a process.
fn network_at(process: &Process, place: u32) -> Option<NetworkStatement>
    ensures { result ≡ slice_get (process_view process.now).networks place }
{
    process.networks.get(place as usize).copied()
}

// The aggregate statement at a place of a process.
fn aggregate_at(process: &Process, place: u32) -> Option<AggregateStatement>
    ensures { result ≡ slice_get (process_view process.now).aggregates place }
{
    process.aggregates.get(place as usize).copied()
}

// Appends the elements of a process and of one of its statements, and a further fact.
fn push_begun(
    state: &Stable,
    router: RouterId,
    process: u32,
    statement: u32,
    last: Fact,
    into: &mut Vec<Fact>,
) -> Result<(), AllocError>
    requires router { router.0 < length state.now.routers }
    requires process { ForSome (slice_get state.now.routers router.0)
        (λ c. process < length c.elements) }
    requires statement { ForSome (slice_get state.now.routers router.0)
        (λ c. statement < length c.elements) }
    ensures ok { OnOk result (into.new.items ≡ into.old.items
        ++ element_in state.now router.0 process
        ∷ element_in state.now router.0 statement ∷ last ∷ []) }
    ensures kept { take (length into.old.items) into.new.items ≡ into.old.items }
{
    let network = state.network();
    let process = Fact::Element(network.element_id(router, process));
    let statement = Fact::Element(network.element_id(router, statement));
    into.extend_from_slice(&[process, statement, last])?;
    Ok(())
}

/// Appends what a network statement rests on to begin its prefix: its process, itself, and the rows of the prefix.
pub(crate) fn push_origin(
    state: &Stable,
    router: RouterId,
    place: u32,
    into: &mut Vec<Fact>,
) -> Result<(), AllocError>
    ensures ok { OnOk result (into.new.items
        ≡ into.old.items ++ parents state.now (fact.Origin router place)) }
    ensures kept { take (length into.old.items) into.new.items ≡ into.old.items }
{
    let Some(process) = process_of(state, router) else {
        return Ok(());
    };
    let Some(network) = network_at(process, place) else {
        return Ok(());
    };
    let source = Fact::NetSource(router, network.prefix);
    push_begun(
        state,
        router,
        process.element,
        network.element,
        source,
        into,
    )?;
    Ok(())
}

/// Appends what an aggregate statement rests on: its process, itself, and that it has something to gather.
pub(crate) fn push_aggregate(
    state: &Stable,
    router: RouterId,
    place: u32,
    into: &mut Vec<Fact>,
) -> Result<(), AllocError>
    ensures ok { OnOk result (into.new.items
        ≡ into.old.items ++ parents state.now (fact.Aggregate router place)) }
    ensures kept { take (length into.old.items) into.new.items ≡ into.old.items }
{
    let Some(process) = process_of(state, router) else {
        return Ok(());
    };
    let Some(aggregate) = aggregate_at(process, place) else {
        return Ok(());
    };
    let gathered = Fact::Contrib(router, place);
    push_begun(
        state,
        router,
        process.element,
        aggregate.element,
        gathered,
        into,
    )?;
    Ok(())
}

// The rows of a router's BGP table; `None` where there is no such router.
fn rows_of(state: &Stable, router: RouterId) -> Option<RouterRows<'_>>
    ensures rows { IfSome result (λ rows. rows ≡ slice_index_or state.now.bgp router.0 []) }
    ensures valid { IfSome result AreBgpRows }
    ensures none { IfNone result (slice_index_or state.now.bgp router.0 [] ≡ []) }
{
    let table = state.bgp();
    if router.0 as usize >= state.network().routers().len() {
        return None;
    }
    Some(table.rows(router))
}

// Appends the routes of a prefix that are chosen, best first.
fn push_row(router: RouterId, row: ChosenRow<'_>, into: &mut Vec<Fact>) -> Result<(), AllocError>
    requires { length (row_view row).chosen ≤ MULTIPATH_LIMIT }
    ensures ok { OnOk result (into.new.items
        ≡ into.old.items ++ each_chosen router (row_view row.entry)) }
    ensures kept { take (length into.old.items) into.new.items ≡ into.old.items }
{
    'places: for place in 0..row.count() {
        into.push(Fact::Chosen(router, *row.prefix, place as u32))?;
    }
    Ok(())
}

// Appends those of each row in turn.
fn push_rows(
    router: RouterId,
    mut rows: RouterRows<'_>,
    into: &mut Vec<Fact>,
) -> Result<(), AllocError>
    requires { All (λ row. length row.chosen ≤ MULTIPATH_LIMIT) rows }
    ensures ok { OnOk result (into.new.items ≡ into.old.items
        ++ flat_map (each_chosen router) rows.entry) }
    ensures kept { take (length into.old.items) into.new.items ≡ into.old.items }
{
    'rows: while let Some(row) = rows.next_row() {
        push_row(router, row, into)?;
    }
    Ok(())
}

// Appends the chosen routes of every longer prefix inside another.
fn push_inside(
    state: &Stable,
    router: RouterId,
    outer: Prefix,
    into: &mut Vec<Fact>,
) -> Result<(), AllocError>
    ensures ok { OnOk result (into.new.items ≡ into.old.items
        ++ chosen_inside router outer (slice_index_or state.now.bgp router.0 [])) }
    ensures kept { take (length into.old.items) into.new.items ≡ into.old.items }
{
    match rows_of(state, router) {
        Some(rows) => push_rows(router, rows.inside(outer), into),
        None => Ok(()),
    }
}

/// Appends what an aggregate statement gathers: the chosen routes of every longer prefix inside its own.
#[tactic(auto, unfolding(crate::specs::Parents::parents))]
pub(crate) fn push_contrib(
    state: &Stable,
    router: RouterId,
    place: u32,
    into: &mut Vec<Fact>,
) -> Result<(), AllocError>
    ensures ok { OnOk result (into.new.items
        ≡ into.old.items ++ parents state.now (fact.Contrib router place)) }
    ensures kept { take (length into.old.items) into.new.items ≡ into.old.items }
{
    match aggregate_of(state, router, place) {
        Some(aggregate) => push_inside(state, router, aggregate.prefix, into),
        None => Ok(()),
    }
}
