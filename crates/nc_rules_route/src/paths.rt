//! What the ways of packets over main tables follow from.

ghost use Rattle.std.specs.Prelude.{◌≡◌, ◌++◌, [], ◌∷◌, length, map, take, slice_get, OnOk};
ghost use Rattle.std.specs.Option.{option_map_or};
ghost use Rattle.nc_trace.specs.Traced.{IsIncluded, IsTracedTo};
ghost use Rattle.nc_trace.specs.Views.{alternative_view, outcome_view};
ghost use Rattle.nc_fact.specs.declared.fact.Fact.TheVariants as fact;
ghost use Rattle.nc_rules_route.specs.Parents.{trace_fact, onward, let_in, let_out, let_pass, ways_out, way_parents, parents};

use crate::packet::{Packet, Trip};
use nc_fact::Fact;
use nc_tables::Stable;
use nc_trace::{Alternative, Outcome, TracedTo, exit_iface};
use nc_types::{Addr, RouterId};
use nc_underlay::own_interface;
use std::alloc::AllocError;

// That a packet arrives from a router over at most so many hops.
fn trace_fact(packet: Packet, router: RouterId, addr: Addr, hops: u8) -> Fact
    ensures { result ≡ trace_fact packet router addr hops }
{
    match packet {
        Packet::BySome => Fact::Trace(router, addr, hops),
        Packet::ByEach => Fact::AllTrace(router, addr, hops),
        Packet::From(from) => Fact::Flow(router, from, addr, hops),
    }
}

// Appends what a packet needs that goes on: the interface to which it is led, and that it arrives from there.
fn push_onward(trip: Trip, outcome: Outcome, into: &mut Vec<Fact>) -> Result<(), AllocError>
    ensures ok { OnOk result (into.new.items
        ≡ into.old.items ++ onward trip.packet trip.addr trip.hops (outcome_view outcome)) }
    ensures kept { take (length into.old.items) into.new.items ≡ into.old.items }
{
    if let Outcome::Go(next, iface) = outcome {
        let connected = Fact::Connected(next, iface);
        let onward = trace_fact(trip.packet, next, trip.addr, trip.hops.saturating_sub(1));
        into.extend_from_slice(&[connected, onward])?;
    }
    Ok(())
}

// Appends the base row of an alternative, where it has one.
fn push_base(router: RouterId, base: Option<u32>, into: &mut Vec<Fact>) -> Result<(), AllocError>
    ensures ok { OnOk result (into.new.items
        ≡ into.old.items ++ option_map_or (λ row. fact.Base router row ∷ []) base []) }
    ensures kept { take (length into.old.items) into.new.items ≡ into.old.items }
{
    if let Some(row) = base {
        into.push(Fact::Base(router, row))?;
    }
    Ok(())
}

// Appends that the interface lets a packet out by which an alternative leaves.
fn push_let_out(
    state: &Stable,
    router: RouterId,
    from: Addr,
    to: Addr,
    way: &Alternative,
    into: &mut Vec<Fact>,
) -> Result<(), AllocError>
    ensures ok { OnOk result (into.new.items
        ≡ into.old.items ++ let_out state.now router from to (alternative_view way.now)) }
    ensures kept { take (length into.old.items) into.new.items ≡ into.old.items }
{
    if let Some(iface) = exit_iface(state, router, to, *way) {
        into.push(Fact::Pass(false, router, iface, from, to))?;
    }
    Ok(())
}

// Appends that the interface to which a packet goes lets it in.
fn push_let_in(
    from: Addr,
    to: Addr,
    outcome: Outcome,
    into: &mut Vec<Fact>,
) -> Result<(), AllocError>
    ensures ok { OnOk result (into.new.items ≡ into.old.items ++ let_in from to (outcome_view outcome)) }
    ensures kept { take (length into.old.items) into.new.items ≡ into.old.items }
{
    if let Outcome::Go(next, iface) = outcome {
        into.push(Fact::Pass(true, next, iface, from, to))?;
    }
    Ok(())
}

// Appends what the access lists on an alternative have to let pass.
fn push_let_pass(
    state: &Stable,
    trip: Trip,
    router: RouterId,
    way: &Alternative,
    into: &mut Vec<Fact>,
) -> Result<(), AllocError>
    ensures ok { OnOk result (into.new.items
        ≡ into.old.items ++ let_pass state.now trip.packet router trip.addr (alternative_view way.now)) }
    ensures kept { take (length into.old.items) into.new.items ≡ into.old.items }
{
    match trip.packet {
        Packet::BySome | Packet::ByEach => Ok(()),
        Packet::From(from) => {
            push_let_out(state, router, from, trip.addr, way, into)?;
            push_let_in(from, trip.addr, way.outcome, into)
        }
    }
}

// Appends the rows of an alternative: its main row, and its base row, where it has one.
fn push_rows(router: RouterId, way: &Alternative, into: &mut Vec<Fact>) -> Result<(), AllocError>
    ensures ok { OnOk result (into.new.items ≡ into.old.items ++ fact.Main router way.now.main
        ∷ option_map_or (λ row. fact.Base router row ∷ []) way.now.base []) }
    ensures kept { take (length into.old.items) into.new.items ≡ into.old.items }
{
    into.push(Fact::Main(router, way.main))?;
    push_base(router, way.base, into)
}

// Appends what an alternative follows from: its rows, what the packet needs to go on, and what has to let it pass.
fn push_way(
    state: &Stable,
    trip: Trip,
    router: RouterId,
    way: &Alternative,
    into: &mut Vec<Fact>,
) -> Result<(), AllocError>
    ensures ok { OnOk result (into.new.items ≡ into.old.items
        ++ way_parents state.now trip.packet router trip.addr trip.hops (alternative_view way.now)) }
    ensures kept { take (length into.old.items) into.new.items ≡ into.old.items }
{
    push_rows(router, way, into)?;
    push_onward(trip, way.outcome, into)?;
    push_let_pass(state, trip, router, way, into)
}

/// Appends what the alternative at a place follows from, of all those of a router for an address.
pub(crate) fn push_step(
    state: &Stable,
    ways: &[Alternative],
    trip: Trip,
    router: RouterId,
    place: u32,
    into: &mut Vec<Fact>,
) -> Result<(), AllocError>
    ensures ok { OnOk result (into.new.items ≡ into.old.items
        ++ option_map_or (way_parents state.now trip.packet router trip.addr trip.hops)
        (slice_get (map alternative_view ways.now) place) []) }
    ensures kept { take (length into.old.items) into.new.items ≡ into.old.items }
{
    match ways.get(place as usize) {
        Some(way) => push_way(state, trip, router, way, into),
        None => Ok(()),
    }
}

/// How many alternatives a router has for an address, given all of them: few enough for the numbers of their places.
pub(crate) fn count_ways(state: &Stable, router: RouterId, addr: Addr, ways: &[Alternative]) -> u32
    requires { length ways.now ≡ length (ways_out state.now router addr) }
    ensures { result ≡ length ways.now }
{
    let network = state.network();
    let _elements = network.element_count();
    if router.0 as usize >= network.routers().len() {
        return 0;
    }
    let _rows = state.main().rows(router);
    ways.len() as u32
}

/// Appends what follows from any alternative by which a packet arrives: the router's own interface that has the
/// address, or else these.
#[tactic(auto, unfolding(crate::specs::Parents::parents))]
pub(crate) fn push_trace(
    state: &Stable,
    traced: &TracedTo,
    router: RouterId,
    addr: Addr,
    hops: u8,
    into: &mut Vec<Fact>,
) -> Result<(), AllocError>
    requires traced { IsTracedTo state.now addr.0 traced.now }
    requires included { IsIncluded state.now traced.now router.0 }
    ensures ok { OnOk result (into.new.items
        ≡ into.old.items ++ parents state.now (fact.Trace router addr hops)) }
    ensures kept { take (length into.old.items) into.new.items ≡ into.old.items }
{
    if let Some(iface) = own_interface(state.network(), router, addr) {
        into.push(Fact::Connected(router, iface))?;
        return Ok(());
    }
    let ways = traced.ways(router);
    let count = count_ways(state, router, addr, ways);
    'ways: for place in 0..count {
        if traced.arrives_by(router, place as usize, hops) {
            into.push(Fact::Step(router, addr, place, hops))?;
        }
    }
    Ok(())
}

/// Appends what follows from every alternative: the router's own interface that has the address, or else all of
/// them.
#[tactic(auto, unfolding(crate::specs::Parents::parents))]
pub(crate) fn push_all_trace(
    state: &Stable,
    traced: &TracedTo,
    router: RouterId,
    addr: Addr,
    hops: u8,
    into: &mut Vec<Fact>,
) -> Result<(), AllocError>
    requires traced { IsTracedTo state.now addr.0 traced.now }
    requires included { IsIncluded state.now traced.now router.0 }
    ensures ok { OnOk result (into.new.items
        ≡ into.old.items ++ parents state.now (fact.AllTrace router addr hops)) }
    ensures kept { take (length into.old.items) into.new.items ≡ into.old.items }
{
    if let Some(iface) = own_interface(state.network(), router, addr) {
        into.push(Fact::Connected(router, iface))?;
        return Ok(());
    }
    let ways = traced.ways(router);
    let count = count_ways(state, router, addr, ways);
    'ways: for place in 0..count {
        into.push(Fact::AllStep(router, addr, place, hops))?;
    }
    Ok(())
}
