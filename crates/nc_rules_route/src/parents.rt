//! From which facts a fact about routes follows, and how.

ghost use Rattle.std.specs.Prelude.{◌≡◌, ◌++◌, ◌≤◌, true, None, length, take, is_ok, IfOk, MatchOption, OnOk, if◌then◌else◌};
ghost use Rattle.std.specs.Option.{ForSome};
ghost use Rattle.nc_trace.specs.Flow.{IsFlowTo, IsFlowIncluded};
ghost use Rattle.nc_trace.specs.Traced.{IsIncluded, IsTracedTo};
ghost use Rattle.nc_underlay.specs.Kept.{AreKept};
ghost use Rattle.nc_policy.specs.Indexes.{ArePolicies};
ghost use Rattle.nc_fact.specs.Facts.{holds};
ghost use Rattle.nc_rules_route.specs.Parents.{kind, parents, path_start, flow_start};

use crate::begun::{push_aggregate, push_contrib, push_origin};
use crate::flows::{push_flow, push_pass};
use crate::messages::{push_chosen, push_entry, push_message};
use crate::packet::{Packet, Trip};
use crate::paths::{push_all_trace, push_step, push_trace};
use crate::reach::{push_hop, push_reach};
use crate::routes::{push_base, push_connected, push_main, push_static};
use crate::rows::{push_resolve, push_source};
use crate::sessions::push_session;
use nc_fact::Fact;
use nc_graph::node::NodeKind;
use nc_policy::Policies;
use nc_tables::Stable;
use nc_trace::{FlowTo, TracedTo};
use nc_types::{Addr, RouterId};
use nc_underlay::DistancesByAddr;
use std::alloc::AllocError;

// How a fact follows from its parents.
#[tactic(auto, unfolding(crate::specs::Parents::kind))]
fn kind_of(fact: &Fact) -> NodeKind
    ensures { result ≡ kind fact.now }
{
    match *fact {
        Fact::Element(element) => NodeKind::Leaf(element.0),
        Fact::Resolve(_, _) | Fact::NetSource(_, _) | Fact::Reach(_, _, _) => NodeKind::Any,
        Fact::Contrib(_, _) => NodeKind::Any,
        Fact::Trace(_, _, _) | Fact::Flow(_, _, _, _) => NodeKind::Any,
        Fact::Connected(_, _)
        | Fact::Static(_, _)
        | Fact::Base(_, _)
        | Fact::Hop(_, _, _, _)
        | Fact::Session(_, _)
        | Fact::Origin(_, _)
        | Fact::Aggregate(_, _)
        | Fact::Message(_, _, _)
        | Fact::Entry(_, _, _)
        | Fact::Chosen(_, _, _)
        | Fact::Main(_, _)
        | Fact::Step(_, _, _, _)
        | Fact::AllStep(_, _, _, _)
        | Fact::AllTrace(_, _, _)
        | Fact::Pass(_, _, _, _, _)
        | Fact::FlowStep(_, _, _, _, _) => NodeKind::Every,
    }
}

/// The router from which a packet goes on, of whose way over main tables a fact is, and its address, where access
/// lists aren't asked; `None` of any other fact.
pub fn path_start(fact: &Fact) -> Option<(RouterId, Addr)>
    ensures { result ≡ path_start fact.now }
{
    match *fact {
        Fact::Step(router, addr, _, _) | Fact::AllStep(router, addr, _, _) => Some((router, addr)),
        Fact::Trace(router, addr, _) | Fact::AllTrace(router, addr, _) => Some((router, addr)),
        _ => None,
    }
}

/// The router of a fact of a packet that access lists have to let pass, from which address that comes and to which it
/// goes; `None` of any other fact.
pub fn flow_start(fact: &Fact) -> Option<(RouterId, Addr, Addr)>
    ensures { result ≡ flow_start fact.now }
{
    match *fact {
        Fact::Pass(_, router, _, from, to)
        | Fact::FlowStep(_, router, from, to, _)
        | Fact::Flow(router, from, to, _) => Some((router, from, to)),
        _ => None,
    }
}

// Appends the parents of a fact that holds; where memory runs out, perhaps the first of them alone.
#[tactic(auto, unfolding(crate::specs::Parents::parents))]
fn push_parents(
    state: &Stable,
    policies: &Policies,
    distances: &mut DistancesByAddr,
    fact: &Fact,
    into: &mut Vec<Fact>,
) -> Result<(), AllocError>
    requires policies { ArePolicies state.now.routers policies.now }
    requires distances { AreKept state.now.routers state.now.base distances.old }
    requires holds { holds state.now fact.now ≡ true }
    requires other { path_start fact.now ≡ None }
    requires unfiltered { flow_start fact.now ≡ None }
    ensures distances { AreKept state.now.routers state.now.base distances.new }
    ensures ok { OnOk result (into.new.items ≡ into.old.items ++ parents state.now fact.now) }
    ensures kept { take (length into.old.items) into.new.items ≡ into.old.items }
{
    match *fact {
        Fact::Element(_) => Ok(()),
        Fact::Connected(router, iface) => push_connected(state, router, iface, into),
        Fact::Static(router, place) => push_static(state, router, place, into),
        Fact::Base(router, row) => push_base(state, router, row, into),
        Fact::Resolve(router, addr) => push_resolve(state, router, addr, into),
        Fact::NetSource(router, prefix) => push_source(state, router, prefix, into),
        Fact::Reach(router, addr, hops) => push_reach(state, distances, router, addr, hops, into),
        Fact::Hop(router, addr, row, hops) => push_hop(state, router, addr, row, hops, into),
        Fact::Session(router, place) => push_session(state, router, place, into),
        Fact::Origin(router, place) => push_origin(state, router, place, into),
        Fact::Contrib(router, place) => push_contrib(state, router, place, into),
        Fact::Aggregate(router, place) => push_aggregate(state, router, place, into),
        Fact::Message(router, place, prefix) => {
            push_message(state, policies, router, place, prefix, into)
        }
        Fact::Entry(router, place, prefix) => {
            push_entry(state, policies, router, place, prefix, into)
        }
        Fact::Chosen(router, prefix, place) => push_chosen(state, router, prefix, place, into),
        Fact::Main(router, row) => push_main(state, router, row, into),
        Fact::Step(_, _, _, _)
        | Fact::Trace(_, _, _)
        | Fact::AllStep(_, _, _, _)
        | Fact::AllTrace(_, _, _)
        | Fact::Pass(_, _, _, _, _)
        | Fact::FlowStep(_, _, _, _, _)
        | Fact::Flow(_, _, _, _) => unreachable!(),
    }
}

// Appends the parents of a fact of the way of a packet whose router is included in the ways for its address.
#[tactic(auto, unfolding(crate::specs::Parents::parents))]
fn push_path_parents(
    state: &Stable,
    traced: &TracedTo,
    fact: &Fact,
    into: &mut Vec<Fact>,
) -> Result<(), AllocError>
    requires traced { MatchOption (path_start fact.now) ⊥ (λ start.
        IsTracedTo state.now start.1.0 traced.now × IsIncluded state.now traced.now start.0.0) }
    ensures ok { OnOk result (into.new.items ≡ into.old.items ++ parents state.now fact.now) }
    ensures kept { take (length into.old.items) into.new.items ≡ into.old.items }
{
    match *fact {
        Fact::Step(router, addr, way, hops) => {
            let packet = Packet::BySome;
            let trip = Trip { packet, addr, hops };
            push_step(state, traced.ways(router), trip, router, way, into)
        }
        Fact::Trace(router, addr, hops) => push_trace(state, traced, router, addr, hops, into),
        Fact::AllStep(router, addr, way, hops) => {
            let packet = Packet::ByEach;
            let trip = Trip { packet, addr, hops };
            push_step(state, traced.ways(router), trip, router, way, into)
        }
        Fact::AllTrace(router, addr, hops) => {
            push_all_trace(state, traced, router, addr, hops, into)
        }
        _ => unreachable!(),
    }
}

// Appends the parents of a fact that holds of a packet that access lists have to let pass, whose router is included in
// the ways that let it.
#[tactic(auto, unfolding(crate::specs::Parents::parents))]
fn push_flow_parents(
    state: &Stable,
    flowing: &mut FlowTo,
    fact: &Fact,
    into: &mut Vec<Fact>,
) -> Result<(), AllocError>
    requires holds { holds state.now fact.now ≡ true }
    requires flow { MatchOption (flow_start fact.now) ⊥ (λ start.
        IsFlowTo state.now start.1.0 start.2.0 flowing.old × IsFlowIncluded state.now flowing.old start.0.0) }
    ensures flow { ForSome (flow_start fact.now) (λ start. IsFlowTo state.now start.1.0 start.2.0 flowing.new) }
    ensures ok { OnOk result (into.new.items ≡ into.old.items ++ parents state.now fact.now) }
    ensures kept { take (length into.old.items) into.new.items ≡ into.old.items }
{
    match *fact {
        Fact::Pass(inward, router, iface, from, to) => {
            let passing = flowing.passing(state, router, iface, inward, from, to)?;
            push_pass(state, router, iface, passing, into)
        }
        Fact::FlowStep(hops, router, from, to, way) => {
            let packet = Packet::From(from);
            let trip = Trip {
                packet,
                addr: to,
                hops,
            };
            push_step(state, flowing.ways(router), trip, router, way, into)
        }
        Fact::Flow(router, from, to, hops) => {
            push_flow(state, flowing, router, from, to, hops, into)
        }
        _ => unreachable!(),
    }
}

// How a fact follows from its parents, where they were all appended; where memory ran out, those that were are taken
// away again.
fn kind_behind(
    fact: &Fact,
    before: usize,
    pushed: Result<(), AllocError>,
    into: &mut Vec<Fact>,
) -> Result<NodeKind, AllocError>
    requires { before ≤ length into.old.items }
    ensures kind { IfOk result (λ k. k ≡ kind fact.now) }
    ensures ok { is_ok result ≡ is_ok pushed }
    ensures items { into.new.items
        ≡ (if is_ok pushed then into.old.items else take before into.old.items) }
{
    match pushed {
        Ok(()) => Ok(kind_of(fact)),
        Err(error) => {
            into.truncate(before);
            Err(error)
        }
    }
}

/// Appends the facts from which a fact that holds follows, in order, and answers how it follows from them: of any
/// fact but those of packets and their ways. The policies are those of the state's routers. Where memory runs out,
/// `into` has what it had before.
///
/// # Errors
///
/// Memory that runs out.
pub fn route_parents(
    state: &Stable,
    policies: &Policies,
    distances: &mut DistancesByAddr,
    fact: &Fact,
    into: &mut Vec<Fact>,
) -> Result<NodeKind, AllocError>
    requires policies { ArePolicies state.now.routers policies.now }
    requires distances { AreKept state.now.routers state.now.base distances.old }
    requires holds { holds state.now fact.now ≡ true }
    requires other { path_start fact.now ≡ None }
    requires unfiltered { flow_start fact.now ≡ None }
    ensures distances { AreKept state.now.routers state.now.base distances.new }
    ensures kind { IfOk result (λ k. k ≡ kind fact.now) }
    ensures parents { into.new.items
        ≡ (if is_ok result then into.old.items ++ parents state.now fact.now else into.old.items) }
{
    let before = into.len();
    let pushed = push_parents(state, policies, distances, fact, into);
    kind_behind(fact, before, pushed, into)
}

/// The same of a fact of the way of a packet over main tables, whose router is included in the ways for its address.
///
/// # Errors
///
/// Memory that runs out.
pub fn path_parents(
    state: &Stable,
    traced: &TracedTo,
    fact: &Fact,
    into: &mut Vec<Fact>,
) -> Result<NodeKind, AllocError>
    requires traced { MatchOption (path_start fact.now) ⊥ (λ start.
        IsTracedTo state.now start.1.0 traced.now × IsIncluded state.now traced.now start.0.0) }
    ensures kind { IfOk result (λ k. k ≡ kind fact.now) }
    ensures parents { into.new.items
        ≡ (if is_ok result then into.old.items ++ parents state.now fact.now else into.old.items) }
{
    let before = into.len();
    let pushed = push_path_parents(state, traced, fact, into);
    kind_behind(fact, before, pushed, into)
}

/// The same of a fact that holds of a packet that access lists have to let pass, whose router is included in the ways
/// that let it; these stay right of it.
///
/// # Errors
///
/// Memory that runs out.
pub fn flow_parents(
    state: &Stable,
    flowing: &mut FlowTo,
    fact: &Fact,
    into: &mut Vec<Fact>,
) -> Result<NodeKind, AllocError>
    requires holds { holds state.now fact.now ≡ true }
    requires flow { MatchOption (flow_start fact.now) ⊥ (λ start.
        IsFlowTo state.now start.1.0 start.2.0 flowing.old × IsFlowIncluded state.now flowing.old start.0.0) }
    ensures flow { ForSome (flow_start fact.now) (λ start. IsFlowTo state.now start.1.0 start.2.0 flowing.new) }
    ensures kind { IfOk result (λ k. k ≡ kind fact.now) }
    ensures parents { into.new.items
        ≡ (if is_ok result then into.old.items ++ parents state.now fact.now else into.old.items) }
{
    let before = into.len();
    let pushed = push_flow_parents(state, flowing, fact, into);
    kind_behind(fact, before, pushed, into)
}
