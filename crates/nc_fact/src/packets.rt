//! The facts of tests of packets: the routers from which these ask of one whether it arrives, and what they find.

ghost use Rattle.std.specs.Prelude.{◌≡◌, [], ◌∷◌, filter, IfOk, if◌then◌else◌};
ghost use Rattle.std.specs.Option.{option_map_or, ForSome};
ghost use Rattle.nc_types.specs.declared.TheConstants.{HOP_LIMIT};
ghost use Rattle.nc_types.specs.Network.{router_named};
ghost use Rattle.nc_tables.specs.State.{StateView};
ghost use Rattle.nc_trace.specs.Flow.{IsFlowTo, IsFlowIncluded};
ghost use Rattle.nc_trace.specs.Traced.{IsIncluded, IsTracedTo};
ghost use Rattle.nc_fact.specs.declared.fact.Fact.TheVariants as fact;
ghost use Rattle.nc_fact.specs.Facts.{holds};
ghost use Rattle.nc_fact.specs.Tested.{packet_from, packet_of, flow_packet_from, flow_packet_of};

use crate::fact::Fact;
use nc_tables::Stable;
use nc_trace::{FlowTo, TracedTo};
use nc_types::{Addr, HOP_LIMIT, RouterId, TestCommand, Text};
use std::alloc::{AllocError, Global};

// A fact that was found to hold, or none.
fn held_where(alloc: Global, holds: bool, fact: Fact) -> Result<Vec<Fact>, AllocError>
    ensures { IfOk result (λ facts. facts.items ≡ (if holds then fact ∷ [] else [])) }
{
    let mut facts = Vec::new(alloc);
    if holds {
        facts.push(fact)?;
    }
    Ok(facts)
}

// The fact of a packet that arrives by some way.
#[tactic(auto, unfolding(crate::specs::Facts::holds))]
fn asked_reach(
    alloc: Global,
    traced: &TracedTo,
    router: RouterId,
    addr: Addr,
) -> Result<Vec<Fact>, AllocError>
    ensures { (s : StateView) → IsTracedTo s addr.0 traced.now → IsIncluded s traced.now router.0
        → IfOk result (λ facts. facts.items ≡ filter (holds s) (fact.Trace router addr HOP_LIMIT ∷ [])) }
{
    let arrives = traced.arrives(router, HOP_LIMIT);
    let facts = held_where(alloc, arrives, Fact::Trace(router, addr, HOP_LIMIT))?;
    Ok(facts)
}

// The fact of a packet that arrives by every way.
#[tactic(auto, unfolding(crate::specs::Facts::holds))]
fn asked_every(
    alloc: Global,
    traced: &TracedTo,
    router: RouterId,
    addr: Addr,
) -> Result<Vec<Fact>, AllocError>
    ensures { (s : StateView) → IsTracedTo s addr.0 traced.now → IsIncluded s traced.now router.0
        → IfOk result (λ facts. facts.items ≡ filter (holds s) (fact.AllTrace router addr HOP_LIMIT ∷ [])) }
{
    let arrives = traced.all_arrive(router, HOP_LIMIT);
    let facts = held_where(alloc, arrives, Fact::AllTrace(router, addr, HOP_LIMIT))?;
    Ok(facts)
}

/// The facts of a test of a packet by some way.
pub(crate) fn facts_of_reach(
    alloc: Global,
    state: &Stable,
    traced: &TracedTo,
    name: &Text,
    addr: Addr,
) -> Result<Vec<Fact>, AllocError>
    requires traced { ForSome (packet_from state.now name.now addr) (λ start.
        IsTracedTo state.now start.1.0 traced.now × IsIncluded state.now traced.now start.0.0) }
    ensures { IfOk result (λ facts. facts.items ≡ filter (holds state.now)
        (option_map_or (λ router. fact.Trace (record { 0 = router }) addr HOP_LIMIT ∷ [])
        (router_named state.now.routers name.now) [])) }
{
    match state.network().router_named(name.bytes()) {
        Some(router) => asked_reach(alloc, traced, router, addr),
        None => Ok(Vec::new(alloc)),
    }
}

/// The facts of a test of a packet by every way.
pub(crate) fn facts_of_every(
    alloc: Global,
    state: &Stable,
    traced: &TracedTo,
    name: &Text,
    addr: Addr,
) -> Result<Vec<Fact>, AllocError>
    requires traced { ForSome (packet_from state.now name.now addr) (λ start.
        IsTracedTo state.now start.1.0 traced.now × IsIncluded state.now traced.now start.0.0) }
    ensures { IfOk result (λ facts. facts.items ≡ filter (holds state.now)
        (option_map_or (λ router. fact.AllTrace (record { 0 = router }) addr HOP_LIMIT ∷ [])
        (router_named state.now.routers name.now) [])) }
{
    match state.network().router_named(name.bytes()) {
        Some(router) => asked_every(alloc, traced, router, addr),
        None => Ok(Vec::new(alloc)),
    }
}

// The fact of a packet that is let pass by some way and arrives.
#[tactic(auto, unfolding(crate::specs::Facts::holds))]
fn asked_flow(
    alloc: Global,
    flowing: &FlowTo,
    router: RouterId,
    from: Addr,
    to: Addr,
) -> Result<Vec<Fact>, AllocError>
    ensures { (s : StateView) → IsFlowTo s from.0 to.0 flowing.now → IsFlowIncluded s flowing.now router.0
        → IfOk result (λ facts. facts.items ≡ filter (holds s) (fact.Flow router from to HOP_LIMIT ∷ [])) }
{
    let arrives = flowing.arrives(router, HOP_LIMIT);
    let facts = held_where(alloc, arrives, Fact::Flow(router, from, to, HOP_LIMIT))?;
    Ok(facts)
}

/// The facts of a test of a packet that access lists let pass.
pub(crate) fn facts_of_flow(
    alloc: Global,
    state: &Stable,
    flowing: &FlowTo,
    name: &Text,
    from: Addr,
    to: Addr,
) -> Result<Vec<Fact>, AllocError>
    requires flowing { ForSome (flow_packet_from state.now name.now from to) (λ start.
        IsFlowTo state.now start.1.0 start.2.0 flowing.now × IsFlowIncluded state.now flowing.now start.0.0) }
    ensures { IfOk result (λ facts. facts.items ≡ filter (holds state.now)
        (option_map_or (λ router. fact.Flow (record { 0 = router }) from to HOP_LIMIT ∷ [])
        (router_named state.now.routers name.now) [])) }
{
    match state.network().router_named(name.bytes()) {
        Some(router) => asked_flow(alloc, flowing, router, from, to),
        None => Ok(Vec::new(alloc)),
    }
}

// The router of a name, with the address of a packet from there.
fn packet_from(state: &Stable, name: &Text, addr: Addr) -> Option<(RouterId, Addr)>
    ensures { result ≡ packet_from state.now name.now addr }
{
    let router = state.network().router_named(name.bytes())?;
    Some((router, addr))
}

/// From which router a test asks of a packet whether it arrives, and for which address; `None` where it asks of none,
/// or of a router that doesn't exist.
pub fn packet_of(state: &Stable, test: &TestCommand) -> Option<(RouterId, Addr)>
    ensures { result ≡ packet_of state.now test.now }
{
    match test {
        TestCommand::Reach(name, addr) | TestCommand::Every(name, addr) => {
            packet_from(state, name, *addr)
        }
        TestCommand::Rib(_, _, _)
        | TestCommand::Bgp(_, _, _)
        | TestCommand::Session(_, _)
        | TestCommand::Flow(_, _, _)
        | TestCommand::Element(_, _) => None,
    }
}

// The router of a name, with the addresses of a packet from there.
fn flow_packet_from(
    state: &Stable,
    name: &Text,
    from: Addr,
    to: Addr,
) -> Option<(RouterId, Addr, Addr)>
    ensures { result ≡ flow_packet_from state.now name.now from to }
{
    let router = state.network().router_named(name.bytes())?;
    Some((router, from, to))
}

/// From which router a test asks of a packet whether it is let pass and arrives, from which address that comes and to
/// which it goes; `None` where it asks of none, or of a router that doesn't exist.
pub fn flow_packet_of(state: &Stable, test: &TestCommand) -> Option<(RouterId, Addr, Addr)>
    ensures { result ≡ flow_packet_of state.now test.now }
{
    match test {
        TestCommand::Flow(name, from, to) => flow_packet_from(state, name, *from, *to),
        TestCommand::Rib(_, _, _)
        | TestCommand::Bgp(_, _, _)
        | TestCommand::Session(_, _)
        | TestCommand::Reach(_, _)
        | TestCommand::Every(_, _)
        | TestCommand::Element(_, _) => None,
    }
}
