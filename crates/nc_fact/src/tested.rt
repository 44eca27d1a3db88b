//! The facts that a test tests.

ghost use Rattle.std.specs.Prelude.{◌≡◌, ◌&&◌, [], ◌∷◌, true, filter, slice_get, All, IfOk, None};
ghost use Rattle.std.specs.Option.{option_map, option_map_or, ForSome};
ghost use Rattle.nc_types.specs.Network.{router_named};
ghost use Rattle.nc_trace.specs.Flow.{IsFlowTo, IsFlowIncluded};
ghost use Rattle.nc_trace.specs.Traced.{IsIncluded, IsTracedTo};
ghost use Rattle.nc_policy.specs.Indexes.{ArePolicies};
ghost use Rattle.nc_fact.specs.declared.fact.Fact.TheVariants as fact;
ghost use Rattle.nc_fact.specs.Facts.{base_rows, holds};
ghost use Rattle.nc_fact.specs.Tested.{hop_from, main_hop, has_hop, asked_rows, asked_routes};
ghost use Rattle.nc_fact.specs.Tested.{asked_entry, asked_of_bgp, asked_session, asked_element};
ghost use Rattle.nc_fact.specs.Tested.{packet_of, flow_packet_of, tested_facts};

use crate::bgp::{chosen_at, chosen_of};
use crate::exits::next_hop;
use crate::fact::Fact;
use crate::packets::{facts_of_every, facts_of_flow, facts_of_reach};
use crate::rows::{base_rows, main_rows, main_rows_of};
use crate::truth::holds;
use nc_policy::Policies;
use nc_sessions::place_for;
use nc_tables::{BaseFrom, MainFrom, MainRow, Stable};
use nc_trace::{FlowTo, TracedTo};
use nc_types::{Addr, Prefix, RouterId, TestCommand, Text};
use std::alloc::{AllocError, Global};

// The next hop of a base row, which the row of a static route has.
fn hop_from(state: &Stable, router: RouterId, from: BaseFrom) -> Option<Addr>
    ensures { option_map (λ a. a.0) result ≡ hop_from state.now router.0 from }
{
    match from {
        BaseFrom::Static(route, _) => next_hop(state, router, route),
        BaseFrom::Connected(_) | BaseFrom::Null(_) => None,
    }
}

// The next hop of the base row at a place.
fn base_hop(state: &Stable, router: RouterId, place: u32) -> Option<Addr>
    ensures { option_map (λ a. a.0) result
        ≡ option_map_or (λ row. hop_from state.now router.0 row.from)
        (slice_get (base_rows state.now router.0) place) None }
{
    let row = base_rows(state, router).get(place as usize)?;
    hop_from(state, router, row.from)
}

// The next hop of a main row of a prefix.
fn main_hop(state: &Stable, router: RouterId, prefix: Prefix, from: MainFrom) -> Option<Addr>
    ensures { option_map (λ a. a.0) result ≡ main_hop state.now router.0 prefix from }
{
    match from {
        MainFrom::Base(place) => base_hop(state, router, place),
        MainFrom::Bgp(place) => {
            let chosen = chosen_of(state, router, prefix, place)?;
            Some(chosen.next_hop())
        }
        MainFrom::Discard(_) => None,
    }
}

// Whether a main row has this next hop, where one is asked for.
fn has_hop(state: &Stable, router: RouterId, via: Option<Addr>, row: &MainRow) -> bool
    ensures { result ≡ has_hop state.now router.0 via row.now }
{
    let Some(addr) = via else {
        return true;
    };
    match main_hop(state, router, row.prefix, row.from) {
        Some(hop) => hop == addr,
        None => false,
    }
}

// Whether a main row has the next hop that is asked for, and its fact holds.
fn is_tested(
    state: &Stable,
    policies: &Policies,
    router: RouterId,
    via: Option<Addr>,
    row: &MainRow,
    fact: &Fact,
) -> bool
    requires policies { ArePolicies state.now.routers policies.now }
    ensures { result ≡ (has_hop state.now router.0 via row.now && holds state.now fact.now) }
{
    has_hop(state, router, via, row) && holds(state, policies, fact)
}

// The facts of the main rows of a prefix at a router, with this next hop where one is asked for.
fn asked_rows(
    alloc: Global,
    state: &Stable,
    policies: &Policies,
    router: RouterId,
    prefix: Prefix,
    via: Option<Addr>,
) -> Result<Vec<Fact>, AllocError>
    requires policies { ArePolicies state.now.routers policies.now }
    ensures { IfOk result (λ facts. facts.items
        ≡ filter (holds state.now) (asked_rows state.now router.0 prefix via)) }
{
    let mut facts = Vec::new(alloc);
    let rows = main_rows(state, router);
    let found = main_rows_of(state, router, prefix);
    'rows: for place in found.from..found.to {
        let fact = Fact::Main(router, place as u32);
        if is_tested(state, policies, router, via, &rows[place], &fact) {
            facts.push(fact)?;
        }
    }
    Ok(facts)
}

// The facts of the routes of a prefix that are chosen at a router.
fn asked_routes(
    alloc: Global,
    state: &Stable,
    policies: &Policies,
    router: RouterId,
    prefix: Prefix,
) -> Result<Vec<Fact>, AllocError>
    requires policies { ArePolicies state.now.routers policies.now }
    ensures { IfOk result (λ facts. facts.items
        ≡ filter (holds state.now) (asked_routes state.now router.0 prefix)) }
{
    let mut facts = Vec::new(alloc);
    let Some(row) = chosen_at(state, router, prefix) else {
        return Ok(facts);
    };
    'places: for place in 0..row.count() {
        let chosen = Fact::Chosen(router, prefix, place as u32);
        if holds(state, policies, &chosen) {
            facts.push(chosen)?;
        }
    }
    Ok(facts)
}

// A fact, where it holds.
fn held(
    alloc: Global,
    state: &Stable,
    policies: &Policies,
    fact: Fact,
) -> Result<Vec<Fact>, AllocError>
    requires policies { ArePolicies state.now.routers policies.now }
    ensures { IfOk result (λ facts. facts.items ≡ filter (holds state.now) (fact ∷ [])) }
{
    let mut facts = Vec::new(alloc);
    if holds(state, policies, &fact) {
        facts.push(fact)?;
    }
    Ok(facts)
}

// The fact of what is accepted of a neighbor, by a router's neighbor statement for its address.
fn asked_entry(
    alloc: Global,
    state: &Stable,
    policies: &Policies,
    router: RouterId,
    prefix: Prefix,
    addr: Addr,
) -> Result<Vec<Fact>, AllocError>
    requires policies { ArePolicies state.now.routers policies.now }
    ensures { IfOk result (λ facts. facts.items
        ≡ filter (holds state.now) (asked_entry state.now router.0 prefix addr)) }
{
    match place_for(state.network(), router, addr) {
        Some(place) => held(alloc, state, policies, Fact::Entry(router, place, prefix)),
        None => Ok(Vec::new(alloc)),
    }
}

// The facts of the routes that are chosen, or of what is accepted where a neighbor is named.
fn asked_of_bgp(
    alloc: Global,
    state: &Stable,
    policies: &Policies,
    router: RouterId,
    prefix: Prefix,
    from: Option<Addr>,
) -> Result<Vec<Fact>, AllocError>
    requires policies { ArePolicies state.now.routers policies.now }
    ensures { IfOk result (λ facts. facts.items
        ≡ filter (holds state.now) (asked_of_bgp state.now router.0 prefix from)) }
{
    match from {
        Some(addr) => asked_entry(alloc, state, policies, router, prefix, addr),
        None => asked_routes(alloc, state, policies, router, prefix),
    }
}

// The fact of the session of a router's neighbor statement for an address, where it is established.
fn asked_session(
    alloc: Global,
    state: &Stable,
    policies: &Policies,
    router: RouterId,
    addr: Addr,
) -> Result<Vec<Fact>, AllocError>
    requires policies { ArePolicies state.now.routers policies.now }
    ensures { IfOk result (λ facts. facts.items
        ≡ filter (holds state.now) (asked_session state.now router.0 addr)) }
{
    match place_for(state.network(), router, addr) {
        Some(place) => held(alloc, state, policies, Fact::Session(router, place)),
        None => Ok(Vec::new(alloc)),
    }
}

// The fact of the element that has a line of a router.
fn asked_element(
    alloc: Global,
    state: &Stable,
    policies: &Policies,
    router: RouterId,
    line: u32,
) -> Result<Vec<Fact>, AllocError>
    requires policies { ArePolicies state.now.routers policies.now }
    ensures { IfOk result (λ facts. facts.items
        ≡ filter (holds state.now) (asked_element state.now router.0 line)) }
{
    match state.network().owner(router, line) {
        Some(element) => held(alloc, state, policies, Fact::Element(element)),
        None => Ok(Vec::new(alloc)),
    }
}

// The facts of a test of routes.
fn facts_of_rows(
    alloc: Global,
    state: &Stable,
    policies: &Policies,
    name: &Text,
    prefix: Prefix,
    via: Option<Addr>,
) -> Result<Vec<Fact>, AllocError>
    requires policies { ArePolicies state.now.routers policies.now }
    ensures { IfOk result (λ facts. facts.items ≡ filter (holds state.now)
        (option_map_or (λ router. asked_rows state.now router prefix via)
        (router_named state.now.routers name.now) [])) }
{
    match state.network().router_named(name.bytes()) {
        Some(router) => asked_rows(alloc, state, policies, router, prefix, via),
        None => Ok(Vec::new(alloc)),
    }
}

// The facts of a test of BGP.
fn facts_of_bgp(
    alloc: Global,
    state: &Stable,
    policies: &Policies,
    name: &Text,
    prefix: Prefix,
    from: Option<Addr>,
) -> Result<Vec<Fact>, AllocError>
    requires policies { ArePolicies state.now.routers policies.now }
    ensures { IfOk result (λ facts. facts.items ≡ filter (holds state.now)
        (option_map_or (λ router. asked_of_bgp state.now router prefix from)
        (router_named state.now.routers name.now) [])) }
{
    match state.network().router_named(name.bytes()) {
        Some(router) => asked_of_bgp(alloc, state, policies, router, prefix, from),
        None => Ok(Vec::new(alloc)),
    }
}

// The facts of a test of a session.
fn facts_of_session(
    alloc: Global,
    state: &Stable,
    policies: &Policies,
    name: &Text,
    addr: Addr,
) -> Result<Vec<Fact>, AllocError>
    requires policies { ArePolicies state.now.routers policies.now }
    ensures { IfOk result (λ facts. facts.items ≡ filter (holds state.now)
        (option_map_or (λ router. asked_session state.now router addr)
        (router_named state.now.routers name.now) [])) }
{
    match state.network().router_named(name.bytes()) {
        Some(router) => asked_session(alloc, state, policies, router, addr),
        None => Ok(Vec::new(alloc)),
    }
}

// The facts of a test of an element.
fn facts_of_element(
    alloc: Global,
    state: &Stable,
    policies: &Policies,
    name: &Text,
    line: u32,
) -> Result<Vec<Fact>, AllocError>
    requires policies { ArePolicies state.now.routers policies.now }
    ensures { IfOk result (λ facts. facts.items ≡ filter (holds state.now)
        (option_map_or (λ router. asked_element state.now router line)
        (router_named state.now.routers name.now) [])) }
{
    match state.network().router_named(name.bytes()) {
        Some(router) => asked_element(alloc, state, policies, router, line),
        None => Ok(Vec::new(alloc)),
    }
}

// The facts that a test names and that hold.
#[tactic(auto, unfolding(crate::specs::Tested::tested_facts))]
fn named_facts(
    alloc: Global,
    state: &Stable,
    policies: &Policies,
    traced: &TracedTo,
    flowing: &FlowTo,
    test: &TestCommand,
) -> Result<Vec<Fact>, AllocError>
    requires policies { ArePolicies state.now.routers policies.now }
    requires traced { ForSome (packet_of state.now test.now) (λ start.
        IsTracedTo state.now start.1.0 traced.now × IsIncluded state.now traced.now start.0.0) }
    requires flowing { ForSome (flow_packet_of state.now test.now) (λ start.
        IsFlowTo state.now start.1.0 start.2.0 flowing.now × IsFlowIncluded state.now flowing.now start.0.0) }
    ensures { IfOk result (λ facts. facts.items ≡ tested_facts state.now test.now) }
{
    match test {
        TestCommand::Rib(name, prefix, via) => {
            facts_of_rows(alloc, state, policies, name, *prefix, *via)
        }
        TestCommand::Bgp(name, prefix, from) => {
            facts_of_bgp(alloc, state, policies, name, *prefix, *from)
        }
        TestCommand::Session(name, addr) => facts_of_session(alloc, state, policies, name, *addr),
        TestCommand::Reach(name, addr) => facts_of_reach(alloc, state, traced, name, *addr),
        TestCommand::Every(name, addr) => facts_of_every(alloc, state, traced, name, *addr),
        TestCommand::Flow(name, from, to) => {
            facts_of_flow(alloc, state, flowing, name, *from, *to)
        }
        TestCommand::Element(name, line) => facts_of_element(alloc, state, policies, name, *line),
    }
}

/// The facts that a test tests, in order: those that it names and that hold. A test of a router that doesn't exist
/// has none, nor has one of a session or a neighbor of a router without a neighbor statement for the address, nor one
/// of an element by a line that no element has. The policies are those of the state's routers. Where [`packet_of`]
/// tells of the test from where it asks of a packet, that router is included in the ways for the packet's address,
/// and where [`flow_packet_of`] does, in the ways that let the packet pass; for any other test they may be the ways
/// for any.
///
/// # Errors
///
/// Memory that runs out.
pub fn facts_of(
    alloc: Global,
    state: &Stable,
    policies: &Policies,
    traced: &TracedTo,
    flowing: &FlowTo,
    test: &TestCommand,
) -> Result<Vec<Fact>, AllocError>
    requires policies { ArePolicies state.now.routers policies.now }
    requires traced { ForSome (packet_of state.now test.now) (λ start.
        IsTracedTo state.now start.1.0 traced.now × IsIncluded state.now traced.now start.0.0) }
    requires flowing { ForSome (flow_packet_of state.now test.now) (λ start.
        IsFlowTo state.now start.1.0 start.2.0 flowing.now × IsFlowIncluded state.now flowing.now start.0.0) }
    ensures facts { IfOk result (λ facts. facts.items ≡ tested_facts state.now test.now) }
    ensures hold { IfOk result (λ facts. All (λ f. holds state.now f ≡ true) facts.items) }
{
    let facts = named_facts(alloc, state, policies, traced, flowing, test)?;
    Ok(facts)
}
