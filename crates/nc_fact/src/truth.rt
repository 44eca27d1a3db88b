//! Whether a fact holds, and its rank.

ghost use Rattle.std.specs.Prelude.{◌≡◌, ◌&&◌, is_some, nat_le};
ghost use Rattle.nc_types.specs.declared.TheConstants.{HOP_LIMIT};
ghost use Rattle.nc_tables.specs.Flows.{flows};
ghost use Rattle.nc_tables.specs.Forwarding.{traces, all_trace};
ghost use Rattle.nc_tables.specs.Reach.{reaches};
ghost use Rattle.nc_tables.specs.Rounds.{session_by};
ghost use Rattle.nc_policy.specs.Indexes.{ArePolicies};
ghost use Rattle.nc_fact.specs.Facts.{hops_by, holds, rank};

use crate::bgp::{accepted_of, chosen_of, has_active, has_origin, has_source, message_of};
use crate::exits::{has_hit, hits, leads_to};
use crate::fact::Fact;
use crate::ranks::{
    aggregate_rank, chosen_rank, contrib_rank, entry_rank, message_rank, origin_rank,
};
use crate::rows::{base_rows, has_router, main_rows, static_row};
use nc_filter::passes;
use nc_policy::Policies;
use nc_tables::Stable;
use nc_trace::{all_arrive, all_step_at, arrives, flow_step_at, step_at};
use nc_types::{Addr, HOP_LIMIT, RouterId};

// Whether a packet comes from a router to the owner of an address over at most so many hops.
fn reaches(state: &Stable, router: RouterId, addr: Addr, hops: u8) -> bool
    ensures { result ≡ (nat_le hops HOP_LIMIT
        && reaches state.now.routers state.now.base hops router.0 addr.0) }
{
    if HOP_LIMIT < hops || !has_router(state, router) {
        return false;
    }
    nc_underlay::reaches(state.network(), state.base(), router, addr, hops)
}

// Whether it does by the row at a place of the base table, the hop by that row counted.
fn hops_by(state: &Stable, router: RouterId, addr: Addr, row: u32, hops: u8) -> bool
    ensures { result ≡ hops_by state.now router.0 addr.0 row hops }
{
    if hops == 0 || HOP_LIMIT < hops || !hits(state, router, addr, row) {
        return false;
    }
    match leads_to(state, router, addr, row) {
        Some((next, _)) => reaches(state, next, addr, hops - 1),
        None => false,
    }
}

// Whether a packet arrives from a router by some way, over at most so many hops.
fn traces(state: &Stable, router: RouterId, addr: Addr, hops: u8) -> bool
    ensures { result ≡ (nat_le hops HOP_LIMIT
        && traces state.now.routers state.now.base state.now.bgp state.now.main hops router.0 addr.0) }
{
    if HOP_LIMIT < hops {
        return false;
    }
    arrives(state, router, addr, hops)
}

// Whether there is a way, and it arrives by each.
fn all_trace(state: &Stable, router: RouterId, addr: Addr, hops: u8) -> bool
    ensures { result ≡ (nat_le hops HOP_LIMIT
        && all_trace state.now.routers state.now.base state.now.bgp state.now.main hops router.0 addr.0) }
{
    if HOP_LIMIT < hops {
        return false;
    }
    all_arrive(state, router, addr, hops)
}

// Whether a packet is let pass by some way and arrives, over at most so many hops.
fn flows(state: &Stable, router: RouterId, from: Addr, to: Addr, hops: u8) -> bool
    ensures { result ≡ (nat_le hops HOP_LIMIT && flows state.now from.0 to.0 hops router.0) }
{
    if HOP_LIMIT < hops {
        return false;
    }
    nc_trace::flows(state, router, from, to, hops)
}

// Whether the session of the neighbor statement at a place of a router is established.
fn has_session(state: &Stable, router: RouterId, place: u32) -> bool
    ensures { result ≡ is_some (session_by state.now.sessions router.0 place) }
{
    if !has_router(state, router) {
        return false;
    }
    state.sessions().get(router, place).is_some()
}

/// Whether a fact holds. A fact of a router, an interface, an element, a statement, a row or an alternative
/// that doesn't exist doesn't hold, nor does one of more than [`HOP_LIMIT`] hops. The policies are those of the
/// state's routers. Takes no memory.
#[tactic(auto, unfolding(crate::specs::Facts::holds))]
pub fn holds(state: &Stable, policies: &Policies, fact: &Fact) -> bool
    requires policies { ArePolicies state.now.routers policies.now }
    ensures { result ≡ holds state.now fact.now }
{
    match *fact {
        Fact::Element(element) => element.0 < state.network().element_count(),
        Fact::Connected(router, iface) => state.network().up(router, iface).is_some(),
        Fact::Static(router, place) => static_row(state, router, place).is_some(),
        Fact::Base(router, row) => (row as usize) < base_rows(state, router).len(),
        Fact::Resolve(router, addr) => has_hit(state, router, addr),
        Fact::NetSource(router, prefix) => has_source(state, router, prefix),
        Fact::Reach(router, addr, hops) => reaches(state, router, addr, hops),
        Fact::Hop(router, addr, row, hops) => hops_by(state, router, addr, row, hops),
        Fact::Session(router, place) => has_session(state, router, place),
        Fact::Origin(router, place) => has_origin(state, router, place),
        Fact::Contrib(router, place) | Fact::Aggregate(router, place) => {
            has_active(state, router, place)
        }
        Fact::Message(router, place, prefix) => {
            message_of(state, policies, router, place, prefix).is_some()
        }
        Fact::Entry(router, place, prefix) => {
            accepted_of(state, policies, router, place, prefix).is_some()
        }
        Fact::Chosen(router, prefix, place) => chosen_of(state, router, prefix, place).is_some(),
        Fact::Main(router, row) => (row as usize) < main_rows(state, router).len(),
        Fact::Step(router, addr, way, hops) => step_at(state, router, addr, way, hops),
        Fact::Trace(router, addr, hops) => traces(state, router, addr, hops),
        Fact::AllStep(router, addr, way, hops) => all_step_at(state, router, addr, way, hops),
        Fact::AllTrace(router, addr, hops) => all_trace(state, router, addr, hops),
        Fact::Pass(inward, router, iface, from, to) => {
            passes(state.network(), router, iface, inward, from, to)
        }
        Fact::FlowStep(hops, router, from, to, way) => {
            flow_step_at(state, router, from, to, way, hops)
        }
        Fact::Flow(router, from, to, hops) => flows(state, router, from, to, hops),
    }
}

/// The rank of a fact: above that of each fact from which it follows. That of a route's fact is 0 where there is
/// no such route. The policies are those of the state's routers. Takes no memory.
#[tactic(auto, unfolding(crate::specs::Facts::rank))]
pub fn rank(state: &Stable, policies: &Policies, fact: &Fact) -> u32
    requires policies { ArePolicies state.now.routers policies.now }
    ensures { result ≡ rank state.now fact.now }
{
    match *fact {
        Fact::Element(_) => 0,
        Fact::Connected(_, _) => 1,
        Fact::Static(_, _) | Fact::Pass(_, _, _, _, _) => 2,
        Fact::Base(_, _) => 3,
        Fact::Resolve(_, _) | Fact::NetSource(_, _) => 4,
        Fact::Hop(_, _, _, hops) => 5 + 2 * u32::from(hops),
        Fact::Reach(_, _, hops) => 6 + 2 * u32::from(hops),
        Fact::Session(_, _) => 70,
        Fact::Origin(router, place) => origin_rank(state, router, place),
        Fact::Contrib(router, place) => contrib_rank(state, router, place),
        Fact::Aggregate(router, place) => aggregate_rank(state, router, place),
        Fact::Message(router, place, prefix) => {
            message_rank(state, policies, router, place, prefix)
        }
        Fact::Entry(router, place, prefix) => entry_rank(state, policies, router, place, prefix),
        Fact::Chosen(router, prefix, place) => chosen_rank(state, router, prefix, place),
        Fact::Main(_, _) => 140_000,
        Fact::Step(_, _, _, hops)
        | Fact::AllStep(_, _, _, hops)
        | Fact::FlowStep(hops, _, _, _, _) => 150_000 + 2 * u32::from(hops),
        Fact::Trace(_, _, hops) | Fact::AllTrace(_, _, hops) | Fact::Flow(_, _, _, hops) => {
            150_001 + 2 * u32::from(hops)
        }
    }
}
