//! Whether a packet arrives, without memory.

ghost use Rattle.std.specs.Prelude.{◌≡◌, ◌≤◌, slice_get};
ghost use Rattle.std.specs.Option.{option_map};
ghost use Rattle.nc_types.specs.declared.TheConstants.{HOP_LIMIT};
ghost use Rattle.nc_tables.specs.Flows.{flows, flow_step_at};
ghost use Rattle.nc_tables.specs.Forwarding.{traces, all_trace, step_at, all_step_at};
ghost use Rattle.nc_trace.specs.Found.{ways_out};
ghost use Rattle.nc_trace.specs.Traced.{arrives_as, step_as};
ghost use Rattle.nc_trace.specs.Views.{outcome_view};
ghost use Rattle.nc_underlay.specs.Distances.{AreFewest};

use crate::alternative::Outcome;
use crate::hops::{is_within, leads_on};
use crate::levels::{asked_of, fewest_hops};
use crate::packet::{By, Packet};
use crate::taken::taken;
use crate::ways::alternative_at;
use nc_tables::Stable;
use nc_types::{Addr, HOP_LIMIT, ROUTER_LIMIT, RouterId};

// The fewest hops over which a packet for an address arrives from each router.
fn fewest_by(state: &Stable, addr: Addr, by: By) -> [u8; ROUTER_LIMIT]
    ensures { AreFewest (λ hops router. arrives_as state.now by hops router addr.0) result }
{
    fewest_hops(asked_of(state, addr, by))
}

/// Whether a packet for an address arrives from a router by some way of the main tables, over at most so many hops, 0
/// to [`nc_types::HOP_LIMIT`]: at the owner of the address, or on a network on which it is delivered. From a router
/// that doesn't exist none does. Takes no memory.
pub fn arrives(state: &Stable, router: RouterId, addr: Addr, hops: u8) -> bool
    requires { hops ≤ HOP_LIMIT }
    ensures { result ≡ traces state.now.routers state.now.base state.now.bgp state.now.main hops router.0 addr.0 }
{
    is_within(&fewest_by(state, addr, By::SomeWay), router, hops)
}

/// Whether there is a way, and it arrives by each. Takes no memory.
pub fn all_arrive(state: &Stable, router: RouterId, addr: Addr, hops: u8) -> bool
    requires { hops ≤ HOP_LIMIT }
    ensures { result ≡ all_trace state.now.routers state.now.base state.now.bgp state.now.main hops router.0 addr.0 }
{
    is_within(&fewest_by(state, addr, By::EachWay), router, hops)
}

/// Whether a packet from one address to another arrives from a router by some way of the main tables on which access
/// lists let it pass, over at most so many hops, 0 to [`nc_types::HOP_LIMIT`]: at the owner of the address, or on a
/// network on which it is delivered. What comes in at the router itself is not asked (profile). From a router that
/// doesn't exist none does. Takes no memory.
pub fn flows(state: &Stable, router: RouterId, from: Addr, to: Addr, hops: u8) -> bool
    requires { hops ≤ HOP_LIMIT }
    ensures { result ≡ flows state.now from.0 to.0 hops router.0 }
{
    is_within(&fewest_by(state, to, By::Filtered(from)), router, hops)
}

// What comes of a packet by the alternative at a place; `None` where there is no such alternative or router.
fn outcome_at(state: &Stable, router: RouterId, packet: Packet, place: u32) -> Option<Outcome>
    ensures { option_map outcome_view result
        ≡ option_map (λ way. way.outcome) (slice_get (ways_out state.now packet router.0) place) }
{
    if (router.0 as usize) >= state.network().routers().len() {
        return None;
    }
    let way = alternative_at(state, router, packet.to, place)?;
    Some(taken(state, router, packet, way).outcome)
}

// Whether the alternative at a place leads on over at most so many hops.
fn step_by(state: &Stable, router: RouterId, addr: Addr, place: u32, hops: u8, by: By) -> bool
    ensures { result ≡ step_as state.now by router.0 addr.0 place hops }
{
    if HOP_LIMIT < hops {
        return false;
    }
    match outcome_at(state, router, by.packet(addr), place) {
        Some(outcome) => leads_on(&fewest_by(state, addr, by), outcome, hops),
        None => false,
    }
}

/// Whether the alternative at a place of a router for an address delivers a packet, or leads to where it arrives by
/// some way, over at most so many hops, that one counted. It doesn't where the hops are more than
/// [`nc_types::HOP_LIMIT`], and where there is no such alternative or router. Takes no memory.
pub fn step_at(state: &Stable, router: RouterId, addr: Addr, place: u32, hops: u8) -> bool
    ensures { result ≡ step_at state.now.routers state.now.base state.now.bgp state.now.main
        router.0 addr.0 place hops }
{
    step_by(state, router, addr, place, hops, By::SomeWay)
}

/// The same where each way has to lead on from there.
pub fn all_step_at(state: &Stable, router: RouterId, addr: Addr, place: u32, hops: u8) -> bool
    ensures { result ≡ all_step_at state.now.routers state.now.base state.now.bgp state.now.main
        router.0 addr.0 place hops }
{
    step_by(state, router, addr, place, hops, By::EachWay)
}

/// Whether access lists let a packet from one address to another pass by the alternative at a place of a router, and
/// it is delivered there, or arrives by some way from where that leads, over at most so many hops, that one counted. It
/// doesn't where the hops are more than [`nc_types::HOP_LIMIT`], and where there is no such alternative or router. Takes
/// no memory.
pub fn flow_step_at(
    state: &Stable,
    router: RouterId,
    from: Addr,
    to: Addr,
    place: u32,
    hops: u8,
) -> bool
    ensures { result ≡ flow_step_at state.now from.0 to.0 router.0 place hops }
{
    step_by(state, router, to, place, hops, By::Filtered(from))
}
