//! Over how few hops a packet arrives from each router, by levels: those from which it does with no hop left, with
//! one, and so on, until a level has no router more, or no hop is left to try.

ghost use Rattle.std.specs.Prelude.{◌≡◌, ◌+◌, ◌≤◌, ◌<◌, ◌&&◌, ◌==◌, None, false, ℕ, nat_lt, length};
ghost use Rattle.std.specs.Option.{option_map_or};
ghost use Rattle.nc_types.specs.declared.TheConstants.{HOP_LIMIT, ROUTER_LIMIT};
ghost use Rattle.nc_tables.specs.Forwarding.{arrives_by, some_way, each_way};
ghost use Rattle.nc_trace.specs.Views.{outcome_view};
ghost use Rattle.nc_underlay.specs.Distances.{fewest_of, is_earlier};
ghost use Rattle.nc_trace.specs.Asked.{IsAsked};
ghost use Rattle.nc_trace.specs.Found.{ways_out};
ghost use Rattle.nc_tables.specs.Reach.{owns};
ghost use Rattle.nc_trace.specs.Levels.{AreFewest, AreMarked, AreRight, over, passes_as};
ghost use Rattle.nc_trace.specs.Packets.{packet_of};

use crate::alternative::Outcome;
use crate::packet::By;
use crate::ways::Ways;
use nc_tables::Stable;
use nc_types::{Addr, HOP_LIMIT, ROUTER_LIMIT, RouterId};

/// The number of a router from which no packet arrives.
pub(crate) const NEVER: u8 = HOP_LIMIT + 1;

/// Whether a packet is delivered, or goes to a router from which it arrives over fewer hops.
pub(crate) fn arrives_earlier(fewest: &[u8; ROUTER_LIMIT], hops: u8, outcome: Outcome) -> bool
    requires { hops ≤ HOP_LIMIT }
    ensures { result ≡ arrives_by (is_earlier fewest.now hops) (outcome_view outcome) }
{
    match outcome {
        Outcome::Deliver => true,
        Outcome::Go(next, _) => match fewest.get(next.0 as usize) {
            Some(number) => *number < hops,
            None => false,
        },
        Outcome::Lost => false,
    }
}

// Whether by some way.
fn some_passes(ways: Ways, fewest: &[u8; ROUTER_LIMIT], hops: u8) -> bool
    requires { hops ≤ HOP_LIMIT }
    ensures { result ≡ some_way (λ way. arrives_by (is_earlier fewest.now hops) way.outcome) ways.entry }
{
    let mut ways = ways;
    'ways: while let Some(way) = ways.next() {
        if arrives_earlier(fewest, hops, way.outcome) {
            return true;
        }
    }
    false
}

// Whether there is a way, and by each.
fn each_passes(ways: Ways, fewest: &[u8; ROUTER_LIMIT], hops: u8) -> bool
    requires { hops ≤ HOP_LIMIT }
    ensures { result ≡ each_way (λ way. arrives_by (is_earlier fewest.now hops) way.outcome) ways.entry }
{
    let mut ways = ways;
    let mut some = false;
    'ways: while let Some(way) = ways.next() {
        if !arrives_earlier(fewest, hops, way.outcome) {
            return false;
        }
        some = true;
    }
    some
}

/// What is asked of the routers of a state: whether a packet for an address arrives, by each way or by some.
#[derive(Clone, Copy)]
pub(crate) struct Question<'a> {
    pub(crate) state: &'a Stable,
    pub(crate) addr: Addr,
    pub(crate) owner: Option<RouterId>,
    pub(crate) by: By,
}

/// Whether a router owns the address.
pub(crate) fn is_owner(asked: Question, router: RouterId) -> bool
    ensures { result ≡ option_map_or (λ o. o.0 == router.0) asked.entry.owner false }
{
    match asked.owner {
        Some(owner) => owner == router,
        None => false,
    }
}

// Whether a router owns the address, or its ways, some or each, lead to where a packet arrives
// over fewer hops.
fn passes(asked: Question, router: RouterId, fewest: &[u8; ROUTER_LIMIT], hops: u8) -> bool
    requires router { router.0 < length asked.state.now.routers }
    requires asked { IsAsked asked }
    requires hops { hops ≤ HOP_LIMIT }
    ensures { result ≡ passes_as asked.entry.state.now asked.entry.by asked.entry.addr.0
        (is_earlier fewest.now hops) router.0 }
{
    if is_owner(asked, router) {
        return true;
    }
    let ways = Ways::of(asked.state, router, asked.by.packet(asked.addr));
    if asked.by.is_each() {
        each_passes(ways, fewest, hops)
    } else {
        some_passes(ways, fewest, hops)
    }
}

// Whether a packet arrives from a router over so many hops, and it has no lower number.
fn is_new(asked: Question, router: RouterId, fewest: &[u8; ROUTER_LIMIT], hops: u8) -> bool
    requires router { router.0 < length asked.state.now.routers }
    requires few { length asked.state.now.routers ≤ ROUTER_LIMIT }
    requires asked { IsAsked asked }
    requires hops { hops ≤ HOP_LIMIT }
    requires known { AreRight asked.state.now asked.by asked.addr.0 None hops fewest.now }
    ensures { result ≡ (nat_lt hops (fewest_of fewest.now router.0)
        && over asked.entry.state.now asked.entry.by asked.entry.addr.0 None hops router.0) }
{
    if fewest[router.0 as usize] <= hops {
        return false;
    }
    passes(asked, router, fewest, hops)
}

// Gives this number to the routers of the level that have none yet; whether there are such.
fn mark_level(asked: Question, hops: u8, fewest: &mut [u8; ROUTER_LIMIT]) -> bool
    requires asked { IsAsked asked }
    requires hops { hops ≤ HOP_LIMIT }
    requires before { AreMarked asked.state.now asked.by asked.addr.0 None hops fewest.old }
    ensures marked { AreMarked asked.entry.state.now asked.entry.by asked.entry.addr.0 None
        (hops + 1) fewest.new }
    ensures same { result ≡ false → fewest.new ≡ fewest.old }
{
    let count = asked.state.network().routers().len();
    let mut more = false;
    'routers: for router in 0..count {
        if is_new(asked, RouterId(router as u32), fewest, hops) {
            fewest[router] = hops;
            more = true;
        }
    }
    more
}

// The router that owns an address.
fn owner_of(state: &Stable, addr: Addr) -> Option<RouterId>
    ensures { (router : ℕ) → option_map_or (λ o. o.0 == router) result false
        ≡ owns state.now.routers router addr.0 }
{
    let network = state.network();
    let _valid = network.routers();
    let (owner, _) = network.owner_of(addr)?;
    Some(owner)
}

/// What is asked of an address. Its owner is looked up here, once.
pub(crate) fn asked_of(state: &Stable, addr: Addr, by: By) -> Question
    ensures asked { IsAsked result }
    ensures state { result.state.now ≡ state.now }
    ensures addr { result.addr ≡ addr }
    ensures by { result.by ≡ by }
{
    let _valid = state.network();
    Question {
        state,
        addr,
        owner: owner_of(state, addr),
        by,
    }
}

/// For each router the fewest hops over which a packet arrives.
pub(crate) fn fewest_hops(asked: Question) -> [u8; ROUTER_LIMIT]
    requires { IsAsked asked }
    ensures { AreFewest asked.entry.state.now asked.entry.by asked.entry.addr.0 None result }
{
    let mut fewest = [NEVER; ROUTER_LIMIT];
    let mut hops = 0;
    'levels: while hops <= HOP_LIMIT {
        if !mark_level(asked, hops, &mut fewest) {
            return fewest;
        }
        hops += 1;
    }
    fewest
}
