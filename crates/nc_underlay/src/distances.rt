//! Over how few hops base tables lead from each router to an address, by levels: the owner with no hop, the routers
//! that lead to it with one, and so on, until a level has no router more, or no hop is left to try.

ghost use Rattle.std.specs.Prelude.{◌≡◌, ◌+◌, ◌≤◌, ◌<◌, ◌&&◌, ℕ, List, false, nat_lt, length, IfOk};
ghost use Rattle.std.specs.List.{list_any};
ghost use Rattle.nc_types.specs.declared.TheConstants.{HOP_LIMIT, ROUTER_LIMIT};
ghost use Rattle.nc_types.specs.Config.{ConfigView};
ghost use Rattle.nc_tables.specs.declared.base.BaseRow.{BaseRow};
ghost use Rattle.nc_tables.specs.Reach.{reaches};
ghost use Rattle.nc_underlay.specs.Distances.{fewest_of, is_earlier, within, passes, AreRight, AreMarked, AreDistances};
ghost use Rattle.nc_underlay.specs.Toward.{IsToward};

use crate::toward::Toward;
use nc_tables::BaseTables;
use nc_types::{Addr, HOP_LIMIT, Network, ROUTER_LIMIT, RouterId};
use std::alloc::{AllocError, Global};
use std::marker::Model;

// The number of a router from which base tables don't lead to the address.
const NEVER: u8 = HOP_LIMIT + 1;

// Whether the number of a router is lower than these hops.
fn is_earlier(fewest: &[u8; ROUTER_LIMIT], hops: u8, router: RouterId) -> bool
    requires { hops ≤ HOP_LIMIT }
    ensures { result ≡ is_earlier fewest.now hops router.0 }
{
    match fewest.get(router.0 as usize) {
        Some(number) => *number < hops,
        None => false,
    }
}

// Whether that of some of these routers is.
fn some_earlier(nexts: &[RouterId], fewest: &[u8; ROUTER_LIMIT], hops: u8) -> bool
    requires { hops ≤ HOP_LIMIT }
    ensures { result ≡ list_any (λ next. is_earlier fewest.now hops next.0) nexts.now }
{
    nexts.iter().any(|next| is_earlier(fewest, hops, *next))
}

// Whether a router owns the address, or its hits lead to a router with a lower number.
fn passes(toward: &Toward, router: RouterId, fewest: &[u8; ROUTER_LIMIT], hops: u8) -> bool
    requires { hops ≤ HOP_LIMIT }
    ensures { (routers : List ConfigView) (tables : List (List BaseRow)) (addr : ℕ)
        → IsToward routers tables addr toward.now
        → result ≡ passes routers tables addr (is_earlier fewest.now hops) router.0 }
{
    if toward.is_owner(router) {
        return true;
    }
    some_earlier(toward.nexts(router), fewest, hops)
}

// Whether base tables lead from a router over so many hops, and the router has no lower number.
fn is_new(toward: &Toward, router: RouterId, fewest: &[u8; ROUTER_LIMIT], hops: u8) -> bool
    requires router { router.0 < ROUTER_LIMIT }
    requires hops { hops ≤ HOP_LIMIT }
    ensures { (routers : List ConfigView) (tables : List (List BaseRow)) (addr : ℕ)
        → IsToward routers tables addr toward.now
        → AreRight (within routers tables addr) hops fewest.now
        → result ≡ (nat_lt hops (fewest_of fewest.now router.0) && reaches routers tables hops router.0 addr) }
{
    if fewest[router.0 as usize] <= hops {
        return false;
    }
    passes(toward, router, fewest, hops)
}

// Gives this number to the routers of the level that have none yet; whether there are such.
fn mark_level(toward: &Toward, hops: u8, fewest: &mut [u8; ROUTER_LIMIT]) -> bool
    requires few { length toward.now.nexts.items ≤ ROUTER_LIMIT }
    requires hops { hops ≤ HOP_LIMIT }
    ensures marked { (routers : List ConfigView) (tables : List (List BaseRow)) (addr : ℕ)
        → IsToward routers tables addr toward.now
        → AreMarked (within routers tables addr) hops fewest.old
        → AreMarked (within routers tables addr) (hops + 1) fewest.new }
    ensures same { result ≡ false → fewest.new ≡ fewest.old }
{
    let mut more = false;
    let count = toward.nexts.len();
    'routers: for router in 0..count {
        if is_new(toward, RouterId(router as u32), fewest, hops) {
            fewest[router] = hops;
            more = true;
        }
    }
    more
}

// The fewest hops of each router.
fn fewest_hops(toward: &Toward) -> [u8; ROUTER_LIMIT]
    requires { length toward.now.nexts.items ≤ ROUTER_LIMIT }
    ensures { (routers : List ConfigView) (tables : List (List BaseRow)) (addr : ℕ)
        → IsToward routers tables addr toward.now
        → AreDistances routers tables addr result }
{
    let mut fewest = [NEVER; ROUTER_LIMIT];
    let mut hops = 0;
    'levels: while hops <= HOP_LIMIT {
        if !mark_level(toward, hops, &mut fewest) {
            return fewest;
        }
        hops += 1;
    }
    fewest
}

/// Over how few hops base tables lead from each router to the owner of one address. It doesn't hold the tables that
/// it was made of; what it answers is so for any network and tables of which it is right.
#[derive(Drop)]
pub(crate) struct Distances {
    fewest: [u8; ROUTER_LIMIT],
}

impl Model for Distances {
    ghost use Rattle.std.specs.Prelude.{List, ℕ};

    ghost Value = { List ℕ };

    ghost view = { λ d. d.fewest };
}

impl Distances {
    /// Those to an address, by the base tables of a network. It finds once where the rows of each router lead, and
    /// then goes over the routers for one count of hops after the other, as long as each has a router more.
    ///
    /// # Errors
    ///
    /// Memory that runs out.
    pub(crate) fn new(
        alloc: Global,
        network: &Network,
        base: &BaseTables,
        addr: Addr,
    ) -> Result<Distances, AllocError>
        requires { length base.now ≡ length network.now }
        ensures { IfOk result (AreDistances network.now base.now addr.0) }
    {
        let toward = Toward::new(alloc, network, base, addr)?;
        let _few = network.routers();
        Ok(Distances {
            fewest: fewest_hops(&toward),
        })
    }

    /// Whether a packet comes from a router to the owner of the address by some rows of the base tables, over at most
    /// so many hops, 0 to [`nc_types::HOP_LIMIT`]; from none where there is no such router.
    pub(crate) fn reaches(&self, router: RouterId, hops: u8) -> bool
        requires { hops ≤ HOP_LIMIT }
        ensures { (routers : List ConfigView) (tables : List (List BaseRow)) (addr : ℕ)
            → AreDistances routers tables addr self.now
            → result ≡ reaches routers tables hops router.0 addr }
    {
        match self.fewest.get(router.0 as usize) {
            Some(number) => *number <= hops,
            None => false,
        }
    }
}
