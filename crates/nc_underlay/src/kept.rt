//! Distances that are kept by address.

ghost use Rattle.std.specs.Prelude.{◌≡◌, ◌<◌, ◌≤◌, true, length, ℕ, List, IfOk};
ghost use Rattle.nc_types.specs.declared.TheConstants.{HOP_LIMIT};
ghost use Rattle.nc_types.specs.Config.{ConfigView};
ghost use Rattle.nc_tables.specs.declared.base.BaseRow.{BaseRow};
ghost use Rattle.nc_tables.specs.Reach.{reaches};
ghost use Rattle.nc_underlay.specs.Kept.{AreKept};

use crate::distances::Distances;
use crate::exits::leads_to;
use nc_tables::BaseTables;
use nc_types::{Addr, Network, RouterId};
use std::alloc::{AllocError, Global};
use std::collections::BTreeMap;

// Whether a router owns an address, or the first row by which a packet for it leaves leads to the owner. That tells
// most neighbors, without a look at the other routers; where it is false, nothing is said.
fn is_near(network: &Network, base: &BaseTables, router: RouterId, addr: Addr, hops: u8) -> bool
    requires router { router.0 < length network.now }
    requires tables { length base.now ≡ length network.now }
    ensures { result ≡ true → reaches network.now base.now hops router.0 addr.0 ≡ true }
{
    let _routers = network.routers();
    let Some((owner, _)) = network.owner_of(addr) else {
        return false;
    };
    if owner == router {
        return true;
    }
    let rows = base.longest(router, addr);
    if hops == 0 || rows.from >= rows.to {
        return false;
    }
    match leads_to(network, base, router, addr, rows.from) {
        Some((next, _)) => next == owner,
        None => false,
    }
}

/// The distances to each address that was asked for and wasn't a router's own or next to it: at most
/// [`nc_types::ROUTER_LIMIT`] bytes for each such address.
#[derive(Drop)]
pub struct DistancesByAddr {
    alloc: Global,
    tables: BTreeMap<Addr, Distances>,
}

impl DistancesByAddr {
    /// Nothing is kept yet.
    pub fn new(alloc: Global) -> DistancesByAddr
        ensures { (routers : List ConfigView) (tables : List (List BaseRow)) → AreKept routers tables result }
    {
        DistancesByAddr {
            alloc,
            tables: BTreeMap::new(alloc),
        }
    }

    /// Whether a packet for an address comes from a router to the address's owner by some of the base tables' rows,
    /// over at most so many hops, 0 to [`nc_types::HOP_LIMIT`]. The network and its tables are those of which all was
    /// asked before.
    ///
    /// # Errors
    ///
    /// Memory that runs out.
    pub fn reaches(
        &mut self,
        network: &Network,
        base: &BaseTables,
        router: RouterId,
        addr: Addr,
        hops: u8,
    ) -> Result<bool, AllocError>
        requires router { router.0 < length network.now }
        requires tables { length base.now ≡ length network.now }
        requires hops { hops ≤ HOP_LIMIT }
        requires kept { AreKept network.now base.now self.old }
        ensures kept { AreKept network.now base.now self.new }
        ensures reaches { IfOk result (λ b. b ≡ reaches network.now base.now hops router.0 addr.0) }
    {
        if let Some(distances) = self.tables.get(&addr) {
            return Ok(distances.reaches(router, hops));
        }
        if is_near(network, base, router, addr, hops) {
            return Ok(true);
        }
        let distances = Distances::new(self.alloc, network, base, addr)?;
        let reaches = distances.reaches(router, hops);
        self.tables.insert(addr, distances)?;
        Ok(reaches)
    }
}
