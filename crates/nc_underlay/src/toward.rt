//! Where the hits of all routers lead for an address.

ghost use Rattle.std.specs.Prelude.{◌≡◌, ◌<◌, ◌==◌, ℕ, [], false, IfOk, length, map, slice_index_or};
ghost use Rattle.std.specs.Option.{option_map_or};
ghost use Rattle.nc_tables.specs.Reach.{owns};
ghost use Rattle.nc_underlay.specs.Distances.{nexts, nexts_view};
ghost use Rattle.nc_underlay.specs.Toward.{IsToward};

use crate::exits::leads_to;
use nc_tables::BaseTables;
use nc_types::{Addr, Network, RouterId};
use std::alloc::{AllocError, Global};

/// The owner of an address, and for each router those to which its hits lead for the address.
#[derive(Drop)]
pub(crate) struct Toward {
    pub(crate) owner: Option<RouterId>,
    pub(crate) nexts: Vec<Vec<RouterId>>,
}

// The router that owns an address.
fn owner_of(network: &Network, addr: Addr) -> Option<RouterId>
    ensures { (router : ℕ) → option_map_or (λ o. o.0 == router) result false
        ≡ owns network.now router addr.0 }
{
    let _routers = network.routers();
    let (owner, _) = network.owner_of(addr)?;
    Some(owner)
}

// The routers to which the hits of a router lead, in order.
fn nexts_of(
    alloc: Global,
    network: &Network,
    base: &BaseTables,
    router: RouterId,
    addr: Addr,
) -> Result<Vec<RouterId>, AllocError>
    requires router { router.0 < length base.now }
    requires tables { length base.now ≡ length network.now }
    ensures { IfOk result (λ made. map (λ next. next.0) made.items
        ≡ nexts network.now base.now addr.0 router.0) }
{
    let mut made = Vec::new(alloc);
    let rows = base.longest(router, addr);
    'rows: for place in rows.from..rows.to {
        if let Some((next, _)) = leads_to(network, base, router, addr, place) {
            made.push(next)?;
        }
    }
    Ok(made)
}

impl Toward {
    /// Those of an address: each row of each router is looked at once.
    ///
    /// # Errors
    ///
    /// Memory that runs out.
    pub(crate) fn new(
        alloc: Global,
        network: &Network,
        base: &BaseTables,
        addr: Addr,
    ) -> Result<Toward, AllocError>
        requires { length base.now ≡ length network.now }
        ensures { IfOk result (IsToward network.now base.now addr.0) }
    {
        let owner = owner_of(network, addr);
        let mut nexts = Vec::new(alloc);
        let count = network.routers().len();
        'routers: for router in 0..count {
            nexts.push(nexts_of(alloc, network, base, RouterId(router as u32), addr)?)?;
        }
        Ok(Toward { owner, nexts })
    }

    /// Whether a router is the owner.
    pub(crate) fn is_owner(&self, router: RouterId) -> bool
        ensures { result ≡ option_map_or (λ o. o.0 == router.0) self.now.owner false }
    {
        match self.owner {
            Some(owner) => owner == router,
            None => false,
        }
    }

    /// The routers to which the hits of a router lead; none where there is no such router.
    pub(crate) fn nexts(&self, router: RouterId) -> &[RouterId]
        ensures { map (λ next. next.0) result.now
            ≡ slice_index_or (nexts_view self.now.nexts.items) router.0 [] }
    {
        match self.nexts.get(router.0 as usize) {
            Some(nexts) => nexts,
            None => &[],
        }
    }
}
