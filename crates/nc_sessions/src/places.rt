//! The place of a router's neighbor statement for each address.

ghost use Rattle.std.specs.Prelude.{◌≡◌, ◌<◌, ◌^◌, ◌==◌, ℕ, if◌then◌else◌};
ghost use Rattle.std.specs.Prelude.{IfOk, IfSome, OnOk, None, Some, length, position};
ghost use Rattle.std.specs.Option.{option_or};
ghost use Rattle.nc_tables.specs.Sessions.{place_for};
ghost use Rattle.nc_sessions.specs.Statements.{place_by, ArePlaces};

use crate::ends::statements;
use nc_types::{Addr, Neighbor, Network, RouterId};
use std::alloc::{AllocError, Global};
use std::collections::BTreeMap;

// Gives the address of a statement its place, if no statement has that address yet.
fn claim_place(places: &mut BTreeMap<Addr, u32>, addr: Addr, place: u32) -> Result<(), AllocError>
    ensures { OnOk result ((other : ℕ) → place_by places.new other
        ≡ option_or (place_by places.old other) (if addr.0 == other then Some place else None)) }
{
    if places.contains_key(&addr) {
        return Ok(());
    }
    places.insert(addr, place)?;
    Ok(())
}

// The place of the first of some statements for each address.
fn places_in(alloc: Global, neighbors: &[Neighbor]) -> Result<BTreeMap<Addr, u32>, AllocError>
    requires { length neighbors.now < 2 ^ 32 }
    ensures { IfOk result (λ places. (addr : ℕ) → place_by places addr
        ≡ position (λ n. n.addr.0 == addr) neighbors.now) }
{
    let mut places = BTreeMap::new(alloc);
    'neighbors: for (place, neighbor) in neighbors.iter().enumerate() {
        claim_place(&mut places, neighbor.addr, place as u32)?;
    }
    Ok(places)
}

/// Of each router the places of its statements.
pub(crate) fn statement_places(
    alloc: Global,
    network: &Network,
) -> Result<Vec<BTreeMap<Addr, u32>>, AllocError>
    ensures { IfOk result (λ places. ArePlaces network.now places.items) }
{
    let mut places = Vec::new(alloc);
    'routers: for router in 0..network.routers().len() {
        let neighbors = statements(network, RouterId(router as u32));
        places.push(places_in(alloc, neighbors)?)?;
    }
    Ok(places)
}

/// The place of a router's statement for an address, by the places of all routers of a network.
pub(crate) fn place_in_table(
    network: &Network,
    places: &[BTreeMap<Addr, u32>],
    router: RouterId,
    addr: Addr,
) -> Option<u32>
    requires { ArePlaces network.now places.now }
    ensures { result ≡ place_for network.now router.0 addr.0 }
{
    places.get(router.0 as usize)?.get(&addr).copied()
}

// The place of the first of some statements for an address.
fn place_among(neighbors: &[Neighbor], addr: Addr) -> Option<usize>
    ensures place { result ≡ position (λ n. n.addr.0 == addr.0) neighbors.now }
    ensures within { IfSome result (λ place. place < length neighbors.now) }
{
    neighbors.iter().position(|neighbor| neighbor.addr == addr)
}

/// The place of a router's neighbor statement for an address; `None` where there is no such
/// statement or router. It goes over the router's statements once, and takes no memory.
pub fn place_for(network: &Network, router: RouterId, addr: Addr) -> Option<u32>
    ensures { result ≡ place_for network.now router.0 addr.0 }
{
    let place = place_among(statements(network, router), addr)?;
    Some(place as u32)
}
