ghost use Rattle.std.specs.Prelude.{◌≡◌, ◌<◌, IfOk, IfSome, length};
ghost use Rattle.std.specs.Option.{option_map};
ghost use Rattle.nc_tables.specs.Base.{base_tables};
ghost use Rattle.nc_tables.specs.Sessions.{session_at, sessions_of, sessions, AreSessions};
ghost use Rattle.nc_underlay.specs.Kept.{AreKept};
ghost use Rattle.nc_sessions.specs.Parts.{sides_at};
ghost use Rattle.nc_sessions.specs.Statements.{ArePlaces};
ghost use Rattle.nc_sessions.specs.Views.{sides_view};

use crate::conditions::Sides;
use crate::ends::{side_at, statements};
use crate::peers::{owner_of, session_kept};
use crate::places::{place_in_table, statement_places};
use nc_tables::{BaseTables, SessionRow, Sessions};
use nc_types::{Addr, Network, RouterId};
use nc_underlay::DistancesByAddr;
use std::alloc::{AllocError, Global};
use std::collections::BTreeMap;

// Both sides of the session of the neighbor statement at a place of a router, by the places of all
// statements; `None` where one isn't found.
fn sides_by<'a>(
    network: &'a Network,
    base: &BaseTables,
    places: &[BTreeMap<Addr, u32>],
    router: RouterId,
    place: u32,
) -> Option<Sides<'a>>
    requires tables { length base.now ≡ length network.now }
    requires places { ArePlaces network.now places.now }
    ensures sides { option_map sides_view result ≡ sides_at network.now base.now router.0 place }
    ensures own { IfSome result (λ k. k.own.router.0 < length network.now) }
    ensures peer { IfSome result (λ k. k.peer.router.0 < length network.now) }
    ensures place { IfSome result (λ k. k.own.place ≡ place) }
{
    let own = side_at(network, base, router, place)?;
    let owner = owner_of(network, &own)?;
    let peer_place = place_in_table(network, places, owner, own.source.addr)?;
    let peer = side_at(network, base, owner, peer_place)?;
    Some(Sides { own, peer })
}

// The session of the neighbor statement at a place of a router, if it is established.
fn session_by(
    network: &Network,
    base: &BaseTables,
    places: &[BTreeMap<Addr, u32>],
    distances: &mut DistancesByAddr,
    router: RouterId,
    place: u32,
) -> Result<Option<SessionRow>, AllocError>
    requires tables { base.now ≡ base_tables network.now }
    requires places { ArePlaces network.now places.now }
    requires kept { AreKept network.now base.now distances.old }
    ensures kept { AreKept network.now base.now distances.new }
    ensures session { IfOk result (λ row. row ≡ session_at network.now base.now router.0 place) }
    ensures place { IfOk result (λ row. IfSome row (λ s. s.neighbor ≡ place)) }
{
    match sides_by(network, base, places, router, place) {
        Some(sides) => {
            let row = session_kept(network, base, distances, &sides)?;
            Ok(row)
        }
        None => Ok(None),
    }
}

// The sessions of a router, in order of its neighbor statements.
fn sessions_of(
    alloc: Global,
    network: &Network,
    base: &BaseTables,
    places: &[BTreeMap<Addr, u32>],
    distances: &mut DistancesByAddr,
    router: RouterId,
) -> Result<Vec<SessionRow>, AllocError>
    requires tables { base.now ≡ base_tables network.now }
    requires places { ArePlaces network.now places.now }
    requires kept { AreKept network.now base.now distances.old }
    ensures kept { AreKept network.now base.now distances.new }
    ensures sessions { IfOk result (λ rows. rows.items
        ≡ sessions_of network.now base.now router.0) }
    ensures ordered { IfOk result (λ rows. AreSessions rows.items) }
{
    let mut rows = Vec::new(alloc);
    'places: for place in 0..statements(network, router).len() {
        let row = session_by(network, base, places, distances, router, place as u32)?;
        if let Some(row) = row {
            rows.push(row)?;
        }
    }
    Ok(rows)
}

/// The established sessions of a network, whose base tables these are. From how far an address is reached is worked
/// out once for all of them.
///
/// # Errors
///
/// Memory that runs out.
pub fn sessions(alloc: Global, network: &Network, base: &BaseTables) -> Result<Sessions, AllocError>
    requires { base.now ≡ base_tables network.now }
    ensures { IfOk result (λ s. s ≡ sessions network.now base.now) }
{
    let places = statement_places(alloc, network)?;
    let mut distances = DistancesByAddr::new(alloc);
    let mut rows = Vec::new(alloc);
    'routers: for router in 0..network.routers().len() {
        let router = RouterId(router as u32);
        rows.push(sessions_of(alloc, network, base, &places, &mut distances, router)?)?;
    }
    Ok(Sessions::from_rows(rows))
}
