//! The two sides of a session together.

ghost use Rattle.std.specs.Prelude.{◌≡◌, ◌<◌, IfOk, IfSome, length, None, Some, if◌then◌else◌};
ghost use Rattle.std.specs.Option.{option_map};
ghost use Rattle.nc_types.specs.Network.{owner_of};
ghost use Rattle.nc_tables.specs.Base.{base_tables};
ghost use Rattle.nc_tables.specs.Sessions.{are_met, conditions_of, session_of, session_at};
ghost use Rattle.nc_underlay.specs.Kept.{AreKept};
ghost use Rattle.nc_sessions.specs.Views.{sides_view};

use crate::conditions::{Sides, are_met, are_met_by, is_internal};
use crate::ends::{Side, side_at};
use crate::places::place_for;
use nc_tables::{BaseTables, SessionRow};
use nc_types::{Network, RouterId};
use nc_underlay::DistancesByAddr;
use std::alloc::AllocError;

/// The router that owns the address of a side's statement.
pub(crate) fn owner_of(network: &Network, own: &Side) -> Option<RouterId>
    ensures { option_map (λ r. r.0) result
        ≡ option_map (λ o. o.router) (owner_of network.now own.now.end.statement.now.addr.0) }
{
    let (owner, _) = network.owner_of(own.end.statement.addr)?;
    Some(owner)
}

// The session of two sides.
fn session_of(sides: &Sides) -> SessionRow
    ensures { result ≡ session_of (sides_view sides.now) }
{
    let own = &sides.own;
    let peer = &sides.peer;
    SessionRow {
        router: own.router,
        neighbor: own.place,
        peer: peer.router,
        peer_neighbor: peer.place,
        source: own.source.iface,
        peer_source: peer.source.iface,
        internal: is_internal(sides),
    }
}

/// The session of two sides, if it is established.
pub(crate) fn session_between(
    network: &Network,
    base: &BaseTables,
    sides: &Sides,
) -> Option<SessionRow>
    requires own { sides.now.own.router.0 < length network.now }
    requires peer { sides.now.peer.router.0 < length network.now }
    requires tables { base.now ≡ base_tables network.now }
    ensures session { result
        ≡ if are_met (conditions_of network.now base.now (sides_view sides.now))
        then Some (session_of (sides_view sides.now)) else None }
    ensures place { IfSome result (λ s. s.neighbor ≡ sides.now.own.place) }
{
    if are_met(network, base, sides) {
        Some(session_of(sides))
    } else {
        None
    }
}

/// The same, by the distances that are kept.
///
/// # Errors
///
/// Memory that runs out.
pub(crate) fn session_kept(
    network: &Network,
    base: &BaseTables,
    distances: &mut DistancesByAddr,
    sides: &Sides,
) -> Result<Option<SessionRow>, AllocError>
    requires own { sides.now.own.router.0 < length network.now }
    requires peer { sides.now.peer.router.0 < length network.now }
    requires tables { base.now ≡ base_tables network.now }
    requires kept { AreKept network.now base.now distances.old }
    ensures kept { AreKept network.now base.now distances.new }
    ensures session { IfOk result (λ row. row
        ≡ if are_met (conditions_of network.now base.now (sides_view sides.now))
        then Some (session_of (sides_view sides.now)) else None) }
    ensures place { IfOk result (λ row. IfSome row (λ s. s.neighbor ≡ sides.now.own.place)) }
{
    if are_met_by(network, base, distances, sides)? {
        Ok(Some(session_of(sides)))
    } else {
        Ok(None)
    }
}

/// The session of the neighbor statement at a place of a router; `None` where it isn't established,
/// and where there is no such statement or router. The tables are those of the network. It goes
/// over the statements of the other router once, and takes no memory.
pub fn session_at(
    network: &Network,
    base: &BaseTables,
    router: RouterId,
    place: u32,
) -> Option<SessionRow>
    requires { base.now ≡ base_tables network.now }
    ensures { result ≡ session_at network.now base.now router.0 place }
{
    let own = side_at(network, base, router, place)?;
    let owner = owner_of(network, &own)?;
    let peer_place = place_for(network, owner, own.source.addr)?;
    let peer = side_at(network, base, owner, peer_place)?;
    session_between(network, base, &Sides { own, peer })
}
