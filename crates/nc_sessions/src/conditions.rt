//! What it takes that a session is established.

ghost use Rattle.std.specs.Prelude.{◌≡◌, ◌<◌, ◌&&◌, IfOk, length};
ghost use Rattle.std.specs.List.{list_any};
ghost use Rattle.nc_tables.specs.Base.{base_tables, is_toward};
ghost use Rattle.nc_tables.specs.Sessions.{is_internal, may_reach, are_met, conditions_of};
ghost use Rattle.nc_underlay.specs.Kept.{AreKept};
ghost use Rattle.nc_sessions.specs.Views.{end_view, sides_view};
ghost use Rattle.nc_sessions.specs.Parts.{agree, are_near, reach_each_other};

use crate::ends::{End, Side};
use nc_tables::BaseTables;
use nc_types::{Addr, HOP_LIMIT, Interface, Network};
use nc_underlay::{DistancesByAddr, reaches};
use std::alloc::AllocError;

/// Both sides of a session, the first of which is the one that sees it.
#[derive(Clone, Copy)]
pub(crate) struct Sides<'a> {
    pub(crate) own: Side<'a>,
    pub(crate) peer: Side<'a>,
}

/// Whether both sides are of one autonomous system.
pub(crate) fn is_internal(sides: &Sides) -> bool
    ensures { result ≡ is_internal (sides_view sides.now) }
{
    sides.own.end.process.asn == sides.peer.end.process.asn
}

// Whether an interface is up and its prefix covers an address.
fn is_toward(interface: &Interface, addr: Addr) -> bool
    ensures { result ≡ is_toward addr.0 interface.now }
{
    match interface.up() {
        Some(address) => address.prefix.covers(addr),
        None => false,
    }
}

// Whether an address is on the network of one of these interfaces.
fn are_toward(interfaces: &[Interface], addr: Addr) -> bool
    ensures { result ≡ list_any (is_toward addr.0) interfaces.now }
{
    interfaces
        .iter()
        .any(|interface| is_toward(interface, addr))
}

// Whether the peer of a statement is on a network of its router, or need not be.
fn may_reach(end: &End) -> bool
    ensures { result ≡ may_reach (end_view end.now) }
{
    end.statement.multihop || are_toward(&end.config.interfaces, end.statement.addr)
}

// Whether neither statement is shut, they are of two routers, each names the other's system, and
// the peer's starts from the address that the own one names.
fn agree(sides: &Sides) -> bool
    ensures { result ≡ agree (sides_view sides.now) }
{
    let own = &sides.own;
    let peer = &sides.peer;
    !own.end.statement.shut
        && peer.router != own.router
        && own.end.statement.remote_as == peer.end.process.asn
        && !peer.end.statement.shut
        && peer.end.statement.remote_as == own.end.process.asn
        && peer.source.addr == own.end.statement.addr
}

// Whether the session is internal, or each side may reach the other.
fn are_near(sides: &Sides) -> bool
    ensures { result ≡ are_near (sides_view sides.now) }
{
    is_internal(sides) || (may_reach(&sides.own.end) && may_reach(&sides.peer.end))
}

// Whether each side reaches the other's address by base tables.
fn reach_each_other(network: &Network, base: &BaseTables, sides: &Sides) -> bool
    requires own { sides.now.own.router.0 < length network.now }
    requires peer { sides.now.peer.router.0 < length network.now }
    requires tables { base.now ≡ base_tables network.now }
    ensures { result ≡ reach_each_other network.now base.now (sides_view sides.now) }
{
    let own = &sides.own;
    let peer = &sides.peer;
    reaches(network, base, own.router, own.end.statement.addr, HOP_LIMIT)
        && reaches(
            network,
            base,
            peer.router,
            peer.end.statement.addr,
            HOP_LIMIT,
        )
}

// Whether all holds that a session takes, but for reach.
fn are_set(sides: &Sides) -> bool
    ensures { result ≡ (agree (sides_view sides.now) && are_near (sides_view sides.now)) }
{
    agree(sides) && are_near(sides)
}

/// Whether the session of two sides is established. Reach is looked at last.
pub(crate) fn are_met(network: &Network, base: &BaseTables, sides: &Sides) -> bool
    requires own { sides.now.own.router.0 < length network.now }
    requires peer { sides.now.peer.router.0 < length network.now }
    requires tables { base.now ≡ base_tables network.now }
    ensures { result ≡ are_met (conditions_of network.now base.now (sides_view sides.now)) }
{
    are_set(sides) && reach_each_other(network, base, sides)
}

// Whether each side reaches the other's address, by the distances that are kept.
fn reach_by(
    network: &Network,
    base: &BaseTables,
    distances: &mut DistancesByAddr,
    sides: &Sides,
) -> Result<bool, AllocError>
    requires own { sides.now.own.router.0 < length network.now }
    requires peer { sides.now.peer.router.0 < length network.now }
    requires tables { base.now ≡ base_tables network.now }
    requires kept { AreKept network.now base.now distances.old }
    ensures kept { AreKept network.now base.now distances.new }
    ensures reach { IfOk result (λ b. b ≡ reach_each_other network.now base.now (sides_view sides.now)) }
{
    let own = &sides.own;
    let peer = &sides.peer;
    let there = own.end.statement.addr;
    if !distances.reaches(network, base, own.router, there, HOP_LIMIT)? {
        return Ok(false);
    }
    let back = peer.end.statement.addr;
    let reaches = distances.reaches(network, base, peer.router, back, HOP_LIMIT)?;
    Ok(reaches)
}

/// The same, where what was found of reach for other sides of the network is kept, and what is found here.
///
/// # Errors
///
/// Memory that runs out.
pub(crate) fn are_met_by(
    network: &Network,
    base: &BaseTables,
    distances: &mut DistancesByAddr,
    sides: &Sides,
) -> Result<bool, AllocError>
    requires own { sides.now.own.router.0 < length network.now }
    requires peer { sides.now.peer.router.0 < length network.now }
    requires tables { base.now ≡ base_tables network.now }
    requires kept { AreKept network.now base.now distances.old }
    ensures kept { AreKept network.now base.now distances.new }
    ensures met { IfOk result (λ b. b
        ≡ are_met (conditions_of network.now base.now (sides_view sides.now))) }
{
    if !are_set(sides) {
        return Ok(false);
    }
    let reach = reach_by(network, base, distances, sides)?;
    Ok(reach)
}
