//! Which static routes can be used, and by which rows.

ghost use Rattle.std.specs.Prelude.{◌≡◌, ◌^◌, ◌<◌, ◌++◌, List, length, position, option_and_then, slice_get, All, IfSome, OnOk};
ghost use Rattle.nc_types.specs.declared.config.Interface.{Interface};
ghost use Rattle.nc_tables.specs.Base.{is_toward, static_from, static_row, static_at, statics_from};
ghost use Rattle.nc_base_rib.specs.Links.{AreApart, IsTable, IsTableOf, IsLinkOf, allows, HasOwnPrefix};

use crate::links::{Link, toward};
use nc_tables::{BaseFrom, BaseRow};
use nc_types::{Addr, IfaceId, Interface, Network, RouterId, StaticRoute, UNUSED_DISTANCE, Via};
use std::alloc::AllocError;

// ---- the link of a next hop

// The link through which a static route's next hop is reached, by the table of a router's links.
fn link_of(links: &[Link], via: &Via) -> Option<Link>
    requires { IsTable links.now }
    ensures { (is : List Interface) → IsTableOf is links.now → IsLinkOf is via.now result }
{
    let hop = via.hop()?;
    toward(links, hop)
}

// Whether an interface is up and its prefix covers an address.
fn is_toward(interface: &Interface, addr: Addr) -> bool
    ensures { result ≡ is_toward addr.0 interface.now }
{
    match interface.up() {
        Some(address) => address.prefix.covers(addr),
        None => false,
    }
}

// The place of the first interface that is up and whose prefix covers an address.
fn place_toward(interfaces: &[Interface], addr: Addr) -> Option<usize>
    ensures place { result ≡ position (is_toward addr.0) interfaces.now }
    ensures within { IfSome result (λ place. place < length interfaces.now) }
{
    interfaces
        .iter()
        .position(|interface| is_toward(interface, addr))
}

// The same link by the interfaces themselves, which takes no table.
fn link_among(interfaces: &[Interface], via: &Via) -> Option<Link>
    requires few { length interfaces.now < 2 ^ 32 }
    requires apart { AreApart interfaces.now }
    ensures { IsLinkOf interfaces.now via.now result }
{
    let hop = via.hop()?;
    let place = place_toward(interfaces, hop)?;
    let address = interfaces[place].up()?;
    Some(Link {
        network: address.prefix.addr(),
        address,
        place: place as u32,
    })
}

// ---- static routes

// Whether a static route may lead through an interface: it names this one or none.
fn allows(via: &Via, interface: &Interface) -> bool
    ensures { result ≡ allows via.now interface.now }
{
    match via.interface() {
        Some(reference) => reference.name == interface.name,
        None => true,
    }
}

// Where the static route at a place leads, if it can be used, by the link of its next hop.
fn usable(interfaces: &[Interface], link: Option<Link>, place: u32, via: &Via) -> Option<BaseFrom>
    requires link { IsLinkOf interfaces.now via.now link }
    requires covered { All HasOwnPrefix interfaces.now }
    ensures { result ≡ static_from interfaces.now place via.now }
{
    let hop = match via.hop() {
        Some(hop) => hop,
        None => return Some(BaseFrom::Null(place)),
    };
    let link = link?;
    let interface = &interfaces[link.place as usize];
    if link.address.addr == hop || !allows(via, interface) {
        return None;
    }
    Some(BaseFrom::Static(place, IfaceId(link.place)))
}

// The row of the static route at a place, if it can be used.
fn row_of(
    interfaces: &[Interface],
    link: Option<Link>,
    place: u32,
    route: &StaticRoute,
) -> Option<BaseRow>
    requires link { IsLinkOf interfaces.now route.now.via link }
    requires covered { All HasOwnPrefix interfaces.now }
    ensures { result ≡ static_row interfaces.now place route.now }
{
    if route.distance == UNUSED_DISTANCE {
        return None;
    }
    let from = usable(interfaces, link, place, &route.via)?;
    Some(BaseRow {
        prefix: route.prefix,
        distance: route.distance,
        from,
    })
}

/// Adds the rows of the static routes that can be used.
pub(crate) fn add_statics(
    rows: &mut Vec<BaseRow>,
    interfaces: &[Interface],
    links: &[Link],
    statics: &[StaticRoute],
) -> Result<(), AllocError>
    requires links { IsTableOf interfaces.now links.now }
    requires covered { All HasOwnPrefix interfaces.now }
    requires statics { length statics.now < 2 ^ 32 }
    ensures { OnOk result (rows.new.items
        ≡ rows.old.items ++ statics_from interfaces.now 0 statics.now) }
{
    'statics: for (place, route) in statics.iter().enumerate() {
        let link = link_of(links, &route.via);
        if let Some(row) = row_of(interfaces, link, place as u32, route) {
            rows.push(row)?;
        }
    }
    Ok(())
}

// The row of the static route at a place of some, by the interfaces themselves.
fn row_at(interfaces: &[Interface], statics: &[StaticRoute], place: u32) -> Option<BaseRow>
    requires few { length interfaces.now < 2 ^ 32 }
    requires apart { AreApart interfaces.now }
    requires covered { All HasOwnPrefix interfaces.now }
    ensures { result
        ≡ option_and_then (λ s. static_row interfaces.now place s) (slice_get statics.now place) }
{
    let route = statics.get(place as usize)?;
    let link = link_among(interfaces, &route.via);
    row_of(interfaces, link, place, route)
}

/// The row of the static route at a place of a router, whether or not a nearer one keeps it out of the base
/// table; `None` where the route can't be used, and where there is no such route or router. Takes no memory.
pub fn static_row(network: &Network, router: RouterId, place: u32) -> Option<BaseRow>
    ensures { result ≡ static_at network.now router.0 place }
{
    let _count = network.element_count();
    let config = network.routers().get(router.0 as usize)?;
    row_at(&config.interfaces, &config.statics, place)
}
