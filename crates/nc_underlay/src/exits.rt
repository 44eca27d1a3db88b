//! Where a row of a base table leads.

ghost use Rattle.std.specs.Prelude.{◌≡◌, ◌<◌, IfSome, length, nat_lt};
ghost use Rattle.std.specs.Option.{option_map};
ghost use Rattle.nc_tables.specs.Reach.{rows_of, is_hit, hits, next_hop, exit_of, is_linked, exit_leads, leads_to, own_place};

use nc_tables::{BaseFrom, BaseRow, BaseTables};
use nc_types::{Addr, IfaceId, Network, RouterId};

/// A way out of a router.
#[derive(Clone, Copy, PartialEq, Eq)]
struct Exit {
    /// The interface.
    iface: IfaceId,
    /// The address that is sent to there.
    addr: Addr,
}

/// The rows of a router's base table, by place; none where there is no such router. There is a table for each
/// router of the network.
pub fn base_rows<'a>(network: &Network, base: &'a BaseTables, router: RouterId) -> &'a [BaseRow]
    requires { length base.now ≡ length network.now }
    ensures { result.now ≡ rows_of base.now router.0 }
{
    if (router.0 as usize) >= network.routers().len() {
        return &[];
    }
    base.rows(router)
}

/// Whether the row at a place of a router's base table doesn't discard; not where there is no such row or
/// router. Whether it is of the longest prefix is another question.
pub fn is_hit(network: &Network, base: &BaseTables, router: RouterId, place: usize) -> bool
    requires { length base.now ≡ length network.now }
    ensures { result ≡ is_hit base.now router.0 place }
{
    match base_rows(network, base, router).get(place) {
        Some(row) => !matches!(row.from, BaseFrom::Null(_)),
        None => false,
    }
}

/// Whether some row of the longest prefix that covers an address, in a router's base table, doesn't discard; not
/// where there is no such router.
pub fn has_hit(network: &Network, base: &BaseTables, router: RouterId, addr: Addr) -> bool
    requires { length base.now ≡ length network.now }
    ensures { result ≡ nat_lt 0 (length (hits base.now router.0 addr.0)) }
{
    if (router.0 as usize) >= network.routers().len() {
        return false;
    }
    let rows = base.longest(router, addr);
    'rows: for place in rows.from..rows.to {
        if is_hit(network, base, router, place) {
            return true;
        }
    }
    false
}

/// The next hop of the static route at a place of a router; `None` where it discards, and where there is no
/// such route or router.
pub fn next_hop(network: &Network, router: RouterId, place: u32) -> Option<Addr>
    ensures { option_map (λ a. a.0) result ≡ next_hop network.now router.0 place }
{
    let config = network.routers().get(router.0 as usize)?;
    let route = config.statics.get(place as usize)?;
    route.via.hop()
}

// The way out of a router by the row at a place.
fn exit_of(
    network: &Network,
    base: &BaseTables,
    router: RouterId,
    addr: Addr,
    place: usize,
) -> Option<Exit>
    requires { length base.now ≡ length network.now }
    ensures { option_map (λ e. record { iface = e.iface.0; addr = e.addr.0 }) result
        ≡ exit_of network.now base.now router.0 addr.0 place }
{
    let row = base_rows(network, base, router).get(place)?;
    match row.from {
        BaseFrom::Connected(iface) => Some(Exit { iface, addr }),
        BaseFrom::Static(route, iface) => {
            let hop = next_hop(network, router, route)?;
            Some(Exit { iface, addr: hop })
        }
        BaseFrom::Null(_) => None,
    }
}

// Whether an interface of a router and one of another are up and have one prefix.
fn is_linked(
    network: &Network,
    router: RouterId,
    iface: IfaceId,
    other: RouterId,
    other_iface: IfaceId,
) -> bool
    ensures { result
        ≡ is_linked network.now router.0 iface.0 (record { router = other.0; place = other_iface.0 }) }
{
    match (network.up(router, iface), network.up(other, other_iface)) {
        (Some(here), Some(there)) => here.prefix == there.prefix,
        _ => false,
    }
}

// The router, and its interface, to which a way out leads.
fn exit_leads(network: &Network, router: RouterId, exit: Exit) -> Option<(RouterId, IfaceId)>
    ensures { option_map (λ o. record { router = o.0.0; place = o.1.0 }) result
        ≡ exit_leads network.now router.0 (record { iface = exit.iface.0; addr = exit.addr.0 }) }
{
    let (other, iface) = network.owner_of(exit.addr)?;
    if other == router || !is_linked(network, router, exit.iface, other, iface) {
        return None;
    }
    Some((other, iface))
}

/// The router, and its interface, to which the row at a place of a router leads for an address; `None` where
/// it leads nowhere, and where there is no such row or router. Whether the row is a hit is another question.
pub fn leads_to(
    network: &Network,
    base: &BaseTables,
    router: RouterId,
    addr: Addr,
    place: usize,
) -> Option<(RouterId, IfaceId)>
    requires { length base.now ≡ length network.now }
    ensures leads { option_map (λ o. record { router = o.0.0; place = o.1.0 }) result
        ≡ leads_to network.now base.now router.0 addr.0 place }
    ensures within { IfSome result (λ o. o.0.0 < length network.now) }
{
    let exit = exit_of(network, base, router, addr, place)?;
    exit_leads(network, router, exit)
}

/// The interface of a router that is up and has an address; `None` where it has none such, and where there is no
/// such router.
pub fn own_interface(network: &Network, router: RouterId, addr: Addr) -> Option<IfaceId>
    ensures { option_map (λ i. i.0) result ≡ own_place network.now router.0 addr.0 }
{
    let _routers = network.routers();
    let (owner, iface) = network.owner_of(addr)?;
    if owner == router {
        return Some(iface);
    }
    None
}
