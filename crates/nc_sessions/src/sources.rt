//! The interface from which a session starts.

ghost use Rattle.std.specs.Prelude.{◌≡◌, ◌<◌, ◌^◌, ℕ, IfSome, length, position};
ghost use Rattle.std.specs.Option.{option_map};
ghost use Rattle.std.specs.Str.{bytes_eq};
ghost use Rattle.nc_tables.specs.Reach.{hits, exit_of};
ghost use Rattle.nc_tables.specs.Sessions.{first_of, source_iface};
ghost use Rattle.nc_sessions.specs.Views.{end_view};
ghost use Rattle.nc_sessions.specs.Statements.{hit_iface};

use crate::ends::End;
use nc_tables::{BaseFrom, BaseTables};
use nc_types::{Addr, IfaceId, Interface, Network, RouterConfig, RouterId, Text};
use nc_underlay::{base_rows, is_hit, next_hop};

// Whether an interface has a name.
fn has_name(interface: &Interface, name: &Text) -> bool
    ensures { result ≡ bytes_eq name.now interface.now.name }
{
    *name == interface.name
}

// The place of the interface of a name.
fn place_named(interfaces: &[Interface], name: &Text) -> Option<usize>
    ensures place { result ≡ position (λ i. bytes_eq name.now i.name) interfaces.now }
    ensures within { IfSome result (λ place. place < length interfaces.now) }
{
    interfaces
        .iter()
        .position(|interface| has_name(interface, name))
}

// The interface of a name of a router.
fn named_iface(config: &RouterConfig, name: &Text) -> Option<IfaceId>
    requires few { length config.now.interfaces.items < 2 ^ 32 }
    ensures { option_map (λ i. i.0) result
        ≡ position (λ i. bytes_eq name.now i.name) config.now.interfaces.items }
{
    let place = place_named(&config.interfaces, name)?;
    Some(IfaceId(place as u32))
}

// The first row by which a packet for an address leaves a router, by its place.
fn first_hit(network: &Network, base: &BaseTables, router: RouterId, addr: Addr) -> Option<usize>
    requires router { router.0 < length base.now }
    requires tables { length base.now ≡ length network.now }
    ensures { result ≡ first_of (hits base.now router.0 addr.0) }
{
    let rows = base.longest(router, addr);
    'rows: for place in rows.from..rows.to {
        if is_hit(network, base, router, place) {
            return Some(place);
        }
    }
    None
}

// The interface of the way out by the row at a place.
fn row_iface(
    network: &Network,
    base: &BaseTables,
    router: RouterId,
    place: usize,
) -> Option<IfaceId>
    requires { length base.now ≡ length network.now }
    ensures { (addr : ℕ) → option_map (λ i. i.0) result
        ≡ option_map (λ exit. exit.iface) (exit_of network.now base.now router.0 addr place) }
{
    let row = base_rows(network, base, router).get(place)?;
    match row.from {
        BaseFrom::Connected(iface) => Some(iface),
        BaseFrom::Static(route, iface) => {
            let _hop = next_hop(network, router, route)?;
            Some(iface)
        }
        BaseFrom::Null(_) => None,
    }
}

// The interface of the first hit toward an address.
fn hit_iface(network: &Network, base: &BaseTables, router: RouterId, addr: Addr) -> Option<IfaceId>
    requires router { router.0 < length base.now }
    requires tables { length base.now ≡ length network.now }
    ensures { option_map (λ i. i.0) result ≡ hit_iface network.now base.now router.0 addr.0 }
{
    let hit = first_hit(network, base, router, addr)?;
    row_iface(network, base, router, hit)
}

/// The interface from which a neighbor statement of a router starts its session: the one that it
/// names, or that of the first hit toward it.
pub(crate) fn source_iface(
    network: &Network,
    base: &BaseTables,
    router: RouterId,
    end: &End,
) -> Option<IfaceId>
    requires router { router.0 < length base.now }
    requires tables { length base.now ≡ length network.now }
    requires few { length end.now.config.now.interfaces.items < 2 ^ 32 }
    ensures { option_map (λ i. i.0) result
        ≡ source_iface network.now base.now router.0 (end_view end.now) }
{
    match &end.statement.source {
        Some(source) => named_iface(end.config, &source.name),
        None => hit_iface(network, base, router, end.statement.addr),
    }
}
