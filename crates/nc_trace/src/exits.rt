//! By which interface a way leaves its router.

ghost use Rattle.std.specs.Prelude.{◌≡◌, ◌<◌, ℕ, IfSome, length, slice_get};
ghost use Rattle.std.specs.Option.{option_map};
ghost use Rattle.nc_tables.specs.Forwarding.{exit_by_main, exit_iface, mains_of};
ghost use Rattle.nc_tables.specs.Reach.{exit_of};
ghost use Rattle.nc_trace.specs.Views.{alternative_view};

use crate::alternative::Alternative;
use crate::left::bgp_hop;
use nc_tables::{BaseFrom, MainFrom, MainRow, Stable};
use nc_types::{Addr, IfaceId, RouterId};
use nc_underlay::{base_rows, next_hop};

// The interface of the base row at a place; whatever the address is to which a packet goes.
fn base_iface(state: &Stable, router: RouterId, place: usize) -> Option<IfaceId>
    ensures { (addr : ℕ) → option_map (λ iface. iface.0) result
        ≡ option_map (λ exit. exit.iface) (exit_of state.now.routers state.now.base router.0 addr place) }
{
    let row = base_rows(state.network(), state.base(), router).get(place)?;
    match row.from {
        BaseFrom::Connected(iface) => Some(iface),
        BaseFrom::Static(route, iface) => {
            let _hop = next_hop(state.network(), router, route)?;
            Some(iface)
        }
        BaseFrom::Null(_) => None,
    }
}

// The main row at a place of a router; `None` where there is no such row or router.
fn main_row(state: &Stable, router: RouterId, place: u32) -> Option<&MainRow>
    ensures row { option_map (λ row. row.now) result ≡ slice_get (mains_of state.now.main router.0) place }
    ensures within { IfSome result (λ row. router.0 < length state.now.routers) }
{
    if (router.0 as usize) >= state.network().routers().len() {
        return None;
    }
    state.main().rows(router).get(place as usize)
}

// The interface of a main row, and of the base row toward its next hop, where it is of BGP.
fn row_iface(state: &Stable, router: RouterId, row: &MainRow, base: Option<u32>) -> Option<IfaceId>
    requires { router.0 < length state.now.routers }
    ensures { (addr : ℕ) → option_map (λ iface. iface.0) result
        ≡ option_map (λ exit. exit.iface) (exit_by_main state.now.routers state.now.base state.now.bgp
        state.now.main router.0 addr row.now row.now.from base) }
{
    match row.from {
        MainFrom::Base(place) => base_iface(state, router, place as usize),
        MainFrom::Discard(_) => None,
        MainFrom::Bgp(place) => {
            let _hop = bgp_hop(state, router, row.prefix, place)?;
            base_iface(state, router, base? as usize)
        }
    }
}

/// The interface by which a way for an address leaves its router: that of its base row, or of its main row where it
/// has none; `None` where it discards, and where there is no such row or router. Takes no memory.
pub fn exit_iface(state: &Stable, router: RouterId, addr: Addr, way: Alternative) -> Option<IfaceId>
    ensures { option_map (λ iface. iface.0) result ≡ exit_iface state.now.routers state.now.base state.now.bgp
        state.now.main router.0 addr.0 (alternative_view way) }
{
    let row = main_row(state, router, way.main)?;
    row_iface(state, router, row, way.base)
}
