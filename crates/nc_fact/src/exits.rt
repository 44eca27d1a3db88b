//! Which rows of a base table serve a packet, and where they lead.

ghost use Rattle.std.specs.Prelude.{◌≡◌, ◌<◌, length, nat_eq, nat_lt};
ghost use Rattle.std.specs.List.{list_any};
ghost use Rattle.std.specs.Option.{option_map};
ghost use Rattle.nc_tables.specs.Reach.{is_hit, hits, next_hop, leads_to};

use crate::rows::longest_rows;
use nc_tables::Stable;
use nc_types::{Addr, IfaceId, RouterId};

/// Whether the row at a place of a router's base table doesn't discard; not where there is no such row or
/// router. Whether it is of the longest prefix is another question.
pub fn is_hit(state: &Stable, router: RouterId, row: u32) -> bool
    ensures { result ≡ is_hit state.now.base router.0 row }
{
    nc_underlay::is_hit(state.network(), state.base(), router, row as usize)
}

/// Whether some row of the longest prefix that covers an address doesn't discard.
pub(crate) fn has_hit(state: &Stable, router: RouterId, addr: Addr) -> bool
    ensures { result ≡ nat_lt 0 (length (hits state.now.base router.0 addr.0)) }
{
    nc_underlay::has_hit(state.network(), state.base(), router, addr)
}

/// Whether the row at a place is of the longest prefix that covers an address, and doesn't discard.
pub(crate) fn hits(state: &Stable, router: RouterId, addr: Addr, row: u32) -> bool
    ensures { result ≡ list_any (nat_eq row) (hits state.now.base router.0 addr.0) }
{
    let rows = longest_rows(state, router, addr);
    let place = row as usize;
    if place < rows.from || rows.to <= place {
        return false;
    }
    is_hit(state, router, row)
}

/// The next hop of the static route at a place of a router; `None` where it discards, and where there is no
/// such route or router.
pub(crate) fn next_hop(state: &Stable, router: RouterId, place: u32) -> Option<Addr>
    ensures { option_map (λ a. a.0) result ≡ next_hop state.now.routers router.0 place }
{
    nc_underlay::next_hop(state.network(), router, place)
}

/// The router, and its interface, to which the row at a place of a router leads for an address; `None` where
/// it leads nowhere, and where there is no such row or router. Whether the row is a hit is another question.
pub fn leads_to(
    state: &Stable,
    router: RouterId,
    addr: Addr,
    row: u32,
) -> Option<(RouterId, IfaceId)>
    ensures { option_map (λ o. record { router = o.0.0; place = o.1.0 }) result
        ≡ leads_to state.now.routers state.now.base router.0 addr.0 row }
{
    nc_underlay::leads_to(state.network(), state.base(), router, addr, row as usize)
}
