//! The rows of a router's tables, of which there are none where there is no such router.

ghost use Rattle.std.specs.Prelude.{◌≡◌, ◌↔◌, ◌-◌, ◌^◌, ◌<◌, ◌≤◌, IsTrue, length, map};
ghost use Rattle.std.specs.List.{range_with_len};
ghost use Rattle.nc_tables.specs.Base.{same_prefix, static_at};
ghost use Rattle.nc_tables.specs.Longest.{longest, places_from};
ghost use Rattle.nc_tables.specs.State.{IsState};
ghost use Rattle.nc_fact.specs.Facts.{base_rows, main_rows};

use nc_tables::{BaseRow, MainRow, Rows, Stable};
use nc_types::{Addr, Prefix, RouterId};

/// Whether there is a router of a number.
pub(crate) fn has_router(state: &Stable, router: RouterId) -> bool
    ensures within { IsTrue result ↔ (router.0 < length state.now.routers) }
    ensures state { IsState state.now }
{
    (router.0 as usize) < state.network().routers().len()
}

/// The rows of a router's base table, by place; none where there is no such router.
pub fn base_rows(state: &Stable, router: RouterId) -> &[BaseRow]
    ensures rows { result.now ≡ base_rows state.now router.0 }
    ensures few { length result.now < 2 ^ 32 }
{
    let network = state.network();
    let _count = network.element_count();
    nc_underlay::base_rows(network, state.base(), router)
}

/// The rows of a router's main table, by place; none where there is no such router.
pub fn main_rows(state: &Stable, router: RouterId) -> &[MainRow]
    ensures rows { result.now ≡ main_rows state.now router.0 }
    ensures few { length result.now < 2 ^ 32 }
{
    if !has_router(state, router) {
        return &[];
    }
    state.main().rows(router)
}

/// Where the rows of a prefix stand in a router's base table; an empty range exactly where no row has the
/// prefix, and where there is no such router.
pub fn rows_of_prefix(state: &Stable, router: RouterId, prefix: Prefix) -> Rows
    ensures rows { places_from (λ row. same_prefix row.prefix prefix) 0 (base_rows state.now router.0)
        ≡ range_with_len result.from (result.to - result.from) }
    ensures ordered { result.from ≤ result.to }
    ensures few { result.to < 2 ^ 32 }
{
    let _few = base_rows(state, router);
    if !has_router(state, router) {
        return Rows { from: 0, to: 0 };
    }
    state.base().rows_of(router, prefix)
}

/// The same in a router's main table.
pub(crate) fn main_rows_of(state: &Stable, router: RouterId, prefix: Prefix) -> Rows
    ensures rows { places_from (λ row. same_prefix row.prefix prefix) 0 (main_rows state.now router.0)
        ≡ range_with_len result.from (result.to - result.from) }
    ensures ordered { result.from ≤ result.to }
    ensures within { result.to ≤ length (main_rows state.now router.0) }
    ensures few { result.to < 2 ^ 32 }
{
    if !has_router(state, router) {
        return Rows { from: 0, to: 0 };
    }
    state.main().rows_of(router, prefix)
}

/// Where the rows of the longest prefix that covers an address stand in a router's base table, those that
/// discard among them; an empty range exactly where no prefix covers it, and where there is no such router.
pub fn longest_rows(state: &Stable, router: RouterId, addr: Addr) -> Rows
    ensures rows { longest (map (λ row. row.prefix) (base_rows state.now router.0)) addr.0
        ≡ range_with_len result.from (result.to - result.from) }
    ensures ordered { result.from ≤ result.to }
    ensures few { result.to < 2 ^ 32 }
{
    let _few = base_rows(state, router);
    if !has_router(state, router) {
        return Rows { from: 0, to: 0 };
    }
    state.base().longest(router, addr)
}

/// The row of the static route at a place of a router, whether or not a nearer one keeps it out of the base
/// table; `None` where the route can't be used, and where there is no such route or router.
pub fn static_row(state: &Stable, router: RouterId, place: u32) -> Option<BaseRow>
    ensures { result ≡ static_at state.now.routers router.0 place }
{
    nc_base_rib::static_row(state.network(), router, place)
}
