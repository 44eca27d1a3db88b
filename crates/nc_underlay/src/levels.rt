//! Routers by levels, as flags.

ghost use Rattle.std.specs.Prelude.{◌≡◌, ◌<◌, ◌≤◌, ◌||◌, ◌==◌, ℕ, false, length};
ghost use Rattle.nc_types.specs.declared.TheConstants.{ROUTER_LIMIT};
ghost use Rattle.nc_types.specs.Joining.{IsValid};
ghost use Rattle.nc_tables.specs.Reach.{owns};
ghost use Rattle.nc_underlay.specs.Levels.{flag, any_flagged, is_next};

use crate::exits::leads_to;
use nc_tables::BaseTables;
use nc_types::{Addr, Network, ROUTER_LIMIT, RouterId};

// No router is flagged.
fn no_flags() -> [bool; ROUTER_LIMIT]
    ensures flags { (other : ℕ) → flag result other ≡ false }
    ensures len { length result ≡ ROUTER_LIMIT }
{
    [false; ROUTER_LIMIT]
}

/// The flag of one router alone.
pub(crate) fn flag_alone(router: RouterId) -> [bool; ROUTER_LIMIT]
    requires { router.0 < ROUTER_LIMIT }
    ensures flags { (other : ℕ) → flag result other ≡ (other == router.0) }
    ensures len { length result ≡ ROUTER_LIMIT }
{
    let mut flags = no_flags();
    flags[router.0 as usize] = true;
    flags
}

// Flags the routers to which the hits of a router lead.
fn flag_next(network: &Network, base: &BaseTables, router: RouterId, addr: Addr, flags: &mut [bool])
    requires router { router.0 < length base.now }
    requires tables { length base.now ≡ length network.now }
    requires room { length network.now ≤ length flags.old }
    ensures len { length flags.new ≡ length flags.old }
    ensures flags { (other : ℕ) → flag flags.new other
        ≡ (flag flags.old other || is_next network.now base.now router.0 addr.0 other) }
{
    let rows = base.longest(router, addr);
    'rows: for place in rows.from..rows.to {
        if let Some((other, _)) = leads_to(network, base, router, addr, place) {
            flags[other.0 as usize] = true;
        }
    }
}

/// The routers to which the hits of the flagged routers lead; the network has so many routers.
pub(crate) fn next_level(
    network: &Network,
    base: &BaseTables,
    addr: Addr,
    level: &[bool; ROUTER_LIMIT],
    count: usize,
) -> [bool; ROUTER_LIMIT]
    requires count { count ≡ length network.now }
    requires few { count ≤ ROUTER_LIMIT }
    requires tables { length base.now ≡ length network.now }
    ensures len { length result ≡ ROUTER_LIMIT }
    ensures flags { (other : ℕ) → flag result other
        ≡ any_flagged level.now (λ router. is_next network.now base.now router addr.0 other) (length network.now) }
{
    let mut next = no_flags();
    'routers: for router in 0..count {
        if level[router] {
            flag_next(network, base, RouterId(router as u32), addr, &mut next);
        }
    }
    next
}

/// Whether a flagged router owns an address.
pub(crate) fn has_owner(network: &Network, addr: Addr, level: &[bool; ROUTER_LIMIT]) -> bool
    requires valid { IsValid network.now }
    requires few { length network.now ≤ ROUTER_LIMIT }
    ensures { result
        ≡ any_flagged level.now (λ router. owns network.now router addr.0) (length network.now) }
{
    match network.owner_of(addr) {
        Some((owner, _)) => level[owner.0 as usize],
        None => false,
    }
}
