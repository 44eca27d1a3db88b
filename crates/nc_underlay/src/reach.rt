ghost use Rattle.std.specs.Prelude.{◌≡◌, ◌<◌, ◌≤◌, length};
ghost use Rattle.nc_types.specs.declared.TheConstants.{HOP_LIMIT};
ghost use Rattle.nc_tables.specs.Base.{base_tables};
ghost use Rattle.nc_tables.specs.Reach.{reaches};

use crate::levels::{flag_alone, has_owner, next_level};
use nc_tables::BaseTables;
use nc_types::{Addr, Network, RouterId};

/// Whether a packet for an address comes from a router to the address's owner by some of the base tables' rows,
/// over at most so many hops, 0 to [`nc_types::HOP_LIMIT`]. The tables are those of the network, and the router is one of its routers.
pub fn reaches(network: &Network, base: &BaseTables, router: RouterId, addr: Addr, hops: u8) -> bool
    requires router { router.0 < length network.now }
    requires tables { base.now ≡ base_tables network.now }
    requires hops { hops ≤ HOP_LIMIT }
    ensures { result ≡ reaches network.now base.now hops router.0 addr.0 }
{
    let count = network.routers().len();
    let mut level = flag_alone(router);
    let mut left = hops;
    'levels: while left > 0 {
        if has_owner(network, addr, &level) {
            return true;
        }
        level = next_level(network, base, addr, &level, count);
        left -= 1;
    }
    has_owner(network, addr, &level)
}
