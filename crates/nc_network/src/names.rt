//! Two routers of one name.

ghost use Rattle.std.specs.Prelude.{◌≡◌, ◌+◌, ◌≤◌, ◌<◌, ◌^◌, length, map};
ghost use Rattle.nc_types.specs.declared.TheConstants.{ROUTER_LIMIT};
ghost use Rattle.nc_types.specs.Config.{config_view};
ghost use Rattle.nc_types.specs.Joining.{Numbered, earliest, numbered_from, same_name, same_names};
ghost use Rattle.nc_network.specs.Steps.{merge, first_of_all};

use crate::clash::{LinePair, earlier_of};
use nc_types::RouterConfig;

// Compares the names of two routers.
fn compare(
    router: u32,
    config: &RouterConfig,
    later: u32,
    other: &RouterConfig,
    found: Option<LinePair>,
) -> Option<LinePair>
    ensures { result
        ≡ merge found
        (earliest (same_name (record { router = router; config = config_view config.now })
        (record { router = later; config = config_view other.now }))) }
{
    if config.name == other.name {
        earlier_of(
            found,
            LinePair {
                first: router,
                first_line: config.name_line,
                second: later,
                second_line: other.name_line,
            },
        )
    } else {
        found
    }
}

// Compares the name of a router with those of all later ones.
fn compare_all(
    router: u32,
    config: &RouterConfig,
    later: &[RouterConfig],
    found: Option<LinePair>,
) -> Option<LinePair>
    requires { router + length later.now < 2 ^ 32 }
    ensures { result
        ≡ merge found
        (first_of_all (same_name (record { router = router; config = config_view config.now }))
        (numbered_from (router + 1) (map config_view later.now))) }
{
    let mut found = found;
    'later: for (step, other) in later.iter().enumerate() {
        found = compare(router, config, router + 1 + step as u32, other, found);
    }
    found
}

/// The earliest two routers of one name.
pub(crate) fn name_clash(routers: &[RouterConfig]) -> Option<LinePair>
    requires { length routers.now ≤ ROUTER_LIMIT }
    ensures { result ≡ earliest (same_names (map config_view routers.now)) }
{
    let mut found = None;
    'routers: for (router, config) in routers.iter().enumerate() {
        let later = routers.split_at(router + 1).1;
        found = compare_all(router as u32, config, later, found);
    }
    found
}
