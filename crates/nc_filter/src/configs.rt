//! The configurations of a network's routers.

ghost use Rattle.std.specs.Prelude.{◌≡◌, ◌<◌, ◌+◌, ◌^◌, IfSome, length, slice_get};
ghost use Rattle.std.specs.Option.{option_map};
ghost use Rattle.nc_types.specs.Config.{config_view};
ghost use Rattle.nc_types.specs.WellFormed.{IsWellFormed};

use nc_types::{Network, RouterConfig, RouterId};

// The configuration at a place among the routers.
fn config_at(network: &Network, router: RouterId) -> Option<&RouterConfig>
    ensures { option_map (λ c. config_view c.now) result ≡ slice_get network.now router.0 }
{
    network.routers().get(router.0 as usize)
}

/// The configuration of a router; `None` where there is no such router.
pub(crate) fn config_of(network: &Network, router: RouterId) -> Option<&RouterConfig>
    ensures config { option_map (λ c. config_view c.now) result ≡ slice_get network.now router.0 }
    ensures formed { IfSome result (λ c. IsWellFormed (config_view c.now)) }
    ensures few { IfSome result (λ c. length c.now.filters.items + length c.now.groups.items < 2 ^ 32) }
{
    let _valid = network.routers();
    let _few = network.element_count();
    let config = config_at(network, router)?;
    Some(config)
}
