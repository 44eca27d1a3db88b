//! The configurations of a network's routers.

ghost use Rattle.std.specs.Prelude.{◌≡◌, ◌<◌, ◌^◌, length, slice_get, IfSome};
ghost use Rattle.std.specs.Option.{option_map};
ghost use Rattle.nc_types.specs.Config.{config_view};
ghost use Rattle.nc_types.specs.WellFormed.{IsWellFormed};

use nc_tables::Stable;
use nc_types::{RouterConfig, RouterId};

// The configuration at a place among the routers.
fn config_at(state: &Stable, router: RouterId) -> Option<&RouterConfig>
    ensures { option_map (λ c. config_view c.now) result ≡ slice_get state.now.routers router.0 }
{
    state.network().routers().get(router.0 as usize)
}

/// The configuration of a router; `None` where there is no such router.
pub(crate) fn config_of(state: &Stable, router: RouterId) -> Option<&RouterConfig>
    ensures config { option_map (λ c. config_view c.now) result
        ≡ slice_get state.now.routers router.0 }
    ensures formed { IfSome result (λ c. IsWellFormed (config_view c.now)) }
    ensures few { IfSome result (λ c. length c.now.interfaces.items < 2 ^ 32) }
{
    let _few = state.network().element_count();
    config_at(state, router)
}
