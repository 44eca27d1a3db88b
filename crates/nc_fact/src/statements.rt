//! The BGP process of a router.

ghost use Rattle.std.specs.Prelude.{◌≡◌, slice_get};
ghost use Rattle.std.specs.Option.{option_map};
ghost use Rattle.nc_types.specs.Config.{config_view, process_view};
ghost use Rattle.nc_tables.specs.Sessions.{process_of};

use nc_tables::Stable;
use nc_types::{Process, RouterConfig, RouterId};

// The configuration of a router.
fn config_at(state: &Stable, router: RouterId) -> Option<&RouterConfig>
    ensures { option_map (λ c. config_view c.now) result ≡ slice_get state.now.routers router.0 }
{
    state.network().routers().get(router.0 as usize)
}

/// The process in the configuration of a router.
pub(crate) fn process_at(state: &Stable, router: RouterId) -> Option<&Process>
    ensures { option_map (λ p. process_view p.now) result
        ≡ process_of state.now.routers router.0 }
{
    config_at(state, router)?.process.as_ref()
}
