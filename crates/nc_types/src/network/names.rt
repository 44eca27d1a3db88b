//! Which router has each name.

ghost use Rattle.std.specs.Prelude.{◌≡◌, ◌^◌, ◌<◌, ℕ, List, length, map, IfOk, OnOk, None, Some, if◌then◌else◌};
ghost use Rattle.std.specs.Option.{option_map, option_or};
ghost use Rattle.std.specs.Str.{bytes_eq};
ghost use Rattle.nc_types.specs.Config.{config_view};
ghost use Rattle.nc_types.specs.Network.{router_named};
ghost use Rattle.nc_types.specs.Tables.{named_by};

use crate::config::{RouterConfig, RouterId};
use std::alloc::{AllocError, Global};
use std::collections::BTreeMap;

// Gives a name to a router, if no router has it yet.
fn claim_name(
    alloc: Global,
    names: &mut BTreeMap<Vec<u8>, RouterId>,
    name: &[u8],
    router: RouterId,
) -> Result<(), AllocError>
    ensures { OnOk result ((q : List ℕ) → named_by names.new q
        ≡ option_or (named_by names.old q) (if bytes_eq q name.now then Some router else None)) }
{
    if names.contains_key(name) {
        return Ok(());
    }
    names.insert(Vec::from_slice(alloc, name)?, router)?;
    Ok(())
}

/// The router of each name.
pub(crate) fn router_names(
    alloc: Global,
    routers: &[RouterConfig],
) -> Result<BTreeMap<Vec<u8>, RouterId>, AllocError>
    requires { length routers.now < 2 ^ 32 }
    ensures { IfOk result (λ names. (name : List ℕ)
        → option_map (λ r. r.0) (named_by names name) ≡ router_named (map config_view routers.now) name) }
{
    let mut names = BTreeMap::new(alloc);
    'routers: for (router, config) in routers.iter().enumerate() {
        claim_name(
            alloc,
            &mut names,
            config.name.bytes(),
            RouterId(router as u32),
        )?;
    }
    Ok(names)
}
