//! What a router's route map makes of a route.

ghost use Rattle.std.specs.Prelude.{◌≡◌, IfOk, IfSome};
ghost use Rattle.nc_types.specs.Config.{config_view};
ghost use Rattle.nc_types.specs.WellFormed.{IsWellFormed};
ghost use Rattle.nc_tables.specs.Policy.{verdict};
ghost use Rattle.nc_policy.specs.Views.{verdict_view};
ghost use Rattle.nc_policy.specs.Seen.{IsIndexed};

use crate::clauses::{deciding, first_clause};
use crate::lists::place_number;
use crate::router_index::RouterIndex;
use crate::setting::set_by;
use nc_community::Held;
use nc_tables::{Numbered, Place, Route};
use nc_types::RouterConfig;
use std::alloc::{AllocError, Global};

/// What a route map makes of a route.
#[derive(Drop)]
pub enum Verdict {
    /// The route is dropped.
    Deny,
    /// The route goes on.
    Permit {
        /// The route with what the deciding clause sets.
        route: Route,
        /// The place of the deciding clause among the router's clauses.
        clause: u32,
        /// The entry of a prefix list by which the clause matched; `None` where it names no prefix
        /// list.
        entry: Option<Place>,
        /// The entry of a community list by which it matched; `None` where it names no community
        /// list.
        community: Option<Place>,
    },
}

// What a router's route map of this name makes of a route, by the router's tables, if it has any.
pub(crate) fn judge(
    alloc: Global,
    config: &RouterConfig,
    index: Option<&RouterIndex>,
    map: &[u8],
    route: &Route,
) -> Result<Verdict, AllocError>
    requires indexed { IfSome index (λ x. IsIndexed (config_view config.now) x.now) }
    requires formed { IsWellFormed (config_view config.now) }
    ensures { IfOk result (λ v. verdict_view v
        ≡ verdict (config_view config.now) map.now route.now) }
{
    let held = Held::of(&route.communities);
    let first = first_clause(config, index, map);
    let of = Numbered {
        prefix: route.prefix,
        number: 0,
    };
    let Some(found) = deciding(config, index, map, first, of, &held) else {
        return Ok(Verdict::Deny);
    };
    if !found.clause.permit {
        return Ok(Verdict::Deny);
    }
    let Some(changed) = set_by(alloc, found.clause, route)? else {
        return Ok(Verdict::Deny);
    };
    Ok(Verdict::Permit {
        route: changed,
        clause: place_number(config, found.place),
        entry: found.names.entry,
        community: found.names.community,
    })
}

/// What a router's route map of this name makes of a route: the matching clause with the least
/// number permits it, with what the clause sets, or denies it. Where there is no such map, where no
/// clause matches, and where the path would have more numbers than the limit or the route more
/// communities, the route is denied. The only error is want of memory.
pub fn apply(
    alloc: Global,
    config: &RouterConfig,
    map: &[u8],
    route: &Route,
) -> Result<Verdict, AllocError>
    requires { IsWellFormed (config_view config.now) }
    ensures { IfOk result (λ v. verdict_view v
        ≡ verdict (config_view config.now) map.now route.now) }
{
    let verdict = judge(alloc, config, None, map, route)?;
    Ok(verdict)
}
