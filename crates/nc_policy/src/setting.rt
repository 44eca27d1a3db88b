//! What a clause sets of a route.

ghost use Rattle.std.specs.Prelude.{◌≡◌, ◌++◌, None, Some, if◌then◌else◌, IfOk, nat_lt, length};
ghost use Rattle.nc_types.specs.declared.TheConstants.{PATH_LIMIT};
ghost use Rattle.nc_types.specs.Communities.{limited};
ghost use Rattle.nc_types.specs.Setting.{set_all};
ghost use Rattle.nc_types.specs.Config.{clause_view};
ghost use Rattle.nc_tables.specs.Policy.{set_by, is_over};

use nc_community::Held;
use nc_tables::{Path, Route};
use nc_types::{Clause, Communities, PATH_LIMIT, SetCommunity};
use std::alloc::{AllocError, Global};

// The path of a route behind the numbers that a clause prepends; `None` where it is too long.
fn path_behind(alloc: Global, prepend: &[u32], path: &Path) -> Result<Option<Path>, AllocError>
    ensures { IfOk result (λ longer. longer
        ≡ (if nat_lt PATH_LIMIT (length (prepend.now ++ path.now)) then None
        else Some (prepend.now ++ path.now))) }
{
    if prepend.len() > PATH_LIMIT - path.len() {
        return Ok(None);
    }
    let longer = path.share()?.behind_all(alloc, prepend)?;
    Ok(Some(longer))
}

// What a clause leaves of the communities of a route; `None` where they are too many.
fn communities_left(
    alloc: Global,
    set: &Option<SetCommunity>,
    held: &Communities,
) -> Result<Option<Communities>, AllocError>
    ensures { IfOk result (λ left. left ≡ limited (set_all set.now held.now)) }
{
    let held = Held::of(held);
    if !held.fits(set) {
        return Ok(None);
    }
    Ok(Some(held.left(alloc, set)?))
}

/// A route with what a clause sets; `None` where its path is too long, or its communities are too
/// many.
pub(crate) fn set_by(
    alloc: Global,
    clause: &Clause,
    route: &Route,
) -> Result<Option<Route>, AllocError>
    ensures { IfOk result (λ changed. changed
        ≡ (if is_over (set_by (clause_view clause.now) route.now)
        then None else Some (set_by (clause_view clause.now) route.now))) }
{
    let Some(path) = path_behind(alloc, &clause.prepend, &route.path)? else {
        return Ok(None);
    };
    let Some(communities) = communities_left(alloc, &clause.communities, &route.communities)? else {
        return Ok(None);
    };
    Ok(Some(Route {
        prefix: route.prefix,
        path,
        next_hop: route.next_hop,
        preference: clause.preference.unwrap_or(route.preference),
        metric: clause.metric.unwrap_or(route.metric),
        origin: clause.origin.unwrap_or(route.origin),
        communities,
    }))
}
