//! What the map of a neighbor statement makes of a route, told without making the route.

ghost use Rattle.std.specs.Prelude.{◌≡◌, ◌+◌, ◌≤◌, ◌<◌, length, IfOk, IfSome};
ghost use Rattle.std.specs.Option.{option_map};
ghost use Rattle.nc_types.specs.Config.{ConfigView, config_view};
ghost use Rattle.nc_types.specs.WellFormed.{IsWellFormed};
ghost use Rattle.nc_types.specs.declared.TheConstants.{COMMUNITY_LIMIT, PATH_LIMIT};
ghost use Rattle.nc_tables.specs.Policy.{verdict};
ghost use Rattle.nc_tables.specs.Rounds.{passed, passed_by};
ghost use Rattle.nc_tables.specs.declared.bgp.Route.{Route};
ghost use Rattle.nc_policy.specs.Indexes.{place_from};
ghost use Rattle.nc_policy.specs.Seen.{IsIndexed};
ghost use Rattle.nc_policy.specs.Views.{map_names};
ghost use Rattle.nc_policy.specs.Passing.{prepended_by, preference_by, metric_by, origin_by};
ghost use Rattle.nc_policy.specs.Passing.{communities_by, passing_view};

use crate::clauses::{deciding, first_clause};
use crate::lists::place_number;
use crate::router_index::RouterIndex;
use nc_community::Held;
use nc_tables::{Names, Numbered};
use nc_types::{Clause, Communities, OriginCode, PATH_LIMIT, Prefix, Reference, RouterConfig};
use std::alloc::{AllocError, Global};

/// The clause of a route map that let a route pass.
#[derive(Clone, Copy)]
pub struct ByClause<'a> {
    /// The place of the clause among the router's clauses.
    pub place: u32,
    pub clause: &'a Clause,
    /// The entries by which it matched.
    pub names: Names,
}

/// How a route passed a neighbor statement that has a map, or none.
#[derive(Clone, Copy)]
pub enum Passing<'a> {
    /// There is no map: the route stays as it is.
    Unchanged,
    /// A clause let it pass, with what the clause sets.
    By(ByClause<'a>),
}

impl<'a> Passing<'a> {
    /// The numbers that go before the path of the route.
    pub fn prepended(&self) -> &'a [u32]
        ensures { result.now ≡ prepended_by self.now }
    {
        match self {
            Passing::Unchanged => &[],
            Passing::By(by) => &by.clause.prepend,
        }
    }

    /// The local preference of a route that had this one.
    pub fn preference(&self, before: u32) -> u32
        ensures { result ≡ preference_by self.now before }
    {
        match self {
            Passing::Unchanged => before,
            Passing::By(by) => by.clause.preference.unwrap_or(before),
        }
    }

    /// The metric of a route that had this one.
    pub fn metric(&self, before: u32) -> u32
        ensures { result ≡ metric_by self.now before }
    {
        match self {
            Passing::Unchanged => before,
            Passing::By(by) => by.clause.metric.unwrap_or(before),
        }
    }

    /// The origin of a route that had this one.
    pub fn origin(&self, before: OriginCode) -> OriginCode
        ensures { result ≡ origin_by self.now before }
    {
        match self {
            Passing::Unchanged => before,
            Passing::By(by) => by.clause.origin.unwrap_or(before),
        }
    }

    /// The communities of a route that had these. They are no more than
    /// [`nc_types::COMMUNITY_LIMIT`], as they are of a route that passed.
    pub fn communities(&self, before: &'a Communities) -> Held<'a>
        requires { length (communities_by self.now before.now) ≤ COMMUNITY_LIMIT }
        ensures { result ≡ communities_by self.now before.now }
    {
        match self {
            Passing::Unchanged => Held::of(before),
            Passing::By(by) => Held::set_over(before, &by.clause.communities),
        }
    }

    /// The same in memory.
    ///
    /// # Errors
    ///
    /// Memory that runs out.
    pub fn communities_left(&self, alloc: Global, before: &Held) -> Result<Communities, AllocError>
        requires { length (communities_by self.now before.now) ≤ COMMUNITY_LIMIT }
        ensures { IfOk result (λ left. left ≡ communities_by self.now before.now) }
    {
        match self {
            Passing::Unchanged => before.communities(alloc),
            Passing::By(by) => before.left(alloc, &by.clause.communities),
        }
    }
}

/// What a router's route map of this name makes of a route with this prefix, so many numbers in its
/// path and these communities, by the router's tables, if it has any. The map's first clause stands at
/// this place; `None` where it has none. What is kept of map and prefix is looked for at the prefix's
/// number first.
pub(crate) fn pass_map<'a>(
    config: &'a RouterConfig,
    index: Option<&RouterIndex>,
    map: &[u8],
    first: Option<usize>,
    of: Numbered,
    count: usize,
    held: &Held,
) -> Option<Passing<'a>>
    requires indexed { IfSome index (λ x. IsIndexed (config_view config.now) x.now) }
    requires first { first ≡ place_from map.now 0 (map_names (config_view config.now)) }
    requires formed { IsWellFormed (config_view config.now) }
    requires few { count ≤ PATH_LIMIT }
    ensures passed { (r : Route) → r.prefix ≡ of.prefix → length r.path ≡ count
        → r.communities ≡ held.now → option_map (passing_view r) result
        ≡ passed_by (verdict (config_view config.now) map.now r) }
    ensures short { IfSome result (λ p. length (prepended_by p) + count ≤ PATH_LIMIT) }
    ensures few { IfSome result (λ p. length (communities_by p held.now) ≤ COMMUNITY_LIMIT) }
{
    let found = deciding(config, index, map, first, of, held)?;
    if !found.clause.permit {
        return None;
    }
    if found.clause.prepend.len() > PATH_LIMIT - count {
        return None;
    }
    if !held.fits(&found.clause.communities) {
        return None;
    }
    Some(Passing::By(ByClause {
        place: place_number(config, found.place),
        clause: found.clause,
        names: found.names,
    }))
}

/// What the map of a neighbor statement, if it has one, makes of a route with this prefix, so many
/// numbers in its path (at most [`nc_types::PATH_LIMIT`]) and these communities; `None` where it
/// denies the route, as [`crate::apply`] does, also one that gets too long a path or too many
/// communities. Takes no memory.
pub fn pass<'a>(
    config: &'a RouterConfig,
    map: &Option<Reference>,
    prefix: Prefix,
    count: usize,
    held: &Held,
) -> Option<Passing<'a>>
    requires formed { IsWellFormed (config_view config.now) }
    requires few { count ≤ PATH_LIMIT }
    ensures passed { (r : Route) → r.prefix ≡ prefix → length r.path ≡ count
        → r.communities ≡ held.now → option_map (passing_view r) result
        ≡ passed (config_view config.now) map.now r }
    ensures short { IfSome result (λ p. length (prepended_by p) + count ≤ PATH_LIMIT) }
    ensures few { IfSome result (λ p. length held.now ≤ COMMUNITY_LIMIT
        → length (communities_by p held.now) ≤ COMMUNITY_LIMIT) }
{
    let Some(reference) = map else {
        return Some(Passing::Unchanged);
    };
    let name = reference.name.bytes();
    let first = first_clause(config, None, name);
    let of = Numbered { prefix, number: 0 };
    pass_map(config, None, name, first, of, count, held)
}
