//! The tables of all routers of a network, by which route maps, networks and aggregates are asked
//! again and again.

ghost use Rattle.std.specs.Prelude.{◌≡◌, ◌+◌, ◌<◌, ◌≤◌, List, length, All, IfOk, IfSome, Some, position, slice_get};
ghost use Rattle.std.specs.Option.{option_map};
ghost use Rattle.nc_types.specs.Cidr.{same_prefix};
ghost use Rattle.nc_types.specs.Config.{ConfigView};
ghost use Rattle.nc_types.specs.declared.TheConstants.{COMMUNITY_LIMIT, PATH_LIMIT};
ghost use Rattle.nc_tables.specs.Policy.{verdict};
ghost use Rattle.nc_tables.specs.Rounds.{passed};
ghost use Rattle.nc_tables.specs.declared.bgp.Route.{Route};
ghost use Rattle.nc_policy.specs.Best.{IsRising};
ghost use Rattle.nc_policy.specs.Indexes.{ArePolicies};
ghost use Rattle.nc_policy.specs.Seen.{IsIndexed, IsPrefixIndex};
ghost use Rattle.nc_policy.specs.Preferences.{highest_preference};
ghost use Rattle.nc_policy.specs.Passing.{communities_by, map_place, passing_view, prepended_by};
ghost use Rattle.nc_policy.specs.Statements.{aggregates_in, networks_in};
ghost use Rattle.nc_policy.specs.Views.{verdict_view};

use crate::clauses::first_clause;
use crate::lists::place_number;
use crate::passing::{Passing, pass_map};
use crate::route_map::{Verdict, judge};
use crate::router_index::RouterIndex;
use crate::statements::{PrefixIndex, aggregates_in, networks_in};
use nc_community::Held;
use nc_tables::{Numbered, Route};
use nc_types::{Network, Prefix, Reference, RouterConfig, RouterId};
use std::alloc::{AllocError, Global};
use std::marker::Model;
use std::rc::Rc;

/// Where a route map of a router stands: the place of its first clause among the router's clauses.
#[derive(Clone, Copy)]
pub struct MapPlace(pub u32);

/// The tables of the maps and lists of a network's routers, and of their networks and aggregates.
/// They are made once, and by them the clauses of a map are found one behind the other, a list by
/// its name at one look-up, a network or an aggregate by its prefix at one binary search, and what a
/// longer prefix list says of a prefix at one binary search for each length that prefixes of its
/// entries have. What maps of neighbor statements decide on the network's prefixes is kept, for routes
/// whose communities meet no clause of the map that asks for some, and by a community the clauses that
/// ask for it are found.
#[derive(Drop)]
pub struct Policies {
    routers: Vec<RouterIndex>,
}

impl Model for Policies {
    ghost use Rattle.std.specs.Prelude.{List, map};
    ghost use Rattle.nc_policy.specs.Indexes.{RouterTables};
    ghost use Rattle.nc_policy.specs.Seen.{router_tables};

    ghost Value = { List RouterTables };

    ghost view = { λ p. map router_tables p.routers.items };
}

// Addresses have 32 bits.
fn read_addresses(prefixes: &[Prefix])
    ensures { All (λ p. p.base < 4294967296) prefixes.now }
{
    'prefixes: for prefix in prefixes {
        let _addr = prefix.addr();
    }
}

// The prefixes of the networks and aggregates of routers, in order, each once: no other prefix begins
// anywhere.
fn prefixes_in(alloc: Global, configs: &[RouterConfig]) -> Result<Vec<Prefix>, AllocError>
    ensures { IfOk result (λ prefixes. IsRising prefixes.items) }
{
    let mut prefixes = Vec::new(alloc);
    'routers: for config in configs {
        prefixes.extend(networks_in(config).iter().map(|network| network.prefix))?;
        prefixes.extend(
            aggregates_in(config)
                .iter()
                .map(|aggregate| aggregate.prefix),
        )?;
    }
    prefixes.sort()?;
    prefixes.dedup();
    read_addresses(&prefixes);
    Ok(prefixes)
}

// The numbers of prefixes, which are their places.
fn numbers_of(alloc: Global, prefixes: &[Prefix]) -> Result<Rc<PrefixIndex>, AllocError>
    ensures { IfOk result (λ numbers. IsPrefixIndex prefixes.now numbers.value) }
{
    let table = PrefixIndex::numbered(alloc, prefixes)?;
    let numbers = Rc::new(alloc, table)?;
    Ok(numbers)
}

// The place of a map's first clause, if there is such a map.
fn first_of(place: Option<MapPlace>) -> Option<usize>
    ensures { result ≡ option_map (λ p. p.0) place }
{
    let place = place?;
    Some(place.0 as usize)
}

impl Policies {
    /// The tables of a network.
    ///
    /// # Errors
    ///
    /// Memory that runs out.
    pub fn new(alloc: Global, network: &Network) -> Result<Policies, AllocError>
        ensures { IfOk result (ArePolicies network.now) }
    {
        let configs = network.routers();
        let prefixes = prefixes_in(alloc, configs)?;
        let numbers = numbers_of(alloc, &prefixes)?;
        let mut routers = Vec::with_capacity(alloc, configs.len())?;
        'routers: for config in configs {
            let tables = RouterIndex::new(alloc, config, &prefixes, numbers.clone()?)?;
            routers.push(tables)?;
        }
        Ok(Policies { routers })
    }

    // The tables of the router of a number.
    fn tables(&self, router: usize) -> Option<&RouterIndex>
        ensures { (routers : List ConfigView) (c : ConfigView) → ArePolicies routers self.now
            → slice_get routers router ≡ Some c → IfSome result (λ tables. IsIndexed c tables.now) }
    {
        let tables = self.routers.get(router)?;
        Some(tables)
    }

    /// What the route map of this name of a router makes of a route, as [`crate::apply`] says it.
    /// The tables are those of the network, which has the router.
    ///
    /// # Errors
    ///
    /// Memory that runs out.
    pub fn apply(
        &self,
        alloc: Global,
        network: &Network,
        router: RouterId,
        map: &[u8],
        route: &Route,
    ) -> Result<Verdict, AllocError>
        requires policies { ArePolicies network.now self.now }
        requires router { router.0 < length network.now }
        ensures { IfOk result (λ v. (c : ConfigView) → slice_get network.now router.0 ≡ Some c
            → verdict_view v ≡ verdict c map.now route.now) }
    {
        let place = router.0 as usize;
        let config = &network.routers()[place];
        let verdict = judge(alloc, config, self.tables(place), map, route)?;
        Ok(verdict)
    }

    /// Where the map of a neighbor statement of a router stands: found once, it serves many routes by
    /// [`Policies::pass_at`]. `None` where the statement has no map, or the router none of its name.
    /// The tables are those of the network, which has the router. Takes no memory.
    pub fn map_place(
        &self,
        network: &Network,
        router: RouterId,
        map: &Option<Reference>,
    ) -> Option<MapPlace>
        requires policies { ArePolicies network.now self.now }
        requires router { router.0 < length network.now }
        ensures { (c : ConfigView) → slice_get network.now router.0 ≡ Some c
            → option_map (λ p. p.0) result ≡ map_place c map.now }
    {
        let Some(reference) = map else {
            return None;
        };
        let number = router.0 as usize;
        let config = &network.routers()[number];
        let first = first_clause(config, self.tables(number), reference.name.bytes())?;
        Some(MapPlace(place_number(config, first)))
    }

    /// The highest local preference that clauses of the map of a neighbor statement of a router set,
    /// where it is known where the map stands, as [`Policies::map_place`] says it; 0 where none sets one,
    /// and where there is no map. A route whose preference isn't above this leaves the map with none
    /// above it. The tables are those of the network, which has the router. Takes no memory.
    pub fn highest_preference(
        &self,
        network: &Network,
        router: RouterId,
        map: &Option<Reference>,
        place: Option<MapPlace>,
    ) -> u32
        requires policies { ArePolicies network.now self.now }
        requires router { router.0 < length network.now }
        requires place { (c : ConfigView) → slice_get network.now router.0 ≡ Some c
            → option_map (λ p. p.0) place ≡ map_place c map.now }
        ensures { (c : ConfigView) → slice_get network.now router.0 ≡ Some c
            → result ≡ highest_preference c map.now }
    {
        let Some(first) = first_of(place) else {
            return 0;
        };
        let tables = &self.routers[router.0 as usize];
        tables.highest_at(first)
    }

    /// What the map of a neighbor statement of a router, if it has one, makes of a route with this
    /// prefix, so many numbers in its path and these communities, as [`crate::pass`] says it. The
    /// tables are those of the network, which has the router. Takes no memory.
    pub fn pass<'a>(
        &self,
        network: &'a Network,
        router: RouterId,
        map: &Option<Reference>,
        prefix: Prefix,
        count: usize,
        held: &Held,
    ) -> Option<Passing<'a>>
        requires policies { ArePolicies network.now self.now }
        requires router { router.0 < length network.now }
        requires few { count ≤ PATH_LIMIT }
        ensures passed { (c : ConfigView) (r : Route) → slice_get network.now router.0 ≡ Some c
            → r.prefix ≡ prefix → length r.path ≡ count → r.communities ≡ held.now
            → option_map (passing_view r) result ≡ passed c map.now r }
        ensures short { IfSome result (λ p. length (prepended_by p) + count ≤ PATH_LIMIT) }
        ensures few { IfSome result (λ p. length held.now ≤ COMMUNITY_LIMIT
            → length (communities_by p held.now) ≤ COMMUNITY_LIMIT) }
    {
        let place = self.map_place(network, router, map);
        let of = Numbered { prefix, number: 0 };
        self.pass_at(network, router, map, place, of, count, held)
    }

    /// The same, where it is known where the map stands, as [`Policies::map_place`] says it, and of a
    /// prefix with a number: where that is its place among the prefixes that routers begin, in order,
    /// what is kept of it is found there. Another number costs a search, and changes no answer.
    pub fn pass_at<'a>(
        &self,
        network: &'a Network,
        router: RouterId,
        map: &Option<Reference>,
        place: Option<MapPlace>,
        of: Numbered,
        count: usize,
        held: &Held,
    ) -> Option<Passing<'a>>
        requires policies { ArePolicies network.now self.now }
        requires router { router.0 < length network.now }
        requires place { (c : ConfigView) → slice_get network.now router.0 ≡ Some c
            → option_map (λ p. p.0) place ≡ map_place c map.now }
        requires few { count ≤ PATH_LIMIT }
        ensures passed { (c : ConfigView) (r : Route) → slice_get network.now router.0 ≡ Some c
            → r.prefix ≡ of.prefix → length r.path ≡ count → r.communities ≡ held.now
            → option_map (passing_view r) result ≡ passed c map.now r }
        ensures short { IfSome result (λ p. length (prepended_by p) + count ≤ PATH_LIMIT) }
        ensures few { IfSome result (λ p. length held.now ≤ COMMUNITY_LIMIT
            → length (communities_by p held.now) ≤ COMMUNITY_LIMIT) }
    {
        let Some(reference) = map else {
            return Some(Passing::Unchanged);
        };
        let number = router.0 as usize;
        let config = &network.routers()[number];
        let name = reference.name.bytes();
        let first = first_of(place);
        pass_map(config, self.tables(number), name, first, of, count, held)
    }

    /// The place of the network statement of a prefix among those of a router; `None` where it has
    /// none. The tables are those of the network, which has the router. Takes no memory.
    pub fn network_of(&self, network: &Network, router: RouterId, prefix: Prefix) -> Option<usize>
        requires policies { ArePolicies network.now self.now }
        requires router { router.0 < length network.now }
        ensures { (c : ConfigView) → slice_get network.now router.0 ≡ Some c
            → result ≡ position (λ n. same_prefix n.prefix prefix) (networks_in c) }
    {
        let tables = &self.routers[router.0 as usize];
        tables.networks.place(prefix)
    }

    /// The same of the aggregate of a prefix.
    pub fn aggregate_of(&self, network: &Network, router: RouterId, prefix: Prefix) -> Option<usize>
        requires policies { ArePolicies network.now self.now }
        requires router { router.0 < length network.now }
        ensures { (c : ConfigView) → slice_get network.now router.0 ≡ Some c
            → result ≡ position (λ a. same_prefix a.prefix prefix) (aggregates_in c) }
    {
        let tables = &self.routers[router.0 as usize];
        tables.aggregates.place(prefix)
    }
}
