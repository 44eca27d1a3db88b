//! References to what a router doesn't define.

ghost use Rattle.std.specs.Prelude.{◌≡◌, ◌≤◌, ℕ, length, map, IfOk};
ghost use Rattle.std.specs.List.{flat_map, list_any};
ghost use Rattle.std.specs.Option.{is_some, option_to_list};
ghost use Rattle.nc_types.specs.declared.TheConstants.{ROUTER_LIMIT};
ghost use Rattle.nc_types.specs.Config.{clause_view, config_view};
ghost use Rattle.nc_types.specs.Joining.{Numbered, earliest, interface_by, undefined, undefined_by};
ghost use Rattle.nc_types.specs.Joining.{undefined_in};
ghost use Rattle.nc_network.specs.Steps.{merge, first_of_all, undefined_interfaces, undefined_maps};
ghost use Rattle.nc_network.specs.Steps.{undefined_lists, lists_in};

use crate::clash::{LinePair, earlier_of};
use crate::defined::{ListKind, interface_names, list_names, map_names};
use indexmap::IndexSet;
use nc_types::{Clause, Neighbor, Reference, RouterConfig, StaticRoute, Text};
use std::alloc::{AllocError, Global};

// Looks a reference up.
fn check(
    router: u32,
    names: &IndexSet<Text>,
    reference: &Reference,
    found: Option<LinePair>,
) -> Option<LinePair>
    ensures { result ≡ merge found (earliest (undefined_by router names.now.keys reference.now)) }
{
    if names.contains(&reference.name) {
        found
    } else {
        earlier_of(
            found,
            LinePair {
                first: router,
                first_line: reference.line,
                second: 0,
                second_line: 0,
            },
        )
    }
}

// Looks a reference up where there is one.
fn check_some(
    router: u32,
    names: &IndexSet<Text>,
    reference: &Option<Reference>,
    found: Option<LinePair>,
) -> Option<LinePair>
    ensures { result
        ≡ merge found
        (first_of_all (undefined_by router names.now.keys) (option_to_list reference.now)) }
{
    match reference {
        None => found,
        Some(reference) => check(router, names, reference, found),
    }
}

// Looks up all references.
fn check_each(
    router: u32,
    names: &IndexSet<Text>,
    references: &[Reference],
    found: Option<LinePair>,
) -> Option<LinePair>
    ensures { result
        ≡ merge found (first_of_all (undefined_by router names.now.keys) references.now) }
{
    let mut found = found;
    'references: for reference in references {
        found = check(router, names, reference, found);
    }
    found
}

// Looks up the interface that a static route leads through.
fn check_via(
    router: u32,
    names: &IndexSet<Text>,
    route: &StaticRoute,
    found: Option<LinePair>,
) -> Option<LinePair>
    ensures { result
        ≡ merge found
        (first_of_all (undefined_by router names.now.keys)
        (option_to_list (interface_by route.now.via))) }
{
    match route.via.interface() {
        None => found,
        Some(reference) => check(router, names, reference, found),
    }
}

// Looks up the interfaces of static routes.
fn check_statics(
    router: u32,
    names: &IndexSet<Text>,
    statics: &[StaticRoute],
    found: Option<LinePair>,
) -> Option<LinePair>
    ensures { result
        ≡ merge found
        (first_of_all
        (λ s. flat_map (undefined_by router names.now.keys)
        (option_to_list (interface_by s.via))) statics.now) }
{
    let mut found = found;
    'statics: for route in statics {
        found = check_via(router, names, route, found);
    }
    found
}

// Looks up the interfaces that sessions start from.
fn check_sources(
    router: u32,
    names: &IndexSet<Text>,
    neighbors: &[Neighbor],
    found: Option<LinePair>,
) -> Option<LinePair>
    ensures { result
        ≡ merge found
        (first_of_all
        (λ n. flat_map (undefined_by router names.now.keys)
        (option_to_list n.source)) neighbors.now) }
{
    let mut found = found;
    'neighbors: for neighbor in neighbors {
        found = check_some(router, names, &neighbor.source, found);
    }
    found
}

// Looks up the route maps for what neighbors send.
fn check_in(
    router: u32,
    names: &IndexSet<Text>,
    neighbors: &[Neighbor],
    found: Option<LinePair>,
) -> Option<LinePair>
    ensures { result
        ≡ merge found
        (first_of_all
        (λ n. flat_map (undefined_by router names.now.keys)
        (option_to_list n.map_in)) neighbors.now) }
{
    let mut found = found;
    'neighbors: for neighbor in neighbors {
        found = check_some(router, names, &neighbor.map_in, found);
    }
    found
}

// Looks up the route maps for what is sent to neighbors.
fn check_out(
    router: u32,
    names: &IndexSet<Text>,
    neighbors: &[Neighbor],
    found: Option<LinePair>,
) -> Option<LinePair>
    ensures { result
        ≡ merge found
        (first_of_all
        (λ n. flat_map (undefined_by router names.now.keys)
        (option_to_list n.map_out)) neighbors.now) }
{
    let mut found = found;
    'neighbors: for neighbor in neighbors {
        found = check_some(router, names, &neighbor.map_out, found);
    }
    found
}

// The lists of a kind that a clause refers to.
fn lists_of(kind: ListKind, clause: &Clause) -> &[Reference]
    ensures { result.now ≡ lists_in kind (clause_view clause.now) }
{
    match kind {
        ListKind::OfPrefixes => &clause.lists,
        ListKind::OfCommunities => &clause.community_lists,
    }
}

// Looks up the lists of a kind that clauses refer to.
fn check_clauses(
    router: u32,
    kind: ListKind,
    names: &IndexSet<Text>,
    clauses: &[Clause],
    found: Option<LinePair>,
) -> Option<LinePair>
    ensures { result
        ≡ merge found
        (first_of_all
        (λ k. flat_map (undefined_by router names.now.keys) (lists_in kind k))
        (map clause_view clauses.now)) }
{
    let mut found = found;
    'clauses: for clause in clauses {
        found = check_each(router, names, lists_of(kind, clause), found);
    }
    found
}

// The interfaces that a router refers to.
fn check_interfaces(
    alloc: Global,
    router: u32,
    config: &RouterConfig,
    found: Option<LinePair>,
) -> Result<Option<LinePair>, AllocError>
    ensures { IfOk result
        (λ r. r ≡ merge found
        (earliest (undefined_interfaces
        (record { router = router; config = config_view config.now })))) }
{
    let names = interface_names(alloc, &config.interfaces)?;
    let found = check_statics(router, &names, &config.statics, found);
    match &config.process {
        None => Ok(found),
        Some(process) => Ok(check_sources(router, &names, &process.neighbors, found)),
    }
}

// Whether a static route leads through an interface.
fn leads_through(statics: &[StaticRoute]) -> bool
    ensures { result ≡ list_any (λ s. is_some (interface_by s.via)) statics.now }
{
    statics.iter().any(|route| route.via.interface().is_some())
}

// The interfaces that a router refers to; where it refers to none, their names aren't gathered.
fn check_used_interfaces(
    alloc: Global,
    router: u32,
    config: &RouterConfig,
    found: Option<LinePair>,
) -> Result<Option<LinePair>, AllocError>
    ensures { IfOk result
        (λ r. r ≡ merge found
        (earliest (undefined_interfaces
        (record { router = router; config = config_view config.now })))) }
{
    if config.process.is_none() && !leads_through(&config.statics) {
        return Ok(found);
    }
    let found = check_interfaces(alloc, router, config, found)?;
    Ok(found)
}

// The route maps that a router refers to.
fn check_maps(
    alloc: Global,
    router: u32,
    config: &RouterConfig,
    found: Option<LinePair>,
) -> Result<Option<LinePair>, AllocError>
    ensures { IfOk result
        (λ r. r ≡ merge found
        (earliest (undefined_maps (record { router = router; config = config_view config.now })))) }
{
    let names = map_names(alloc, &config.clauses)?;
    match &config.process {
        None => Ok(found),
        Some(process) => {
            let found = check_in(router, &names, &process.neighbors, found);
            Ok(check_out(router, &names, &process.neighbors, found))
        }
    }
}

// The lists of a kind that a router refers to.
fn check_lists(
    alloc: Global,
    router: u32,
    kind: ListKind,
    config: &RouterConfig,
    found: Option<LinePair>,
) -> Result<Option<LinePair>, AllocError>
    ensures { IfOk result
        (λ r. r ≡ merge found
        (earliest (undefined_lists kind
        (record { router = router; config = config_view config.now })))) }
{
    let names = list_names(alloc, kind, config)?;
    let found = check_clauses(router, kind, &names, &config.clauses, found);
    Ok(found)
}

// All that a router refers to.
fn check_router(
    alloc: Global,
    router: u32,
    config: &RouterConfig,
    found: Option<LinePair>,
) -> Result<Option<LinePair>, AllocError>
    ensures { IfOk result
        (λ r. r ≡ merge found
        (earliest (undefined_in (record { router = router; config = config_view config.now })))) }
{
    let found = check_used_interfaces(alloc, router, config, found)?;
    let found = check_maps(alloc, router, config, found)?;
    let found = check_lists(alloc, router, ListKind::OfPrefixes, config, found)?;
    let found = check_lists(alloc, router, ListKind::OfCommunities, config, found)?;
    Ok(found)
}

/// The earliest line that refers to what its router doesn't define.
pub(crate) fn reference_clash(
    alloc: Global,
    routers: &[RouterConfig],
) -> Result<Option<LinePair>, AllocError>
    requires { length routers.now ≤ ROUTER_LIMIT }
    ensures { IfOk result (λ r. r ≡ earliest (undefined (map config_view routers.now))) }
{
    let mut found = None;
    'routers: for (router, config) in routers.iter().enumerate() {
        found = check_router(alloc, router as u32, config, found)?;
    }
    Ok(found)
}
