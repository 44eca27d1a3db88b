//! The routes of a router's BGP process: what it begins, what it is sent, what it accepts and what it chooses.

ghost use Rattle.std.specs.Prelude.{◌≡◌, ◌≤◌, [], false, IfSome, length};
ghost use Rattle.std.specs.Option.{option_map, option_map_or};
ghost use Rattle.nc_types.specs.declared.TheConstants.{MULTIPATH_LIMIT};
ghost use Rattle.nc_tables.specs.Rounds.{chosen_at, is_active, link_at};
ghost use Rattle.nc_tables.specs.SpreadView.{route_view, row_view};
ghost use Rattle.nc_policy.specs.Indexes.{ArePolicies};
ghost use Rattle.nc_sessions.specs.Views.{link_view};
ghost use Rattle.nc_message.specs.Inputs.{IsBetween};
ghost use Rattle.nc_message.specs.Adjacencies.{AreAdjacencies};
ghost use Rattle.nc_message.specs.Views.{message_view, accepted_view, IsAdvertised, IsAccepted};
ghost use Rattle.nc_fact.specs.Accepting.{accepted_by, AreInputsOf};
ghost use Rattle.nc_fact.specs.Facts.{network_of, aggregate_of, has_active, has_source};
ghost use Rattle.nc_fact.specs.Facts.{message_of, accepted_of, chosen_of};

use crate::rows::{has_router, rows_of_prefix};
use crate::statements::process_at;
use nc_message::{
    AcceptedRoute, Adjacencies, Adjacency, Advertisement, RoutingInputs, accepted_at,
    accepted_over, adjacency_of, message_at,
};
use nc_policy::Policies;
use nc_sessions::Link;
use nc_tables::{ChosenRow, RibRoute, Stable};
use nc_types::{AggregateStatement, NetworkStatement, Prefix, RouterId};

/// What is needed to tell messages: the network with its tables, those of its maps, and what is known of the senders
/// of its sessions, where that is asked again and again.
pub(crate) fn inputs<'a>(
    state: &'a Stable,
    policies: &'a Policies,
    adjacencies: Option<&'a Adjacencies>,
) -> RoutingInputs<'a>
    requires policies { ArePolicies state.now.routers policies.now }
    requires adjacencies { IfSome adjacencies
        (λ l. AreAdjacencies state.now.routers state.now.base state.now.sessions l.now) }
    ensures { AreInputsOf state.entry.now result }
{
    RoutingInputs {
        network: state.network(),
        base: state.base(),
        sessions: state.sessions(),
        policies,
        adjacencies,
    }
}

/// The network statement at a place of a router's process; `None` where there is no such statement, process or
/// router.
pub fn network_of(state: &Stable, router: RouterId, place: u32) -> Option<NetworkStatement>
    ensures { result ≡ network_of state.now router.0 place }
{
    let process = process_at(state, router)?;
    process.networks.get(place as usize).copied()
}

/// The same of its aggregate statements.
pub fn aggregate_of(state: &Stable, router: RouterId, place: u32) -> Option<AggregateStatement>
    ensures { result ≡ aggregate_of state.now router.0 place }
{
    let process = process_at(state, router)?;
    process.aggregates.get(place as usize).copied()
}

/// Whether a router's base table has a row of a prefix.
pub(crate) fn has_source(state: &Stable, router: RouterId, prefix: Prefix) -> bool
    ensures { result ≡ has_source state.now router.0 prefix }
{
    let rows = rows_of_prefix(state, router, prefix);
    rows.from < rows.to
}

/// Whether the network statement at a place of a router has a row in the base table.
pub(crate) fn has_origin(state: &Stable, router: RouterId, place: u32) -> bool
    ensures { result ≡ option_map_or (λ n. has_source state.now router.0 n.prefix)
        (network_of state.now router.0 place) false }
{
    match network_of(state, router, place) {
        Some(network) => has_source(state, router, network.prefix),
        None => false,
    }
}

// Whether an aggregate of a router is active: a longer prefix inside it has a chosen route.
fn is_active(state: &Stable, router: RouterId, aggregate: &AggregateStatement) -> bool
    ensures { result ≡ is_active state.now.bgp router.0 aggregate.now }
{
    if !has_router(state, router) {
        return false;
    }
    state.bgp().has_longer(router, aggregate.prefix)
}

/// Whether the aggregate statement at a place of a router is active.
pub(crate) fn has_active(state: &Stable, router: RouterId, place: u32) -> bool
    ensures { result ≡ has_active state.now router.0 place }
{
    match aggregate_of(state, router, place) {
        Some(aggregate) => is_active(state, router, &aggregate),
        None => false,
    }
}

/// The message to the neighbor statement at a place of a router for a prefix, in the state as it settled; `None`
/// where none is sent, and where there is no such statement or router. The policies are those of the state's
/// routers. Takes no memory.
pub fn message_of<'a>(
    state: &'a Stable,
    policies: &'a Policies,
    router: RouterId,
    place: u32,
    prefix: Prefix,
) -> Option<Advertisement<'a>>
    requires policies { ArePolicies state.now.routers policies.now }
    ensures message { option_map message_view result
        ≡ message_of state.entry.now router.0 place prefix }
    ensures told { IfSome result IsAdvertised }
{
    let inputs = inputs(state, policies, None);
    message_at(&inputs, state.bgp(), router, place, prefix)
}

/// What the router accepts of that message; `None` where it accepts nothing. Takes no memory.
pub fn accepted_of<'a>(
    state: &'a Stable,
    policies: &'a Policies,
    router: RouterId,
    place: u32,
    prefix: Prefix,
) -> Option<AcceptedRoute<'a>>
    requires policies { ArePolicies state.now.routers policies.now }
    ensures accepted { option_map accepted_view result
        ≡ accepted_of state.entry.now router.0 place prefix }
    ensures taken { IfSome result IsAccepted }
{
    let inputs = inputs(state, policies, None);
    accepted_at(&inputs, state.bgp(), router, place, prefix)
}

/// Both ends of the session of the neighbor statement at a place of a router; `None` where there is no such session,
/// statement or router. The policies are those of the state's routers. Takes no memory.
pub fn link_at<'a>(
    state: &'a Stable,
    policies: &'a Policies,
    router: RouterId,
    place: u32,
) -> Option<Link<'a>>
    requires policies { ArePolicies state.now.routers policies.now }
    ensures link { option_map link_view result
        ≡ link_at state.entry.now.routers state.entry.now.sessions router.0 place }
    ensures between { IfSome result
        (λ k. IsBetween state.entry.now.routers router.0 (link_view k)) }
{
    let inputs = inputs(state, policies, None);
    let adjacency = adjacency_of(&inputs, router, place)?;
    Some(adjacency.link)
}

/// What a router accepts over a session of the best that its peer has chosen of a prefix; `None` where it accepts
/// nothing. The policies are those of the state's routers. Takes no memory.
pub fn accepted_by<'a>(
    state: &'a Stable,
    policies: &'a Policies,
    router: RouterId,
    link: Link<'a>,
    prefix: Prefix,
) -> Option<AcceptedRoute<'a>>
    requires policies { ArePolicies state.now.routers policies.now }
    requires between { IsBetween state.now.routers router.0 (link_view link) }
    ensures { option_map accepted_view result
        ≡ accepted_by state.entry.now router.0 (link_view link.entry) prefix }
{
    let inputs = inputs(state, policies, None);
    let best = chosen_of(state, link.session.peer, prefix, 0)?;
    let adjacency = Adjacency { link, sender: None };
    accepted_over(&inputs, router, adjacency, best)
}

/// The routes of a prefix that a router has chosen, best first; `None` where the prefix has no row, and where
/// there is no such router.
pub fn chosen_at(state: &Stable, router: RouterId, prefix: Prefix) -> Option<ChosenRow<'_>>
    ensures chosen { option_map_or (λ row. (row_view row).chosen) result []
        ≡ chosen_at state.now.bgp router.0 prefix }
    ensures few { IfSome result (λ row. length (row_view row).chosen ≤ MULTIPATH_LIMIT) }
{
    if !has_router(state, router) {
        return None;
    }
    state.bgp().chosen(router, prefix)
}

/// The route of a prefix that a router has chosen at a place, the best at 0.
pub fn chosen_of(
    state: &Stable,
    router: RouterId,
    prefix: Prefix,
    place: u32,
) -> Option<RibRoute<'_>>
    ensures { option_map route_view result ≡ chosen_of state.now router.0 prefix place }
{
    chosen_at(state, router, prefix)?.get(place as usize)
}
