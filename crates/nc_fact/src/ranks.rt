//! The ranks of routes: shorter prefixes are above longer ones, and of one prefix heavier routes above lighter ones.

ghost use Rattle.std.specs.Prelude.{◌≡◌, ◌≤◌, length};
ghost use Rattle.std.specs.Option.{option_map_or};
ghost use Rattle.nc_types.specs.declared.TheConstants.{PATH_LIMIT};
ghost use Rattle.nc_tables.specs.SpreadView.{route_view};
ghost use Rattle.nc_policy.specs.Indexes.{ArePolicies};
ghost use Rattle.nc_message.specs.Views.{message_view, accepted_view, IsAdvertised, IsAccepted};
ghost use Rattle.nc_fact.specs.Facts.{weight, lowest_rank, rank_of_network, rank_of_aggregate};
ghost use Rattle.nc_fact.specs.Facts.{rank_of_message, rank_of_accepted, rank_of_chosen};
ghost use Rattle.nc_fact.specs.Facts.{network_of, aggregate_of, message_of, accepted_of, chosen_of};

use crate::bgp::{accepted_of, aggregate_of, chosen_of, message_of, network_of};
use nc_message::{AcceptedRoute, Advertisement};
use nc_policy::Policies;
use nc_tables::{RibRoute, Stable};
use nc_types::{Prefix, RouterId};

// What a route with so many numbers in its path weighs.
fn weight(count: usize, internal: bool) -> u32
    requires { count ≤ PATH_LIMIT }
    ensures weight { result ≡ weight count internal }
    ensures most { result ≤ 501 }
{
    let double = 2 * count as u32;
    if internal { double + 1 } else { double }
}

// The lowest rank of the facts of a route with a prefix and a weight.
fn lowest_rank(prefix: Prefix, weight: u32) -> u32
    requires { weight ≤ 501 }
    ensures rank { result ≡ lowest_rank prefix weight }
    ensures most { result ≤ 132_620 }
{
    let shortness = 32 - u32::from(prefix.len());
    100 + 8 * (502 * shortness + weight)
}

// How many numbers the path of a message has.
fn sent_count(sent: &Advertisement) -> usize
    requires { IsAdvertised sent.now }
    ensures count { result ≡ length (message_view sent.now).route.path }
    ensures few { result ≤ PATH_LIMIT }
{
    let count = sent.out.prepended().len() + sent.best.path().len();
    if sent.link.session.internal {
        count
    } else {
        1 + count
    }
}

// How many numbers the path has of what is accepted of a message.
fn taken_count(taken: &AcceptedRoute) -> usize
    requires { IsAccepted taken.now }
    ensures count { result ≡ length (accepted_view taken.now).into.route.path }
    ensures few { result ≤ PATH_LIMIT }
{
    let sent = &taken.sent;
    let before = taken.into.prepended().len();
    let count = before + sent.out.prepended().len() + sent.best.path().len();
    if sent.link.session.internal {
        count
    } else {
        1 + count
    }
}

// The rank of a message for a prefix.
fn rank_of_message(prefix: Prefix, sent: &Advertisement) -> u32
    requires { IsAdvertised sent.now }
    ensures { result ≡ rank_of_message prefix (message_view sent.now) }
{
    lowest_rank(prefix, weight(sent_count(sent), sent.link.session.internal)) + 2
}

// The rank of what is accepted of a message for a prefix.
fn rank_of_accepted(prefix: Prefix, taken: &AcceptedRoute) -> u32
    requires { IsAccepted taken.now }
    ensures { result ≡ rank_of_accepted prefix (accepted_view taken.now) }
{
    lowest_rank(
        prefix,
        weight(taken_count(taken), taken.sent.link.session.internal),
    ) + 3
}

// The rank of a route of a prefix that is chosen.
fn rank_of_chosen(prefix: Prefix, chosen: RibRoute<'_>) -> u32
    ensures { result ≡ rank_of_chosen prefix (route_view chosen.entry) }
{
    lowest_rank(prefix, weight(chosen.path().len(), chosen.is_internal())) + 4
}

/// The rank of a network statement's fact; 0 where there is no such statement.
pub(crate) fn origin_rank(state: &Stable, router: RouterId, place: u32) -> u32
    ensures { result ≡ option_map_or rank_of_network (network_of state.now router.0 place) 0 }
{
    match network_of(state, router, place) {
        Some(network) => lowest_rank(network.prefix, 0) + 1,
        None => 0,
    }
}

/// The rank of the fact that an aggregate statement has something to gather; 0 where there is no such statement.
pub(crate) fn contrib_rank(state: &Stable, router: RouterId, place: u32) -> u32
    ensures { result
        ≡ option_map_or (λ a. lowest_rank a.prefix 0) (aggregate_of state.now router.0 place) 0 }
{
    match aggregate_of(state, router, place) {
        Some(aggregate) => lowest_rank(aggregate.prefix, 0),
        None => 0,
    }
}

/// The rank of an aggregate statement's fact; 0 where there is no such statement.
pub(crate) fn aggregate_rank(state: &Stable, router: RouterId, place: u32) -> u32
    ensures { result ≡ option_map_or rank_of_aggregate (aggregate_of state.now router.0 place) 0 }
{
    match aggregate_of(state, router, place) {
        Some(aggregate) => lowest_rank(aggregate.prefix, 0) + 1,
        None => 0,
    }
}

/// The rank of a message; 0 where none is sent.
pub(crate) fn message_rank(
    state: &Stable,
    policies: &Policies,
    router: RouterId,
    place: u32,
    prefix: Prefix,
) -> u32
    requires policies { ArePolicies state.now.routers policies.now }
    ensures { result
        ≡ option_map_or (rank_of_message prefix) (message_of state.now router.0 place prefix) 0 }
{
    match message_of(state, policies, router, place, prefix) {
        Some(sent) => rank_of_message(prefix, &sent),
        None => 0,
    }
}

/// The rank of what is accepted of a message; 0 where nothing is.
pub(crate) fn entry_rank(
    state: &Stable,
    policies: &Policies,
    router: RouterId,
    place: u32,
    prefix: Prefix,
) -> u32
    requires policies { ArePolicies state.now.routers policies.now }
    ensures { result
        ≡ option_map_or (rank_of_accepted prefix) (accepted_of state.now router.0 place prefix) 0 }
{
    match accepted_of(state, policies, router, place, prefix) {
        Some(taken) => rank_of_accepted(prefix, &taken),
        None => 0,
    }
}

/// The rank of the route that is chosen at a place; 0 where there is none.
pub(crate) fn chosen_rank(state: &Stable, router: RouterId, prefix: Prefix, place: u32) -> u32
    ensures { result
        ≡ option_map_or (rank_of_chosen prefix) (chosen_of state.now router.0 prefix place) 0 }
{
    match chosen_of(state, router, prefix, place) {
        Some(chosen) => rank_of_chosen(prefix, chosen),
        None => 0,
    }
}
