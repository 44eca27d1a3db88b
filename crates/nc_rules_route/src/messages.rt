//! What messages, what is accepted of them and what is chosen follow from.

ghost use Rattle.std.specs.Prelude.{◌≡◌, ◌++◌, [], ◌∷◌, Some, true, is_some, length, slice_get, take, OnOk};
ghost use Rattle.std.specs.Option.{option_map};
ghost use Rattle.nc_tables.specs.Rounds.{out_of};
ghost use Rattle.nc_tables.specs.SpreadView.{route_view};
ghost use Rattle.nc_sessions.specs.Views.{link_view};
ghost use Rattle.nc_policy.specs.Indexes.{ArePolicies};
ghost use Rattle.nc_policy.specs.Passing.{clause_by, names_by};
ghost use Rattle.nc_fact.specs.declared.fact.Fact.TheVariants as fact;
ghost use Rattle.nc_fact.specs.Facts.{accepted_of, message_of};
ghost use Rattle.nc_message.specs.Views.{out_view};
ghost use Rattle.nc_rules_route.specs.Parents.{of_out, of_passed, source_of, parents};

use crate::elements::{clause_element, community_element, entry_element, push_element};
use nc_community::Held;
use nc_fact::{Fact, accepted_by, chosen_of, link_at};
use nc_message::next_hop;
use nc_policy::{Passing, Policies};
use nc_sessions::Link;
use nc_tables::{BgpFrom, Names, RibRoute, Stable};
use nc_types::{Addr, Network, Prefix, RouterId};
use std::alloc::AllocError;

// Appends the elements of a router's clause that let a route pass, and of the entries by which it matched.
fn push_named(
    state: &Stable,
    router: RouterId,
    clause: u32,
    names: Names,
    into: &mut Vec<Fact>,
) -> Result<(), AllocError>
    ensures ok { OnOk result (into.new.items
        ≡ into.old.items ++ of_passed state.now router.0 (Some clause) names) }
    ensures kept { take (length into.old.items) into.new.items ≡ into.old.items }
{
    push_element(clause_element(state, router, clause), into)?;
    push_element(entry_element(state, router, names.entry), into)?;
    push_element(community_element(state, router, names.community), into)
}

// Appends the elements by which a map of a router let a route pass; none where there is no map.
fn push_passed(
    state: &Stable,
    router: RouterId,
    passing: &Passing,
    into: &mut Vec<Fact>,
) -> Result<(), AllocError>
    ensures ok { OnOk result (into.new.items ≡ into.old.items
        ++ of_passed state.now router.0 (clause_by passing.now) (names_by passing.now)) }
    ensures kept { take (length into.old.items) into.new.items ≡ into.old.items }
{
    match passing {
        Passing::Unchanged => Ok(()),
        Passing::By(by) => push_named(state, router, by.place, by.names, into),
    }
}

// Appends two facts.
fn push_two(first: Fact, second: Fact, into: &mut Vec<Fact>) -> Result<(), AllocError>
    ensures ok { OnOk result (into.new.items ≡ into.old.items ++ first ∷ second ∷ []) }
    ensures kept { take (length into.old.items) into.new.items ≡ into.old.items }
{
    into.extend_from_slice(&[first, second])?;
    Ok(())
}

// How a session's peer let pass the best that it has chosen of a prefix, toward the router.
fn passing_of<'a>(
    network: &'a Network,
    policies: &Policies,
    link: &Link<'a>,
    best: RibRoute<'a>,
) -> Option<Passing<'a>>
    requires policies { ArePolicies network.now policies.now }
    requires sender { slice_get network.now link.now.session.peer.0
        ≡ Some (link_view link.now).sender.config }
    ensures { option_map (out_view (link_view link.now) (route_view best.entry)) result
        ≡ out_of (link_view link.now) (route_view best.entry) }
{
    let held = Held::of(best.communities());
    let count = best.path().len();
    let map = &link.sender.statement.map_out;
    policies.pass(network, link.session.peer, map, *best.prefix, count, &held)
}

// Appends the elements by which a session's peer let pass the best that it has chosen of a prefix; none where it has
// no map for the router.
fn push_out(
    state: &Stable,
    policies: &Policies,
    link: &Link,
    prefix: Prefix,
    into: &mut Vec<Fact>,
) -> Result<(), AllocError>
    requires policies { ArePolicies state.now.routers policies.now }
    requires sender { slice_get state.now.routers link.now.session.peer.0
        ≡ Some (link_view link.now).sender.config }
    ensures ok { OnOk result (into.new.items
        ≡ into.old.items ++ of_out state.now (link_view link.now) prefix) }
    ensures kept { take (length into.old.items) into.new.items ≡ into.old.items }
{
    if link.sender.statement.map_out.is_none() {
        return Ok(());
    }
    let peer = link.session.peer;
    let Some(best) = chosen_of(state, peer, prefix, 0) else {
        return Ok(());
    };
    match passing_of(state.network(), policies, link, best) {
        Some(passing) => push_passed(state, peer, &passing, into),
        None => Ok(()),
    }
}

/// Appends what a message that is sent follows from: the session, the best that the sender has chosen, and by what the
/// sender's map let that pass. That it is sent is known, so it isn't worked out anew.
#[tactic(auto, unfolding(crate::specs::Parents::parents))]
pub(crate) fn push_message(
    state: &Stable,
    policies: &Policies,
    router: RouterId,
    place: u32,
    prefix: Prefix,
    into: &mut Vec<Fact>,
) -> Result<(), AllocError>
    requires policies { ArePolicies state.now.routers policies.now }
    requires sent { is_some (message_of state.now router.0 place prefix) ≡ true }
    ensures ok { OnOk result (into.new.items
        ≡ into.old.items ++ parents state.now (fact.Message router place prefix)) }
    ensures kept { take (length into.old.items) into.new.items ≡ into.old.items }
{
    let Some(link) = link_at(state, policies, router, place) else {
        return Ok(());
    };
    let session = Fact::Session(router, place);
    push_two(session, Fact::Chosen(link.session.peer, prefix, 0), into)?;
    push_out(state, policies, &link, prefix, into)
}

// Appends the message to the neighbor statement at a place of a router, and that a next hop is reached.
fn push_heard(
    router: RouterId,
    place: u32,
    prefix: Prefix,
    hop: Addr,
    into: &mut Vec<Fact>,
) -> Result<(), AllocError>
    ensures ok { OnOk result (into.new.items ≡ into.old.items
        ++ fact.Message router place prefix ∷ fact.Resolve router hop ∷ []) }
    ensures kept { take (length into.old.items) into.new.items ≡ into.old.items }
{
    let message = Fact::Message(router, place, prefix);
    push_two(message, Fact::Resolve(router, hop), into)
}

/// Appends what an accepted message follows from: the message, that its next hop is reached, and by what the
/// receiver's map let it pass. That it is accepted is known, so it is worked out anew only where the ends of the
/// session don't tell these: within the system, and where there is a map.
#[tactic(auto, unfolding(crate::specs::Parents::parents))]
pub(crate) fn push_entry(
    state: &Stable,
    policies: &Policies,
    router: RouterId,
    place: u32,
    prefix: Prefix,
    into: &mut Vec<Fact>,
) -> Result<(), AllocError>
    requires policies { ArePolicies state.now.routers policies.now }
    requires accepted { is_some (accepted_of state.now router.0 place prefix) ≡ true }
    ensures ok { OnOk result (into.new.items
        ≡ into.old.items ++ parents state.now (fact.Entry router place prefix)) }
    ensures kept { take (length into.old.items) into.new.items ≡ into.old.items }
{
    let Some(link) = link_at(state, policies, router, place) else {
        return Ok(());
    };
    if !link.session.internal && link.receiver.statement.map_in.is_none() {
        return push_heard(router, place, prefix, link.source, into);
    }
    let Some(taken) = accepted_by(state, policies, router, link, prefix) else {
        return Ok(());
    };
    push_heard(router, place, prefix, next_hop(&taken.sent), into)?;
    push_passed(state, router, &taken.into, into)
}

// What a chosen route of a prefix is made from.
fn source_of(router: RouterId, prefix: Prefix, from: BgpFrom) -> Fact
    ensures { result ≡ source_of router prefix from }
{
    match from {
        BgpFrom::Origin(place) => Fact::Origin(router, place),
        BgpFrom::Aggregate(place) => Fact::Aggregate(router, place),
        BgpFrom::Entry(place) => Fact::Entry(router, place, prefix),
    }
}

/// Appends what a chosen route follows from: the network, the aggregate or the accepted message that it is of.
#[tactic(auto, unfolding(crate::specs::Parents::parents))]
pub(crate) fn push_chosen(
    state: &Stable,
    router: RouterId,
    prefix: Prefix,
    place: u32,
    into: &mut Vec<Fact>,
) -> Result<(), AllocError>
    ensures ok { OnOk result (into.new.items
        ≡ into.old.items ++ parents state.now (fact.Chosen router prefix place)) }
    ensures kept { take (length into.old.items) into.new.items ≡ into.old.items }
{
    if let Some(chosen) = chosen_of(state, router, prefix, place) {
        into.push(source_of(router, prefix, chosen.from()))?;
    }
    Ok(())
}
