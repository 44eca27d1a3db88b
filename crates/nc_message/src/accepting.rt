//! What is accepted of a message.

ghost use Rattle.std.specs.Prelude.{◌≡◌, ◌==◌, ◌&&◌, ◌<◌, ◌≤◌, false, not, nat_lt, IfSome, length};
ghost use Rattle.nc_types.specs.declared.TheConstants.{COMMUNITY_LIMIT, PATH_LIMIT};
ghost use Rattle.std.specs.List.{list_any};
ghost use Rattle.std.specs.Option.{option_and_then, option_map};
ghost use Rattle.nc_tables.specs.Base.{is_own};
ghost use Rattle.nc_tables.specs.Choice.{is_learnt};
ghost use Rattle.nc_tables.specs.Reach.{hits};
ghost use Rattle.nc_tables.specs.Rounds.{accepted_at, accepted_of, is_looped, message_of};
ghost use Rattle.nc_tables.specs.SpreadView.{route_view};
ghost use Rattle.nc_sessions.specs.Views.{link_view};
ghost use Rattle.nc_message.specs.Inputs.{AreRoutingInputs, IsBetween};
ghost use Rattle.nc_message.specs.Adjacencies.{IsAdjacency};
ghost use Rattle.nc_message.specs.Maps.{IsMapIn};
ghost use Rattle.nc_message.specs.Views.{advertised, accepted_by, message_view, accepted_view};
ghost use Rattle.nc_message.specs.Views.{IsKnown, IsAdvertised, IsAccepted};

use crate::adjacencies::Adjacency;
use crate::inputs::{RoutingInputs, adjacency_of};
use crate::maps::{map_in, map_out};
use crate::messages::{
    AdvertisedRoute, Advertisement, best_of_peer, carried, sent_length, sent_out,
};
use crate::rows::is_own;
use nc_policy::{MapPlace, Passing};
use nc_sessions::Link;
use nc_tables::{BgpFrom, BgpTable, Numbered, RibRoute};
use nc_types::{Addr, Prefix, RouterId};
use nc_underlay::has_hit;

/// A message that is accepted, and how its route passed the receiver's neighbor statement.
#[derive(Clone, Copy)]
pub struct AcceptedRoute<'a> {
    pub sent: Advertisement<'a>,
    pub into: Passing<'a>,
}

/// The same with the ends of the session where they stand.
#[derive(Clone, Copy)]
pub struct LearntRoute<'a> {
    pub sent: AdvertisedRoute<'a>,
    pub into: Passing<'a>,
}

// Whether a number is among others.
fn has(numbers: &[u32], number: u32) -> bool
    ensures { result ≡ list_any (λ n. n == number) numbers.now }
{
    numbers.iter().any(|other| *other == number)
}

// Whether a session leads from another system, whose number is the receiver's own all the same.
fn has_own_sender(link: &Link) -> bool
    ensures { result ≡ (not link.now.session.internal
        && (link.now.sender.process.now.asn == link.now.receiver.process.now.asn)) }
{
    !link.session.internal && link.sender.process.asn == link.receiver.process.asn
}

/// Whether the path of a peer's candidate holds the receiver's own system. What is sent of it holds
/// it too, and isn't accepted (RFC 4271, 9.1.2): no map is asked about it.
pub fn holds_receiver(link: &Link, best: RibRoute<'_>) -> bool
    ensures { result ≡ list_any (λ n. n == link.now.receiver.process.now.asn)
        (route_view best.entry).route.path }
{
    best.path().contains(link.receiver.process.asn)
}

// Whether the path of a message holds the receiver's own system, that of the peer's candidate doesn't.
fn is_looped(sent: &AdvertisedRoute) -> bool
    requires { list_any (λ n. n == sent.now.link.now.receiver.process.now.asn)
        (route_view sent.now.best).route.path ≡ false }
    ensures { result ≡ is_looped (message_view (advertised sent.now)) }
{
    let link = sent.link;
    let own = link.receiver.process.asn;
    if has_own_sender(link) {
        return true;
    }
    has(sent.out.prepended(), own)
}

// Whether a candidate was learnt.
fn is_learnt(from: BgpFrom) -> bool
    ensures { result ≡ is_learnt from }
{
    matches!(from, BgpFrom::Entry(_))
}

/// The next hop of a message: the sender, but within the system that of what was learnt stays,
/// unless the sender's statement says `next-hop-self`.
pub fn next_hop(sent: &Advertisement) -> Addr
    ensures { result ≡ (message_view sent.now).route.next_hop }
{
    hop_of(&AdvertisedRoute {
        link: &sent.link,
        sender: sent.sender,
        best: sent.best,
        out: sent.out,
    })
}

/// The same of a message with the ends of the session where they stand.
pub fn hop_of(sent: &AdvertisedRoute) -> Addr
    ensures { result ≡ (message_view (advertised sent.now)).route.next_hop }
{
    let link = sent.link;
    let is_kept = link.session.internal
        && !link.sender.statement.self_hop
        && is_learnt(sent.best.from());
    if is_kept {
        sent.best.next_hop()
    } else {
        link.source
    }
}

// Whether an address is that of one of the receiver's own interfaces that are up. Of the address
// from which the sender starts it may be known.
fn is_own_hop(inputs: &RoutingInputs, router: RouterId, sent: &AdvertisedRoute, hop: Addr) -> bool
    requires between { IsBetween inputs.now.network.now router.0 (link_view sent.now.link.now) }
    requires known { IsKnown inputs.now.base.now router.0 (advertised sent.now) }
    ensures { result ≡ is_own (link_view sent.now.link.now).receiver.config.interfaces hop.0 }
{
    match sent.sender {
        Some(sender) if hop == sent.link.source => sender.is_own,
        _ => is_own(inputs.network, router, sent.link, hop),
    }
}

// Whether the receiver's base table leads to an address. Of that from which the sender starts it
// may be known.
fn is_resolved(inputs: &RoutingInputs, router: RouterId, sent: &AdvertisedRoute, hop: Addr) -> bool
    requires inputs { AreRoutingInputs inputs.now }
    requires between { IsBetween inputs.now.network.now router.0 (link_view sent.now.link.now) }
    requires known { IsKnown inputs.now.base.now router.0 (advertised sent.now) }
    ensures { result ≡ nat_lt 0 (length (hits inputs.now.base.now router.0 hop.0)) }
{
    match sent.sender {
        Some(sender) if hop == sent.link.source => sender.is_reached,
        _ => has_hit(inputs.network, inputs.base, router, hop),
    }
}

/// How a message to a router passes its neighbor statement, whose map stands at a place, where the
/// message is accepted. What the map decides on the prefix is looked for at a number first, as
/// [`nc_policy::Policies::pass_at`] does.
pub fn passed_into<'a>(
    inputs: &RoutingInputs<'a>,
    router: RouterId,
    place: Option<MapPlace>,
    sent: &AdvertisedRoute<'_>,
    number: usize,
) -> Option<Passing<'a>>
    requires inputs { AreRoutingInputs inputs.now }
    requires between { IsBetween inputs.now.network.now router.0 (link_view sent.now.link.now) }
    requires known { IsKnown inputs.now.base.now router.0 (advertised sent.now) }
    requires map { IsMapIn (link_view sent.now.link.now) place }
    requires feasible { IsAdvertised (advertised sent.now) }
    requires other { list_any (λ n. n == sent.now.link.now.receiver.process.now.asn)
        (route_view sent.now.best).route.path ≡ false }
    ensures accepted { option_map (accepted_by (advertised sent.now)) result
        ≡ accepted_of inputs.now.base.now router.0 (message_view (advertised sent.now)) }
    ensures short { IfSome result (λ p.
        length (accepted_by (advertised sent.now) p).into.route.path ≤ PATH_LIMIT) }
    ensures few { IfSome result (λ p.
        length (accepted_by (advertised sent.now) p).into.route.communities ≤ COMMUNITY_LIMIT) }
{
    let hop = hop_of(sent);
    if is_looped(sent) || is_own_hop(inputs, router, sent, hop) {
        return None;
    }
    if !is_resolved(inputs, router, sent, hop) {
        return None;
    }
    let link = sent.link;
    let map = &link.receiver.statement.map_in;
    let Some(_reference) = map else {
        return Some(Passing::Unchanged);
    };
    let prefix = *sent.best.prefix;
    let of = Numbered { prefix, number };
    let count = sent_length(link.session.internal, sent.best, &sent.out);
    let held = carried(sent);
    let into = inputs
        .policies
        .pass_at(inputs.network, router, map, place, of, count, &held)?;
    Some(into)
}

/// What a router accepts over a session of the sender's best candidate: the message that is sent of
/// it, where one is, by the rules of [`accepted_at`]. No map is asked about a candidate whose path holds
/// the router's own system, and nothing is copied of what isn't accepted. Takes no memory.
pub fn accepted_over<'a>(
    inputs: &RoutingInputs<'a>,
    router: RouterId,
    adjacency: Adjacency<'a>,
    best: RibRoute<'a>,
) -> Option<AcceptedRoute<'a>>
    requires inputs { AreRoutingInputs inputs.now }
    requires between { IsBetween inputs.now.network.now router.0 (link_view adjacency.link) }
    requires sender { IsAdjacency inputs.now.base.now router.0 adjacency }
    ensures accepted { option_map accepted_view result
        ≡ option_and_then (accepted_of inputs.now.base.now router.0)
        (message_of (link_view adjacency.entry.link) (route_view best.entry)) }
    ensures best { IfSome result (λ t. route_view t.sent.best ≡ route_view best.entry) }
    ensures known { IfSome result (λ t. IsKnown inputs.now.base.now router.0 t.sent) }
    ensures taken { IfSome result IsAccepted }
{
    let Adjacency { link, sender } = adjacency;
    if holds_receiver(&link, best) {
        return None;
    }
    let place_out = map_out(inputs.network, inputs.policies, &link);
    let out = sent_out(inputs, &link, place_out, best, 0)?;
    let parts = AdvertisedRoute {
        link: &link,
        sender,
        best,
        out,
    };
    let place_in = map_in(inputs.network, inputs.policies, router, &link);
    let into = passed_into(inputs, router, place_in, &parts, 0)?;
    let sent = Advertisement {
        link,
        sender,
        best,
        out,
    };
    Some(AcceptedRoute { sent, into })
}

/// What a router accepts of the message to the neighbor statement at a place for a prefix, as
/// [`message_at`] tells it: the message, unless its path holds the router's own system, its next
/// hop is one of the router's own addresses or can't be reached by the base table, or the router's
/// map denies it; `None` also where there is no message. Takes no memory.
#[tactic(auto, unfolding(nc_tables::specs::Rounds::accepted_at))]
pub fn accepted_at<'a>(
    inputs: &RoutingInputs<'a>,
    table: &'a BgpTable,
    router: RouterId,
    place: u32,
    prefix: Prefix,
) -> Option<AcceptedRoute<'a>>
    requires inputs { AreRoutingInputs inputs.now }
    requires table { length table.now ≡ length inputs.now.network.now }
    ensures accepted { option_map accepted_view result
        ≡ accepted_at inputs.now.network.now inputs.now.base.now inputs.now.sessions.now table.now
        router.0 place prefix }
    ensures own { IfSome result (λ t. (route_view t.sent.best).route.prefix ≡ prefix) }
    ensures known { IfSome result (λ t. IsKnown inputs.now.base.now router.0 t.sent) }
    ensures taken { IfSome result IsAccepted }
{
    let best = best_of_peer(inputs, table, router, place, prefix)?;
    let adjacency = adjacency_of(inputs, router, place)?;
    accepted_over(inputs, router, adjacency, best)
}
