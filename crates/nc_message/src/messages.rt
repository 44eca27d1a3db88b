//! The message over a session for a prefix.

ghost use Rattle.std.specs.Prelude.{◌≡◌, ◌+◌, ◌≤◌, ◌<◌, ◌&&◌, length, IfSome, Some, slice_get, if◌then◌else◌};
ghost use Rattle.std.specs.Option.{option_map};
ghost use Rattle.nc_types.specs.Config.{process_view};
ghost use Rattle.nc_types.specs.declared.TheConstants.{COMMUNITY_LIMIT, PATH_LIMIT};
ghost use Rattle.nc_tables.specs.Rounds.{best_at, is_held_back, message_at, message_of, out_of, session_by};
ghost use Rattle.nc_tables.specs.SpreadView.{route_view};
ghost use Rattle.nc_policy.specs.Passing.{communities_by, prepended_by};
ghost use Rattle.nc_sessions.specs.Views.{link_view};
ghost use Rattle.nc_message.specs.Inputs.{AreRoutingInputs, IsBetween};
ghost use Rattle.nc_message.specs.Maps.{IsMapOut};
ghost use Rattle.nc_message.specs.Peers.{best_over};
ghost use Rattle.nc_message.specs.Views.{advertised, message_view, message_by, out_view, IsKnown, IsAdvertised};

use crate::adjacencies::{Adjacency, Sender};
use crate::inputs::{RoutingInputs, adjacency_of};
use crate::maps::map_out;
use nc_community::Held;
use nc_policy::{MapPlace, Passing};
use nc_sessions::Link;
use nc_tables::{BgpTable, Numbered, RibRoute, is_longer_in};
use nc_types::{PATH_LIMIT, Prefix, Process, RouterId};

/// A message: over which session, of which candidate of the sender, and how the candidate passed
/// the sender's neighbor statement.
#[derive(Clone, Copy)]
pub struct Advertisement<'a> {
    pub link: Link<'a>,
    /// What is known of the sender, where it was asked before.
    pub sender: Option<Sender>,
    pub best: RibRoute<'a>,
    pub out: Passing<'a>,
}

/// The same with the ends of the session where they stand: they are most of a message, and are not
/// copied for each.
#[derive(Clone, Copy)]
pub struct AdvertisedRoute<'a> {
    pub link: &'a Link<'a>,
    pub sender: Option<Sender>,
    pub best: RibRoute<'a>,
    pub out: Passing<'a>,
}

// The best candidate that a router has chosen of a prefix.
fn best_at(table: &BgpTable, router: RouterId, prefix: Prefix) -> Option<RibRoute<'_>>
    requires { router.0 < length table.now }
    ensures best { option_map route_view result ≡ best_at table.now router.0 prefix }
    ensures own { IfSome result (λ b. (route_view b).route.prefix ≡ prefix) }
{
    table.chosen(router, prefix)?.get(0)
}

// The best candidate of a prefix that the peer of a neighbor statement's session has chosen. Most
// peers have none, so this is asked before the session's ends are looked up.
pub(crate) fn best_of_peer<'a>(
    inputs: &RoutingInputs<'_>,
    table: &'a BgpTable,
    router: RouterId,
    place: u32,
    prefix: Prefix,
) -> Option<RibRoute<'a>>
    requires inputs { AreRoutingInputs inputs.now }
    requires table { length table.now ≡ length inputs.now.network.now }
    ensures best { option_map route_view result
        ≡ best_over table.now prefix (session_by inputs.now.sessions.now router.0 place) }
    ensures own { IfSome result (λ b. (route_view b).route.prefix ≡ prefix) }
{
    let count = inputs.network.routers().len();
    if router.0 as usize >= count {
        return None;
    }
    let session = inputs.sessions.get(router, place)?;
    if session.peer.0 as usize >= count {
        return None;
    }
    best_at(table, session.peer, prefix)
}

// Whether an aggregate of the sender holds a prefix back: it sends itself alone (Cisco IOS command
// reference, `aggregate-address .. summary-only`).
fn is_held_back(process: &Process, prefix: Prefix) -> bool
    ensures { result ≡ is_held_back (process_view process.now) prefix }
{
    process.aggregates.iter().any(|aggregate| aggregate.summary_only
        && is_longer_in(prefix, aggregate.prefix))
}

// How the best candidate passes the sender's statement for the receiver, given where its map stands
// and the number of its prefix. Mostly there is no map.
fn out_of<'a>(
    inputs: &RoutingInputs<'a>,
    link: &Link<'a>,
    place: Option<MapPlace>,
    best: RibRoute<'a>,
    number: usize,
) -> Option<Passing<'a>>
    requires inputs { AreRoutingInputs inputs.now }
    requires sender { slice_get inputs.now.network.now link.now.session.peer.0
        ≡ Some (link_view link.now).sender.config }
    requires map { IsMapOut (link_view link.now) place }
    ensures out { option_map (out_view (link_view link.now) (route_view best.entry)) result
        ≡ out_of (link_view link.now) (route_view best.entry) }
    ensures short { IfSome result
        (λ p. length (prepended_by p) + length (route_view best.entry).route.path ≤ PATH_LIMIT) }
    ensures few { IfSome result (λ p.
        length (communities_by p (route_view best.entry).route.communities) ≤ COMMUNITY_LIMIT) }
{
    let held = Held::of(best.communities());
    let count = best.path_length();
    let map = &link.sender.statement.map_out;
    let Some(_reference) = map else {
        return Some(Passing::Unchanged);
    };
    let peer = link.session.peer;
    let prefix = *best.prefix;
    let of = Numbered { prefix, number };
    inputs
        .policies
        .pass_at(inputs.network, peer, map, place, of, count, &held)
}

/// How many numbers the path has of a route as it is sent: toward another system the sender's own
/// number goes before it.
pub fn sent_length(internal: bool, best: RibRoute<'_>, out: &Passing) -> usize
    requires { length (prepended_by out.now) + length (route_view best).route.path ≤ PATH_LIMIT }
    ensures { result ≡ (if internal then 0 else 1)
        + (length (prepended_by out.now) + length (route_view best.entry).route.path) }
{
    let length = out.prepended().len() + best.path_length();
    if internal { length } else { 1 + length }
}

/// The communities with which the route of a message is sent: where the sender's statement says so,
/// those that its map left.
pub fn carried<'a>(sent: &AdvertisedRoute<'a>) -> Held<'a>
    requires { IsAdvertised (advertised sent.now) }
    ensures { result ≡ (message_view (advertised sent.now)).route.communities }
{
    let link = sent.link;
    if !link.sender.statement.send_community {
        return Held::none();
    }
    let held = sent.best.communities();
    sent.out.communities(held)
}

/// How the sender's best candidate passes its statement, whose map stands at a place, where a message
/// is sent of it over a session. What the map decides on the prefix is looked for at a number first, as
/// [`nc_policy::Policies::pass_at`] does.
pub fn sent_out<'a>(
    inputs: &RoutingInputs<'a>,
    link: &Link<'a>,
    place: Option<MapPlace>,
    best: RibRoute<'a>,
    number: usize,
) -> Option<Passing<'a>>
    requires inputs { AreRoutingInputs inputs.now }
    requires sender { slice_get inputs.now.network.now link.now.session.peer.0
        ≡ Some (link_view link.now).sender.config }
    requires map { IsMapOut (link_view link.now) place }
    ensures message { option_map (message_by (link_view link.now) (route_view best.entry)) result
        ≡ message_of (link_view link.now) (route_view best.entry) }
    ensures short { IfSome result (λ p.
        length (message_by (link_view link.now) (route_view best.entry) p).route.path
        ≤ PATH_LIMIT) }
    ensures few { IfSome result (λ p.
        length (message_by (link_view link.now) (route_view best.entry) p).route.communities
        ≤ COMMUNITY_LIMIT) }
{
    if is_held_back(link.sender.process, *best.prefix) {
        return None;
    }
    if link.session.internal && best.is_internal() {
        return None;
    }
    let out = out_of(inputs, link, place, best, number)?;
    if sent_length(link.session.internal, best, &out) > PATH_LIMIT {
        return None;
    }
    Some(out)
}

/// The message over a session of the sender's best candidate.
fn message_of<'a>(
    inputs: &RoutingInputs<'a>,
    adjacency: Adjacency<'a>,
    best: RibRoute<'a>,
) -> Option<Advertisement<'a>>
    requires inputs { AreRoutingInputs inputs.now }
    requires sender { slice_get inputs.now.network.now adjacency.link.session.peer.0
        ≡ Some (link_view adjacency.link).sender.config }
    ensures message { option_map message_view result
        ≡ message_of (link_view adjacency.entry.link) (route_view best.entry) }
    ensures link { IfSome result (λ s. s.link ≡ adjacency.entry.link) }
    ensures sender { IfSome result (λ s. s.sender ≡ adjacency.entry.sender) }
    ensures best { IfSome result (λ s. route_view s.best ≡ route_view best.entry) }
    ensures feasible { IfSome result IsAdvertised }
{
    let Adjacency { link, sender } = adjacency;
    let place = map_out(inputs.network, inputs.policies, &link);
    let out = sent_out(inputs, &link, place, best, 0)?;
    Some(Advertisement {
        link,
        sender,
        best,
        out,
    })
}

/// The message to the neighbor statement at a place of a router for a prefix: of the best candidate
/// that the session's peer has chosen in this table, which has a list for each router. It is sent
/// unless an aggregate of the peer holds the prefix back, it was learnt inside the system and would
/// stay inside (RFC 4271, 9.2), the peer's map denies it, or its path would be longer than
/// [`nc_types::PATH_LIMIT`]; `None` also where there is no such router, statement, session or
/// candidate. Takes no memory.
pub fn message_at<'a>(
    inputs: &RoutingInputs<'a>,
    table: &'a BgpTable,
    router: RouterId,
    place: u32,
    prefix: Prefix,
) -> Option<Advertisement<'a>>
    requires inputs { AreRoutingInputs inputs.now }
    requires table { length table.now ≡ length inputs.now.network.now }
    ensures message { option_map message_view result
        ≡ message_at inputs.now.network.now inputs.now.base.now inputs.now.sessions.now table.now
        router.0 place prefix }
    ensures between { IfSome result
        (λ s. IsBetween inputs.now.network.now router.0 (link_view s.link)) }
    ensures own { IfSome result (λ s. (route_view s.best).route.prefix ≡ prefix) }
    ensures sender { IfSome result (IsKnown inputs.now.base.now router.0) }
    ensures feasible { IfSome result IsAdvertised }
{
    let best = best_of_peer(inputs, table, router, place, prefix)?;
    let adjacency = adjacency_of(inputs, router, place)?;
    message_of(inputs, adjacency, best)
}
