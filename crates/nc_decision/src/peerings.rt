//! The sessions over which a router learns, with where their maps stand and how high a preference is
//! accepted, and with all that counts of those on whose way nothing stands, found once for all rows.

ghost use Rattle.std.specs.Prelude.{◌≡◌, ◌<◌, ℕ, List, [], IfOk, IfSome, Some, false, true, length, option_and_then, slice_get};
ghost use Rattle.std.specs.Option.{option_map, option_map_or};
ghost use Rattle.nc_types.specs.Config.{ConfigView, process_view};
ghost use Rattle.nc_policy.specs.Indexes.{ArePolicies};
ghost use Rattle.nc_policy.specs.Preferences.{higher_of};
ghost use Rattle.nc_sessions.specs.Views.{link_view};
ghost use Rattle.nc_tables.specs.Sessions.{process_of};
ghost use Rattle.nc_tables.specs.declared.base.BaseRow.{BaseRow};
ghost use Rattle.nc_tables.specs.declared.bgp.SessionRow.{SessionRow};
ghost use Rattle.nc_message.specs.Adjacencies.{IsAdjacency};
ghost use Rattle.nc_message.specs.Inputs.{AreRoutingInputs, IsBetween};
ghost use Rattle.nc_message.specs.Maps.{IsMapIn};
ghost use Rattle.nc_decision.specs.Bare.{IsBare, IsPlain};
ghost use Rattle.nc_decision.specs.Peerings.{AreNetworkPeerings, ArePeerings, ArePeeringsAt, IsOfProcess, IsPeeringAt};
ghost use Rattle.nc_decision.specs.PrefixBits.{has_bit};
ghost use Rattle.nc_decision.specs.SessionMaps.{highest_from_outside, AreMapsOf};

use crate::prefix_bits::PrefixBits;
use nc_message::{Adjacency, RoutingInputs, adjacency_of, map_in, map_out};
use nc_policy::{MapPlace, Policies};
use nc_sessions::{Link, statements};
use nc_types::{Addr, AggregateStatement, DEFAULT_PREFERENCE, Network, Prefix, Process, RouterId};
use std::alloc::{AllocError, Global};
use std::marker::Model;

/// Where the maps of a session stand: that of the sender's statement, by which it sends, and that of
/// the receiver's, by which it accepts. `None` where a statement has no map, or its router none of
/// that name.
#[derive(Clone, Copy)]
pub(crate) struct SessionMaps {
    pub(crate) out: Option<MapPlace>,
    pub(crate) into: Option<MapPlace>,
}

// The higher of two local preferences.
fn higher_of(one: u32, other: u32) -> u32
    ensures { result ≡ higher_of one other }
{
    if one < other { other } else { one }
}

impl SessionMaps {
    /// Those of a session to a router.
    pub(crate) fn of(
        network: &Network,
        policies: &Policies,
        router: RouterId,
        link: &Link,
    ) -> SessionMaps
        requires policies { ArePolicies network.now policies.now }
        requires between { IsBetween network.now router.0 (link_view link.now) }
        ensures { AreMapsOf (link_view link.now) result }
    {
        SessionMaps {
            out: map_out(network, policies, link),
            into: map_in(network, policies, router, link),
        }
    }
}

// The local preference above which nothing that comes from another system is accepted over a session,
// given where the receiver's map stands.
fn highest_over(
    network: &Network,
    policies: &Policies,
    router: RouterId,
    link: &Link,
    into: Option<MapPlace>,
) -> u32
    requires policies { ArePolicies network.now policies.now }
    requires between { IsBetween network.now router.0 (link_view link.now) }
    requires map { IsMapIn (link_view link.now) into }
    ensures { result ≡ highest_from_outside (link_view link.now) }
{
    let map = &link.receiver.statement.map_in;
    let set = policies.highest_preference(network, router, map, into);
    higher_of(DEFAULT_PREFERENCE, set)
}

/// What is known of a session on whose way nothing stands: it leads from another system, the sender
/// holds nothing back, neither end has a map for it, and the address from which the sender starts can be
/// used as the next hop. All that a message then asks of both ends stands here.
#[derive(Clone, Copy)]
pub(crate) struct Bare {
    /// The numbers of the systems of both ends, which differ.
    pub(crate) receiver: u32,
    pub(crate) sender: u32,
    /// Whether what is sent carries communities.
    pub(crate) carries: bool,
    /// The router id of the sender.
    pub(crate) sender_id: Addr,
    /// The address of the sender, as the receiver's statement has it.
    pub(crate) sender_addr: Addr,
    /// The address from which the sender starts.
    pub(crate) source: Addr,
}

// Whether a session leads from another system, and neither an aggregate of the sender nor a map of
// either end keeps back or changes what is sent over it.
fn is_plain(link: &Link) -> bool
    ensures { result ≡ true → IsPlain (link_view link.now) }
{
    let sender = link.sender.process;
    if link.session.internal || sender.asn == link.receiver.process.asn {
        return false;
    }
    if !sender.aggregates.is_empty() {
        return false;
    }
    link.sender.statement.map_out.is_none() && link.receiver.statement.map_in.is_none()
}

// What is known of a session to a router, if nothing stands on its way.
fn bare_of(adjacency: &Adjacency<'_>) -> Option<Bare>
    ensures { (tables : List (List BaseRow)) (router : ℕ) → IsAdjacency tables router adjacency.now
        → IfSome result (IsBare tables router (link_view adjacency.now.link)) }
{
    let sender = adjacency.sender?;
    if sender.is_own || !sender.is_reached {
        return None;
    }
    let link = &adjacency.link;
    if !is_plain(link) {
        return None;
    }
    Some(Bare {
        receiver: link.receiver.process.asn,
        sender: link.sender.process.asn,
        carries: link.sender.statement.send_community,
        sender_id: sender.id,
        sender_addr: link.receiver.statement.addr,
        source: link.source,
    })
}

/// A session over which a router learns: the place of its neighbor statement, both ends, where their
/// maps stand, and how high a preference is accepted. What is asked first of all stands in front.
#[derive(Clone, Copy)]
pub(crate) struct Peering<'a> {
    pub(crate) place: u32,
    /// The router at the other end.
    pub(crate) peer: RouterId,
    /// Nothing that comes from another system is accepted with a local preference above this.
    pub(crate) highest: u32,
    /// What is known where nothing stands on its way: then nothing behind this is asked.
    pub(crate) bare: Option<Bare>,
    pub(crate) adjacency: Adjacency<'a>,
    pub(crate) maps: SessionMaps,
}

impl<'a> Peering<'a> {
    /// Whether the session stays inside the system. Its ends aren't asked where nothing stands on its way.
    pub(crate) fn is_internal(&self) -> bool
        requires { IfSome self.now.bare
            (λ b. self.now.adjacency.link.session.internal ≡ false) }
        ensures { result ≡ self.now.adjacency.link.session.internal }
    {
        self.bare.is_none() && self.adjacency.link.session.internal
    }
}

/// The session of the neighbor statement at a place of a router, if it has one.
pub(crate) fn peering_of<'a>(
    inputs: &RoutingInputs<'a>,
    router: RouterId,
    place: u32,
) -> Option<Peering<'a>>
    requires { AreRoutingInputs inputs.now }
    ensures { IsPeeringAt inputs.now.network.now inputs.now.base.now inputs.now.sessions.now
        router.0 place result }
{
    let adjacency = adjacency_of(inputs, router, place)?;
    let link = &adjacency.link;
    let maps = SessionMaps::of(inputs.network, inputs.policies, router, link);
    Some(Peering {
        place,
        peer: link.session.peer,
        highest: highest_over(inputs.network, inputs.policies, router, link, maps.into),
        bare: bare_of(&adjacency),
        adjacency,
        maps,
    })
}

/// The sessions over which one router learns: of each of its neighbor statements what is known of its
/// session, if it has one. Beside them stands what is asked of the router itself for each of its rows, so
/// that its configuration isn't looked at, and of most prefixes that it has no network of them.
#[derive(Drop)]
pub struct Peerings<'a> {
    // whether the router's process uses one route of a prefix alone
    is_single: bool,
    process: Option<&'a Process>,
    aggregates: &'a [AggregateStatement],
    networks: PrefixBits,
    sessions: Vec<Option<Peering<'a>>>,
}

impl<'a> Model for Peerings<'a> {
    ghost use Rattle.std.specs.Option.{option_map};
    ghost use Rattle.nc_types.specs.Config.{process_view};
    ghost use Rattle.nc_decision.specs.Peerings.{RouterPeerings};

    ghost Value = { RouterPeerings };

    ghost view = { λ p. record {
      sessions = p.sessions.items;
      process = option_map (λ q. process_view q.now) p.process;
      is_single = p.is_single;
      aggregates = p.aggregates.now;
      networks = p.networks;
    } };
}

/// The sessions over which the routers of a network learn, found once for all rounds: no message then
/// looks up its session or its maps.
#[derive(Drop)]
pub struct NetworkPeerings<'a> {
    routers: Vec<Peerings<'a>>,
}

impl<'a> Model for NetworkPeerings<'a> {
    ghost use Rattle.std.specs.Prelude.{List};
    ghost use Rattle.nc_decision.specs.Peerings.{RouterPeerings};

    ghost Value = { List RouterPeerings };

    ghost view = { λ n. n.routers.items };
}

// The sessions of the neighbor statements of a router.
fn sessions_of<'a>(
    alloc: Global,
    inputs: &RoutingInputs<'a>,
    router: RouterId,
) -> Result<Vec<Option<Peering<'a>>>, AllocError>
    requires inputs { AreRoutingInputs inputs.now }
    ensures { IfOk result (λ sessions. ArePeeringsAt inputs.now.network.now inputs.now.base.now
        inputs.now.sessions.now router.0 sessions.items) }
{
    let count = statements(inputs.network, router).len();
    let mut sessions = Vec::with_capacity(alloc, count)?;
    'places: for place in 0..count {
        sessions.push(peering_of(inputs, router, place as u32))?;
    }
    Ok(sessions)
}

// The BGP process of a router, if it has one.
fn process_of(network: &Network, router: RouterId) -> Option<&Process>
    requires { router.0 < length network.now }
    ensures { option_map (λ p. process_view p.now) result ≡ process_of network.now router.0 }
{
    match &network.routers()[router.0 as usize].process {
        Some(process) => Some(process),
        None => None,
    }
}

impl<'a> Peerings<'a> {
    // Those of a process, if there is one, whose sessions these are.
    fn with(process: Option<&'a Process>, sessions: Vec<Option<Peering<'a>>>) -> Peerings<'a>
        ensures sessions { result.sessions ≡ sessions.entry.items }
        ensures process { result.process ≡ option_map (λ p. process_view p.now) process.entry }
        ensures alone { IsOfProcess result }
    {
        match process {
            Some(own) => Peerings {
                is_single: own.max_paths == 1,
                process,
                aggregates: &own.aggregates,
                networks: PrefixBits::of(&own.networks),
                sessions,
            },
            None => Peerings {
                is_single: false,
                process,
                aggregates: &[],
                networks: PrefixBits::of(&[]),
                sessions,
            },
        }
    }

    // The sessions over which a router learns.
    fn of(
        alloc: Global,
        inputs: &RoutingInputs<'a>,
        router: RouterId,
    ) -> Result<Peerings<'a>, AllocError>
        requires inputs { AreRoutingInputs inputs.now }
        requires router { router.0 < length inputs.now.network.now }
        ensures { IfOk result (λ peerings. ArePeerings inputs.now.network.now inputs.now.base.now
            inputs.now.sessions.now router.0 peerings) }
    {
        let sessions = sessions_of(alloc, inputs, router)?;
        Ok(Peerings::with(process_of(inputs.network, router), sessions))
    }

    /// The BGP process of the router, if it has one.
    pub(crate) fn process(&self) -> Option<&'a Process>
        ensures { option_map (λ p. process_view p.now) result ≡ self.now.process }
    {
        self.process
    }

    /// Whether the router's process uses one route of a prefix alone.
    pub(crate) fn is_single(&self) -> bool
        ensures { result ≡ self.now.is_single }
    {
        self.is_single
    }

    /// How many neighbor statements the router has.
    pub(crate) fn count(&self) -> usize
        ensures { result ≡ length self.now.sessions }
    {
        self.sessions.len()
    }

    /// The aggregates of the router; none where it has no BGP process.
    pub fn aggregate_statements(&self) -> &[AggregateStatement]
        ensures { (routers : List ConfigView) (tables : List (List BaseRow))
            (sessions : List (List SessionRow)) (router : ℕ)
            → ArePeerings routers tables sessions router self.now
            → result.now ≡ option_map_or (λ p. p.aggregates) (process_of routers router) [] }
    {
        self.aggregates
    }

    /// Whether the router may have a network of a prefix; else it has none.
    pub(crate) fn may_have_network(&self, prefix: Prefix) -> bool
        ensures { result ≡ has_bit self.now.networks prefix }
    {
        self.networks.has(prefix)
    }

    /// The session of the neighbor statement at a place, if it has one.
    pub(crate) fn at(&self, place: usize) -> Option<&Peering<'a>>
        requires { place < length self.now.sessions }
        ensures { option_map (λ p. p.now) result
            ≡ option_and_then (λ o. o) (slice_get self.now.sessions place) }
    {
        match &self.sessions[place] {
            Some(peering) => Some(peering),
            None => None,
        }
    }

    /// The same at any place: `None` behind the last statement too.
    pub(crate) fn get(&self, place: u32) -> Option<&Peering<'a>>
        ensures { option_map (λ p. p.now) result
            ≡ option_and_then (λ o. o) (slice_get self.now.sessions place) }
    {
        let place = place as usize;
        if place >= self.sessions.len() {
            return None;
        }
        self.at(place)
    }
}

impl<'a> NetworkPeerings<'a> {
    /// The sessions over which the routers of a network learn.
    ///
    /// # Errors
    ///
    /// Memory that runs out.
    pub fn of(alloc: Global, inputs: &RoutingInputs<'a>) -> Result<NetworkPeerings<'a>, AllocError>
        requires inputs { AreRoutingInputs inputs.now }
        ensures { IfOk result (λ all. AreNetworkPeerings inputs.now.network.now
            inputs.now.base.now inputs.now.sessions.now all) }
    {
        let count = inputs.network.routers().len();
        let mut routers = Vec::with_capacity(alloc, count)?;
        'routers: for router in 0..count {
            let peerings = Peerings::of(alloc, inputs, RouterId(router as u32))?;
            routers.push(peerings)?;
        }
        Ok(NetworkPeerings { routers })
    }

    /// Those of one router, which has a number below that of the routers.
    pub fn get(&self, router: RouterId) -> &Peerings<'a>
        requires { router.0 < length self.now }
        ensures { slice_get self.now router.0 ≡ Some result.now }
    {
        &self.routers[router.0 as usize]
    }
}
