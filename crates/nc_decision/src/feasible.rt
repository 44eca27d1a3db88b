//! A feasible route: a candidate of a prefix as the decision process has it, not in memory
//! (RFC 4271, 9.1).

ghost use Rattle.std.specs.Prelude.{◌≡◌, ◌+◌, ◌<◌, ℕ, List, length, IfOk, IfSome};
ghost use Rattle.std.specs.Str.{bytes_eq};
ghost use Rattle.nc_types.specs.declared.TheConstants.{PATH_LIMIT};
ghost use Rattle.nc_tables.specs.LearntView.{learnt_view, path_after};
ghost use Rattle.nc_tables.specs.LocRibs.{IsNumbered};
ghost use Rattle.std.specs.Option.{option_and_then, option_map};
ghost use Rattle.nc_tables.specs.declared.base.BaseRow.{BaseRow};
ghost use Rattle.nc_tables.specs.Rounds.{accepted_of, begun, entry_at, learnt_from, message_of, Link};
ghost use Rattle.nc_sessions.specs.Views.{link_view};
ghost use Rattle.nc_decision.specs.Bare.{bare_from, IsBare};
ghost use Rattle.nc_decision.specs.Draft.{draft_view, IsShort};
ghost use Rattle.nc_decision.specs.Peerings.{IsPeering};
ghost use Rattle.nc_message.specs.Inputs.{AreRoutingInputs, IsOf};
ghost use Rattle.nc_message.specs.Views.{accepted_view, advertised, learnt_as, HasId, IsAccepted};

use crate::learnt::{
    Walk, learnt_from, length_of, metric_of, origin_of, plainly_learnt, preference_of, sender_id,
};
use crate::peerings::{Bare, Peering};
use crate::rows::best_of;
use nc_message::{
    AdvertisedRoute, LearntRoute, RoutingInputs, holds_receiver, passed_into, sent_out,
};
use nc_select::Candidate;
use nc_tables::{
    BgpFrom, Chosen, Learnt, LocRibs, Numbered, Path, RecentAttributes, RibEntry, RibRoute, Route,
};
use nc_types::{Addr, Communities, DEFAULT_PREFERENCE, OriginCode, PATH_LIMIT, Prefix, RouterId};
use std::alloc::{AllocError, Global};
use std::marker::Model;

// How a candidate came to be.
#[derive(Clone, Copy)]
enum Way<'a> {
    // The router begins the prefix, by a network or an aggregate.
    Begun(Prefix, BgpFrom),
    // It comes over the session of the neighbor statement at a place, on whose way nothing stands, and is
    // the peer's best candidate but for what is known of the session.
    Bare(u32, &'a Bare, &'a RibEntry),
    // It was accepted over the neighbor statement at a place.
    Learnt(u32, LearntRoute<'a>),
}

/// A candidate of a prefix: a network or an aggregate of the router, or what was accepted over a
/// neighbor statement. It stands for the candidate that [`FeasibleRoute::entry`] makes of it in memory.
#[derive(Drop)]
pub(crate) struct FeasibleRoute<'a> {
    way: Way<'a>,
}

impl<'a> Model for FeasibleRoute<'a> {
    ghost use Rattle.nc_tables.specs.declared.bgp.Chosen.{Chosen};

    ghost Value = { Chosen };

    ghost use Rattle.nc_decision.specs.Feasible.{way_view, IsSound};

    ghost view = { λ t. way_view t.way };

    ghost invariant = { λ t. IsSound t.way };
}

// The candidate of a prefix that a router itself begins. Takes no memory.
fn begun(alloc: Global, prefix: Prefix, from: BgpFrom) -> Chosen
    ensures { result ≡ begun prefix from }
{
    Chosen {
        route: Route {
            prefix,
            path: Path::empty(),
            next_hop: Addr(0),
            preference: DEFAULT_PREFERENCE,
            metric: 0,
            origin: OriginCode::Igp,
            communities: Communities::new(alloc),
        },
        from,
        internal: false,
        sender_id: Addr(0),
        sender: Addr(0),
    }
}

// The candidate that is learnt over a session on whose way nothing stands, without memory.
fn bare_learnt<'a>(place: u32, bare: &Bare, best: &'a RibEntry) -> Learnt<'a>
    ensures same { learnt_view result ≡ bare_from place bare.now best.entry.now }
    ensures path { length (path_after result.system result.path.now)
        ≡ length best.entry.now.route.path + 1 }
{
    let communities = if bare.carries {
        Some(best.communities())
    } else {
        None
    };
    Learnt {
        prefix: best.prefix(),
        system: Some(bare.sender),
        path: best.path(),
        communities,
        next_hop: bare.source,
        preference: DEFAULT_PREFERENCE,
        metric: 0,
        origin: best.origin(),
        from: BgpFrom::Entry(place),
        internal: false,
        sender_id: bare.sender_id,
        sender: bare.sender_addr,
    }
}

// A candidate on the way into memory: one that takes none where a recent one is like it, or one that is
// made.
#[derive(Drop)]
enum Draft<'a> {
    Plain(Learnt<'a>),
    Made(Chosen),
}

// What was accepted over the neighbor statement at a place. Where a map changed its path or its
// communities, it is made.
fn accepted_draft<'a>(
    alloc: Global,
    place: u32,
    taken: &LearntRoute<'a>,
) -> Result<Draft<'a>, AllocError>
    requires taken { IsAccepted (learnt_as taken.now) }
    requires sender { HasId (advertised taken.now.sent) }
    ensures same { IfOk result
        (λ d. draft_view d ≡ learnt_from place (accepted_view (learnt_as taken.now))) }
    ensures short { IfOk result IsShort }
{
    if let Some(learnt) = plainly_learnt(place, taken) {
        return Ok(Draft::Plain(learnt));
    }
    let made = learnt_from(alloc, place, taken)?;
    Ok(Draft::Made(made))
}

impl<'a> FeasibleRoute<'a> {
    /// The candidate of a prefix that a router itself begins.
    pub(crate) fn begun(prefix: Prefix, from: BgpFrom) -> FeasibleRoute<'a>
        ensures { result ≡ begun prefix from }
    {
        FeasibleRoute {
            way: Way::Begun(prefix, from),
        }
    }

    /// The candidate that is learnt by what was accepted over the neighbor statement at a place.
    pub(crate) fn learnt(place: u32, taken: LearntRoute<'a>) -> FeasibleRoute<'a>
        requires taken { IsAccepted (learnt_as taken) }
        requires sender { HasId (advertised taken.sent) }
        ensures { result ≡ learnt_from place (accepted_view (learnt_as taken.entry)) }
    {
        FeasibleRoute {
            way: Way::Learnt(place, taken),
        }
    }

    /// The candidate that is learnt of the peer's best candidate over a session on whose way nothing
    /// stands, by the neighbor statement at a place.
    pub(crate) fn bare(place: u32, bare: &'a Bare, best: &'a RibEntry) -> FeasibleRoute<'a>
        requires { length best.now.route.path < PATH_LIMIT }
        ensures { result ≡ bare_from place bare.entry.now best.entry.now }
    {
        FeasibleRoute {
            way: Way::Bare(place, bare, best),
        }
    }

    // The candidate on the way into memory.
    fn draft(&self, alloc: Global) -> Result<Draft<'a>, AllocError>
        ensures same { IfOk result (λ d. draft_view d ≡ self.now) }
        ensures short { IfOk result IsShort }
    {
        match &self.way {
            Way::Begun(prefix, from) => Ok(Draft::Made(begun(alloc, *prefix, *from))),
            Way::Bare(place, bare, best) => Ok(Draft::Plain(bare_learnt(*place, bare, best))),
            Way::Learnt(place, taken) => accepted_draft(alloc, *place, taken),
        }
    }

    /// The candidate in memory, which shares what a recent one has in common with it.
    ///
    /// # Errors
    ///
    /// Memory that runs out.
    pub(crate) fn entry(
        &self,
        alloc: Global,
        recent: &mut RecentAttributes,
    ) -> Result<RibEntry, AllocError>
        ensures { IfOk result (λ made. made ≡ self.now) }
    {
        let entry = match self.draft(alloc)? {
            Draft::Plain(learnt) => recent.learnt(alloc, &learnt)?,
            Draft::Made(made) => recent.entry(alloc, made)?,
        };
        Ok(entry)
    }

    /// Along its path.
    pub(crate) fn walk(&self) -> Walk<'a>
        ensures { result ≡ self.now.route.path }
    {
        match &self.way {
            Way::Begun(_, _) => Walk::none(),
            Way::Bare(_, bare, best) => Walk::behind(bare.sender, best.path()),
            Way::Learnt(_, taken) => Walk::along(taken),
        }
    }
}

/// Whether what is left of two paths are the same numbers, in their order.
pub(crate) fn have_same_numbers(a: Walk<'_>, b: Walk<'_>) -> bool
    ensures { result ≡ bytes_eq a.entry b.entry }
{
    let mut a = a;
    let mut b = b;
    'numbers: while let Some(number) = a.pass() {
        if b.pass() != Some(number) {
            return false;
        }
    }
    b.pass().is_none()
}

impl<'a> Candidate for FeasibleRoute<'a> {
    ghost candidate_of = { λ x. x };

    fn from(&self) -> BgpFrom {
        match &self.way {
            Way::Begun(_, from) => *from,
            Way::Bare(place, _, _) => BgpFrom::Entry(*place),
            Way::Learnt(place, _) => BgpFrom::Entry(*place),
        }
    }

    fn preference(&self) -> u32 {
        match &self.way {
            Way::Begun(_, _) => DEFAULT_PREFERENCE,
            Way::Bare(_, _, _) => DEFAULT_PREFERENCE,
            Way::Learnt(_, taken) => preference_of(taken),
        }
    }

    fn path_length(&self) -> usize {
        match &self.way {
            Way::Begun(_, _) => 0,
            Way::Bare(_, _, best) => 1 + best.path_length(),
            Way::Learnt(_, taken) => length_of(taken),
        }
    }

    fn origin(&self) -> OriginCode {
        match &self.way {
            Way::Begun(_, _) => OriginCode::Igp,
            Way::Bare(_, _, best) => best.origin(),
            Way::Learnt(_, taken) => origin_of(taken),
        }
    }

    fn metric(&self) -> u32 {
        match &self.way {
            Way::Begun(_, _) => 0,
            Way::Bare(_, _, _) => 0,
            Way::Learnt(_, taken) => metric_of(taken),
        }
    }

    fn is_internal(&self) -> bool {
        match &self.way {
            Way::Begun(_, _) => false,
            Way::Bare(_, _, _) => false,
            Way::Learnt(_, taken) => taken.sent.link.session.internal,
        }
    }

    fn sender_id(&self) -> Addr {
        match &self.way {
            Way::Begun(_, _) => Addr(0),
            Way::Bare(_, bare, _) => bare.sender_id,
            Way::Learnt(_, taken) => sender_id(&taken.sent),
        }
    }

    fn sender(&self) -> Addr {
        match &self.way {
            Way::Begun(_, _) => Addr(0),
            Way::Bare(_, bare, _) => bare.sender_addr,
            Way::Learnt(_, taken) => {
                let link = taken.sent.link;
                link.receiver.statement.addr
            }
        }
    }

    fn has_same_path(&self, other: &Self) -> bool {
        self.path_length() == other.path_length() && have_same_numbers(self.walk(), other.walk())
    }
}

// The candidate that a router learns over a session on whose way nothing stands, of its peer's best
// candidate; `None` where the path of that holds the receiver's system, or has no room for the sender's.
fn feasible_bare<'a>(place: u32, bare: &'a Bare, best: &'a RibEntry) -> Option<FeasibleRoute<'a>>
    ensures feasible { (tables : List (List BaseRow)) (router : ℕ) (k : Link)
        → IsBare tables router k bare.entry.now → result ≡ option_map (learnt_from place)
        (option_and_then (accepted_of tables router) (message_of k best.entry.now)) }
    ensures own { IfSome result (λ x. x.route.prefix ≡ best.entry.now.route.prefix) }
{
    if best.path().contains(bare.receiver) {
        return None;
    }
    if best.path_length() >= PATH_LIMIT {
        return None;
    }
    Some(FeasibleRoute::bare(place, bare, best))
}

/// The candidate that a router learns over a session of its peer's best candidate; `None` where
/// nothing is accepted, as [`nc_message::accepted_at`] tells it. Where nothing stands on the way, it is
/// told by the candidate's path alone; else what maps decide on its prefix is looked for at a number
/// first. Takes no memory.
pub(crate) fn feasible_over<'a>(
    inputs: &RoutingInputs<'a>,
    router: RouterId,
    peering: &'a Peering<'a>,
    best: &'a RibEntry,
    number: usize,
) -> Option<FeasibleRoute<'a>>
    requires inputs { AreRoutingInputs inputs.now }
    requires peering { IsPeering inputs.now.network.now inputs.now.base.now
        inputs.now.sessions.now router.0 peering.now }
    ensures feasible { result ≡ option_map (learnt_from peering.now.place)
        (option_and_then (accepted_of inputs.now.base.now router.0)
        (message_of (link_view peering.now.adjacency.link) best.entry.now)) }
    ensures own { IfSome result (λ x. x.route.prefix ≡ best.entry.now.route.prefix) }
{
    if let Some(bare) = &peering.bare {
        return feasible_bare(peering.place, bare, best);
    }
    let adjacency = &peering.adjacency;
    let link = &adjacency.link;
    let best = RibRoute::of(best);
    if holds_receiver(link, best) {
        return None;
    }
    let out = sent_out(inputs, link, peering.maps.out, best, number)?;
    let sent = AdvertisedRoute {
        link,
        sender: adjacency.sender,
        best,
        out,
    };
    let into = passed_into(inputs, router, peering.maps.into, &sent, number)?;
    Some(FeasibleRoute::learnt(peering.place, LearntRoute { sent, into }))
}

/// The candidate of a prefix that a router learns over a session, given what is chosen now by each
/// router; `None` where nothing is accepted, as [`nc_message::accepted_at`] tells it. Takes no memory.
pub(crate) fn feasible_by<'a>(
    inputs: &RoutingInputs<'a>,
    ribs: &'a LocRibs,
    router: RouterId,
    peering: &'a Peering<'a>,
    of: &Numbered,
) -> Option<FeasibleRoute<'a>>
    requires inputs { AreRoutingInputs inputs.now }
    requires ribs { length ribs.now.rows ≡ length inputs.now.network.now }
    requires number { IsNumbered ribs.now.prefixes of.now }
    requires peering { IsPeering inputs.now.network.now inputs.now.base.now
        inputs.now.sessions.now router.0 peering.now }
    ensures feasible { result ≡ entry_at inputs.now.network.now inputs.now.base.now
        inputs.now.sessions.now ribs.now.rows router.0 peering.now.place of.now.prefix }
    ensures own { IfSome result (IsOf of.now.prefix) }
{
    let best = best_of(ribs, peering.peer, *of)?;
    let feasible = feasible_over(inputs, router, peering, best, of.number)?;
    Some(feasible)
}
