//! What is learnt by what was accepted: field by field without memory, or made in memory.

ghost use Rattle.std.specs.Prelude.{◌≡◌, ◌≤◌, ◌+◌, ◌++◌, ◌∷◌, ℕ, List, [], None, Some, true, drop, if◌then◌else◌, length, slice_get, IfOk, IfSome};
ghost use Rattle.std.specs.Option.{option_map_or};
ghost use Rattle.nc_tables.specs.LearntView.{learnt_view, path_after};
ghost use Rattle.nc_policy.specs.Passing.{communities_by};
ghost use Rattle.nc_tables.specs.Rounds.{learnt_from};
ghost use Rattle.nc_tables.specs.Sessions.{router_id};
ghost use Rattle.nc_sessions.specs.Views.{link_view};
ghost use Rattle.nc_types.specs.declared.TheConstants.{PATH_LIMIT};
ghost use Rattle.nc_message.specs.Views.{advertised, learnt_as, message_view, accepted_view};
ghost use Rattle.nc_message.specs.Views.{HasId, IsAccepted, IsAdvertised};

use nc_message::{AdvertisedRoute, LearntRoute, carried, hop_of, sent_length};
use nc_policy::Passing;
use nc_sessions::router_id;
use nc_tables::{BgpFrom, Chosen, Learnt, Numbers, Path, Route};
use nc_types::{Addr, Communities, DEFAULT_PREFERENCE, OriginCode};
use std::alloc::{AllocError, Global};
use std::marker::Model;

// A path behind more numbers. Mostly there are none.
fn behind_all(alloc: Global, path: Path, numbers: &[u32]) -> Result<Path, AllocError>
    requires { length numbers.now + length path ≤ PATH_LIMIT }
    ensures { IfOk result (λ longer. longer ≡ numbers.now ++ path) }
{
    if numbers.is_empty() {
        return Ok(path);
    }
    let longer = path.behind_all(alloc, numbers)?;
    Ok(longer)
}

// The path of a route as it is sent: toward another system the sender's own number, what its map
// prepends, and the path of the candidate, whose numbers are shared.
fn sent_path(alloc: Global, sent: &AdvertisedRoute) -> Result<Path, AllocError>
    requires feasible { IsAdvertised (advertised sent.now) }
    requires short { length (message_view (advertised sent.now)).route.path ≤ PATH_LIMIT }
    ensures { IfOk result (λ path. path ≡ (message_view (advertised sent.now)).route.path) }
{
    let own = sent.best.path().share()?;
    let path = behind_all(alloc, own, sent.out.prepended())?;
    let link = sent.link;
    if link.session.internal {
        return Ok(path);
    }
    let path = path.behind(alloc, link.sender.process.asn)?;
    Ok(path)
}

// The path of a route as it is accepted: what the receiver's map prepends, and the path as it is sent.
fn path_of(alloc: Global, taken: &LearntRoute) -> Result<Path, AllocError>
    requires { IsAccepted (learnt_as taken.now) }
    ensures { IfOk result (λ path. path ≡ (accepted_view (learnt_as taken.now)).into.route.path) }
{
    let path = sent_path(alloc, &taken.sent)?;
    let path = behind_all(alloc, path, taken.into.prepended())?;
    Ok(path)
}

/// The local preference of a route as it is accepted: toward another system it begins anew.
pub(crate) fn preference_of(taken: &LearntRoute) -> u32
    ensures { result ≡ (accepted_view (learnt_as taken.now)).into.route.preference }
{
    let sent = &taken.sent;
    if sent.link.session.internal {
        taken
            .into
            .preference(sent.out.preference(sent.best.preference()))
    } else {
        taken.into.preference(DEFAULT_PREFERENCE)
    }
}

/// The metric of a route as it is accepted: toward another system it begins anew.
pub(crate) fn metric_of(taken: &LearntRoute) -> u32
    ensures { result ≡ (accepted_view (learnt_as taken.now)).into.route.metric }
{
    let sent = &taken.sent;
    let before = if sent.link.session.internal {
        sent.best.metric()
    } else {
        0
    };
    taken.into.metric(sent.out.metric(before))
}

/// The origin of a route as it is accepted.
pub(crate) fn origin_of(taken: &LearntRoute) -> OriginCode
    ensures { result ≡ (accepted_view (learnt_as taken.now)).into.route.origin }
{
    let sent = &taken.sent;
    taken.into.origin(sent.out.origin(sent.best.origin()))
}

/// The router id of the sender of a message, which may be known.
pub(crate) fn sender_id(sent: &AdvertisedRoute) -> Addr
    requires { HasId (advertised sent.now) }
    ensures { result.0 ≡ router_id (link_view sent.now.link.now).sender.config }
{
    let link = sent.link;
    match sent.sender {
        Some(sender) => sender.id,
        None => router_id(link.sender.config),
    }
}

// Whether nothing gives a route communities on its way: the sender's statement doesn't carry them, and
// the receiver has no map.
fn is_bare(taken: &LearntRoute) -> bool
    ensures { result ≡ true → (accepted_view (learnt_as taken.now)).into.route.communities ≡ [] }
{
    let link = taken.sent.link;
    if link.sender.statement.send_community {
        return false;
    }
    match taken.into {
        Passing::Unchanged => true,
        Passing::By(_) => false,
    }
}

// The communities of a route as it is accepted. Mostly there are none.
fn communities_of(alloc: Global, taken: &LearntRoute) -> Result<Communities, AllocError>
    requires { IsAccepted (learnt_as taken.now) }
    ensures { IfOk result
        (λ left. left ≡ (accepted_view (learnt_as taken.now)).into.route.communities) }
{
    if is_bare(taken) {
        return Ok(Communities::new(alloc));
    }
    let held = carried(&taken.sent);
    let left = taken.into.communities_left(alloc, &held)?;
    Ok(left)
}

/// The candidate that is learnt by what was accepted over the neighbor statement at a place.
pub(crate) fn learnt_from(
    alloc: Global,
    place: u32,
    taken: &LearntRoute,
) -> Result<Chosen, AllocError>
    requires taken { IsAccepted (learnt_as taken.now) }
    requires sender { HasId (advertised taken.now.sent) }
    ensures { IfOk result (λ learnt. learnt ≡ learnt_from place (accepted_view (learnt_as taken.now))) }
{
    let link = taken.sent.link;
    let route = Route {
        prefix: *taken.sent.best.prefix,
        path: path_of(alloc, taken)?,
        next_hop: hop_of(&taken.sent),
        preference: preference_of(taken),
        metric: metric_of(taken),
        origin: origin_of(taken),
        communities: communities_of(alloc, taken)?,
    };
    Ok(Chosen {
        route,
        from: BgpFrom::Entry(place),
        internal: link.session.internal,
        sender_id: sender_id(&taken.sent),
        sender: link.receiver.statement.addr,
    })
}

// Whether a map, as it let a route pass, leaves communities as they were.
fn keeps_communities(passing: &Passing) -> bool
    ensures { result ≡ true → (held : List ℕ) → communities_by passing.now held ≡ held }
{
    match passing {
        Passing::Unchanged => true,
        Passing::By(by) => by.clause.communities.is_none(),
    }
}

// The communities of a route as it is accepted, where no map changed them: none, or those of the
// sender's candidate.
fn kept_communities<'a>(taken: &LearntRoute<'a>) -> Option<Option<&'a Communities>>
    ensures { IfSome result (λ kept. option_map_or (λ c. c.now) kept []
        ≡ (accepted_view (learnt_as taken.now)).into.route.communities) }
{
    if !keeps_communities(&taken.into) {
        return None;
    }
    let link = taken.sent.link;
    if !link.sender.statement.send_community {
        return Some(None);
    }
    if !keeps_communities(&taken.sent.out) {
        return None;
    }
    Some(Some(taken.sent.best.communities()))
}

/// The same as [`learnt_from`] without memory, where no map changed the path or the communities.
pub(crate) fn plainly_learnt<'a>(place: u32, taken: &LearntRoute<'a>) -> Option<Learnt<'a>>
    requires taken { IsAccepted (learnt_as taken.now) }
    requires sender { HasId (advertised taken.now.sent) }
    ensures same { IfSome result
        (λ l. learnt_view l ≡ learnt_from place (accepted_view (learnt_as taken.now))) }
    ensures short { IfSome result (λ l. length (path_after l.system l.path.now) ≤ PATH_LIMIT) }
{
    let sent = &taken.sent;
    if !sent.out.prepended().is_empty() || !taken.into.prepended().is_empty() {
        return None;
    }
    let communities = kept_communities(taken)?;
    let link = sent.link;
    Some(Learnt {
        prefix: *sent.best.prefix,
        system: outer_number(sent),
        path: sent.best.path(),
        communities,
        next_hop: hop_of(sent),
        preference: preference_of(taken),
        metric: metric_of(taken),
        origin: origin_of(taken),
        from: BgpFrom::Entry(place),
        internal: link.session.internal,
        sender_id: sender_id(sent),
        sender: link.receiver.statement.addr,
    })
}

/// How many numbers the path has of a route as it is accepted.
pub(crate) fn length_of(taken: &LearntRoute) -> usize
    requires { IsAccepted (learnt_as taken.now) }
    ensures { result ≡ length (accepted_view (learnt_as taken.now)).into.route.path }
{
    let sent = &taken.sent;
    let before = taken.into.prepended();
    before.len() + sent_length(sent.link.session.internal, sent.best, &sent.out)
}

// The number that the sender puts before the path: toward another system its own.
fn outer_number(sent: &AdvertisedRoute) -> Option<u32>
    ensures { result ≡ (if sent.now.link.now.session.internal then None
        else Some (link_view sent.now.link.now).sender.process.asn) }
{
    let link = sent.link;
    if link.session.internal {
        None
    } else {
        Some(link.sender.process.asn)
    }
}

// The first of some numbers, which is passed.
fn pass_first(numbers: &mut &[u32]) -> Option<u32>
    ensures first { result ≡ slice_get numbers.old.now 0 }
    ensures left { numbers.new.now ≡ drop 1 numbers.old.now }
{
    let (first, rest) = numbers.split_first()?;
    *numbers = rest;
    Some(*first)
}

/// What is left of the numbers of a path as it is accepted, on the way along it.
#[derive(Drop)]
pub(crate) struct Walk<'a> {
    // what the receiver's map prepends
    before: &'a [u32],
    // the sender's own number
    sender: Option<u32>,
    // what the sender's map prepends
    behind: &'a [u32],
    // the path of the sender's candidate
    own: Numbers<'a>,
}

impl<'a> Model for Walk<'a> {
    ghost use Rattle.std.specs.Prelude.{List, ℕ, ◌++◌, ◌∷◌, []};
    ghost use Rattle.std.specs.Option.{option_map_or};

    ghost Value = { List ℕ };

    ghost view = { λ w. w.before.now ++ (option_map_or (λ n. n ∷ []) w.sender []
        ++ (w.behind.now ++ w.own)) };
}

impl<'a> Walk<'a> {
    /// Along no path.
    pub(crate) fn none() -> Walk<'a>
        ensures { result ≡ [] }
    {
        Walk {
            before: &[],
            sender: None,
            behind: &[],
            own: Numbers::none(),
        }
    }

    /// Along the path of a route that stands.
    pub(crate) fn over(path: &'a Path) -> Walk<'a>
        ensures { result ≡ path.now }
    {
        Walk {
            before: &[],
            sender: None,
            behind: &[],
            own: path.numbers(),
        }
    }

    /// Along a number and the path of a route that stands.
    pub(crate) fn behind(number: u32, path: &'a Path) -> Walk<'a>
        ensures { result ≡ number ∷ path.now }
    {
        Walk {
            before: &[],
            sender: Some(number),
            behind: &[],
            own: path.numbers(),
        }
    }

    /// Along the path of a route as it is accepted.
    pub(crate) fn along(taken: &LearntRoute<'a>) -> Walk<'a>
        ensures { result ≡ (accepted_view (learnt_as taken.now)).into.route.path }
    {
        let sent = &taken.sent;
        Walk {
            before: taken.into.prepended(),
            sender: outer_number(sent),
            behind: sent.out.prepended(),
            own: sent.best.path().numbers(),
        }
    }

    /// The next number, which is passed; `None` where none is left.
    pub(crate) fn pass(&mut self) -> Option<u32>
        ensures first { result ≡ slice_get self.old 0 }
        ensures left { self.new ≡ drop 1 self.old }
    {
        if let Some(number) = pass_first(&mut self.before) {
            return Some(number);
        }
        if let Some(number) = self.sender.take() {
            return Some(number);
        }
        if let Some(number) = pass_first(&mut self.behind) {
            return Some(number);
        }
        self.own.pass()
    }
}
