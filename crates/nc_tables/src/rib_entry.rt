//! Entries of a Loc-RIB, which share what their candidates have in common.

ghost use Rattle.std.specs.Prelude.{◌≡◌, ◌↔◌, ◌≤◌, [], true, length, IfOk, IfSome, IsTrue};
ghost use Rattle.std.specs.Option.{option_map_or};
ghost use Rattle.nc_types.specs.declared.TheConstants.{PATH_LIMIT};
ghost use Rattle.nc_tables.specs.LearntView.{learnt_view, path_after};
ghost use Rattle.nc_tables.specs.RibEntryView.{entry_of, IsCounted};

use crate::bgp::{BgpFrom, Chosen, Route};
use crate::learnt::Learnt;
use crate::path::Path;
use nc_types::{Addr, Communities, OriginCode, Prefix};
use std::alloc::{AllocError, Global};
use std::marker::Model;
use std::rc::Rc;

// How many blocks of attributes are remembered: more than a router mostly learns anew in one round.
const RECENT: usize = 1024;

// Of so many candidates, so many of the first are looked for in any case; the others only where one of
// these shared a block.
const TURN: u32 = 4096;

const TRIED: u32 = 1024;

// Where a candidate comes from, and how many numbers its path has: what is asked of most candidates, at
// the front of a block.
#[derive(Clone, Copy, PartialEq, Eq)]
struct Source {
    from: BgpFrom,
    sender_id: Addr,
    sender: Addr,
    origin: OriginCode,
    internal: bool,
    length: u16,
}

// What candidates of several prefixes may have in common, all but the prefix: mostly those that a
// router learns in one message (RFC 4271, section 4.3). In front stands what is looked at most.
#[derive(Drop)]
struct Attributes {
    source: Source,
    next_hop: Addr,
    preference: u32,
    metric: u32,
    path: Path,
    communities: Communities,
}

impl Attributes {
    // Those of a candidate, beside its prefix.
    fn of(chosen: Chosen) -> (Prefix, Attributes)
        ensures entry { entry_of result.0 result.1 ≡ chosen }
        ensures counted { IsCounted result.1 }
    {
        let Chosen {
            route,
            from,
            internal,
            sender_id,
            sender,
        } = chosen;
        let Route {
            prefix,
            path,
            next_hop,
            preference,
            metric,
            origin,
            communities,
        } = route;
        let source = Source {
            from,
            sender_id,
            sender,
            origin,
            internal,
            length: path.len() as u16,
        };
        let attributes = Attributes {
            source,
            next_hop,
            preference,
            metric,
            path,
            communities,
        };
        (prefix, attributes)
    }

    // Whether others are the same.
    fn are_same(&self, other: &Attributes) -> bool
        ensures { IsTrue result ↔ (self.now ≡ other.now) }
    {
        self.source == other.source
            && self.next_hop == other.next_hop
            && self.preference == other.preference
            && self.metric == other.metric
            && self.path.is_same(&other.path)
            && self.communities.numbers() == other.communities.numbers()
    }

    // Where they are remembered.
    fn place(&self) -> usize {
        place_of(self.path.digest(), self.source.from)
    }

    // Those of a candidate that isn't in memory.
    fn made(alloc: Global, learnt: &Learnt<'_>) -> Result<Attributes, AllocError>
        requires { length (path_after learnt.now.system learnt.now.path.now) ≤ PATH_LIMIT }
        ensures entry { IfOk result (λ made. entry_of learnt.now.prefix made ≡ learnt_view learnt.now) }
        ensures counted { IfOk result IsCounted }
    {
        Ok(Attributes {
            source: source_of(learnt),
            next_hop: learnt.next_hop,
            preference: learnt.preference,
            metric: learnt.metric,
            path: learnt.path.shared_after(alloc, learnt.system)?,
            communities: copied(alloc, learnt.communities)?,
        })
    }

    // Whether they are those of a candidate that isn't in memory.
    fn are_of(&self, learnt: &Learnt<'_>) -> bool
        requires { length (path_after learnt.now.system learnt.now.path.now) ≤ PATH_LIMIT }
        ensures entry { result ≡ true → entry_of learnt.now.prefix self.now ≡ learnt_view learnt.now }
        ensures counted { result ≡ true → IsCounted self.now }
    {
        self.source == source_of(learnt)
            && self.next_hop == learnt.next_hop
            && self.preference == learnt.preference
            && self.metric == learnt.metric
            && self.path.is_after(learnt.system, learnt.path)
            && self.communities.numbers() == numbers_of(learnt.communities)
    }
}

// Where attributes are remembered: by the path and by where they come from.
fn place_of(digest: u64, from: BgpFrom) -> usize {
    let from = match from {
        BgpFrom::Origin(place) => place,
        BgpFrom::Aggregate(place) => place,
        BgpFrom::Entry(place) => place,
    };
    let mixed = (digest ^ u64::from(from)).wrapping_mul(0x9e37_79b9_7f4a_7c15);
    (mixed >> 54) as usize
}

// Where a candidate that isn't in memory comes from.
fn source_of(learnt: &Learnt<'_>) -> Source
    requires { length (path_after learnt.now.system learnt.now.path.now) ≤ PATH_LIMIT }
    ensures { result ≡ record {
      from = learnt.now.from;
      sender_id = learnt.now.sender_id;
      sender = learnt.now.sender;
      origin = learnt.now.origin;
      internal = learnt.now.internal;
      length = length (path_after learnt.now.system learnt.now.path.now);
    } }
{
    let before: u16 = if learnt.system.is_some() { 1 } else { 0 };
    Source {
        from: learnt.from,
        sender_id: learnt.sender_id,
        sender: learnt.sender,
        origin: learnt.origin,
        internal: learnt.internal,
        length: learnt.path.len() as u16 + before,
    }
}

// The numbers of communities, if there are any.
fn numbers_of<'a>(communities: Option<&'a Communities>) -> &'a [u32]
    ensures { result.now ≡ option_map_or (λ c. c.now) communities.entry [] }
{
    match communities {
        Some(communities) => communities.numbers(),
        None => &[],
    }
}

// The same communities in memory of their own.
fn copied(alloc: Global, communities: Option<&Communities>) -> Result<Communities, AllocError>
    ensures { IfOk result (λ copy. copy ≡ option_map_or (λ c. c.now) communities.entry []) }
{
    let Some(communities) = communities else {
        return Ok(Communities::new(alloc));
    };
    let numbers = Vec::from_slice(alloc, communities.numbers())?;
    let copy = Communities::of(alloc, numbers)?;
    Ok(copy)
}

/// An entry of a Loc-RIB (RFC 4271, section 3.2): a candidate for a prefix that was chosen. It has 16
/// bytes beside the block of what it may share with entries of other prefixes.
#[derive(Drop)]
pub struct RibEntry {
    prefix: Prefix,
    attributes: Rc<Attributes>,
}

impl Model for RibEntry {
    ghost use Rattle.nc_tables.specs.declared.bgp.Chosen.{Chosen};
    ghost use Rattle.nc_tables.specs.RibEntryView.{entry_of, IsCounted};

    ghost Value = { Chosen };

    ghost view = { λ e. entry_of e.prefix e.attributes.value };

    ghost invariant = { λ e. IsCounted e.attributes.value };
}

impl RibEntry {
    /// The prefix.
    pub fn prefix(&self) -> Prefix
        ensures { result ≡ self.now.route.prefix }
    {
        self.prefix
    }

    // The prefix, where it stands.
    pub(crate) fn own_prefix(&self) -> &Prefix
        ensures { result.now ≡ self.now.route.prefix }
    {
        &self.prefix
    }

    /// The autonomous systems through which it came.
    pub fn path(&self) -> &Path
        ensures { result.now ≡ self.now.route.path }
    {
        &self.attributes.path
    }

    /// How many numbers its path has, at most [`nc_types::PATH_LIMIT`], without a look at the path.
    pub fn path_length(&self) -> usize
        ensures length { result ≡ length self.now.route.path }
        ensures few { result ≤ PATH_LIMIT }
    {
        self.attributes.source.length as usize
    }

    /// The address to which packets are sent.
    pub fn next_hop(&self) -> Addr
        ensures { result ≡ self.now.route.next_hop }
    {
        self.attributes.next_hop
    }

    /// The local preference: the higher one is preferred.
    pub fn preference(&self) -> u32
        ensures { result ≡ self.now.route.preference }
    {
        self.attributes.preference
    }

    /// The multi-exit discriminator: the lower one is preferred.
    pub fn metric(&self) -> u32
        ensures { result ≡ self.now.route.metric }
    {
        self.attributes.metric
    }

    /// How its sender says that it came to be.
    pub fn origin(&self) -> OriginCode
        ensures { result ≡ self.now.route.origin }
    {
        self.attributes.source.origin
    }

    /// The communities that it carries.
    pub fn communities(&self) -> &Communities
        ensures { result.now ≡ self.now.route.communities }
    {
        &self.attributes.communities
    }

    /// The statement of the process that it comes from.
    pub fn from(&self) -> BgpFrom
        ensures { result ≡ self.now.from }
    {
        self.attributes.source.from
    }

    /// Whether it was learnt from a router of the same autonomous system.
    pub fn is_internal(&self) -> bool
        ensures { result ≡ self.now.internal }
    {
        self.attributes.source.internal
    }

    /// The router id of its sender; 0.0.0.0 where it wasn't learnt.
    pub fn sender_id(&self) -> Addr
        ensures { result ≡ self.now.sender_id }
    {
        self.attributes.source.sender_id
    }

    /// The address of its sender; 0.0.0.0 where it wasn't learnt.
    pub fn sender(&self) -> Addr
        ensures { result ≡ self.now.sender }
    {
        self.attributes.source.sender
    }

    /// The entry of the same candidate, but of this prefix. Both share one block.
    ///
    /// # Errors
    ///
    /// Memory that runs out.
    pub fn of_prefix(&self, prefix: Prefix) -> Result<RibEntry, AllocError>
        ensures { IfOk result
            (λ entry. entry ≡ record self.now { route = record self.now.route { prefix = prefix } }) }
    {
        let attributes = self.attributes.clone()?;
        Ok(RibEntry { prefix, attributes })
    }

    /// Whether another entry is of the same candidate.
    pub fn is_same(&self, other: &RibEntry) -> bool
        ensures { IsTrue result ↔ (self.now ≡ other.now) }
    {
        self.prefix == other.prefix && self.attributes.are_same(&other.attributes)
    }
}

/// What candidates had in common that were chosen lately: 1,024 blocks at most, each at a place that its
/// path tells. It saves memory alone, and no answer depends on it. Where candidates share none, most of them
/// aren't looked for.
#[derive(Drop)]
pub struct RecentAttributes {
    blocks: Vec<Option<Rc<Attributes>>>,
    // how many candidates came in this turn
    count: u32,
    // whether one of them shared a block
    has_shared: bool,
}

impl RecentAttributes {
    /// None so far.
    ///
    /// # Errors
    ///
    /// Memory that runs out.
    pub fn new(alloc: Global) -> Result<RecentAttributes, AllocError> {
        let mut blocks = Vec::with_capacity(alloc, RECENT)?;
        'places: for _place in 0..RECENT {
            blocks.push(None)?;
        }
        Ok(RecentAttributes {
            blocks,
            count: 0,
            has_shared: false,
        })
    }

    // Whether the next candidate is looked for.
    fn is_tried(&mut self) -> bool {
        self.count = self.count.wrapping_add(1) % TURN;
        if self.count == 0 {
            self.has_shared = false;
        }
        self.has_shared || self.count < TRIED
    }

    // The block that is remembered at a place, if it is of the same attributes.
    fn like(&self, place: usize, attributes: &Attributes) -> Option<&Rc<Attributes>>
        ensures { IfSome result (λ known. known.now.value ≡ attributes.now) }
    {
        let known = self.blocks.get(place)?.as_ref()?;
        if known.are_same(attributes) {
            return Some(known);
        }
        None
    }

    // The block that is remembered at a place, if it is of the attributes of a candidate that isn't in
    // memory.
    fn block_of(&self, place: usize, learnt: &Learnt<'_>) -> Option<&Rc<Attributes>>
        requires { length (path_after learnt.now.system learnt.now.path.now) ≤ PATH_LIMIT }
        ensures entry { IfSome result
            (λ known. entry_of learnt.now.prefix known.now.value ≡ learnt_view learnt.now) }
        ensures counted { IfSome result (λ known. IsCounted known.now.value) }
    {
        let known = self.blocks.get(place)?.as_ref()?;
        if known.are_of(learnt) {
            return Some(known);
        }
        None
    }

    // Remembers a block at a place, in place of the one that stands there.
    fn remember(&mut self, place: usize, attributes: &Rc<Attributes>) -> Result<(), AllocError> {
        if let Some(block) = self.blocks.get_mut(place) {
            *block = Some(attributes.clone()?);
        }
        Ok(())
    }

    /// The entry of a candidate, which shares the block of a recent one that was the same but for its prefix.
    ///
    /// # Errors
    ///
    /// Memory that runs out.
    pub fn entry(&mut self, alloc: Global, chosen: Chosen) -> Result<RibEntry, AllocError>
        ensures { IfOk result (λ entry. entry ≡ chosen) }
    {
        let (prefix, made) = Attributes::of(chosen);
        if !self.is_tried() {
            let attributes = Rc::new(alloc, made)?;
            return Ok(RibEntry { prefix, attributes });
        }
        let place = made.place();
        if let Some(known) = self.like(place, &made) {
            let attributes = known.clone()?;
            self.has_shared = true;
            return Ok(RibEntry { prefix, attributes });
        }
        let attributes = Rc::new(alloc, made)?;
        self.remember(place, &attributes)?;
        Ok(RibEntry { prefix, attributes })
    }

    /// The entry of a candidate that isn't in memory, whose path has no more than
    /// [`nc_types::PATH_LIMIT`] numbers: as [`RecentAttributes::entry`] makes it, but where its block is
    /// shared nothing is made of it.
    ///
    /// # Errors
    ///
    /// Memory that runs out.
    pub fn learnt(&mut self, alloc: Global, learnt: &Learnt<'_>) -> Result<RibEntry, AllocError>
        requires { length (path_after learnt.now.system learnt.now.path.now) ≤ PATH_LIMIT }
        ensures { IfOk result (λ entry. entry ≡ learnt_view learnt.now) }
    {
        let prefix = learnt.prefix;
        if !self.is_tried() {
            let attributes = Rc::new(alloc, Attributes::made(alloc, learnt)?)?;
            return Ok(RibEntry { prefix, attributes });
        }
        let place = place_of(learnt.path.digest_after(learnt.system), learnt.from);
        if let Some(known) = self.block_of(place, learnt) {
            let attributes = known.clone()?;
            self.has_shared = true;
            return Ok(RibEntry { prefix, attributes });
        }
        let attributes = Rc::new(alloc, Attributes::made(alloc, learnt)?)?;
        self.remember(place, &attributes)?;
        Ok(RibEntry { prefix, attributes })
    }
}
