//! The entries of access lists, those of one spot one behind the other.

ghost use Rattle.std.specs.Prelude.{◌≡◌, ◌+◌, ◌<◌, ◌^◌, ℕ, List, Some, if◌then◌else◌, length, slice_get};
ghost use Rattle.std.specs.Prelude.{IfOk, OnOk};
ghost use Rattle.std.specs.HashMap.{IsEmpty};
ghost use Rattle.std.specs.Option.{unwrap_or};
ghost use Rattle.nc_types.specs.declared.filters.FilterEntry.{FilterEntry};
ghost use Rattle.nc_filter.specs.declared.spots.Spot.{Spot};
ghost use Rattle.nc_filter.specs.Names.{AreLists};
ghost use Rattle.nc_filter.specs.Spots.{ahead, number_of, place_in, same_spot, spots_of, IsIndexed};

use crate::spots::{Spot, class_of};
use nc_types::{FilterEntry, Text};
use std::alloc::{AllocError, Global};
use std::collections::HashMap;

/// Of each spot the place of the first entry, and of each entry the place of the next one of its spot; behind the last
/// one stands their number.
#[derive(Drop)]
pub(crate) struct Index {
    pub(crate) first: HashMap<Spot, u32>,
    pub(crate) next: Vec<u32>,
}

// The number of a list, by its name.
fn number_of(lists: &HashMap<Vec<u8>, usize>, count: usize, list: &Text) -> usize
    ensures { (entries : List FilterEntry) → AreLists entries lists.now → count ≡ length entries
        → result ≡ number_of entries list.now }
{
    let first = lists.get(list.bytes()).copied();
    first.unwrap_or(count)
}

// The number of the list of an entry. It is that of the entry behind it, where both are of one list.
fn number_in(
    lists: &HashMap<Vec<u8>, usize>,
    entries: &[FilterEntry],
    place: usize,
    later: usize,
) -> usize
    requires place { place < length entries.now }
    requires lists { AreLists entries.now lists.now }
    ensures { (e : FilterEntry) → slice_get entries.now place ≡ Some e
        → ((d : FilterEntry) → slice_get entries.now (place + 1) ≡ Some d → later ≡ number_of entries.now d.list)
        → result ≡ number_of entries.now e.list }
{
    let entry = &entries[place];
    if let Some(behind) = entries.get(place + 1) {
        if behind.list == entry.list {
            return later;
        }
    }
    number_of(lists, entries.len(), &entry.list)
}

// Whether an entry has one source or one destination, and so may be the only one of its spot.
fn is_exact(entry: &FilterEntry) -> bool {
    entry.ip && (entry.from.wild.0 == 0 || entry.to.wild.0 == 0)
}

// A table of no spots, with room for those of such entries: it isn't moved to larger memory while it grows.
fn with_room(alloc: Global, entries: &[FilterEntry]) -> Result<HashMap<Spot, u32>, AllocError>
    ensures { IfOk result (λ first. IsEmpty first) }
{
    let exact = entries.iter().filter(|entry| is_exact(entry)).count();
    let first = HashMap::with_capacity(alloc, exact)?;
    Ok(first)
}

// A place among entries that are few.
fn narrow(place: usize) -> u32
    requires { place < 2 ^ 32 }
    ensures { result ≡ place }
{
    place as u32
}

// Puts the place of an entry before those of its spot, and hands out the next one of them, or so many.
fn begin_at(
    first: &mut HashMap<Spot, u32>,
    spot: Spot,
    place: u32,
    count: u32,
) -> Result<u32, AllocError>
    ensures before { IfOk result (λ next. next ≡ unwrap_or (place_in first.old spot) count) }
    ensures begun { OnOk result ((s : Spot) → place_in first.new s
        ≡ (if same_spot spot s then Some place else place_in first.old s)) }
{
    let before = first.insert(spot, place)?;
    Ok(before.unwrap_or(count))
}

impl Index {
    /// That of these entries, by the places of the first of each list, from the last one back to the first.
    ///
    /// # Errors
    ///
    /// Memory that runs out.
    pub(crate) fn new(
        alloc: Global,
        entries: &[FilterEntry],
        lists: &HashMap<Vec<u8>, usize>,
    ) -> Result<Index, AllocError>
        requires lists { AreLists entries.now lists.now }
        requires few { length entries.now < 2 ^ 32 }
        ensures { IfOk result (IsIndexed entries.now) }
    {
        let count = entries.len();
        let end = narrow(count);
        let mut first = with_room(alloc, entries)?;
        let mut next = vec![in alloc; end; count]?;
        let mut place = count;
        let mut list = count;
        'entries: while place > 0 {
            place -= 1;
            list = number_in(lists, entries, place, list);
            let spot = Spot {
                list,
                class: class_of(&entries[place]),
            };
            next[place] = begin_at(&mut first, spot, narrow(place), end)?;
        }
        Ok(Index { first, next })
    }

    /// The place of the first entry of a spot, or so many. Takes no memory.
    pub(crate) fn first(&self, spot: Spot, count: usize) -> usize
        ensures { (entries : List FilterEntry) → IsIndexed entries self.now → count ≡ length entries
            → result ≡ ahead spot 0 (spots_of entries) }
    {
        match self.first.get(&spot) {
            Some(place) => *place as usize,
            None => count,
        }
    }

    /// The place of the next entry that has the spot of the one at a place, or so many. Takes no memory.
    pub(crate) fn behind(&self, place: usize, count: usize) -> usize
        ensures { (entries : List FilterEntry) (s : Spot) → IsIndexed entries self.now
            → slice_get (spots_of entries) place ≡ Some s → result ≡ ahead s (place + 1) (spots_of entries) }
    {
        match self.next.get(place) {
            Some(next) => *next as usize,
            None => count,
        }
    }
}
