//! What a prefix list says of a prefix, by a table: the first entry of each prefix and length. It
//! is asked at the prefixes around an address whose lengths entries have, and the lowest place of
//! an entry that it has there is that of the entry which decides.

ghost use Rattle.std.specs.Prelude.{◌≡◌, ◌<◌, ◌≤◌, ◌==◌, ◌&&◌, ◌^◌, ℕ, All, List, Some, length};
ghost use Rattle.std.specs.Prelude.{if◌then◌else◌, position, IfOk, None, OnOk};
ghost use Rattle.std.specs.Option.{option_or};
ghost use Rattle.nc_types.specs.Cidr.{Cidr, IsCidr};
ghost use Rattle.nc_types.specs.Masks.{network_of};
ghost use Rattle.nc_types.specs.declared.config.ListEntry.{ListEntry};
ghost use Rattle.nc_tables.specs.Policy.{deciding_entry, is_of};
ghost use Rattle.nc_policy.specs.Indexes.{is_at, lower_of, HasCidr, HasLength};
ghost use Rattle.nc_policy.specs.Seen.{spot_at, spot_in, IsIndexOf};

use crate::spot_table::{Placed, Spot, SpotTable};
use nc_types::{ListEntry, Prefix};
use std::alloc::{AllocError, Global};

/// A table of the entries of a prefix list.
#[derive(Drop)]
pub(crate) struct ListIndex {
    /// The place of the first entry that has a prefix and is of a length.
    pub(crate) first: SpotTable,
    /// Whether a prefix of an entry has a length, 0 to 32.
    pub(crate) lengths: [bool; 33],
}

// The lower of two places, each of which may be missing.
fn lower_of(one: Option<usize>, other: Option<usize>) -> Option<usize>
    ensures { result ≡ lower_of one other }
{
    match (one, other) {
        (None, other) => other,
        (one, None) => one,
        (Some(one), Some(other)) => Some(if other < one { other } else { one }),
    }
}

// The key of a prefix of entries and a length.
fn spot_of(prefix: Prefix, len: u8) -> Spot
    ensures spot { result ≡ spot_at prefix len }
    ensures valid { IsCidr prefix.base prefix.len }
{
    Spot {
        addr: prefix.addr(),
        prefix_len: prefix.len(),
        len,
    }
}

// Adds the place of an entry by its prefix and a length, if the entry is of that length.
fn put_at(items: &mut Vec<Placed>, entry: &ListEntry, place: u32, len: u8) -> Result<(), AllocError>
    ensures { OnOk result ((q : Cidr) (n : ℕ) → spot_in items.new.items q n
        ≡ option_or (spot_in items.old.items q n)
        (if (n == len) && is_at q n entry.now then Some place else None)) }
{
    if entry.low <= len && len <= entry.high {
        let spot = spot_of(entry.prefix, len);
        items.push(Placed { spot, place })?;
    }
    Ok(())
}

// The length behind the last one that an entry is of, among those of prefixes.
fn length_behind(entry: &ListEntry) -> u8
    ensures { (n : ℕ) → n < 33 → n ≤ entry.now.high → n < result }
{
    if entry.high < 32 { entry.high + 1 } else { 33 }
}

// Adds the place of an entry by its prefix and each of its lengths.
fn put(items: &mut Vec<Placed>, entry: &ListEntry, place: u32) -> Result<(), AllocError>
    ensures { OnOk result ((q : Cidr) (n : ℕ) → n < 33 → spot_in items.new.items q n
        ≡ option_or (spot_in items.old.items q n)
        (if is_at q n entry.now then Some place else None)) }
{
    'lengths: for len in entry.low..length_behind(entry) {
        put_at(items, entry, place, len)?;
    }
    Ok(())
}

// The places of entries by their prefix and each of their lengths, from the first entry on.
fn places_of(alloc: Global, entries: &[ListEntry]) -> Result<Vec<Placed>, AllocError>
    requires { length entries.now < 2 ^ 32 }
    ensures { IfOk result (λ items. (q : Cidr) (n : ℕ) → n < 33
        → spot_in items.items q n ≡ position (is_at q n) entries.now) }
{
    let mut items = Vec::with_capacity(alloc, entries.len())?;
    'entries: for (place, entry) in entries.iter().enumerate() {
        put(&mut items, entry, place as u32)?;
    }
    Ok(items)
}

// Which lengths the prefixes of entries have.
fn lengths_of(entries: &[ListEntry]) -> [bool; 33]
    ensures lengths { All (λ (e : ListEntry). HasLength result e.prefix.len) entries.now }
    ensures valid { All HasCidr entries.now }
{
    let mut lengths = [false; 33];
    'entries: for entry in entries {
        lengths[entry.prefix.len() as usize] = true;
    }
    lengths
}

impl ListIndex {
    /// The table of these entries. It takes no more memory than it needs.
    pub(crate) fn new(alloc: Global, entries: &[ListEntry]) -> Result<ListIndex, AllocError>
        requires { length entries.now < 2 ^ 32 }
        ensures { IfOk result (IsIndexOf entries.now) }
    {
        let lengths = lengths_of(entries);
        let items = places_of(alloc, entries)?;
        let first = SpotTable::of(items)?;
        Ok(ListIndex { first, lengths })
    }

    // The first entry whose prefix has a length and is around that of a route, and which is of the
    // route's length. Where no entry's prefix has the length, the table isn't asked.
    fn entry_around(&self, prefix: Prefix, len: u8) -> Option<usize>
        requires { len ≤ 32 }
        ensures entry { (entries : List ListEntry) → IsIndexOf entries self.now → result
            ≡ position (is_at (record { base = network_of prefix.base len; len = len }) prefix.len)
            entries }
    {
        if !self.lengths[len as usize] {
            return None;
        }
        let around = Prefix::around(prefix.addr(), len);
        self.first.get(spot_of(around, prefix.len()))
    }

    /// The place of the entry that decides on a prefix. Takes no memory.
    pub(crate) fn deciding(&self, prefix: Prefix) -> Option<usize>
        ensures { (entries : List ListEntry) → IsIndexOf entries self.now
            → result ≡ deciding_entry (is_of prefix) entries }
    {
        let mut best = None;
        'lengths: for len in 0..33 {
            best = lower_of(best, self.entry_around(prefix, len));
        }
        best
    }
}
