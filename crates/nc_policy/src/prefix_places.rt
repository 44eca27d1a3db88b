//! The first places of prefixes, in a sorted table. It is asked by a binary search, or by the number of
//! a prefix: where that is the prefix's place in the table nothing is searched.

ghost use Rattle.std.specs.Prelude.{◌≡◌, true, false, IfOk, IfSome, Some};
ghost use Rattle.std.specs.List.Sorted.{IsPartitionPoint, IsSortedByKey};
ghost use Rattle.std.specs.Ordering.{is_lt};
ghost use Rattle.nc_types.specs.Cidr.{Cidr};
ghost use Rattle.nc_tables.specs.Base.{prefix_cmp};
ghost use Rattle.nc_policy.specs.Placing.{prefix_place_at};
ghost use Rattle.nc_policy.specs.declared.prefix_places.PlacedPrefix.{PlacedPrefix};

use nc_tables::Numbered;
use nc_types::Prefix;
use std::alloc::AllocError;
use std::marker::Model;

/// The place of what has a prefix.
#[derive(Clone, Copy)]
pub(crate) struct PlacedPrefix {
    pub(crate) prefix: Prefix,
    pub(crate) place: usize,
}

/// The first place of each prefix, in order of the prefixes.
#[derive(Drop)]
pub(crate) struct PrefixPlaces {
    items: Vec<PlacedPrefix>,
}

impl Model for PrefixPlaces {
    ghost use Rattle.std.specs.Prelude.{List};
    ghost use Rattle.std.specs.List.Sorted.{IsSortedByKey};
    ghost use Rattle.nc_tables.specs.Base.{prefix_cmp};
    ghost use Rattle.nc_policy.specs.declared.prefix_places.PlacedPrefix.{PlacedPrefix};

    ghost Value = { List PlacedPrefix };

    ghost view = { λ t. t.items.items };

    ghost invariant = { λ t. IsSortedByKey (λ x. x.prefix) prefix_cmp t.items.items };
}

// The place of the first item whose prefix isn't before this one; behind the last if there is none.
fn place_from(items: &[PlacedPrefix], prefix: Prefix) -> usize
    requires { IsSortedByKey (λ x. x.prefix) prefix_cmp items.now }
    ensures { IsPartitionPoint (λ x. is_lt (prefix_cmp x.prefix prefix) ≡ true)
        (λ x. is_lt (prefix_cmp x.prefix prefix) ≡ false) items.now result }
{
    items.partition_point(|placed| placed.prefix < prefix)
}

// The place that the item of a prefix's number has, if this is the first item of the prefix.
fn place_by_number(items: &[PlacedPrefix], of: Numbered) -> Option<usize>
    requires { IsSortedByKey (λ x. x.prefix) prefix_cmp items.now }
    ensures { IfSome result (λ place. Some place ≡ prefix_place_at of.prefix items.now) }
{
    let placed = items.get(of.number)?;
    let is_first = of.number == 0 || items[of.number - 1].prefix < of.prefix;
    if is_first && placed.prefix == of.prefix {
        Some(placed.place)
    } else {
        None
    }
}

impl PrefixPlaces {
    /// The table of these places, of which only the first of each prefix is kept. It takes no more
    /// memory than they need.
    pub(crate) fn of(mut items: Vec<PlacedPrefix>) -> Result<PrefixPlaces, AllocError>
        ensures { IfOk result (λ table. (p : Cidr)
            → prefix_place_at p table ≡ prefix_place_at p items.items) }
    {
        items.sort_by_key(|placed| placed.prefix)?;
        items.dedup_by_key(|placed| placed.prefix);
        items.shrink_to_fit();
        Ok(PrefixPlaces { items })
    }

    /// The first place of a prefix. Takes no memory.
    pub(crate) fn get(&self, prefix: Prefix) -> Option<usize>
        ensures { result ≡ prefix_place_at prefix self.now }
    {
        let at = place_from(&self.items, prefix);
        if at >= self.items.len() {
            return None;
        }
        let placed = &self.items[at];
        if placed.prefix == prefix {
            Some(placed.place)
        } else {
            None
        }
    }

    /// The same of a prefix with a number. Where the number is its place in the table nothing is
    /// searched; any other number does too.
    pub(crate) fn get_near(&self, of: Numbered) -> Option<usize>
        ensures { result ≡ prefix_place_at of.prefix self.now }
    {
        let prefix = of.prefix;
        let found = place_by_number(&self.items, of);
        if found.is_some() {
            return found;
        }
        self.get(prefix)
    }
}
