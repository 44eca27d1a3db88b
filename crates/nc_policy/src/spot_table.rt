//! The first entries of a prefix list by their prefix and a length, in a sorted table: it takes no
//! more memory than the places themselves, and is asked by a binary search.

ghost use Rattle.std.specs.Prelude.{◌≡◌, true, false, IfOk};
ghost use Rattle.std.specs.List.Sorted.{IsPartitionPoint, IsSortedByKey};
ghost use Rattle.std.specs.Ordering.{is_lt};
ghost use Rattle.nc_policy.specs.Placing.{place_at, spot_cmp};
ghost use Rattle.nc_policy.specs.declared.spot_table.Spot.{Spot};

use nc_types::Addr;
use std::alloc::AllocError;
use std::marker::Model;

/// The prefix of entries, and the length of a route's prefix.
#[derive(Clone, Copy, PartialEq, Eq, PartialOrd, Ord, Hash)]
pub(crate) struct Spot {
    pub(crate) addr: Addr,
    pub(crate) prefix_len: u8,
    pub(crate) len: u8,
}

/// The place of an entry that has a prefix and is of a length.
#[derive(Clone, Copy, PartialEq, Eq, PartialOrd, Ord, Hash)]
pub(crate) struct Placed {
    pub(crate) spot: Spot,
    pub(crate) place: u32,
}

/// The first place of each spot, in order of the spots.
#[derive(Drop)]
pub(crate) struct SpotTable {
    items: Vec<Placed>,
}

impl Model for SpotTable {
    ghost use Rattle.std.specs.Prelude.{List};
    ghost use Rattle.std.specs.List.Sorted.{IsSortedByKey};
    ghost use Rattle.nc_policy.specs.Placing.{spot_cmp};
    ghost use Rattle.nc_policy.specs.declared.spot_table.Placed.{Placed};

    ghost Value = { List Placed };

    ghost view = { λ t. t.items.items };

    ghost invariant = { λ t. IsSortedByKey (λ x. x.spot) spot_cmp t.items.items };
}

// The place of the first item whose spot isn't before this one; behind the last if there is none.
fn place_from(items: &[Placed], spot: Spot) -> usize
    requires { IsSortedByKey (λ x. x.spot) spot_cmp items.now }
    ensures { IsPartitionPoint (λ x. is_lt (spot_cmp x.spot spot) ≡ true)
        (λ x. is_lt (spot_cmp x.spot spot) ≡ false) items.now result }
{
    items.partition_point(|placed| placed.spot < spot)
}

impl SpotTable {
    /// The table of these places, of which only the first of each spot is kept. It takes no more
    /// memory than they need.
    pub(crate) fn of(mut items: Vec<Placed>) -> Result<SpotTable, AllocError>
        ensures { IfOk result (λ table. (s : Spot) → place_at s table ≡ place_at s items.items) }
    {
        items.sort_by_key(|placed| placed.spot)?;
        items.dedup_by_key(|placed| placed.spot);
        items.shrink_to_fit();
        Ok(SpotTable { items })
    }

    /// The first place of a spot. Takes no memory.
    pub(crate) fn get(&self, spot: Spot) -> Option<usize>
        ensures { result ≡ place_at spot self.now }
    {
        let at = place_from(&self.items, spot);
        if at >= self.items.len() {
            return None;
        }
        let placed = &self.items[at];
        if placed.spot == spot {
            Some(placed.place as usize)
        } else {
            None
        }
    }
}
