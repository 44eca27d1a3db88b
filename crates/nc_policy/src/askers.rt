//! Which clauses of a map ask for communities, by one of those of which a route has to have one to
//! meet them.

ghost use Rattle.std.specs.Prelude.{◌≡◌, ◌<◌, ◌≤◌, ℕ, List, All, true, false, nat_eq, nat_lt, length, slice_get, slice_index_or, IfOk, Some};
ghost use Rattle.std.specs.List.Sorted.{IsNonDecreasingBy};
ghost use Rattle.nc_types.specs.Communities.{has};
ghost use Rattle.nc_policy.specs.Kept.{is_asked_by};
ghost use Rattle.nc_policy.specs.declared.askers.Asker.{Asker};

use std::alloc::AllocError;
use std::marker::Model;

/// A clause, by its place, that a route meets only with one of some communities, and one of them.
#[derive(Clone, Copy)]
pub(crate) struct Asker {
    pub(crate) community: u32,
    pub(crate) place: usize,
}

/// Such clauses, in order of their communities.
#[derive(Drop)]
pub(crate) struct Askers {
    items: Vec<Asker>,
}

impl Model for Askers {
    ghost use Rattle.std.specs.Prelude.{List};
    ghost use Rattle.std.specs.List.Sorted.{IsNonDecreasingBy};
    ghost use Rattle.nc_policy.specs.declared.askers.Asker.{Asker};

    ghost Value = { List Asker };

    ghost view = { λ n. n.items.items };

    ghost invariant = { λ n. IsNonDecreasingBy (λ a. a.community) n.items.items };
}

// The place of the first of some that isn't of a community below a number; behind the last if there is
// none.
fn place_from(items: &[Asker], number: u64) -> usize
    requires { IsNonDecreasingBy (λ a. a.community) items.now }
    ensures before { (k : ℕ) (a : Asker) → slice_get items.now k ≡ Some a → k < result
        → nat_lt a.community number ≡ true }
    ensures behind { (k : ℕ) (a : Asker) → slice_get items.now k ≡ Some a → result ≤ k
        → nat_lt a.community number ≡ false }
    ensures bound { result ≤ length items.now }
{
    items.partition_point(|asker| u64::from(asker.community) < number)
}

// Whether a community is below those of all or above all.
fn is_beyond(items: &[Asker], community: u32) -> bool
    requires { IsNonDecreasingBy (λ a. a.community) items.now }
    ensures { result ≡ true → (k : ℕ) (a : Asker) → slice_get items.now k ≡ Some a
        → nat_eq a.community community ≡ false }
{
    let count = items.len();
    if count == 0 {
        return true;
    }
    let first = items[0].community;
    let last = items[count - 1].community;
    community < first || last < community
}

impl Askers {
    /// These clauses.
    pub(crate) fn of(mut items: Vec<Asker>) -> Result<Askers, AllocError>
        ensures asked { IfOk result (λ askers. (place : ℕ) (held : List ℕ)
            → is_asked_by askers place held ≡ is_asked_by items.items place held) }
        ensures own { IfOk result (λ askers. (names : List (List ℕ)) (name : List ℕ)
            → All (λ a. slice_get names a.place ≡ Some name) items.items
            → All (λ a. slice_get names a.place ≡ Some name) askers) }
    {
        items.sort_by_key(|asker| asker.community)?;
        items.shrink_to_fit();
        Ok(Askers { items })
    }

    /// Between which places those of a community stand.
    pub(crate) fn range(&self, community: u32) -> (usize, usize)
        ensures low { (k : ℕ) (a : Asker) → slice_get self.now k ≡ Some a
            → nat_eq a.community community ≡ true → result.0 ≤ k }
        ensures high { (k : ℕ) (a : Asker) → slice_get self.now k ≡ Some a
            → nat_eq a.community community ≡ true → k < result.1 }
        ensures bound { result.1 ≤ length self.now }
    {
        if is_beyond(&self.items, community) {
            return (0, 0);
        }
        let number = u64::from(community);
        let from = place_from(&self.items, number);
        let end = place_from(&self.items, number + 1);
        (from, end)
    }

    /// Whether all of some communities are below those of the table or above them, as mostly they are:
    /// it has none of them.
    pub(crate) fn are_beyond(&self, communities: &[u32]) -> bool
        ensures { result ≡ true → (k : ℕ) (a : Asker) → slice_get self.now k ≡ Some a
            → has a.community communities.now ≡ false }
    {
        'communities: for community in communities {
            if !is_beyond(&self.items, *community) {
                return false;
            }
        }
        true
    }

    /// The clause at a place of the table, by its own place.
    pub(crate) fn clause(&self, at: usize) -> usize
        requires { at < length self.now }
        ensures { (d : Asker) → result ≡ (slice_index_or self.now at d).place }
    {
        self.items[at].place
    }
}
