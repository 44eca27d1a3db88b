//! The communities of a route on its way, told without a set of them.

ghost use Rattle.std.specs.Prelude.{◌≡◌, ◌≤◌, ℕ, ◌||◌, [], is_some, length, IfOk};
ghost use Rattle.std.specs.List.Sorted.{IsStrictlyIncreasing};
ghost use Rattle.nc_types.specs.Communities as sets;
ghost use Rattle.nc_types.specs.Communities.{put_all, union, limited, IsSmallSet};
ghost use Rattle.nc_types.specs.Setting.{set_all};
ghost use Rattle.nc_types.specs.declared.TheConstants.{COMMUNITY_LIMIT};

use crate::set::united;
use nc_types::{COMMUNITY_LIMIT, Communities, SetCommunity};
use std::alloc::{AllocError, Global};
use std::marker::Model;

/// The communities of a route: some, and others that join them; together they ascend and are at
/// most [`nc_types::COMMUNITY_LIMIT`]. They are told where they stand, without a set of them.
#[derive(Drop)]
pub struct Held<'a> {
    numbers: &'a [u32],
    added: &'a [u32],
}

impl<'a> Model for Held<'a> {
    ghost use Rattle.std.specs.Prelude.{List, ℕ};
    ghost use Rattle.nc_types.specs.Communities.{put_all};
    ghost use Rattle.nc_community.specs.Held.{AreHeld};

    ghost Value = { List ℕ };

    ghost view = { λ h. put_all h.numbers.now h.added.now };

    ghost invariant = { λ h. AreHeld h.numbers.now h.added.now };
}

// Whether a number is among others.
fn is_among(number: u32, numbers: &[u32]) -> bool
    ensures { result ≡ sets.has number numbers.now }
{
    numbers.contains(&number)
}

// The union of two sets in memory, where it isn't too large.
fn joined(alloc: Global, a: &[u32], b: &[u32]) -> Result<Communities, AllocError>
    requires a { IsStrictlyIncreasing a.now }
    requires b { IsStrictlyIncreasing b.now }
    requires few { length (put_all a.now b.now) ≤ COMMUNITY_LIMIT }
    ensures { IfOk result (λ both. both ≡ put_all a.now b.now) }
{
    if b.is_empty() {
        let numbers = Vec::from_slice(alloc, a)?;
        let all = Communities::of(alloc, numbers)?;
        return Ok(all);
    }
    match united(a, b) {
        Some(both) => Ok(both.communities(alloc)?),
        None => unreachable!(),
    }
}

// Whether three sets together have no more members than a route carries. Where the numbers of all
// three are no more, none of them is looked at.
fn fit(a: &[u32], b: &[u32], more: &[u32]) -> bool
    requires a { IsStrictlyIncreasing a.now }
    requires b { IsStrictlyIncreasing b.now }
    requires more { IsStrictlyIncreasing more.now }
    ensures { result ≡ is_some (limited (put_all (put_all a.now b.now) more.now)) }
{
    if a.len() + b.len() + more.len() <= COMMUNITY_LIMIT {
        return true;
    }
    let Some(both) = united(a, b) else {
        return false;
    };
    united(both.numbers(), more).is_some()
}

impl<'a> Held<'a> {
    /// No communities.
    pub fn none() -> Held<'a>
        ensures { result ≡ [] }
    {
        Held {
            numbers: &[],
            added: &[],
        }
    }

    /// These communities.
    pub fn of(communities: &'a Communities) -> Held<'a>
        ensures held { result ≡ communities.now }
        ensures few { length result ≤ COMMUNITY_LIMIT }
    {
        Held {
            numbers: communities.numbers(),
            added: &[],
        }
    }

    /// What `set community`, where a clause has one, leaves of communities: its values in their
    /// place, or with `additive` joined to them. These are no more than
    /// [`nc_types::COMMUNITY_LIMIT`].
    pub fn set_over(communities: &'a Communities, set: &'a Option<SetCommunity>) -> Held<'a>
        requires { length (set_all set.now communities.now) ≤ COMMUNITY_LIMIT }
        ensures { result ≡ set_all set.now communities.now }
    {
        let Some(set) = set else {
            return Held::of(communities);
        };
        if set.additive {
            return Held {
                numbers: communities.numbers(),
                added: set.values.numbers(),
            };
        }
        Held::of(&set.values)
    }

    /// The numbers of all of them, in two lists that each ascend: a community that is in both is one.
    pub fn parts(&self) -> (&'a [u32], &'a [u32])
        ensures { (n : ℕ) → sets.has n self.now
            ≡ (sets.has n result.0.now || sets.has n result.1.now) }
    {
        (self.numbers, self.added)
    }

    /// Whether a community is among them.
    pub fn has(&self, community: u32) -> bool
        ensures { result ≡ sets.has community self.now }
    {
        is_among(community, self.numbers) || is_among(community, self.added)
    }

    /// Whether what `set community`, where a clause has one, leaves of them is no more than
    /// [`nc_types::COMMUNITY_LIMIT`].
    pub fn fits(&self, set: &Option<SetCommunity>) -> bool
        ensures { result ≡ is_some (limited (set_all set.now self.now)) }
    {
        let numbers = self.numbers;
        match set {
            None => true,
            Some(set) => {
                let values = set.values.numbers();
                !set.additive || fit(numbers, self.added, values)
            }
        }
    }

    /// All of them in memory.
    ///
    /// # Errors
    ///
    /// Memory that runs out.
    pub fn communities(&self, alloc: Global) -> Result<Communities, AllocError>
        ensures { IfOk result (λ communities. communities ≡ self.now) }
    {
        joined(alloc, self.numbers, self.added)
    }

    // All of them in memory, with a set of others.
    fn joined(&self, alloc: Global, more: &[u32]) -> Result<Communities, AllocError>
        requires more { IsStrictlyIncreasing more.now }
        requires few { length (put_all self.now more.now) ≤ COMMUNITY_LIMIT }
        ensures { IfOk result (λ all. all ≡ put_all self.now more.now) }
    {
        if self.added.is_empty() {
            return joined(alloc, self.numbers, more);
        }
        match united(self.numbers, self.added) {
            Some(both) => joined(alloc, both.numbers(), more),
            None => unreachable!(),
        }
    }

    /// What `set community`, where a clause has one, leaves of them, in memory. These are no more
    /// than [`nc_types::COMMUNITY_LIMIT`].
    ///
    /// # Errors
    ///
    /// Memory that runs out.
    pub fn left(&self, alloc: Global, set: &Option<SetCommunity>) -> Result<Communities, AllocError>
        requires { length (set_all set.now self.now) ≤ COMMUNITY_LIMIT }
        ensures { IfOk result (λ left. left ≡ set_all set.now self.now) }
    {
        match set {
            None => self.communities(alloc),
            Some(set) if set.additive => self.joined(alloc, set.values.numbers()),
            Some(set) => Held::of(&set.values).communities(alloc),
        }
    }
}
