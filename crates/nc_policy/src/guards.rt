//! Without which communities a route is matched by no clause that asks for communities.

ghost use Rattle.std.specs.Prelude.{◌≡◌, ℕ, List, All, true, false, map, IfOk, IfSome, None, OnOk, Some, slice_get};
ghost use Rattle.std.specs.List.{list_any};
ghost use Rattle.nc_types.specs.Communities.{has};
ghost use Rattle.nc_types.specs.Config.{ClauseView, CommunityListView, ConfigView, community_list_view, config_view};
ghost use Rattle.nc_tables.specs.Policy.{community_place, first_place, is_held, met, permitting_community};
ghost use Rattle.nc_policy.specs.Guards.{is_unheld, AreGuards};
ghost use Rattle.nc_policy.specs.Kept.{is_asked_by};
ghost use Rattle.nc_policy.specs.Seen.{IsNameIndex};

use crate::askers::Asker;
use crate::names::NameIndex;
use nc_community::Held;
use nc_types::{CommunityEntry, Reference, RouterConfig};
use std::alloc::{AllocError, Global};

// How many numbers a guard has at most.
const GUARD_LIMIT: usize = 64;

/// Numbers of which a route has to have one to be matched; where the guard isn't sound, they say
/// nothing.
#[derive(Drop)]
pub(crate) struct Guard {
    pub(crate) numbers: Vec<u32>,
    pub(crate) sound: bool,
}

// Whether one of some communities is among numbers.
fn has_one(numbers: &[u32], communities: &[u32]) -> bool
    ensures { result ≡ list_any (λ n. has n numbers.now) communities.now }
{
    communities
        .iter()
        .any(|community| numbers.contains(community))
}

impl Guard {
    /// Whether these communities have none of the numbers, as far as they say something.
    pub(crate) fn is_unheld(&self, held: &Held) -> bool
        ensures { result ≡ true → is_unheld self.now held.now ≡ true }
    {
        if !self.sound {
            return false;
        }
        let numbers: &[u32] = &self.numbers;
        let (first, added) = held.parts();
        !has_one(numbers, first) && !has_one(numbers, added)
    }

    /// Adds the clause at a place by each of its numbers, where it is sound, and tells whether it is.
    pub(crate) fn add_to(&self, askers: &mut Vec<Asker>, place: usize) -> Result<bool, AllocError>
        ensures kept { OnOk result ((j : ℕ) (held : List ℕ) → is_asked_by askers.new.items j held ≡ false
            → is_asked_by askers.old.items j held ≡ false) }
        ensures own { OnOk result ((names : List (List ℕ)) (name : List ℕ) → slice_get names place ≡ Some name
            → All (λ a. slice_get names a.place ≡ Some name) askers.old.items
            → All (λ a. slice_get names a.place ≡ Some name) askers.new.items) }
        ensures added { IfOk result (λ sound. sound ≡ true → (held : List ℕ)
            → is_asked_by askers.new.items place held ≡ false → is_unheld self.now held ≡ true) }
    {
        if !self.sound {
            return Ok(false);
        }
        'numbers: for number in &self.numbers {
            askers.push(Asker {
                community: *number,
                place,
            })?;
        }
        Ok(true)
    }

    // Adds the first member of an entry that permits, without which no route has all of them.
    fn add_entry(&mut self, entry: &CommunityEntry) -> Result<(), AllocError>
        ensures kept { OnOk result ((held : List ℕ) → is_unheld self.new held ≡ true
            → is_unheld self.old held ≡ true) }
        ensures entry { OnOk result (entry.now.permit ≡ true → (held : List ℕ)
            → is_unheld self.new held ≡ true → is_held held entry.now ≡ false) }
    {
        if !entry.permit {
            return Ok(());
        }
        match entry.members.numbers().first() {
            Some(number) if self.numbers.len() < GUARD_LIMIT => self.numbers.push(*number)?,
            _ => self.sound = false,
        }
        Ok(())
    }

    // Adds the entries of a community list.
    fn add_list(&mut self, entries: &[CommunityEntry]) -> Result<(), AllocError>
        ensures kept { OnOk result ((held : List ℕ) → is_unheld self.new held ≡ true
            → is_unheld self.old held ≡ true) }
        ensures list { OnOk result ((held : List ℕ) → is_unheld self.new held ≡ true
            → permitting_community held entries.now ≡ None) }
    {
        'entries: for entry in entries {
            self.add_entry(entry)?;
        }
        Ok(())
    }

    // Adds the list that a reference names.
    fn add_reference(
        &mut self,
        config: &RouterConfig,
        names: &NameIndex,
        reference: &Reference,
    ) -> Result<(), AllocError>
        requires { IsNameIndex (map (λ l. l.name) (config_view config.now).community_lists) names.now }
        ensures kept { OnOk result ((held : List ℕ) → is_unheld self.new held ≡ true
            → is_unheld self.old held ≡ true) }
        ensures reference { OnOk result ((held : List ℕ) → is_unheld self.new held ≡ true
            → community_place (config_view config.now) held reference.now ≡ None) }
    {
        match names.place(reference.name.bytes()) {
            None => Ok(()),
            Some(place) => {
                self.add_at(config, place)?;
                Ok(())
            }
        }
    }

    // Adds the list at a place.
    fn add_at(&mut self, config: &RouterConfig, place: usize) -> Result<(), AllocError>
        ensures kept { OnOk result ((held : List ℕ) → is_unheld self.new held ≡ true
            → is_unheld self.old held ≡ true) }
        ensures list { OnOk result ((held : List ℕ) → is_unheld self.new held ≡ true
            → (l : CommunityListView) → slice_get (config_view config.now).community_lists place ≡ Some l
            → permitting_community held l.entries ≡ None) }
    {
        match config.community_lists.get(place) {
            Some(list) => self.add_list(&list.entries)?,
            None => self.sound = false,
        }
        Ok(())
    }

    // The guard of a clause by the community lists that it names; none where it names no list.
    fn of(
        alloc: Global,
        config: &RouterConfig,
        names: &NameIndex,
        references: &[Reference],
    ) -> Result<Guard, AllocError>
        requires { IsNameIndex (map (λ l. l.name) (config_view config.now).community_lists) names.now }
        ensures { IfOk result (λ guard. (held : List ℕ) → is_unheld guard held ≡ true
            → met (community_place (config_view config.now) held) references.now ≡ None) }
    {
        let mut guard = Guard {
            numbers: Vec::new(alloc),
            sound: !references.is_empty(),
        };
        'references: for reference in references {
            guard.add_reference(config, names, reference)?;
        }
        Ok(guard)
    }
}

/// The guards of a router's clauses, in their order.
pub(crate) fn clause_guards(
    alloc: Global,
    config: &RouterConfig,
    names: &NameIndex,
) -> Result<Vec<Guard>, AllocError>
    requires { IsNameIndex (map (λ l. l.name) (config_view config.now).community_lists) names.now }
    ensures { IfOk result (λ guards. AreGuards (config_view config.now) guards.items) }
{
    let mut guards = Vec::with_capacity(alloc, config.clauses.len())?;
    'clauses: for clause in &config.clauses {
        guards.push(Guard::of(alloc, config, names, &clause.community_lists)?)?;
    }
    Ok(guards)
}
