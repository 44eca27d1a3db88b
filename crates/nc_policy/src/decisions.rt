//! What a map decides on each of some prefixes, each decision once where prefixes that follow one
//! another share it: 4 bytes for a prefix, and no more decisions than the map's clauses and lists make.

ghost use Rattle.std.specs.Prelude.{◌≡◌, ◌<◌, ◌≤◌, ◌+◌, ◌-◌, ◌^◌, ℕ, true, length, slice_get, IfOk, IfSome, OnOk, Some};
ghost use Rattle.nc_policy.specs.Decisions.{decided_by, decision_or, AreDecisionsOf};

use crate::clauses::Candidate;
use crate::kept::Decided;
use nc_tables::{Names, Place};
use std::alloc::{AllocError, Global};

/// The decisions of a map on prefixes.
#[derive(Drop)]
pub(crate) struct Decisions {
    /// Of each prefix the place of its decision.
    pub(crate) places: Vec<u32>,
    /// The decisions: the clause that decides, or none.
    pub(crate) each: Vec<Option<Decided>>,
}

/// What is to be kept of a clause that decides.
pub(crate) fn decided_of(candidate: Option<Candidate<'_>>) -> Option<Decided>
    ensures { result ≡ decided_by candidate.entry }
{
    let candidate = candidate?;
    Some(Decided {
        place: candidate.place,
        names: candidate.names,
    })
}

// Whether two entries are one.
fn is_same_place(one: Option<Place>, other: Option<Place>) -> bool
    ensures { result ≡ true → one ≡ other }
{
    match (one, other) {
        (None, None) => true,
        (Some(one), Some(other)) => one.list == other.list && one.entry == other.entry,
        _ => false,
    }
}

// Whether two clauses match by the same entries.
fn are_same_names(one: Names, other: Names) -> bool
    ensures { result ≡ true → one ≡ other }
{
    is_same_place(one.entry, other.entry) && is_same_place(one.community, other.community)
}

// Whether two decisions are one.
fn is_same(one: Option<Decided>, other: Option<Decided>) -> bool
    ensures { result ≡ true → one ≡ other }
{
    match (one, other) {
        (None, None) => true,
        (Some(one), Some(other)) => {
            one.place == other.place && are_same_names(one.names, other.names)
        }
        _ => false,
    }
}

// Whether the last one of some decisions is this one.
fn is_last(each: &[Option<Decided>], decided: Option<Decided>) -> bool
    ensures some { result ≡ true → 0 < length each.now }
    ensures last { result ≡ true → slice_get each.now (length each.now - 1) ≡ Some decided }
{
    match each.last() {
        Some(last) => is_same(*last, decided),
        None => false,
    }
}

// The place of a decision, which is added where the last one is another.
fn place_of(each: &mut Vec<Option<Decided>>, decided: Option<Decided>) -> Result<u32, AllocError>
    requires { length each.old.items < 2 ^ 32 }
    ensures own { IfOk result (λ place. slice_get each.new.items place ≡ Some decided) }
    ensures kept { OnOk result ((k : ℕ) → k < length each.old.items
        → slice_get each.new.items k ≡ slice_get each.old.items k) }
    ensures more { OnOk result (length each.new.items ≤ length each.old.items + 1) }
    ensures count { OnOk result (length each.old.items ≤ length each.new.items) }
{
    let count = each.len();
    if is_last(each, decided) {
        return Ok((count - 1) as u32);
    }
    each.push(decided)?;
    Ok(count as u32)
}

impl Decisions {
    /// The decisions of these clauses, of each prefix one.
    pub(crate) fn of(alloc: Global, best: &[Option<Candidate<'_>>]) -> Result<Decisions, AllocError>
        requires { length best.now < 2 ^ 32 }
        ensures { IfOk result (AreDecisionsOf best.now) }
    {
        let mut places = Vec::with_capacity(alloc, best.len())?;
        let mut each = Vec::new(alloc);
        'prefixes: for found in best {
            let place = place_of(&mut each, decided_of(*found))?;
            places.push(place)?;
        }
        each.shrink_to_fit();
        Ok(Decisions { places, each })
    }

    /// For how many prefixes there are decisions.
    pub(crate) fn len(&self) -> usize {
        self.places.len()
    }

    /// The decision on the prefix of a number. Takes no memory.
    pub(crate) fn get(&self, number: usize) -> Option<Option<Decided>>
        ensures { IfSome result (λ d. decision_or self.now number ≡ d) }
    {
        let place = *self.places.get(number)?;
        let decided = *self.each.get(place as usize)?;
        Some(decided)
    }
}
