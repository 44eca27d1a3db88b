//! What is chosen of one prefix.

ghost use Rattle.std.specs.Prelude.{◌≡◌, ◌==◌, ◌∷◌, [], IfOk, length, if◌then◌else◌};
ghost use Rattle.nc_tables.specs.declared.TheConstants.{EXTERNAL_DISTANCE, INTERNAL_DISTANCE};
ghost use Rattle.nc_tables.specs.Distances.{learnt_distance};

use crate::bgp::BgpFrom;
use crate::rib_entry::RibEntry;
use crate::{EXTERNAL_DISTANCE, INTERNAL_DISTANCE};
use std::alloc::{AllocError, Global};
use std::marker::Model;

// No entry, one, or several. With one alone stands its distance, which is asked of each prefix of a
// router at a time when the entry's block mostly isn't near any more.
#[derive(Drop)]
enum Held {
    Nothing,
    Alone(Option<u8>, RibEntry),
    Several(Box<Vec<RibEntry>>),
}

// The distance of what is learnt within the own system, or from another.
fn distance_of(internal: bool) -> u8
    ensures { result ≡ (if internal then INTERNAL_DISTANCE else EXTERNAL_DISTANCE) }
{
    if internal {
        INTERNAL_DISTANCE
    } else {
        EXTERNAL_DISTANCE
    }
}

// The distance of an entry that was learnt; `None` where the router began it itself.
fn distance_with(entry: &RibEntry) -> Option<u8>
    ensures { result ≡ learnt_distance (entry.now ∷ []) }
{
    match entry.from() {
        BgpFrom::Entry(_) => Some(distance_of(entry.is_internal())),
        BgpFrom::Origin(_) | BgpFrom::Aggregate(_) => None,
    }
}

/// The candidates for a prefix that were chosen, best first. One that is alone takes no memory beside its
/// own, and none takes none.
#[derive(Drop)]
pub struct RibEntries {
    held: Held,
}

impl Model for RibEntries {
    ghost use Rattle.std.specs.Prelude.{List};
    ghost use Rattle.nc_tables.specs.declared.bgp.Chosen.{Chosen};
    ghost use Rattle.nc_tables.specs.HeldEntries.{held_entries, IsHeld};

    ghost Value = { List Chosen };

    ghost view = { λ e. held_entries e.held };

    ghost invariant = { λ e. IsHeld e.held };
}

impl RibEntries {
    /// No entry.
    pub fn none() -> RibEntries
        ensures { result ≡ [] }
    {
        RibEntries {
            held: Held::Nothing,
        }
    }

    /// One entry.
    pub fn one(entry: RibEntry) -> RibEntries
        ensures { result ≡ entry ∷ [] }
    {
        let distance = distance_with(&entry);
        RibEntries {
            held: Held::Alone(distance, entry),
        }
    }

    /// These entries.
    ///
    /// # Errors
    ///
    /// Memory that runs out.
    pub fn of(alloc: Global, entries: Vec<RibEntry>) -> Result<RibEntries, AllocError>
        ensures { IfOk result (λ held. held ≡ entries.items) }
    {
        let mut entries = entries;
        if entries.len() > 1 {
            return Ok(RibEntries {
                held: Held::Several(Box::new(alloc, entries)?),
            });
        }
        match entries.pop() {
            Some(entry) => Ok(RibEntries::one(entry)),
            None => Ok(RibEntries::none()),
        }
    }

    /// The entries, one after another.
    pub fn as_slice(&self) -> &[RibEntry]
        ensures { result.now ≡ self.now }
    {
        match &self.held {
            Held::Nothing => &[],
            Held::Alone(_, entry) => std::slice::from_ref(entry),
            Held::Several(entries) => entries.as_slice(),
        }
    }

    /// The administrative distance of the prefix by these: of what was learnt from another system
    /// [`EXTERNAL_DISTANCE`], and of what was learnt from the own one [`INTERNAL_DISTANCE`], by the best.
    /// `None` where the router began the prefix itself, and where there is no entry.
    pub fn learnt_distance(&self) -> Option<u8>
        ensures { result ≡ learnt_distance self.now }
    {
        match &self.held {
            Held::Nothing => None,
            Held::Alone(distance, _) => *distance,
            Held::Several(entries) => {
                let best = entries.first()?;
                distance_with(best)
            }
        }
    }

    /// Whether there is none.
    pub fn is_empty(&self) -> bool
        ensures { result ≡ (length self.now == 0) }
    {
        self.as_slice().is_empty()
    }
}
