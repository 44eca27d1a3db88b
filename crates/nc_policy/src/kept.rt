//! Which clause of a map decides on a prefix, kept for routes whose communities meet no clause of the
//! map that asks for some.

ghost use Rattle.std.specs.Prelude.{◌≡◌, ◌<◌, ◌≤◌, ◌^◌, ℕ, List, [], true, length, IfSome, IfOk, OnOk, Some, slice_get};
ghost use Rattle.std.specs.List.{list_any};
ghost use Rattle.std.specs.Option.{option_map};
ghost use Rattle.nc_types.specs.Cidr.{Cidr};
ghost use Rattle.nc_types.specs.Config.{ConfigView, clause_view, config_view};
ghost use Rattle.nc_types.specs.WellFormed.{IsWellFormed};
ghost use Rattle.nc_tables.specs.Policy.{deciding};
ghost use Rattle.nc_tables.specs.declared.bgp.Route.{Route};
ghost use Rattle.nc_policy.specs.Best.{IsRising};
ghost use Rattle.nc_policy.specs.Decisions.{decision_or, table_in, AreRight};
ghost use Rattle.nc_policy.specs.Indexes.{place_from, placed_in, IsPrefixTable};
ghost use Rattle.nc_policy.specs.Kept.{lists_prefixes, AreAsked, AreKept, IsAskedOf, IsDecided, IsKnown, IsUnmet};
ghost use Rattle.nc_policy.specs.Seen.{asked_table, asked_view, kept_table, prefix_table, IsIndexed, IsPrefixIndex};
ghost use Rattle.nc_policy.specs.Views.{asked, candidate_view, map_names, IsCandidate};

use crate::asked::asked_by;
use crate::askers::Askers;
use crate::best::best_of_each;
use crate::clauses::{Candidate, scanned};
use crate::decisions::{Decisions, decided_of};
use crate::router_index::RouterIndex;
use crate::statements::PrefixIndex;
use nc_community::Held;
use nc_tables::{Names, Numbered};
use nc_types::{Addr, Clause, Prefix, Reference, RouterConfig};
use std::alloc::{AllocError, Global};
use std::rc::Rc;

// How many decisions of a router's maps are kept at most.
const KEPT_LIMIT: usize = 1 << 20;

/// A map, by the place of its first clause, and a prefix.
#[derive(Clone, Copy)]
pub(crate) struct Asking {
    pub(crate) map: usize,
    pub(crate) prefix: Prefix,
}

/// The clause that decides, by its place, and the entries by which it matches.
#[derive(Clone, Copy)]
pub(crate) struct Decided {
    pub(crate) place: usize,
    pub(crate) names: Names,
}

/// What is known of a map and a prefix.
#[derive(Clone, Copy)]
pub(crate) struct Known<'a> {
    /// The clauses of the map that ask for communities.
    pub(crate) askers: &'a Askers,
    /// What the map decides for routes whose communities meet none of them.
    pub(crate) decided: Option<Decided>,
}

/// What is known of a map.
#[derive(Drop)]
pub(crate) struct Asked {
    /// Its clauses that ask for communities.
    pub(crate) askers: Askers,
    /// What a map that names no prefix list decides on every prefix, for routes whose communities meet
    /// no clause that asks for some.
    pub(crate) flat: Option<Option<Decided>>,
    /// What another one decides on the network's prefixes, for the same routes.
    pub(crate) table: Option<Decisions>,
}

/// What maps decide on prefixes, for routes whose communities meet no clause of the map that asks for
/// some; `None` where no clause matches.
#[derive(Drop)]
pub(crate) struct Kept {
    /// The numbers of the network's prefixes, which the routers share.
    pub(crate) numbers: Rc<PrefixIndex>,
    /// What is known of maps, by the places of their first clauses; `None` where nothing is.
    pub(crate) asked: Vec<Option<Asked>>,
    /// Which maps were gone through, by the same places.
    done: Vec<bool>,
    /// For how many prefixes of maps there are decisions.
    count: usize,
}

// What a map decides on a prefix, if it is one of those that have a number: mostly the one with which
// it comes.
fn decision_on(numbers: &PrefixIndex, table: &Decisions, of: Numbered) -> Option<Option<Decided>>
    ensures { IfSome result (λ d. option_map (decision_or table.now)
        (placed_in (prefix_table numbers.now) of.prefix) ≡ Some d) }
{
    let number = numbers.place_near(of)?;
    let decided = table.get(number)?;
    Some(decided)
}

// For how many prefixes there are decisions of a map.
fn count_in(asked: &Option<Asked>) -> usize {
    let Some(asked) = asked else {
        return 0;
    };
    match &asked.table {
        Some(table) => table.len(),
        None => 0,
    }
}

impl Kept {
    /// Nothing is kept, but there is room for so many maps.
    pub(crate) fn with_room(
        alloc: Global,
        numbers: Rc<PrefixIndex>,
        count: usize,
    ) -> Result<Kept, AllocError>
        ensures numbers { IfOk result (λ kept. kept.numbers.value ≡ numbers.value) }
        ensures kept { IfOk result (λ kept. kept_table kept ≡ []) }
        ensures asked { IfOk result (λ kept. (c : ConfigView) → AreAsked c (asked_table kept)) }
    {
        let mut asked = Vec::with_capacity(alloc, count)?;
        'maps: for _ in 0..count {
            asked.push(None)?;
        }
        let done = vec![in alloc; false; count]?;
        Ok(Kept {
            numbers,
            asked,
            done,
            count: 0,
        })
    }

    /// What is known of a map and a prefix, which is looked for at a number first. Takes no memory.
    pub(crate) fn get(&self, asking: Asking, number: usize) -> Option<Known<'_>>
        ensures { (config : ConfigView) (name : List ℕ) → AreAsked config (asked_table self.now)
            → AreKept config (kept_table self.now)
            → slice_get (map_names config) asking.map ≡ Some name
            → IfSome result (IsKnown config name asking.prefix) }
    {
        let Some(Some(asked)) = self.asked.get(asking.map) else {
            return None;
        };
        let askers = &asked.askers;
        if let Some(decided) = asked.flat {
            return Some(Known { askers, decided });
        }
        let Some(table) = &asked.table else {
            return None;
        };
        let of = Numbered {
            prefix: asking.prefix,
            number,
        };
        let decided = decision_on(self.numbers.as_ref(), table, of)?;
        Some(Known { askers, decided })
    }

    // Notes that a map was gone through, and what was found.
    fn mark(&mut self, map: usize, asked: Option<Asked>)
        ensures numbers { self.new.numbers.value ≡ self.old.numbers.value }
        ensures kept { (config : ConfigView) (name : List ℕ) → AreKept config (kept_table self.old)
            → slice_get (map_names config) map ≡ Some name
            → IfSome (table_in asked) (AreRight config name (prefix_table self.old.numbers.value))
            → AreKept config (kept_table self.new) }
        ensures asked { (config : ConfigView) (name : List ℕ) → AreAsked config (asked_table self.old)
            → slice_get (map_names config) map ≡ Some name
            → IfSome asked (λ a. IsAskedOf config name (asked_view a))
            → AreAsked config (asked_table self.new) }
    {
        if map < self.done.len() && map < self.asked.len() {
            self.count = self.count.saturating_add(count_in(&asked));
            self.done[map] = true;
            self.asked[map] = asked;
        }
    }

    // Whether a map whose first clause stands at this place is still to be gone through, for so many
    // prefixes.
    fn is_open(&self, map: usize, prefixes: usize) -> bool
        ensures { result ≡ true → prefixes ≤ KEPT_LIMIT }
    {
        let room = KEPT_LIMIT - self.count.min(KEPT_LIMIT);
        let done = self.done.get(map).copied().unwrap_or(true);
        !done && prefixes <= room
    }
}

/// The clause of a router that is kept.
pub(crate) fn candidate_of<'a>(
    config: &'a RouterConfig,
    decided: Option<Decided>,
) -> Option<Candidate<'a>>
    ensures decides { (name : List ℕ) (r : Route) → IsDecided (config_view config.now) name r decided
        → option_map candidate_view result ≡ deciding (config_view config.now) name r }
    ensures candidate { (name : List ℕ) (r : Route) → IsDecided (config_view config.now) name r decided
        → IfSome result (IsCandidate (config_view config.now) r) }
{
    let decided = decided?;
    let clause = config.clauses.get(decided.place)?;
    Some(Candidate {
        place: decided.place,
        clause,
        names: decided.names,
    })
}

// Whether a clause of a map names a prefix list.
fn lists_prefixes(clauses: &[Clause], name: &[u8]) -> bool
    ensures { result ≡ list_any (λ k. lists_prefixes name.now (clause_view k)) clauses.now }
{
    clauses.iter().any(|clause| !clause.lists.is_empty() && name == clause.map.bytes())
}

// What a map decides on every prefix, if it names no prefix list. Its first clause stands at this place.
fn flat_of(
    config: &RouterConfig,
    index: &RouterIndex,
    name: &[u8],
    first: usize,
) -> Option<Option<Decided>>
    requires indexed { IsIndexed (config_view config.now) index.now }
    requires formed { IsWellFormed (config_view config.now) }
    requires unmet { IsUnmet (config_view config.now) name.now [] }
    requires first { Some first ≡ place_from name.now 0 (map_names (config_view config.now)) }
    ensures { IfSome result (λ d. (p : Cidr) (held : List ℕ)
        → IsUnmet (config_view config.now) name.now held
        → IsDecided (config_view config.now) name.now (asked p held) d) }
{
    if lists_prefixes(&config.clauses, name) {
        return None;
    }
    let everywhere = Prefix::around(Addr(0), 0);
    let found = scanned(
        config,
        Some(index),
        name,
        Some(first),
        everywhere,
        &Held::none(),
    );
    Some(decided_of(found))
}

// What a map decides on these prefixes, which are in order and have these numbers. Its first clause
// stands at this place.
fn decisions_of(
    alloc: Global,
    config: &RouterConfig,
    index: &RouterIndex,
    name: &[u8],
    first: usize,
    prefixes: &[Prefix],
) -> Result<Decisions, AllocError>
    requires indexed { IsIndexed (config_view config.now) index.now }
    requires formed { IsWellFormed (config_view config.now) }
    requires unmet { IsUnmet (config_view config.now) name.now [] }
    requires first { Some first ≡ place_from name.now 0 (map_names (config_view config.now)) }
    requires rising { IsRising prefixes.now }
    requires few { length prefixes.now < 2 ^ 32 }
    ensures { IfOk result (λ table. (ps : List (Cidr × ℕ)) → IsPrefixTable prefixes.now ps
        → AreRight (config_view config.now) name.now ps table) }
{
    let best = best_of_each(alloc, config, index, name, first, prefixes)?;
    let table = Decisions::of(alloc, &best)?;
    Ok(table)
}

// What is known of a map, if it is known what communities it asks for. Its first clause stands at this
// place.
fn asked_of(
    alloc: Global,
    config: &RouterConfig,
    index: &RouterIndex,
    name: &[u8],
    first: usize,
    prefixes: &[Prefix],
) -> Result<Option<Asked>, AllocError>
    requires indexed { IsIndexed (config_view config.now) index.now }
    requires formed { IsWellFormed (config_view config.now) }
    requires first { Some first ≡ place_from name.now 0 (map_names (config_view config.now)) }
    requires rising { IsRising prefixes.now }
    requires few { length prefixes.now < 2 ^ 32 }
    ensures asked { IfOk result (λ asked. IfSome asked
        (λ a. IsAskedOf (config_view config.now) name.now (asked_view a))) }
    ensures table { IfOk result (λ asked. (ps : List (Cidr × ℕ)) → IsPrefixTable prefixes.now ps
        → IfSome (table_in asked) (AreRight (config_view config.now) name.now ps)) }
{
    let Some(askers) = asked_by(alloc, config, index, name, first)? else {
        return Ok(None);
    };
    let flat = flat_of(config, index, name, first);
    if flat.is_some() {
        return Ok(Some(Asked {
            askers,
            flat,
            table: None,
        }));
    }
    let table = decisions_of(alloc, config, index, name, first, prefixes)?;
    Ok(Some(Asked {
        askers,
        flat: None,
        table: Some(table),
    }))
}

// Keeps what the map of a neighbor statement decides on these prefixes, if there is one of which it is
// known what communities it asks for, and if it wasn't kept before.
fn keep_named(
    alloc: Global,
    config: &RouterConfig,
    index: &RouterIndex,
    kept: &mut Kept,
    map: &Option<Reference>,
    prefixes: &[Prefix],
) -> Result<(), AllocError>
    requires indexed { IsIndexed (config_view config.now) index.now }
    requires formed { IsWellFormed (config_view config.now) }
    requires rising { IsRising prefixes.now }
    requires numbers { IsPrefixIndex prefixes.now kept.old.numbers.value }
    requires kept { AreKept (config_view config.now) (kept_table kept.old) }
    requires asked { AreAsked (config_view config.now) (asked_table kept.old) }
    ensures numbers { OnOk result (kept.new.numbers.value ≡ kept.old.numbers.value) }
    ensures kept { OnOk result (AreKept (config_view config.now) (kept_table kept.new)) }
    ensures asked { OnOk result (AreAsked (config_view config.now) (asked_table kept.new)) }
{
    let Some(reference) = map else {
        return Ok(());
    };
    let name = reference.name.bytes();
    let Some(first) = index.maps.place(name) else {
        return Ok(());
    };
    if !kept.is_open(first, prefixes.len()) {
        return Ok(());
    }
    let asked = asked_of(alloc, config, index, name, first, prefixes)?;
    kept.mark(first, asked);
    Ok(())
}

/// What the maps of a router's neighbor statements decide on these prefixes, for routes whose
/// communities meet no clause of the map that asks for some. The prefixes are in order, and have these
/// numbers.
pub(crate) fn kept_of(
    alloc: Global,
    config: &RouterConfig,
    index: &RouterIndex,
    prefixes: &[Prefix],
    numbers: Rc<PrefixIndex>,
) -> Result<Kept, AllocError>
    requires indexed { IsIndexed (config_view config.now) index.now }
    requires formed { IsWellFormed (config_view config.now) }
    requires rising { IsRising prefixes.now }
    requires numbers { IsPrefixIndex prefixes.now numbers.value }
    ensures kept { IfOk result (λ kept. AreKept (config_view config.now) (kept_table kept)) }
    ensures asked { IfOk result (λ kept. AreAsked (config_view config.now) (asked_table kept)) }
{
    let mut kept = Kept::with_room(alloc, numbers, config.clauses.len())?;
    let Some(process) = &config.process else {
        return Ok(kept);
    };
    'neighbors: for neighbor in &process.neighbors {
        keep_named(alloc, config, index, &mut kept, &neighbor.map_in, prefixes)?;
        keep_named(alloc, config, index, &mut kept, &neighbor.map_out, prefixes)?;
    }
    Ok(kept)
}
