//! The tables of one router: of its lists and maps, and of its networks and aggregates.

ghost use Rattle.std.specs.Prelude.{◌≡◌, ◌<◌, ◌^◌, length, map, slice_index_or, All, IfOk, IfSome};
ghost use Rattle.std.specs.Option.{option_map};
ghost use Rattle.nc_types.specs.Config.{config_view, list_view};
ghost use Rattle.nc_types.specs.WellFormed.{IsWellFormed};
ghost use Rattle.nc_policy.specs.Best.{IsRising};
ghost use Rattle.nc_policy.specs.Indexes.{AreEntryTables};
ghost use Rattle.nc_policy.specs.Seen.{entry_table, IsIndexed, IsIndexOf, IsPrefixIndex};

use crate::guards::{Guard, clause_guards};
use crate::index::ListIndex;
use crate::kept::{Kept, kept_of};
use crate::names::NameIndex;
use crate::preferences::highest_preferences;
use crate::spans::{Span, clause_spans};
use crate::statements::{PrefixIndex, aggregates_in, networks_in};
use nc_types::{Prefix, PrefixList, Reference, RouterConfig};
use std::alloc::{AllocError, Global};
use std::rc::Rc;

/// The tables of a router's lists and maps: their places by name, and of each longer prefix list that
/// a clause asks what it says; and those of its networks and aggregates, their places by prefix.
#[derive(Drop)]
pub(crate) struct RouterIndex {
    pub(crate) names: NameIndex,
    pub(crate) community_names: NameIndex,
    pub(crate) maps: NameIndex,
    pub(crate) networks: PrefixIndex,
    pub(crate) aggregates: PrefixIndex,
    pub(crate) lists: Vec<Option<ListIndex>>,
    pub(crate) spans: Vec<Span>,
    pub(crate) guards: Vec<Guard>,
    /// Of each map, by the place of its first clause, the highest preference that it sets.
    pub(crate) highest: Vec<u32>,
    pub(crate) kept: Kept,
}

// Up to how many entries a list is gone through without a table.
const FEW_ENTRIES: usize = 8;

// Of which prefix lists clauses ask, by their places.
fn asked_lists(
    alloc: Global,
    config: &RouterConfig,
    names: &NameIndex,
) -> Result<Vec<bool>, AllocError> {
    let mut asked = vec![in alloc; false; config.lists.len()]?;
    'clauses: for clause in &config.clauses {
        mark(&mut asked, names, &clause.lists);
    }
    Ok(asked)
}

// Marks the lists that references name.
fn mark(asked: &mut [bool], names: &NameIndex, references: &[Reference]) {
    'references: for reference in references {
        let Some(place) = names.place(reference.name.bytes()) else {
            continue;
        };
        if place < asked.len() {
            asked[place] = true;
        }
    }
}

// The table of a prefix list, if a clause asks it and it has more than a few entries.
fn list_index(
    alloc: Global,
    list: &PrefixList,
    is_asked: bool,
) -> Result<Option<ListIndex>, AllocError>
    requires { length list.now.entries.items < 2 ^ 32 }
    ensures { IfOk result (λ index. IfSome index (IsIndexOf list.now.entries.items)) }
{
    if !is_asked || list.entries.len() <= FEW_ENTRIES {
        return Ok(None);
    }
    let index = ListIndex::new(alloc, &list.entries)?;
    Ok(Some(index))
}

// The tables of prefix lists, in their order; none of a list that isn't asked.
fn list_indexes(
    alloc: Global,
    lists: &[PrefixList],
    asked: &[bool],
) -> Result<Vec<Option<ListIndex>>, AllocError>
    requires { All (λ l. length l.entries.items < 2 ^ 32) lists.now }
    ensures { IfOk result (λ indexes.
        AreEntryTables (map list_view lists.now) (map (option_map entry_table) indexes.items)) }
{
    let mut indexes = Vec::with_capacity(alloc, lists.len())?;
    'lists: for (place, list) in lists.iter().enumerate() {
        let is_asked = asked.get(place).copied().unwrap_or(false);
        indexes.push(list_index(alloc, list, is_asked)?)?;
    }
    Ok(indexes)
}

impl RouterIndex {
    // The tables of a router, with nothing kept of its maps. Its lists have no more entries than it has
    // lines.
    fn bare(
        alloc: Global,
        config: &RouterConfig,
        numbers: Rc<PrefixIndex>,
    ) -> Result<RouterIndex, AllocError>
        requires { IsWellFormed (config_view config.now) }
        ensures { IfOk result (IsIndexed (config_view config.now)) }
    {
        let names = NameIndex::new(alloc, &config.lists)?;
        let community_names = NameIndex::new(alloc, &config.community_lists)?;
        let maps = NameIndex::new(alloc, &config.clauses)?;
        let asked = asked_lists(alloc, config, &names)?;
        let _lines = config.line_count;
        let lists = list_indexes(alloc, &config.lists, &asked)?;
        let spans = clause_spans(alloc, config, &names)?;
        let guards = clause_guards(alloc, config, &community_names)?;
        let highest = highest_preferences(alloc, config, &maps)?;
        let networks = PrefixIndex::new(alloc, networks_in(config))?;
        let aggregates = PrefixIndex::new(alloc, aggregates_in(config))?;
        let kept = Kept::with_room(alloc, numbers, 0)?;
        Ok(RouterIndex {
            names,
            community_names,
            maps,
            networks,
            aggregates,
            lists,
            spans,
            guards,
            highest,
            kept,
        })
    }

    /// The tables of a router. What its maps decide on these prefixes, which are in order and have these
    /// numbers, is kept.
    pub(crate) fn new(
        alloc: Global,
        config: &RouterConfig,
        prefixes: &[Prefix],
        numbers: Rc<PrefixIndex>,
    ) -> Result<RouterIndex, AllocError>
        requires formed { IsWellFormed (config_view config.now) }
        requires rising { IsRising prefixes.now }
        requires numbers { IsPrefixIndex prefixes.now numbers.value }
        ensures { IfOk result (IsIndexed (config_view config.now)) }
    {
        let mut tables = RouterIndex::bare(alloc, config, numbers.clone()?)?;
        tables.kept = kept_of(alloc, config, &tables, prefixes, numbers)?;
        Ok(tables)
    }

    /// The highest preference that a map sets, whose first clause stands at this place.
    pub(crate) fn highest_at(&self, first: usize) -> u32
        ensures { result ≡ slice_index_or self.now.highest.items first 0 }
    {
        match self.highest.get(first) {
            Some(highest) => *highest,
            None => 0,
        }
    }
}
