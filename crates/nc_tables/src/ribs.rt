//! What routers choose while a network settles, by the numbers of the prefixes.

ghost use Rattle.std.specs.Prelude.{◌≡◌, ◌≤◌, ◌<◌, ◌==◌, ◌&&◌, ℕ, [], All, Contains, IfNone, IfOk, IfSome, Some, length, map, replicate, slice_get, slice_index_or, if◌then◌else◌, set};
ghost use Rattle.nc_types.specs.Cidr.{Cidr, IsCidr};
ghost use Rattle.nc_types.specs.declared.TheConstants.{MULTIPATH_LIMIT};
ghost use Rattle.nc_tables.specs.Base.{same_prefix};
ghost use Rattle.nc_tables.specs.LocRibs.{rows_by, AreChosen, Ascend, AreChoices, IsNumbered};
ghost use Rattle.nc_tables.specs.Rounds.{bgp_row_view, chosen_at, has_longer, AreBgpRows};
ghost use Rattle.nc_tables.specs.Spread.{chosen_or, with_prefix};

use crate::bgp::BgpRow;
use crate::inside::is_longer_in;
use crate::longest::rows_at;
use crate::rib_entries::RibEntries;
use crate::rib_entry::RibEntry;
use crate::routes::{BgpTable, Choices};
use nc_types::{Prefix, RouterId};
use std::alloc::{AllocError, Global};
use std::marker::Model;

/// A prefix among those that routers begin, and its number among them.
#[derive(Clone, Copy)]
pub struct Numbered {
    pub prefix: Prefix,
    /// Its place in order of prefix, from 0.
    pub number: usize,
}

/// What each router of a network chooses of each prefix that any of them begins (their Loc-RIBs, RFC 4271,
/// section 3.2), while the network settles. A choice is found and set by the number of its prefix: nothing is
/// searched and no row moves.
#[derive(Drop)]
pub struct LocRibs {
    prefixes: Vec<Prefix>,
    routers: Vec<Vec<RibEntries>>,
}

impl Model for LocRibs {
    ghost use Rattle.std.specs.Prelude.{map, All};
    ghost use Rattle.nc_tables.specs.LocRibs.{rows_by, Ascend, AreChoices, LocRibsView};

    ghost Value = { LocRibsView };

    ghost view = { λ t. record {
      prefixes = t.prefixes.items;
      rows = map (λ choices. rows_by t.prefixes.items choices.items) t.routers.items;
    } };

    ghost invariant = { λ t. Ascend t.prefixes.items
        × All (λ choices. AreChoices t.prefixes.items choices.items) t.routers.items };
}

// As many choices of nothing.
fn no_choices(alloc: Global, count: usize) -> Result<Vec<RibEntries>, AllocError>
    ensures count { IfOk result (λ choices. length choices.items ≡ count) }
    ensures none { IfOk result (λ choices. All (λ cs. cs ≡ []) choices.items) }
{
    let mut choices = Vec::with_capacity(alloc, count)?;
    'prefixes: for _number in 0..count {
        choices.push(RibEntries::none())?;
    }
    Ok(choices)
}

// What is chosen of the prefix of a number.
fn choice_at(choices: &[RibEntries], number: usize) -> &[RibEntry]
    requires { number < length choices.now }
    ensures { result.now ≡ slice_index_or choices.now number [] }
{
    choices[number].as_slice()
}

// Sets what is chosen of the prefix of a number.
fn set_choice(choices: &mut Vec<RibEntries>, number: usize, chosen: RibEntries)
    requires { number < length choices.old.items }
    ensures { choices.new.items ≡ set choices.old.items number chosen }
{
    choices[number] = chosen;
}

// Whether something is chosen of a longer prefix inside another. Prefixes inside it follow it.
fn has_chosen_inside(prefixes: &[Prefix], choices: &[RibEntries], outer: Prefix) -> bool
    requires ordered { Ascend prefixes.now }
    requires count { length choices.now ≡ length prefixes.now }
    ensures { result ≡ has_longer (rows_by prefixes.now choices.now) outer }
{
    let _len = outer.len();
    let first = prefixes.partition_point(|prefix| *prefix <= outer);
    'prefixes: for number in first..prefixes.len() {
        if !is_longer_in(prefixes[number], outer) {
            return false;
        }
        if !choices[number].is_empty() {
            return true;
        }
    }
    false
}

// So many numbers in turn, from 0.
fn numbers(alloc: Global, count: usize) -> Result<Vec<usize>, AllocError>
    ensures count { IfOk result (λ numbers. length numbers.items ≡ count) }
    ensures each { IfOk result (λ numbers. (k : ℕ) → k < count → slice_get numbers.items k ≡ Some k) }
{
    let mut numbers = Vec::with_capacity(alloc, count)?;
    'numbers: for number in 0..count {
        numbers.push(number)?;
    }
    Ok(numbers)
}

// Tells that prefixes are as prefixes are.
fn are_prefixes(prefixes: &[Prefix])
    ensures { All (λ p. IsCidr p.base p.len) prefixes.now }
{
    'prefixes: for prefix in prefixes {
        let _len = prefix.len();
    }
}

// No rows, for each of so many routers.
fn no_rows(alloc: Global, count: usize) -> Result<Vec<Vec<BgpRow>>, AllocError>
    ensures { IfOk result
        (λ own. map (λ rows. map bgp_row_view rows.items) own.items ≡ replicate count []) }
{
    let mut own = Vec::with_capacity(alloc, count)?;
    'routers: for _router in 0..count {
        own.push(Vec::new(alloc))?;
    }
    Ok(own)
}

// What routers choose of those prefixes that stand for others, each with the rows of its own.
fn with_own(
    alloc: Global,
    routers: Vec<Vec<RibEntries>>,
    own: Vec<Vec<BgpRow>>,
) -> Result<Vec<Choices>, AllocError>
    requires { length own.items ≡ length routers.items }
    ensures standing { IfOk result (λ all. map (λ c. c.standing.items) all.items
        ≡ map (λ choices. choices.items) routers.items) }
    ensures own { IfOk result (λ all. map (λ c. map bgp_row_view c.own.items) all.items
        ≡ map (λ rows. map bgp_row_view rows.items) own.items) }
{
    let mut all = Vec::with_capacity(alloc, routers.len())?;
    let mut left = routers.into_iter();
    let mut owned = own.into_iter();
    'routers: while let Some(standing) = left.next() {
        let Some(own) = owned.next() else {
            break 'routers;
        };
        all.push(Choices { own, standing })?;
    }
    Ok(all)
}

impl LocRibs {
    /// Of each of these prefixes, which are in order (address, then length), nothing is chosen by any of so
    /// many routers.
    ///
    /// # Errors
    ///
    /// Memory that runs out.
    pub fn new(alloc: Global, prefixes: Vec<Prefix>, count: usize) -> Result<LocRibs, AllocError>
        requires { Ascend prefixes.items }
        ensures prefixes { IfOk result (λ ribs. ribs.prefixes ≡ prefixes.items) }
        ensures rows { IfOk result (λ ribs. ribs.rows ≡ replicate count []) }
    {
        let mut routers = Vec::with_capacity(alloc, count)?;
        'routers: for _router in 0..count {
            routers.push(no_choices(alloc, prefixes.len())?)?;
        }
        Ok(LocRibs { prefixes, routers })
    }

    /// The prefixes in order: each stands at its number.
    pub fn prefixes(&self) -> &[Prefix]
        ensures prefixes { result.now ≡ self.now.prefixes }
        ensures ordered { Ascend self.now.prefixes }
    {
        &self.prefixes
    }

    /// A prefix with its number, by a binary search; `None` where it isn't among them.
    pub fn numbered(&self, prefix: Prefix) -> Option<Numbered>
        ensures number { IfSome result (IsNumbered self.now.prefixes) }
        ensures same { IfSome result (λ n. n.prefix ≡ prefix) }
        ensures none { IfNone result (¬ Contains self.now.prefixes prefix) }
    {
        match self.prefixes.binary_search(&prefix) {
            Ok(number) => Some(Numbered { prefix, number }),
            Err(_) => None,
        }
    }

    /// The chosen candidates of a prefix at a router, which has a number below that of the routers, best
    /// first; empty where nothing is chosen. Takes no memory.
    pub fn chosen(&self, router: RouterId, of: Numbered) -> &[RibEntry]
        requires router { router.0 < length self.now.rows }
        requires number { IsNumbered self.now.prefixes of }
        ensures chosen { result.now ≡ chosen_at self.now.rows router.0 of.prefix }
        ensures own { All (λ x. x.route.prefix ≡ of.prefix) result.now }
    {
        choice_at(rows_at(&self.routers, router), of.number)
    }

    /// From now on this is chosen of a prefix at a router, which has a number below that of the routers: at
    /// most [`nc_types::MULTIPATH_LIMIT`] candidates, each of that prefix. All else stays.
    pub fn put(&mut self, router: RouterId, of: Numbered, chosen: RibEntries)
        requires router { router.0 < length self.old.rows }
        requires number { IsNumbered self.old.prefixes of }
        requires few { length chosen ≤ MULTIPATH_LIMIT }
        requires own { All (λ x. x.route.prefix ≡ of.prefix) chosen }
        ensures prefixes { self.new.prefixes ≡ self.old.prefixes }
        ensures count { length self.new.rows ≡ length self.old.rows }
        ensures put { (r : ℕ) (p : Cidr) → chosen_at self.new.rows r p
            ≡ (if (r == router.0) && same_prefix of.prefix p then chosen
            else chosen_at self.old.rows r p) }
    {
        set_choice(&mut self.routers[router.0 as usize], of.number, chosen);
    }

    /// Whether a router, which has a number below that of the routers, has chosen candidates of a longer
    /// prefix inside another. Goes over the prefixes inside up to the first of which something is chosen.
    pub fn has_longer(&self, router: RouterId, outer: Prefix) -> bool
        requires { router.0 < length self.now.rows }
        ensures { result ≡ has_longer (slice_index_or self.now.rows router.0 []) outer }
    {
        has_chosen_inside(&self.prefixes, rows_at(&self.routers, router), outer)
    }

    /// How many routers there are; what each chooses is as the rows of a router are.
    pub fn count(&self) -> usize
        ensures count { result ≡ length self.now.rows }
        ensures valid { All AreChosen self.now.rows }
    {
        self.routers.len()
    }

    /// The tables of what is chosen.
    ///
    /// # Errors
    ///
    /// Memory that runs out.
    pub fn into_table(self, alloc: Global) -> Result<BgpTable, AllocError>
        ensures { IfOk result (λ table. table ≡ self.rows) }
    {
        let places = numbers(alloc, self.prefixes.len())?;
        let own = no_rows(alloc, self.routers.len())?;
        are_prefixes(&self.prefixes);
        let routers = with_own(alloc, self.routers, own)?;
        Ok(BgpTable::of(self.prefixes, places, routers))
    }

    /// The tables of other prefixes, which are in order (address, then length), each with the place of the one
    /// that stands for it: of each a router chooses what is in its own row of it, where one is given, and else what
    /// it chooses of the one that stands for it.
    ///
    /// # Errors
    ///
    /// Memory that runs out.
    pub fn spread(
        self,
        alloc: Global,
        prefixes: Vec<Prefix>,
        places: Vec<usize>,
        own: Vec<Vec<BgpRow>>,
    ) -> Result<BgpTable, AllocError>
        requires ordered { Ascend prefixes.items }
        requires count { length places.items ≡ length prefixes.items }
        requires within { All (λ place. place < length self.prefixes) places.items }
        requires routers { length own.items ≡ length self.rows }
        requires own { All (λ rows. AreBgpRows (map bgp_row_view rows.items)) own.items }
        ensures count { IfOk result (λ table. length table ≡ length self.rows) }
        ensures chosen { IfOk result (λ table. (router k place : ℕ) (q p : Cidr)
            → slice_get prefixes.items k ≡ Some q → slice_get places.items k ≡ Some place
            → slice_get self.prefixes place ≡ Some p → chosen_at table router q ≡ map (with_prefix q)
            (chosen_or (slice_index_or (map (λ rows. map bgp_row_view rows.items) own.items) router [])
            q (chosen_at self.rows router p))) }
        ensures others { IfOk result (λ table. (router : ℕ) (q : Cidr)
            → ¬ Contains prefixes.items q → chosen_at table router q ≡ []) }
    {
        are_prefixes(&prefixes);
        let routers = with_own(alloc, self.routers, own)?;
        Ok(BgpTable::of(prefixes, places, routers))
    }
}
