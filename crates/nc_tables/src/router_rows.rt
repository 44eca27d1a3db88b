//! The rows of a router's BGP table, one after another.

ghost use Rattle.std.specs.Prelude.{◌≡◌, ◌+◌, ◌<◌, ◌≤◌, ◌++◌, ◌∷◌, [], All, IfErr, List, IfNone, IfOk, IfSome, Some, drop, filter, length, map, slice_get, slice_index_or, take, true};
ghost use Rattle.std.specs.List.{cons_option, find, HoldsAt};
ghost use Rattle.std.specs.List.Sorted.{IsPartitionPoint, IsSearchInRange};
ghost use Rattle.std.specs.Option.{option_map, option_map_or};
ghost use Rattle.std.specs.Ordering.{is_le};
ghost use Rattle.std.specs.declared.cmp.Ordering.TheVariants.{Less, Equal, Greater};
ghost use Rattle.nc_types.specs.declared.TheConstants.{MULTIPATH_LIMIT};
ghost use Rattle.nc_types.specs.Cidr.{Cidr};
ghost use Rattle.nc_tables.specs.Base.{prefix_cmp, same_prefix};
ghost use Rattle.nc_tables.specs.Distances.{learnt_distance};
ghost use Rattle.nc_tables.specs.LocRibs.{row_before};
ghost use Rattle.nc_tables.specs.OwnRows.{HaveSameRows};
ghost use Rattle.nc_tables.specs.Rounds.{bgp_row_view, chosen_in, is_longer_in, AreBgpRows};
ghost use Rattle.nc_tables.specs.Spread.{chosen_or};
ghost use Rattle.nc_tables.specs.SpreadView.{choices_in, route_view, row_view, rows_behind, rows_in, rows_upto, IsSpread};

use crate::bgp::BgpRow;
use crate::inside::is_longer_in;
use crate::rib_entries::RibEntries;
use crate::rib_route::RibRoute;
use nc_types::Prefix;
use std::cmp::Ordering;
use std::marker::Model;

/// The candidates of a prefix that were chosen, best first; there is one at least.
#[derive(Clone, Copy)]
pub struct ChosenRow<'a> {
    pub prefix: &'a Prefix,
    /// Entries of the candidates, which may be of another prefix.
    pub held: &'a RibEntries,
}

impl<'a> ChosenRow<'a> {
    /// How many there are.
    pub fn count(self) -> usize
        ensures { result ≡ length (row_view self.entry).chosen }
    {
        self.held.as_slice().len()
    }

    /// The one at a place, the best at 0.
    pub fn get(self, place: usize) -> Option<RibRoute<'a>>
        ensures { option_map route_view result ≡ slice_get (row_view self.entry).chosen place }
    {
        let entry = self.held.as_slice().get(place)?;
        Some(RibRoute {
            prefix: self.prefix,
            entry,
        })
    }

    /// The administrative distance of the prefix by these; `None` where the router began it itself.
    pub fn learnt_distance(self) -> Option<u8>
        ensures { result ≡ learnt_distance (row_view self.entry).chosen }
    {
        self.held.learnt_distance()
    }
}

// Some prefixes of a router in order, each with the place of the one that stands for it, the router's own rows, those
// of prefixes before mostly left out, and what it chooses of those that stand for others.
#[derive(Clone, Copy)]
pub(crate) struct Spread<'a> {
    pub(crate) prefixes: &'a [Prefix],
    pub(crate) places: &'a [usize],
    pub(crate) own: &'a [BgpRow],
    pub(crate) standing: &'a [RibEntries],
}

// Where the row of a prefix stands; else the place at which it would stand.
fn place_of(rows: &[BgpRow], prefix: Prefix) -> Result<usize, usize>
    requires { AreBgpRows (map bgp_row_view rows.now) }
    ensures bound { IsSearchInRange result (length rows.now) }
    ensures found { IfOk result
        (HoldsAt (λ row. prefix_cmp row.prefix prefix ≡ Equal) rows.now) }
    ensures parts { IfErr result (IsPartitionPoint (λ row. prefix_cmp row.prefix prefix ≡ Less)
        (λ row. prefix_cmp row.prefix prefix ≡ Greater) rows.now) }
{
    let place = rows.partition_point(|row| row.prefix < prefix);
    if place >= rows.len() {
        return Err(place);
    }
    if rows[place].prefix == prefix {
        return Ok(place);
    }
    Err(place)
}

// The router's own row of a prefix, if it has one. Nothing is searched where the first is the row, or is above it.
fn own_row<'a>(own: &'a [BgpRow], prefix: Prefix) -> Option<&'a BgpRow>
    requires { AreBgpRows (map bgp_row_view own.now) }
    ensures { option_map (λ row. bgp_row_view row.now) result
        ≡ find (λ row. same_prefix row.prefix prefix) (map bgp_row_view own.now) }
{
    let first = own.first()?;
    match first.prefix.cmp(&prefix) {
        Ordering::Greater => None,
        Ordering::Equal => Some(first),
        Ordering::Less => match place_of(own, prefix) {
            Ok(place) => Some(&own[place]),
            Err(_) => None,
        },
    }
}

// What is chosen of a prefix, for which the one at a place stands: what is in the router's own row, if it has one.
fn held_of<'a>(
    own: &'a [BgpRow],
    standing: &'a [RibEntries],
    prefix: Prefix,
    place: usize,
) -> &'a RibEntries
    requires own { AreBgpRows (map bgp_row_view own.now) }
    requires place { place < length standing.now }
    ensures { result.now ≡ chosen_or (map bgp_row_view own.now) prefix (slice_index_or standing.now place []) }
{
    match own_row(own, prefix) {
        Some(row) => &row.chosen,
        None => &standing[place],
    }
}

// The row of the prefix at a number, if something is chosen of it.
fn row_at<'a>(spread: Spread<'a>, number: usize) -> Option<ChosenRow<'a>>
    requires spread { IsSpread spread }
    requires number { number < length spread.prefixes.now }
    ensures row { rows_behind spread.entry number
        ≡ cons_option (option_map row_view result) (rows_behind spread.entry (number + 1)) }
    ensures prefix { IfSome result
        (λ row. slice_get spread.entry.prefixes.now number ≡ Some row.prefix.now) }
    ensures chosen { option_map_or (λ row. (row_view row).chosen) result []
        ≡ slice_index_or (choices_in spread.entry) number [] }
    ensures some { IfSome result (λ row. 0 < length (row_view row).chosen) }
{
    let prefix = &spread.prefixes[number];
    let held = held_of(spread.own, spread.standing, *prefix, spread.places[number]);
    if held.is_empty() {
        return None;
    }
    Some(ChosenRow { prefix, held })
}

// How many of a router's own rows stand up to a prefix. Nothing is searched where the first is its row, or is above it.
fn count_upto(own: &[BgpRow], prefix: Prefix) -> usize
    requires { AreBgpRows (map bgp_row_view own.now) }
    ensures bound { result ≤ length own.now }
    ensures upto { All (λ row. is_le (prefix_cmp row.prefix prefix) ≡ true) (take result own.now) }
{
    let Some(first) = own.first() else {
        return 0;
    };
    match first.prefix.cmp(&prefix) {
        Ordering::Greater => 0,
        Ordering::Equal => 1,
        Ordering::Less => own.partition_point(|row| row.prefix <= prefix),
    }
}

// The router's own rows without those of a prefix and of ones before it.
fn own_behind(own: &[BgpRow], prefix: Prefix) -> &[BgpRow]
    requires { AreBgpRows (map bgp_row_view own.now) }
    ensures valid { AreBgpRows (map bgp_row_view result.now) }
    ensures same { (prefixes : List Cidr) → All (λ p. prefix_cmp prefix p ≡ Less) prefixes
        → HaveSameRows prefixes (map bgp_row_view result.now) (map bgp_row_view own.entry.now) }
{
    &own[count_upto(own, prefix)..]
}

// The router's own rows without those of so many prefixes, and of ones before them.
fn left_behind<'a>(spread: Spread<'a>, count: usize) -> &'a [BgpRow]
    requires spread { IsSpread spread }
    requires count { count ≤ length spread.prefixes.now }
    ensures valid { AreBgpRows (map bgp_row_view result.now) }
    ensures same { HaveSameRows (drop count spread.entry.prefixes.now)
        (map bgp_row_view result.now) (map bgp_row_view spread.entry.own.now) }
{
    if count == 0 {
        return spread.own;
    }
    own_behind(spread.own, spread.prefixes[count - 1])
}

// What is behind so many prefixes.
fn behind<'a>(spread: Spread<'a>, count: usize) -> Spread<'a>
    requires spread { IsSpread spread }
    requires count { count ≤ length spread.prefixes.now }
    ensures rows { rows_in result ≡ rows_behind spread.entry count }
    ensures spread { IsSpread result }
    ensures prefixes { result.prefixes.now ≡ drop count spread.entry.prefixes.now }
    ensures places { result.places.now ≡ drop count spread.entry.places.now }
    ensures own { HaveSameRows result.prefixes.now
        (map bgp_row_view result.own.now) (map bgp_row_view spread.entry.own.now) }
    ensures standing { result.standing ≡ spread.entry.standing }
{
    Spread {
        prefixes: &spread.prefixes[count..],
        places: &spread.places[count..],
        own: left_behind(spread, count),
        standing: spread.standing,
    }
}

// So many of the first prefixes.
fn upto<'a>(spread: Spread<'a>, count: usize) -> Spread<'a>
    requires spread { IsSpread spread }
    requires count { count ≤ length spread.prefixes.now }
    ensures rows { rows_in result ≡ rows_upto spread.entry count }
    ensures spread { IsSpread result }
{
    Spread {
        prefixes: &spread.prefixes[..count],
        places: &spread.places[..count],
        own: spread.own,
        standing: spread.standing,
    }
}

// The row of a prefix, if something is chosen of it.
pub(crate) fn row_of<'a>(spread: Spread<'a>, prefix: Prefix) -> Option<ChosenRow<'a>>
    requires { IsSpread spread }
    ensures chosen { option_map_or (λ row. (row_view row).chosen) result []
        ≡ chosen_in (rows_in spread.entry) prefix }
    ensures prefix { IfSome result (λ row. row.prefix.now ≡ prefix) }
    ensures some { IfSome result (λ row. 0 < length (row_view row).chosen) }
    ensures few { IfSome result (λ row. length (row_view row).chosen ≤ MULTIPATH_LIMIT) }
{
    match spread.prefixes.binary_search(&prefix) {
        Ok(number) => row_at(spread, number),
        Err(_) => None,
    }
}

// Passes the first prefix, and returns what is chosen of it, which may be nothing.
fn pass_first<'a>(spread: &mut Spread<'a>) -> Option<ChosenRow<'a>>
    requires { IsSpread spread.old }
    ensures some { IfSome result (λ row. rows_in spread.old
        ≡ row_before row.prefix.now (row_view row).chosen (rows_in spread.new)) }
    ensures none { IfNone result (rows_in spread.old ≡ []) }
    ensures spread { IsSpread spread.new }
    ensures left { IfSome result
        (λ row. length spread.new.prefixes.now + 1 ≡ length spread.old.prefixes.now) }
{
    let (prefix, prefixes) = spread.prefixes.split_first()?;
    let (place, places) = spread.places.split_first()?;
    let held = held_of(spread.own, spread.standing, *prefix, *place);
    spread.own = own_behind(spread.own, *prefix);
    spread.prefixes = prefixes;
    spread.places = places;
    Some(ChosenRow { prefix, held })
}

// The prefixes below one, the row of that one, if it has one, and the prefixes above it.
struct Parted<'a> {
    lower: Spread<'a>,
    row: Option<ChosenRow<'a>>,
    later: Spread<'a>,
}

fn part_at<'a>(spread: Spread<'a>, prefix: Prefix) -> Parted<'a>
    requires { IsSpread spread }
    ensures parts { rows_in spread.entry
        ≡ rows_in result.lower ++ cons_option (option_map row_view result.row) (rows_in result.later) }
    ensures lower { All (λ row. prefix_cmp row.prefix prefix ≡ Less) (rows_in result.lower) }
    ensures row { IfSome result.row (λ row. row.prefix.now ≡ prefix) }
    ensures later { All (λ row. prefix_cmp prefix row.prefix ≡ Less) (rows_in result.later) }
    ensures spread { IsSpread result.lower × IsSpread result.later }
{
    match spread.prefixes.binary_search(&prefix) {
        Ok(number) => Parted {
            lower: upto(spread, number),
            row: row_at(spread, number),
            later: behind(spread, number + 1),
        },
        Err(number) => Parted {
            lower: upto(spread, number),
            row: None,
            later: behind(spread, number),
        },
    }
}

/// The rows of a router's BGP table that are left, in order of prefix (address, then length).
#[derive(Drop)]
pub struct RouterRows<'a> {
    spread: Spread<'a>,
}

impl<'a> Model for RouterRows<'a> {
    ghost use Rattle.std.specs.Prelude.{List};
    ghost use Rattle.nc_tables.specs.Rounds.{BgpRowView};
    ghost use Rattle.nc_tables.specs.SpreadView.{rows_in, IsSpread};

    ghost Value = { List BgpRowView };

    ghost view = { λ rows. rows_in rows.spread };

    ghost invariant = { λ rows. IsSpread rows.spread };
}

impl<'a> RouterRows<'a> {
    // All rows.
    pub(crate) fn of(spread: Spread<'a>) -> RouterRows<'a>
        requires { IsSpread spread }
        ensures rows { result ≡ rows_in spread.entry }
        ensures valid { AreBgpRows result }
    {
        RouterRows { spread }
    }

    /// Takes the first row; `None` where none is left. Goes over the prefixes before it, of which nothing is chosen.
    pub fn next_row(&mut self) -> Option<ChosenRow<'a>>
        ensures some { IfSome result (λ row. self.old ≡ row_view row ∷ self.new) }
        ensures none { IfNone result (self.old ≡ []) }
    {
        'prefixes: while let Some(row) = pass_first(&mut self.spread) {
            if !row.held.is_empty() {
                return Some(row);
            }
        }
        None
    }

    /// Takes the rows up to that of a prefix: those of lower prefixes, and its own if it has one. Takes one binary
    /// search.
    pub fn pass(&mut self, prefix: Prefix) -> (RouterRows<'a>, Option<ChosenRow<'a>>)
        ensures parts { self.old ≡ result.0 ++ cons_option (option_map row_view result.1) self.new }
        ensures lower { All (λ row. prefix_cmp row.prefix prefix ≡ Less) result.0 }
        ensures row { IfSome result.1 (λ row. row.prefix.now ≡ prefix) }
        ensures later { All (λ row. prefix_cmp prefix row.prefix ≡ Less) self.new }
    {
        let Parted { lower, row, later } = part_at(self.spread, prefix);
        self.spread = later;
        (RouterRows { spread: lower }, row)
    }

    /// The rows of longer prefixes inside another. Takes two binary searches.
    pub fn inside(self, outer: Prefix) -> RouterRows<'a>
        ensures { result ≡ filter (λ row. is_longer_in row.prefix outer) self.entry }
    {
        RouterRows {
            spread: inside_of(self.spread, outer),
        }
    }

    /// No fewer than there are rows left, without a look at them.
    pub fn bound(&self) -> usize
        ensures { length self.now ≤ result }
    {
        self.spread.prefixes.len()
    }
}

// The longer prefixes inside another, which stand side by side behind it.
fn inside_of<'a>(spread: Spread<'a>, outer: Prefix) -> Spread<'a>
    requires { IsSpread spread }
    ensures rows { rows_in result ≡ filter (λ row. is_longer_in row.prefix outer) (rows_in spread.entry) }
    ensures spread { IsSpread result }
{
    let _len = outer.len();
    let first = spread.prefixes.partition_point(|prefix| *prefix <= outer);
    let left = behind(spread, first);
    let count = left
        .prefixes
        .partition_point(|prefix| is_longer_in(*prefix, outer));
    upto(left, count)
}
