//! The rows of one prefix, and those of the longest prefix that covers an address.

ghost use Rattle.std.specs.Prelude.{◌≡◌, ◌<◌, ◌-◌, ◌/◌, ◌≤◌, ℕ, [], false, length, map, slice_index_or, true};
ghost use Rattle.std.specs.List.{range_with_len, AllWithin};
ghost use Rattle.std.specs.List.Sorted.{IsPartitionPoint, IsSortedByKey};
ghost use Rattle.std.specs.Ordering.{is_le, is_lt};
ghost use Rattle.nc_types.specs.Cidr.{Cidr};
ghost use Rattle.nc_types.specs.Masks.{size_of};
ghost use Rattle.nc_tables.specs.Base.{prefix_cmp, same_prefix};
ghost use Rattle.nc_tables.specs.Longest.{longest, places_from, AreByPrefix};

use nc_types::{Addr, Prefix, RouterId};

/// Rows of a table that stand side by side.
#[derive(Clone, Copy, PartialEq, Eq)]
pub struct Rows {
    /// The place of the first.
    pub from: usize,
    /// The place behind the last.
    pub to: usize,
}

/// A row that has a prefix.
pub trait HasPrefix {
    ghost prefix_of: { Self → Cidr };

    /// The prefix.
    fn prefix(&self) -> Prefix
        ensures { result ≡ prefix_of self.now };
}

/// The rows of a router.
pub(crate) fn rows_at<R>(tables: &[Vec<R>], router: RouterId) -> &[R]
    requires { router.0 < length tables.now }
    ensures { result.now ≡ slice_index_or (map (λ rows. rows.items) tables.now) router.0 [] }
{
    &tables[router.0 as usize]
}

// The place behind the rows whose prefix is at or before this one.
fn place_behind<R: HasPrefix>(rows: &[R], prefix: Prefix) -> usize
    requires { IsSortedByKey R.prefix_of prefix_cmp rows.now }
    ensures parts { IsPartitionPoint
        (λ row. is_le (prefix_cmp (R.prefix_of row) prefix) ≡ true)
        (λ row. is_le (prefix_cmp (R.prefix_of row) prefix) ≡ false) rows.now result }
    ensures bound { result ≤ length rows.now }
{
    rows.partition_point(|row| row.prefix() <= prefix)
}

// Whether there is a row before a place that has a prefix.
fn has_before<R: HasPrefix>(rows: &[R], place: usize, prefix: Prefix) -> bool
    requires { place ≤ length rows.now }
    ensures { AllWithin (λ row. same_prefix (R.prefix_of row) prefix ≡ result) rows.now (place - 1) place }
{
    if place == 0 {
        return false;
    }
    rows[place - 1].prefix() == prefix
}

// The place of the first row of a prefix, given the place behind the last. Mostly one row has it, or none.
fn first_place<R: HasPrefix>(rows: &[R], prefix: Prefix, to: usize) -> usize
    requires ordered { IsSortedByKey R.prefix_of prefix_cmp rows.now }
    requires behind { IsPartitionPoint
        (λ row. is_le (prefix_cmp (R.prefix_of row) prefix) ≡ true)
        (λ row. is_le (prefix_cmp (R.prefix_of row) prefix) ≡ false) rows.now to }
    requires bound { to ≤ length rows.now }
    ensures parts { IsPartitionPoint
        (λ row. is_lt (prefix_cmp (R.prefix_of row) prefix) ≡ true)
        (λ row. is_lt (prefix_cmp (R.prefix_of row) prefix) ≡ false) rows.now result }
    ensures bound { result ≤ length rows.now }
{
    if to == 0 {
        return to;
    }
    let last = has_before(rows, to, prefix);
    if !last {
        return to;
    }
    let more = has_before(rows, to - 1, prefix);
    if !more {
        return to - 1;
    }
    rows.partition_point(|row| row.prefix() < prefix)
}

/// Where the rows of a prefix stand, among rows in order.
pub(crate) fn rows_with<R: HasPrefix>(rows: &[R], prefix: Prefix) -> Rows
    requires { IsSortedByKey R.prefix_of prefix_cmp rows.now }
    ensures rows { places_from (λ row. same_prefix (R.prefix_of row) prefix) 0 rows.now
        ≡ range_with_len result.from (result.to - result.from) }
    ensures ordered { result.from ≤ result.to }
    ensures within { result.to ≤ length rows.now }
{
    let to = place_behind(rows, prefix);
    let from = first_place(rows, prefix, to);
    Rows { from, to }
}

// Whether a row's prefix is at or before this one.
fn is_upto<R: HasPrefix>(row: &R, prefix: Prefix) -> bool
    ensures { result ≡ is_le (prefix_cmp (R.prefix_of row.now) prefix) }
{
    row.prefix() <= prefix
}

// The place behind the rows whose prefix is at or before this one, from a place on behind such rows.
fn next_behind<R: HasPrefix>(rows: &[R], from: usize, prefix: Prefix) -> usize
    requires ordered { IsSortedByKey R.prefix_of prefix_cmp rows.now }
    requires passed { AllWithin (λ row. is_le (prefix_cmp (R.prefix_of row) prefix) ≡ true) rows.now 0 from }
    requires bound { from ≤ length rows.now }
    ensures parts { IsPartitionPoint
        (λ row. is_le (prefix_cmp (R.prefix_of row) prefix) ≡ true)
        (λ row. is_le (prefix_cmp (R.prefix_of row) prefix) ≡ false) rows.now result }
    ensures bound { result ≤ length rows.now }
{
    let mut at = from;
    'rows: while at < rows.len() {
        if !is_upto(&rows[at], prefix) {
            return at;
        }
        at += 1;
    }
    at
}

/// Where the rows of a prefix stand, among rows in order, looked for from a place on before which no row has a
/// later prefix. Goes over the rows from there to the last of the prefix.
pub fn rows_on<R: HasPrefix>(rows: &[R], from: usize, prefix: Prefix) -> Rows
    requires ordered { IsSortedByKey R.prefix_of prefix_cmp rows.now }
    requires passed { AllWithin (λ row. is_le (prefix_cmp (R.prefix_of row) prefix) ≡ true) rows.now 0 from }
    requires bound { from ≤ length rows.now }
    ensures rows { places_from (λ row. same_prefix (R.prefix_of row) prefix) 0 rows.now
        ≡ range_with_len result.from (result.to - result.from) }
    ensures passed { AllWithin (λ row. is_le (prefix_cmp (R.prefix_of row) prefix) ≡ true) rows.now 0 result.to }
    ensures ordered { result.from ≤ result.to }
    ensures within { result.to ≤ length rows.now }
{
    let to = next_behind(rows, from, prefix);
    let first = first_place(rows, prefix, to);
    Rows { from: first, to }
}

// How many leading bits two addresses share.
fn shared_bits(a: Addr, b: Addr) -> u8
    ensures alike { a.0 / size_of result ≡ b.0 / size_of result }
    ensures most { (len : ℕ) → len ≤ 32 → a.0 / size_of len ≡ b.0 / size_of len → len ≤ result }
    ensures within { result ≤ 32 }
{
    (a.0 ^ b.0).leading_zeros() as u8
}

/// The rows of the longest prefix that covers an address, among rows in order. No later row than the last at or
/// before the address itself covers it; where that one doesn't, no prefix longer than the bits that the two share
/// does, and the search goes on with so many bits of the address. That takes few steps.
pub(crate) fn longest_rows<R: HasPrefix>(rows: &[R], addr: Addr) -> Rows
    requires { AreByPrefix R.prefix_of rows.now }
    ensures rows { longest (map R.prefix_of rows.now) addr.0
        ≡ range_with_len result.from (result.to - result.from) }
    ensures ordered { result.from ≤ result.to }
    ensures within { result.to ≤ length rows.now }
{
    let mut len = 33;
    'lengths: while len > 0 {
        let to = place_behind(rows, Prefix::around(addr, len - 1));
        if to == 0 {
            break 'lengths;
        }
        let prefix = rows[to - 1].prefix();
        if prefix.covers(addr) {
            let from = first_place(rows, prefix, to);
            return Rows { from, to };
        }
        len = shared_bits(prefix.addr(), addr) + 1;
    }
    Rows { from: 0, to: 0 }
}
