//! Over how few hops a packet arrives from routers whose ways were found. Those alone are gone through, from the last
//! that was found to the first, until none gets a smaller number: most ways lead to a router that was found later, so
//! that the first time mostly finds all numbers, and the second knows that they stay.

ghost use Rattle.std.specs.Prelude.{◌≡◌, ◌≤◌, ◌<◌, ◌&&◌, ◌||◌, ℕ, suc, true, false, Some, OnOk, length, map, nat_le, nat_lt, replicate};
ghost use Rattle.std.specs.List.{sum_by};
ghost use Rattle.nc_types.specs.declared.TheConstants.{HOP_LIMIT};
ghost use Rattle.nc_tables.specs.Forwarding.{arrives_by, some_way, each_way};
ghost use Rattle.nc_trace.specs.Asked.{IsAsked};
ghost use Rattle.nc_trace.specs.Counting.{AreBacked, AreLeast, IsLeast};
ghost use Rattle.nc_trace.specs.Found.{covers, IsFoundTo};
ghost use Rattle.nc_trace.specs.Levels.{AreFewest, passes_as};
ghost use Rattle.nc_trace.specs.Packets.{packet_of};
ghost use Rattle.nc_trace.specs.Views.{alternative_view, outcome_view};
ghost use Rattle.nc_underlay.specs.Distances.{is_earlier};

use crate::alternative::{Alternative, Outcome};
use crate::found::Found;
use crate::levels::{NEVER, Question, is_owner};
use nc_types::{HOP_LIMIT, RouterId};
use std::alloc::AllocError;

// One hop more than a number.
fn one_more(number: u8) -> u8
    ensures { (hops : ℕ) → hops ≤ HOP_LIMIT → nat_le result hops ≡ nat_lt number hops }
{
    if number < HOP_LIMIT {
        number + 1
    } else {
        NEVER
    }
}

// The smaller of two numbers.
fn smaller(one: u8, other: u8) -> u8
    ensures { (hops : ℕ) → nat_le result hops ≡ (nat_le one hops || nat_le other hops) }
{
    if other < one { other } else { one }
}

// The larger of two numbers.
fn larger(one: u8, other: u8) -> u8
    ensures { (hops : ℕ) → nat_le result hops ≡ (nat_le one hops && nat_le other hops) }
{
    if one < other { other } else { one }
}

// The fewest hops over which a packet arrives by a way, as the numbers of routers tell.
fn hops_by(outcome: Outcome, fewest: &[u8]) -> u8
    ensures { (hops : ℕ) → hops ≤ HOP_LIMIT
        → nat_le result hops ≡ arrives_by (is_earlier fewest.now hops) (outcome_view outcome) }
{
    match outcome {
        Outcome::Deliver => 0,
        Outcome::Go(next, _) => match fewest.get(next.0 as usize) {
            Some(number) => one_more(*number),
            None => NEVER,
        },
        Outcome::Lost => NEVER,
    }
}

// The same of some of these ways.
fn hops_by_some(ways: &[Alternative], fewest: &[u8]) -> u8
    ensures { (hops : ℕ) → hops ≤ HOP_LIMIT → nat_le result hops
        ≡ some_way (λ way. arrives_by (is_earlier fewest.now hops) way.outcome) (map alternative_view ways.now) }
{
    let mut least = NEVER;
    'ways: for way in ways {
        least = smaller(least, hops_by(way.outcome, fewest));
    }
    least
}

// The same of each of them, where there is one.
fn hops_by_each(ways: &[Alternative], fewest: &[u8]) -> u8
    ensures { (hops : ℕ) → hops ≤ HOP_LIMIT → nat_le result hops
        ≡ each_way (λ way. arrives_by (is_earlier fewest.now hops) way.outcome) (map alternative_view ways.now) }
{
    if ways.is_empty() {
        return NEVER;
    }
    let mut most = 0;
    'ways: for way in ways {
        most = larger(most, hops_by(way.outcome, fewest));
    }
    most
}

// The fewest hops from a router whose ways were found: none where it owns the address, and else those by its ways, by
// some or by each.
fn hops_from(asked: Question, found: &Found, router: RouterId, fewest: &[u8]) -> u8
    requires asked { IsAsked asked }
    requires found { IsFoundTo asked.state.now (packet_of asked.by asked.addr.0) found.now }
    requires this { covers found.now router.0 ≡ true }
    ensures { (hops : ℕ) → hops ≤ HOP_LIMIT → nat_le result hops
        ≡ passes_as asked.entry.state.now asked.entry.by asked.entry.addr.0 (is_earlier fewest.now hops) router.0 }
{
    if is_owner(asked, router) {
        return 0;
    }
    let ways = found.ways(router);
    if asked.by.is_each() {
        hops_by_each(ways, fewest)
    } else {
        hops_by_some(ways, fewest)
    }
}

// Gives a router whose ways were found the number that they tell, where it is smaller than its own; whether it is.
fn lower(asked: Question, found: &Found, router: RouterId, fewest: &mut [u8]) -> bool
    requires asked { IsAsked asked }
    requires found { IsFoundTo asked.state.now (packet_of asked.by asked.addr.0) found.now }
    requires this { covers found.now router.0 ≡ true }
    requires room { length found.now ≤ length fewest.old }
    requires backed { AreBacked asked.state.now asked.by asked.addr.0 found.now fewest.old }
    ensures backed { AreBacked asked.entry.state.now asked.entry.by asked.entry.addr.0 found.now fewest.new }
    ensures smaller { result ≡ true → sum_by (λ n. n) fewest.new < sum_by (λ n. n) fewest.old }
    ensures same { result ≡ false → fewest.new ≡ fewest.old }
    ensures least { result ≡ false
        → IsLeast asked.entry.state.now asked.entry.by asked.entry.addr.0 found.now fewest.old router.0 }
{
    let hops = hops_from(asked, found, router, fewest);
    if fewest[router.0 as usize] <= hops {
        return false;
    }
    fewest[router.0 as usize] = hops;
    true
}

// Goes through the routers once, and gives each the number that its ways tell, where that is smaller; whether there
// was such a router.
fn go_through(asked: Question, found: &Found, fewest: &mut [u8]) -> bool
    requires asked { IsAsked asked }
    requires found { IsFoundTo asked.state.now (packet_of asked.by asked.addr.0) found.now }
    requires room { length found.now ≤ length fewest.old }
    requires backed { AreBacked asked.state.now asked.by asked.addr.0 found.now fewest.old }
    ensures backed { AreBacked asked.entry.state.now asked.entry.by asked.entry.addr.0 found.now fewest.new }
    ensures least { result ≡ false
        → AreLeast asked.entry.state.now asked.entry.by asked.entry.addr.0 found.now fewest.new }
    ensures smaller { result ≡ true → sum_by (λ n. n) fewest.new < sum_by (λ n. n) fewest.old }
    ensures no_larger { sum_by (λ n. n) fewest.new ≤ sum_by (λ n. n) fewest.old }
{
    let mut left = found.routers();
    let mut more = false;
    'routers: while let Some((router, before)) = left.split_last() {
        if lower(asked, found, *router, fewest) {
            more = true;
        }
        left = before;
    }
    more
}

// Goes through the routers until none gets a smaller number.
fn lower_all(asked: Question, found: &Found, fewest: &mut [u8])
    requires asked { IsAsked asked }
    requires found { IsFoundTo asked.state.now (packet_of asked.by asked.addr.0) found.now }
    requires room { length found.now ≤ length fewest.old }
    requires backed { AreBacked asked.state.now asked.by asked.addr.0 found.now fewest.old }
    ensures fewest { AreFewest asked.entry.state.now asked.entry.by asked.entry.addr.0 (Some found.now) fewest.new }
    ensures len { length fewest.new ≡ length fewest.old }
{
    let mut more = true;
    'times: while more {
        more = go_through(asked, found, fewest);
    }
}

// Says of so many routers that no packet arrives from them.
fn reset(fewest: &mut Vec<u8>, count: usize) -> Result<(), AllocError>
    ensures { OnOk result (fewest.new.items ≡ replicate count (suc HOP_LIMIT)) }
{
    fewest.clear();
    fewest.resize(count, NEVER)?;
    Ok(())
}

/// Counts for each router whose ways were found the fewest hops over which a packet arrives. It takes memory where
/// `fewest` has no room for as many routers as what was found has.
///
/// # Errors
///
/// Memory that runs out.
pub(crate) fn count_hops(
    asked: Question,
    found: &Found,
    fewest: &mut Vec<u8>,
) -> Result<(), AllocError>
    requires asked { IsAsked asked }
    requires found { IsFoundTo asked.state.now (packet_of asked.by asked.addr.0) found.now }
    ensures { OnOk result (AreFewest asked.entry.state.now asked.entry.by asked.entry.addr.0
        (Some found.now) fewest.new.items) }
{
    reset(fewest, found.room())?;
    lower_all(asked, found, fewest);
    Ok(())
}
