//! Two interfaces of one router that are up, one prefix inside the other.

ghost use Rattle.std.specs.Prelude.{◌≡◌, ◌≤◌, ◌++◌, ℕ, [], List, length, map, IfSome, OnOk, IfOk};
ghost use Rattle.std.specs.List.{filter_map, flat_map};
ghost use Rattle.std.specs.Map.{lookup};
ghost use Rattle.std.specs.Option.{option_map, option_to_list};
ghost use Rattle.nc_types.specs.declared.TheConstants.{ROUTER_LIMIT};
ghost use Rattle.nc_types.specs.Config.{config_view};
ghost use Rattle.nc_types.specs.Network.{up_of};
ghost use Rattle.nc_types.specs.Joining.{Used, earliest, with_later, overlapping, overlaps};
ghost use Rattle.nc_network.specs.Steps.{merge, first_of_all, used_of, Heads, Notes, by_prefix};
ghost use Rattle.nc_network.specs.Steps.{lines_clash, in_shorter, same_pairs, shorter_pairs};
ghost use Rattle.nc_network.specs.Steps.{AreCidrs, AreLong};

use crate::clash::{LinePair, earlier_of};
use indexmap::IndexMap;
use nc_types::{IfaceAddr, Interface, Prefix, RouterConfig};
use std::alloc::{AllocError, Global};

// Two lines of one router, the lower one first.
fn pair_of(router: u32, line: u32, other: u32) -> LinePair
    ensures { result ≡ lines_clash router line other }
{
    let (low, high) = if line <= other {
        (line, other)
    } else {
        (other, line)
    };
    LinePair {
        first: router,
        first_line: low,
        second: router,
        second_line: high,
    }
}

// Notes the line of a prefix.
fn note(heads: &mut IndexMap<Prefix, u32>, prefix: Prefix, line: u32) -> Result<(), AllocError>
    ensures { OnOk result (Notes by_prefix prefix line heads.old.entries heads.new.entries) }
{
    let lowest = match heads.get(&prefix) {
        Some(other) if *other < line => *other,
        _ => line,
    };
    heads.insert(prefix, lowest)?;
    Ok(())
}

// Looks a prefix up.
fn find(
    heads: &IndexMap<Prefix, u32>,
    prefix: Prefix,
    router: u32,
    line: u32,
    found: Option<LinePair>,
) -> Option<LinePair>
    ensures { result
        ≡ merge found
        (option_map (lines_clash router line) (lookup (by_prefix.same prefix) heads.now.entries)) }
{
    match heads.get(&prefix) {
        None => found,
        Some(other) => earlier_of(found, pair_of(router, line, *other)),
    }
}

// Looks the prefix of an interface up where it is up, and notes it.
fn note_one(
    heads: &mut IndexMap<Prefix, u32>,
    router: u32,
    interface: &Interface,
    found: Option<LinePair>,
) -> Result<Option<LinePair>, AllocError>
    ensures heads { OnOk result ((later : List Used) → Heads by_prefix heads.old.entries later
        → Heads by_prefix heads.new.entries (option_to_list (used_of router interface.now)
        ++ later)) }
    ensures cidrs { OnOk result (AreCidrs (option_to_list (used_of router interface.now))) }
    ensures found { IfOk result
        (λ r. (later : List Used) → Heads by_prefix heads.old.entries later → AreCidrs later
        → r ≡ merge found
        (first_of_all
        (λ x. flat_map (same_pairs router x) later)
        (option_to_list (used_of router interface.now)))) }
{
    match interface.up() {
        None => Ok(found),
        Some(address) => {
            let line = interface.address_line;
            let _len = address.prefix.len();
            let found = find(heads, address.prefix, router, line, found);
            note(heads, address.prefix, line)?;
            Ok(found)
        }
    }
}

// Notes the prefixes of a router's interfaces that are up, and looks for two that are the same.
fn note_all(
    heads: &mut IndexMap<Prefix, u32>,
    router: u32,
    interfaces: &[Interface],
    found: Option<LinePair>,
) -> Result<Option<LinePair>, AllocError>
    requires { Heads by_prefix heads.old.entries [] }
    ensures heads { OnOk result
        (Heads by_prefix heads.new.entries (filter_map (used_of router) interfaces.now)) }
    ensures cidrs { OnOk result (AreCidrs (filter_map (used_of router) interfaces.now)) }
    ensures found { IfOk result
        (λ r. r ≡ merge found
        (earliest (with_later (same_pairs router) (filter_map (used_of router) interfaces.now)))) }
{
    let mut found = found;
    let mut at = interfaces.len();
    'interfaces: while at > 0 {
        at -= 1;
        found = note_one(heads, router, &interfaces[at], found)?;
    }
    Ok(found)
}

// The length of the prefix of an interface that is up; the greatest one of another.
fn length_of(interface: &Interface) -> u8
    ensures { IfSome (up_of interface.now) (λ a. result ≡ a.prefix.len) }
{
    match interface.up() {
        None => 32,
        Some(address) => address.prefix.len(),
    }
}

// A length that no prefix of an interface that is up falls short of.
fn least_length(interfaces: &[Interface]) -> u8
    ensures { (router : ℕ) → AreLong result (filter_map (used_of router) interfaces.now) }
{
    let mut least = 32;
    'interfaces: for interface in interfaces {
        least = length_of(interface).min(least);
    }
    least
}

// Looks up the shorter prefixes that a prefix is inside of, of the lengths from the least one on that
// any has.
fn find_shorter(
    heads: &IndexMap<Prefix, u32>,
    router: u32,
    least: u8,
    address: IfaceAddr,
    line: u32,
    found: Option<LinePair>,
) -> Option<LinePair>
    ensures { (all : List Used) → Heads by_prefix heads.now.entries all → AreCidrs all
        → AreLong least all → result ≡ merge found
        (first_of_all
        (in_shorter router address.prefix.len
        (record { router = router; line = line; address = address })) all) }
{
    let mut found = found;
    let own = address.prefix.len();
    let base = address.prefix.addr();
    'lengths: for len in least.min(own)..own {
        found = find(heads, Prefix::around(base, len), router, line, found);
    }
    found
}

// Looks up the shorter prefixes that the prefix of an interface is inside of, where it is up.
fn find_one(
    heads: &IndexMap<Prefix, u32>,
    router: u32,
    least: u8,
    interface: &Interface,
    found: Option<LinePair>,
) -> Option<LinePair>
    ensures { (all : List Used) → Heads by_prefix heads.now.entries all → AreCidrs all
        → AreLong least all → result ≡ merge found
        (first_of_all (shorter_pairs router all) (option_to_list (used_of router interface.now))) }
{
    match interface.up() {
        None => found,
        Some(address) => {
            find_shorter(heads, router, least, address, interface.address_line, found)
        }
    }
}

// Looks up the shorter prefixes that those of a router's interfaces are inside of.
fn find_all(
    heads: &IndexMap<Prefix, u32>,
    router: u32,
    least: u8,
    interfaces: &[Interface],
    found: Option<LinePair>,
) -> Option<LinePair>
    ensures { (all : List Used) → Heads by_prefix heads.now.entries all → AreCidrs all
        → AreLong least all → result ≡ merge found
        (first_of_all (shorter_pairs router all) (filter_map (used_of router) interfaces.now)) }
{
    let mut found = found;
    'interfaces: for item in interfaces {
        found = find_one(heads, router, least, item, found);
    }
    found
}

// The earliest two interfaces of a router whose prefixes overlap.
fn find_in(
    alloc: Global,
    router: u32,
    interfaces: &[Interface],
    found: Option<LinePair>,
) -> Result<Option<LinePair>, AllocError>
    ensures { IfOk result
        (λ r. r ≡ merge found
        (earliest (with_later overlapping (filter_map (used_of router) interfaces.now)))) }
{
    let mut heads = IndexMap::new(alloc);
    let found = note_all(&mut heads, router, interfaces, found)?;
    let least = least_length(interfaces);
    let found = find_all(&heads, router, least, interfaces, found);
    Ok(found)
}

/// The earliest two interfaces of one router that are up, one prefix inside the other.
pub(crate) fn overlap_clash(
    alloc: Global,
    routers: &[RouterConfig],
) -> Result<Option<LinePair>, AllocError>
    requires { length routers.now ≤ ROUTER_LIMIT }
    ensures { IfOk result (λ r. r ≡ earliest (overlaps (map config_view routers.now))) }
{
    let mut found = None;
    'routers: for (router, config) in routers.iter().enumerate() {
        found = find_in(alloc, router as u32, &config.interfaces, found)?;
    }
    Ok(found)
}
