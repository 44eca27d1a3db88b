//! Interfaces of two routers that are up and have one address.

ghost use Rattle.std.specs.Prelude.{◌≡◌, ◌≤◌, ◌++◌, List, length, map, OnOk, IfOk};
ghost use Rattle.std.specs.List.{filter_map};
ghost use Rattle.std.specs.Map.{lookup};
ghost use Rattle.std.specs.Option.{option_map, option_to_list};
ghost use Rattle.nc_types.specs.declared.TheConstants.{ROUTER_LIMIT};
ghost use Rattle.nc_types.specs.Config.{config_view};
ghost use Rattle.nc_types.specs.Joining.{Used, earliest, same_addresses};
ghost use Rattle.nc_network.specs.Steps.{merge, first_of_all, lower_place, used_of, Heads, Notes};
ghost use Rattle.nc_network.specs.Steps.{by_address, pair_up, address_pairs};

use crate::clash::{LinePair, Place, before_or_equal, earlier_of};
use indexmap::IndexMap;
use nc_types::{Addr, Interface, RouterConfig};
use std::alloc::{AllocError, Global};

// The lower of two lines, by router.
fn lower(place: Place, other: Place) -> Place
    ensures { result ≡ lower_place place other }
{
    if before_or_equal(other.router, place.router, other.line < place.line) {
        other
    } else {
        place
    }
}

// Notes the line of an address.
fn note(heads: &mut IndexMap<Addr, Place>, address: Addr, place: Place) -> Result<(), AllocError>
    ensures { OnOk result (Notes by_address address place heads.old.entries heads.new.entries) }
{
    let lowest = match heads.get(&address) {
        Some(other) => lower(place, *other),
        None => place,
    };
    heads.insert(address, lowest)?;
    Ok(())
}

// Notes the address of an interface that is up.
fn note_one(
    heads: &mut IndexMap<Addr, Place>,
    router: u32,
    interface: &Interface,
) -> Result<(), AllocError>
    ensures { OnOk result ((later : List Used) → Heads by_address heads.old.entries later
        → Heads by_address heads.new.entries (option_to_list (used_of router interface.now)
        ++ later)) }
{
    if let Some(address) = interface.up() {
        let line = interface.address_line;
        note(heads, address.addr, Place { router, line })?;
    }
    Ok(())
}

// Notes the addresses of a router's interfaces that are up.
fn note_all(
    heads: &mut IndexMap<Addr, Place>,
    router: u32,
    interfaces: &[Interface],
) -> Result<(), AllocError>
    ensures { OnOk result ((later : List Used) → Heads by_address heads.old.entries later
        → Heads by_address heads.new.entries (filter_map (used_of router) interfaces.now
        ++ later)) }
{
    let mut at = interfaces.len();
    'interfaces: while at > 0 {
        at -= 1;
        note_one(heads, router, &interfaces[at])?;
    }
    Ok(())
}

// Looks an address up among those of later routers.
fn find(
    heads: &IndexMap<Addr, Place>,
    address: Addr,
    place: Place,
    found: Option<LinePair>,
) -> Option<LinePair>
    ensures { result
        ≡ merge found
        (option_map (pair_up place) (lookup (by_address.same address) heads.now.entries)) }
{
    match heads.get(&address) {
        None => found,
        Some(other) => earlier_of(
            found,
            LinePair {
                first: place.router,
                first_line: place.line,
                second: other.router,
                second_line: other.line,
            },
        ),
    }
}

// Looks the address of an interface up where it is up.
fn find_one(
    heads: &IndexMap<Addr, Place>,
    router: u32,
    interface: &Interface,
    found: Option<LinePair>,
) -> Option<LinePair>
    ensures { (later : List Used) → Heads by_address heads.now.entries later → result
        ≡ merge found
        (first_of_all (address_pairs later) (option_to_list (used_of router interface.now))) }
{
    match interface.up() {
        None => found,
        Some(address) => {
            let line = interface.address_line;
            find(heads, address.addr, Place { router, line }, found)
        }
    }
}

// Looks up the addresses of a router's interfaces that are up.
fn find_all(
    heads: &IndexMap<Addr, Place>,
    router: u32,
    interfaces: &[Interface],
    found: Option<LinePair>,
) -> Option<LinePair>
    ensures { (later : List Used) → Heads by_address heads.now.entries later → result
        ≡ merge found
        (first_of_all (address_pairs later) (filter_map (used_of router) interfaces.now)) }
{
    let mut found = found;
    'interfaces: for item in interfaces {
        found = find_one(heads, router, item, found);
    }
    found
}

/// The earliest two interfaces of two routers that are up and have one address.
pub(crate) fn address_clash(
    alloc: Global,
    routers: &[RouterConfig],
) -> Result<Option<LinePair>, AllocError>
    requires { length routers.now ≤ ROUTER_LIMIT }
    ensures { IfOk result (λ r. r ≡ earliest (same_addresses (map config_view routers.now))) }
{
    let mut heads = IndexMap::new(alloc);
    let mut found = None;
    let mut at = routers.len();
    'routers: while at > 0 {
        at -= 1;
        let config = &routers[at];
        found = find_all(&heads, at as u32, &config.interfaces, found);
        note_all(&mut heads, at as u32, &config.interfaces)?;
    }
    Ok(found)
}
