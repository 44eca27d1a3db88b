//! What an interface says of a packet, without memory.

ghost use Rattle.std.specs.Prelude.{◌≡◌, ◌<◌, ◌^◌, ◌&&◌, if◌then◌else◌, is_some, length, not, position};
ghost use Rattle.std.specs.List.{list_any};
ghost use Rattle.nc_types.specs.Config.{config_view};
ghost use Rattle.nc_types.specs.WellFormed.{IsWellFormed};
ghost use Rattle.nc_types.specs.Network.{up_at};
ghost use Rattle.nc_tables.specs.Filters.{deciding, group_of, is_at, is_denied, is_of, passing, passing_by, passes, said_by};

use crate::configs::config_of;
use crate::matching::decides;
use nc_tables::Passing;
use nc_types::{Addr, FilterEntry, Group, IfaceId, Network, RouterConfig, RouterId, Text};

/// Whether a filter is one in a direction.
pub(crate) fn is_inward(group: &Group, inward: bool) -> bool
    ensures { result ≡ (if inward then group.now.inward else not group.now.inward) }
{
    if inward { group.inward } else { !group.inward }
}

// Whether a filter is that of an interface, by its name, in a direction.
fn is_at(name: &Text, inward: bool, group: &Group) -> bool
    ensures { result ≡ is_at name.now inward group.now }
{
    *name == group.iface && is_inward(group, inward)
}

// The filter of an interface, by its name, in a direction, by its place.
fn group_named(groups: &[Group], name: &Text, inward: bool) -> Option<usize>
    ensures { result ≡ position (is_at name.now inward) groups.now }
{
    groups.iter().position(|group| is_at(name, inward, group))
}

// The filter of an interface in a direction, by its place.
fn group_of(config: &RouterConfig, iface: IfaceId, inward: bool) -> Option<usize>
    ensures { result ≡ group_of (config_view config.now) iface.0 inward }
{
    let interface = config.interfaces.get(iface.0 as usize)?;
    let place = group_named(&config.groups, &interface.name, inward)?;
    Some(place)
}

// Whether a list has an entry.
fn has_entry(entries: &[FilterEntry], list: &Text) -> bool
    ensures { result ≡ list_any (is_of list.now) entries.now }
{
    entries.iter().any(|entry| *list == entry.list)
}

// The entry of a list that decides on a packet, by its place.
fn deciding(config: &RouterConfig, list: &Text, from: Addr, to: Addr) -> Option<usize>
    ensures { result ≡ deciding from.0 to.0 (config_view config.now) list.now }
{
    config
        .filters
        .iter()
        .position(|entry| *list == entry.list && decides(entry, from, to))
}

/// What the entry at a place says that decides, by the filter at a place.
pub(crate) fn said_by(config: &RouterConfig, group: usize, entry: usize) -> Passing
    requires group { group < 2 ^ 32 }
    requires entry { entry < 2 ^ 32 }
    ensures { result ≡ said_by (config_view config.now) group entry }
{
    match config.filters.get(entry) {
        Some(decided) if decided.permit => Passing::By {
            group: group as u32,
            entry: entry as u32,
        },
        _ => Passing::Deny,
    }
}

// What a filter at a place says of a packet.
fn passing_by(config: &RouterConfig, place: usize, group: &Group, from: Addr, to: Addr) -> Passing
    requires group { place < 2 ^ 32 }
    requires entries { length config.now.filters.items < 2 ^ 32 }
    ensures { result ≡ passing_by from.0 to.0 (config_view config.now) place group.now }
{
    if !has_entry(&config.filters, &group.list) {
        return Passing::Free;
    }
    match deciding(config, &group.list, from, to) {
        Some(entry) => said_by(config, place, entry),
        None => Passing::Deny,
    }
}

/// What an interface of a router says of a packet from one address to another that comes in by it, or goes out;
/// [`Passing::Free`] where there is no such interface. The configuration is well formed. Takes no memory.
pub fn passing(config: &RouterConfig, iface: IfaceId, inward: bool, from: Addr, to: Addr) -> Passing
    requires { IsWellFormed (config_view config.now) }
    ensures { result ≡ passing from.0 to.0 (config_view config.now) iface.0 inward }
{
    let _lines = config.line_count;
    let Some(place) = group_of(config, iface, inward) else {
        return Passing::Free;
    };
    match config.groups.get(place) {
        Some(group) => passing_by(config, place, group, from, to),
        None => Passing::Free,
    }
}

/// Whether an interface is up and lets a packet pass; not where there is no such interface or router.
pub(crate) fn lets_by(network: &Network, router: RouterId, iface: IfaceId, passing: Passing) -> bool
    ensures { result ≡ (is_some (up_at network.now router.0 iface.0) && not (is_denied passing)) }
{
    network.up(router, iface).is_some() && passing != Passing::Deny
}

/// Whether an interface is up and lets a packet from one address to another in, or out; not where there is no such
/// interface or router. Takes no memory.
pub fn passes(
    network: &Network,
    router: RouterId,
    iface: IfaceId,
    inward: bool,
    from: Addr,
    to: Addr,
) -> bool
    ensures { result ≡ passes from.0 to.0 network.now router.0 iface.0 inward }
{
    let Some(config) = config_of(network, router) else {
        return false;
    };
    lets_by(
        network,
        router,
        iface,
        passing(config, iface, inward, from, to),
    )
}
