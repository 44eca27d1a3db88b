//! The elements that the parts of a router's configuration are.

ghost use Rattle.std.specs.Prelude.{◌≡◌, ◌++◌, ◌<◌, [], ◌∷◌, length, take, slice_get, IfSome, OnOk, Some};
ghost use Rattle.std.specs.Option.{option_map, option_map_or};
ghost use Rattle.nc_types.specs.Config.{config_view};
ghost use Rattle.nc_fact.specs.declared.fact.Fact.TheVariants as fact;
ghost use Rattle.nc_rules_route.specs.Parents.{clause_place, entry_place, community_place, group_place, filter_place};
ghost use Rattle.nc_rules_route.specs.Parents.{element_in, of_interface, of_static, of_part};
ghost use Rattle.nc_rules_route.specs.Parents.{of_entry, of_community};

use crate::configs::config_of;
use nc_fact::Fact;
use nc_tables::{Place, Stable};
use nc_types::{ElementId, IfaceId, RouterConfig, RouterId};
use std::alloc::AllocError;

// The place of the element that an interface is.
fn interface_place(config: &RouterConfig, iface: IfaceId) -> Option<u32>
    ensures { result
        ≡ option_map (λ i. i.element) (slice_get (config_view config.now).interfaces iface.0) }
{
    let interface = config.interfaces.get(iface.0 as usize)?;
    Some(interface.element)
}

// The place of the element that the static route at a place is.
fn static_place(config: &RouterConfig, place: u32) -> Option<u32>
    ensures { result
        ≡ option_map (λ r. r.element) (slice_get (config_view config.now).statics place) }
{
    let route = config.statics.get(place as usize)?;
    Some(route.element)
}

/// The element of an interface of a router; `None` where there is no such interface or router.
pub(crate) fn interface_element(
    state: &Stable,
    router: RouterId,
    iface: IfaceId,
) -> Option<ElementId>
    ensures { option_map_or (λ e. fact.Element e ∷ []) result []
        ≡ of_interface state.now router.0 iface.0 }
{
    let config = config_of(state, router)?;
    let place = interface_place(config, iface)?;
    Some(state.network().element_id(router, place))
}

/// The element of the static route at a place of a router; `None` where there is no such route or router.
pub(crate) fn static_element(state: &Stable, router: RouterId, place: u32) -> Option<ElementId>
    ensures { option_map_or (λ e. fact.Element e ∷ []) result []
        ≡ of_static state.now router.0 place }
{
    let config = config_of(state, router)?;
    let element = static_place(config, place)?;
    Some(state.network().element_id(router, element))
}

// The place of the element that the clause at a place is.
fn clause_place(config: &RouterConfig, place: u32) -> Option<u32>
    ensures { result ≡ clause_place place (config_view config.now) }
{
    let clause = config.clauses.get(place as usize)?;
    Some(clause.element)
}

// The place of the element that an entry of a prefix list is.
fn entry_place(config: &RouterConfig, place: Place) -> Option<u32>
    ensures { result ≡ entry_place place (config_view config.now) }
{
    let list = config.lists.get(place.list as usize)?;
    let entry = list.entries.get(place.entry as usize)?;
    Some(entry.element)
}

// The place of the element that an entry of a community list is.
fn community_place(config: &RouterConfig, place: Place) -> Option<u32>
    ensures { result ≡ community_place place (config_view config.now) }
{
    let list = config.community_lists.get(place.list as usize)?;
    let entry = list.entries.get(place.entry as usize)?;
    Some(entry.element)
}

// The place of the element that the filter of an interface's direction is.
fn group_place(config: &RouterConfig, group: u32) -> Option<u32>
    ensures { result ≡ group_place group (config_view config.now) }
{
    let group = config.groups.get(group as usize)?;
    Some(group.element)
}

// The place of the element that an entry of an access list is.
fn filter_place(config: &RouterConfig, entry: u32) -> Option<u32>
    ensures { result ≡ filter_place entry (config_view config.now) }
{
    let entry = config.filters.get(entry as usize)?;
    Some(entry.element)
}

// The element at a place of a router with this configuration, where there is a place.
fn part_element(
    state: &Stable,
    router: RouterId,
    config: &RouterConfig,
    place: Option<u32>,
) -> Option<ElementId>
    requires config { slice_get state.now.routers router.0 ≡ Some (config_view config.now) }
    requires within { IfSome place (λ k. k < length (config_view config.now).elements) }
    ensures { option_map_or (λ e. fact.Element e ∷ []) result []
        ≡ option_map_or (λ k. element_in state.now router.0 k ∷ []) place [] }
{
    let place = place?;
    Some(state.network().element_id(router, place))
}

/// The element of the clause at a place of a router; `None` where there is no such clause or router.
pub(crate) fn clause_element(state: &Stable, router: RouterId, clause: u32) -> Option<ElementId>
    ensures { option_map_or (λ e. fact.Element e ∷ []) result []
        ≡ of_part state.now router.0 (clause_place clause) }
{
    let config = config_of(state, router)?;
    part_element(state, router, config, clause_place(config, clause))
}

/// The element of an entry of a router's prefix lists, where one is named.
pub(crate) fn entry_element(
    state: &Stable,
    router: RouterId,
    entry: Option<Place>,
) -> Option<ElementId>
    ensures { option_map_or (λ e. fact.Element e ∷ []) result []
        ≡ of_entry state.now router.0 entry }
{
    let entry = entry?;
    let config = config_of(state, router)?;
    part_element(state, router, config, entry_place(config, entry))
}

/// The element of an entry of a router's community lists, where one is named.
pub(crate) fn community_element(
    state: &Stable,
    router: RouterId,
    entry: Option<Place>,
) -> Option<ElementId>
    ensures { option_map_or (λ e. fact.Element e ∷ []) result []
        ≡ of_community state.now router.0 entry }
{
    let entry = entry?;
    let config = config_of(state, router)?;
    part_element(state, router, config, community_place(config, entry))
}

/// The element of the filter at a place of a router; `None` where there is no such filter or router.
pub(crate) fn group_element(state: &Stable, router: RouterId, group: u32) -> Option<ElementId>
    ensures { option_map_or (λ e. fact.Element e ∷ []) result []
        ≡ of_part state.now router.0 (group_place group) }
{
    let config = config_of(state, router)?;
    part_element(state, router, config, group_place(config, group))
}

/// The element of the entry at a place among those of a router's access lists; `None` where there is no such entry or
/// router.
pub(crate) fn filter_element(state: &Stable, router: RouterId, entry: u32) -> Option<ElementId>
    ensures { option_map_or (λ e. fact.Element e ∷ []) result []
        ≡ of_part state.now router.0 (filter_place entry) }
{
    let config = config_of(state, router)?;
    part_element(state, router, config, filter_place(config, entry))
}

/// Appends an element, where there is one.
pub(crate) fn push_element(
    element: Option<ElementId>,
    into: &mut Vec<Fact>,
) -> Result<(), AllocError>
    ensures ok { OnOk result (into.new.items
        ≡ into.old.items ++ option_map_or (λ e. fact.Element e ∷ []) element []) }
    ensures kept { take (length into.old.items) into.new.items ≡ into.old.items }
{
    if let Some(element) = element {
        into.push(Fact::Element(element))?;
    }
    Ok(())
}
