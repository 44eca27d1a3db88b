//! What interfaces, static routes and the rows of tables follow from.

ghost use Rattle.std.specs.Prelude.{◌≡◌, ◌++◌, [], ◌∷◌, length, take, slice_get, OnOk};
ghost use Rattle.std.specs.Option.{option_map_or};
ghost use Rattle.nc_tables.specs.Base.{static_at};
ghost use Rattle.nc_fact.specs.declared.fact.Fact.TheVariants as fact;
ghost use Rattle.nc_fact.specs.Facts.{base_rows, main_rows};
ghost use Rattle.nc_rules_route.specs.Parents.{connected_by, route_of, main_of, parents};

use crate::elements::{interface_element, static_element};
use nc_fact::{Fact, base_rows, main_rows, static_row};
use nc_tables::{BaseFrom, BaseRow, MainFrom, MainRow, Stable};
use nc_types::{IfaceId, Prefix, RouterId};
use std::alloc::AllocError;

/// Appends what an interface follows from: its element.
#[tactic(auto, unfolding(crate::specs::Parents::parents))]
pub(crate) fn push_connected(
    state: &Stable,
    router: RouterId,
    iface: IfaceId,
    into: &mut Vec<Fact>,
) -> Result<(), AllocError>
    ensures ok { OnOk result (into.new.items
        ≡ into.old.items ++ parents state.now (fact.Connected router iface)) }
    ensures kept { take (length into.old.items) into.new.items ≡ into.old.items }
{
    if let Some(element) = interface_element(state, router, iface) {
        into.push(Fact::Element(element))?;
    }
    Ok(())
}

// The interface through which the next hop of a static route is reached; none of one that discards.
fn interface_of(state: &Stable, router: RouterId, place: u32) -> Option<IfaceId>
    ensures { option_map_or (λ iface. fact.Connected router iface ∷ []) result []
        ≡ option_map_or (λ row. connected_by router row.from) (static_at state.now.routers router.0 place) [] }
{
    match static_row(state, router, place)?.from {
        BaseFrom::Static(_, iface) => Some(iface),
        BaseFrom::Connected(_) | BaseFrom::Null(_) => None,
    }
}

/// Appends what a static route follows from: its element, and the interface through which it leads.
#[tactic(auto, unfolding(crate::specs::Parents::parents))]
pub(crate) fn push_static(
    state: &Stable,
    router: RouterId,
    place: u32,
    into: &mut Vec<Fact>,
) -> Result<(), AllocError>
    ensures ok { OnOk result (into.new.items
        ≡ into.old.items ++ parents state.now (fact.Static router place)) }
    ensures kept { take (length into.old.items) into.new.items ≡ into.old.items }
{
    if let Some(element) = static_element(state, router, place) {
        into.push(Fact::Element(element))?;
    }
    if let Some(iface) = interface_of(state, router, place) {
        into.push(Fact::Connected(router, iface))?;
    }
    Ok(())
}

// The route that a row of a base table is of.
fn route_of(router: RouterId, from: BaseFrom) -> Fact
    ensures { result ≡ route_of router from }
{
    match from {
        BaseFrom::Connected(iface) => Fact::Connected(router, iface),
        BaseFrom::Static(place, _) | BaseFrom::Null(place) => Fact::Static(router, place),
    }
}

// The row at a place of a router's base table.
fn row_at(state: &Stable, router: RouterId, place: u32) -> Option<BaseRow>
    ensures { result ≡ slice_get (base_rows state.now router.0) place }
{
    base_rows(state, router).get(place as usize).copied()
}

/// Appends what a base row follows from: the route that it is of.
#[tactic(auto, unfolding(crate::specs::Parents::parents))]
pub(crate) fn push_base(
    state: &Stable,
    router: RouterId,
    row: u32,
    into: &mut Vec<Fact>,
) -> Result<(), AllocError>
    ensures ok { OnOk result (into.new.items
        ≡ into.old.items ++ parents state.now (fact.Base router row)) }
    ensures kept { take (length into.old.items) into.new.items ≡ into.old.items }
{
    if let Some(row) = row_at(state, router, row) {
        into.push(route_of(router, row.from))?;
    }
    Ok(())
}

// The row at a place of a router's main table.
fn main_at(state: &Stable, router: RouterId, place: u32) -> Option<MainRow>
    ensures { result ≡ slice_get (main_rows state.now router.0) place }
{
    main_rows(state, router).get(place as usize).copied()
}

// What a main row of a prefix is of.
fn main_of(router: RouterId, prefix: Prefix, from: MainFrom) -> Fact
    ensures { result ≡ main_of router prefix from }
{
    match from {
        MainFrom::Base(place) => Fact::Base(router, place),
        MainFrom::Bgp(place) => Fact::Chosen(router, prefix, place),
        MainFrom::Discard(place) => Fact::Aggregate(router, place),
    }
}

/// Appends what a main row follows from: the base row, the chosen route or the aggregate that it is of.
#[tactic(auto, unfolding(crate::specs::Parents::parents))]
pub(crate) fn push_main(
    state: &Stable,
    router: RouterId,
    row: u32,
    into: &mut Vec<Fact>,
) -> Result<(), AllocError>
    ensures ok { OnOk result (into.new.items
        ≡ into.old.items ++ parents state.now (fact.Main router row)) }
    ensures kept { take (length into.old.items) into.new.items ≡ into.old.items }
{
    if let Some(row) = main_at(state, router, row) {
        into.push(main_of(router, row.prefix, row.from))?;
    }
    Ok(())
}
