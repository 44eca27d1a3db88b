//! The ways of a router as a packet takes them: by one that access lists don't let it pass, it is lost.

ghost use Rattle.std.specs.Prelude.{◌≡◌, IfOk};
ghost use Rattle.std.specs.Option.{ForSome};
ghost use Rattle.nc_tables.specs.Flows.{enters, leaves, lets};
ghost use Rattle.nc_filter.specs.Tables.{AreFilters};
ghost use Rattle.nc_trace.specs.Found.{taken, taken_from};
ghost use Rattle.nc_trace.specs.Views.{alternative_view, outcome_view};

use crate::alternative::{Alternative, Outcome};
use crate::exits::exit_iface;
use crate::packet::Packet;
use nc_filter::{FilterTables, passes};
use nc_tables::Stable;
use nc_types::{Addr, RouterId};
use std::alloc::AllocError;

// Whether the interface by which a way leaves its router lets a packet out.
fn leaves(state: &Stable, router: RouterId, from: Addr, to: Addr, way: Alternative) -> bool
    ensures { result ≡ leaves state.now from.0 to.0 router.0 (alternative_view way) }
{
    match exit_iface(state, router, to, way) {
        Some(iface) => passes(state.network(), router, iface, false, from, to),
        None => false,
    }
}

// Whether the interface to which a packet goes lets it in; where it is delivered nothing is asked.
fn enters(state: &Stable, from: Addr, to: Addr, outcome: Outcome) -> bool
    ensures { result ≡ enters state.now from.0 to.0 (outcome_view outcome) }
{
    match outcome {
        Outcome::Deliver => true,
        Outcome::Go(next, iface) => passes(state.network(), next, iface, true, from, to),
        Outcome::Lost => false,
    }
}

// Whether a way lets a packet pass.
fn lets(state: &Stable, router: RouterId, from: Addr, to: Addr, way: Alternative) -> bool
    ensures { result ≡ lets state.now from.0 to.0 router.0 (alternative_view way) }
{
    enters(state, from, to, way.outcome) && leaves(state, router, from, to, way)
}

// A way of a router as a packet takes it that comes from an address.
fn filtered(state: &Stable, router: RouterId, from: Addr, to: Addr, way: Alternative) -> Alternative
    ensures { alternative_view result ≡ taken state.now from.0 to.0 router.0 (alternative_view way) }
{
    if lets(state, router, from, to, way) {
        return way;
    }
    Alternative {
        outcome: Outcome::Lost,
        ..way
    }
}

/// A way of a router as a packet takes it. Takes no memory.
#[inline(always)]
pub(crate) fn taken(
    state: &Stable,
    router: RouterId,
    packet: Packet,
    way: Alternative,
) -> Alternative
    ensures { alternative_view result
        ≡ taken_from state.now packet.from packet.to.0 router.0 (alternative_view way) }
{
    match packet.from {
        Some(from) => filtered(state, router, from, packet.to, way),
        None => way,
    }
}

// The first by tables.
fn leaves_by(
    state: &Stable,
    tables: &mut FilterTables,
    router: RouterId,
    from: Addr,
    to: Addr,
    way: Alternative,
) -> Result<bool, AllocError>
    requires { AreFilters state.now.routers tables.old }
    ensures tables { AreFilters state.now.routers tables.new }
    ensures leaves { IfOk result (λ answer. answer
        ≡ leaves state.now from.0 to.0 router.0 (alternative_view way)) }
{
    match exit_iface(state, router, to, way) {
        Some(iface) => {
            let passes = tables.passes(state.network(), router, iface, false, from, to)?;
            Ok(passes)
        }
        None => Ok(false),
    }
}

// The second by tables.
fn enters_by(
    state: &Stable,
    tables: &mut FilterTables,
    from: Addr,
    to: Addr,
    outcome: Outcome,
) -> Result<bool, AllocError>
    requires { AreFilters state.now.routers tables.old }
    ensures tables { AreFilters state.now.routers tables.new }
    ensures enters { IfOk result (λ answer. answer
        ≡ enters state.now from.0 to.0 (outcome_view outcome)) }
{
    match outcome {
        Outcome::Deliver => Ok(true),
        Outcome::Go(next, iface) => {
            let passes = tables.passes(state.network(), next, iface, true, from, to)?;
            Ok(passes)
        }
        Outcome::Lost => Ok(false),
    }
}

// Both by tables.
fn lets_by(
    state: &Stable,
    tables: &mut FilterTables,
    router: RouterId,
    from: Addr,
    to: Addr,
    way: Alternative,
) -> Result<bool, AllocError>
    requires { AreFilters state.now.routers tables.old }
    ensures tables { AreFilters state.now.routers tables.new }
    ensures lets { IfOk result (λ answer. answer
        ≡ lets state.now from.0 to.0 router.0 (alternative_view way)) }
{
    if !enters_by(state, tables, from, to, way.outcome)? {
        return Ok(false);
    }
    let leaves = leaves_by(state, tables, router, from, to, way)?;
    Ok(leaves)
}

// A way of a router as a packet takes it that comes from an address, by the tables where they were made.
fn filtered_by(
    state: &Stable,
    tables: &mut Option<FilterTables>,
    router: RouterId,
    from: Addr,
    to: Addr,
    way: Alternative,
) -> Result<Alternative, AllocError>
    requires { ForSome tables.old (AreFilters state.now.routers) }
    ensures tables { ForSome tables.new (AreFilters state.now.routers) }
    ensures taken { IfOk result (λ answer. alternative_view answer
        ≡ taken state.now from.0 to.0 router.0 (alternative_view way)) }
{
    let Some(tables) = tables else {
        return Ok(filtered(state, router, from, to, way));
    };
    if lets_by(state, tables, router, from, to, way)? {
        return Ok(way);
    }
    Ok(Alternative {
        outcome: Outcome::Lost,
        ..way
    })
}

/// A way of a router as a packet takes it, by the tables of access lists where they were made.
///
/// # Errors
///
/// Memory that runs out.
#[inline(always)]
pub(crate) fn taken_by(
    state: &Stable,
    tables: &mut Option<FilterTables>,
    router: RouterId,
    packet: Packet,
    way: Alternative,
) -> Result<Alternative, AllocError>
    requires { ForSome tables.old (AreFilters state.now.routers) }
    ensures tables { ForSome tables.new (AreFilters state.now.routers) }
    ensures taken { IfOk result (λ answer. alternative_view answer
        ≡ taken_from state.now packet.from packet.to.0 router.0 (alternative_view way)) }
{
    match packet.from {
        Some(from) => {
            let way = filtered_by(state, tables, router, from, packet.to, way)?;
            Ok(way)
        }
        None => Ok(way),
    }
}
