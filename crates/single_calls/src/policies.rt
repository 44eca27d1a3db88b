//! Entries of prefix lists, and what maps make of routes.

ghost use Rattle.nc_types.specs.Config.{config_view};
ghost use Rattle.nc_types.specs.WellFormed.{IsWellFormed};

use crate::network::{config, lines_of};
use nc_policy::{Verdict, apply};
use nc_read_policy::read_list_entry;
use nc_tables::{Path, Place, Route};
use nc_types::{Addr, Cause, Communities, ConfigFault, OriginCode, Prefix, RouterConfig};
use std::alloc::{AllocError, Global};

// 10.9.0.0/16
fn lan() -> Prefix {
    Prefix::around(Addr(0x0a09_0000), 16)
}

/// An entry is read with its name, its prefix, its least and its greatest length.
///
/// # Errors
///
/// Memory that runs out.
pub fn reads_an_entry(alloc: Global) -> Result<bool, AllocError> {
    let Some(lines) = lines_of(alloc, b"ip prefix-list LAN permit 10.9.0.0/16 le 24\n")? else {
        return Ok(false);
    };
    if lines.count() < 1 {
        return Ok(false);
    }
    match read_list_entry(alloc, &lines, 1, 7) {
        Ok((name, entry)) => Ok(
            name.bytes() == b"LAN".as_slice()
                && entry.seq == 12
                && entry.prefix == lan()
                && entry.permit
                && entry.low == 16
                && entry.high == 24,
        ),
        Err(_) => Ok(false),
    }
}

/// A line that is none is refused for its syntax.
///
/// # Errors
///
/// Memory that runs out.
pub fn refuses_a_line(alloc: Global) -> Result<bool, AllocError> {
    let Some(lines) = lines_of(alloc, b"ip prefix-list LAN permit 10.9.0.0\n")? else {
        return Ok(false);
    };
    if lines.count() < 1 {
        return Ok(false);
    }
    match read_list_entry(alloc, &lines, 1, 0) {
        Err(ConfigFault::Bad { line, cause }) => Ok(line == 1 && cause == Cause::Syntax),
        _ => Ok(false),
    }
}

// A route of that prefix with a metric of 7.
fn route(alloc: Global) -> Route {
    Route {
        prefix: lan(),
        path: Path::empty(),
        next_hop: Addr(0),
        preference: 100,
        metric: 7,
        origin: OriginCode::Igp,
        communities: Communities::new(alloc),
    }
}

// What the router's map of this name makes of the route.
fn verdict(alloc: Global, config: &RouterConfig, map: &[u8]) -> Result<Verdict, AllocError>
    requires { IsWellFormed (config_view config.now) }
{
    let route = route(alloc);
    apply(alloc, config, map, &route)
}

// Whether a route is permitted by a first clause that sets the metric, and by the first entry of a list.
fn is_permitted(verdict: &Verdict) -> bool {
    match verdict {
        Verdict::Deny => false,
        Verdict::Permit {
            route,
            clause,
            entry,
            community,
        } => {
            route.metric == 50
                && *clause == 0
                && *entry == Some(Place { list: 0, entry: 0 })
                && community.is_none()
        }
    }
}

/// A map permits a route by its first clause, which sets the metric, and by the entry of its list.
///
/// # Errors
///
/// Memory that runs out.
pub fn permits(alloc: Global) -> Result<bool, AllocError> {
    let Some(config) = config(alloc)? else {
        return Ok(false);
    };
    let verdict = verdict(alloc, &config, b"OUT")?;
    Ok(is_permitted(&verdict))
}

/// A map that no clause names permits nothing.
///
/// # Errors
///
/// Memory that runs out.
pub fn denies(alloc: Global) -> Result<bool, AllocError> {
    let Some(config) = config(alloc)? else {
        return Ok(false);
    };
    let verdict = verdict(alloc, &config, b"IN")?;
    Ok(matches!(verdict, Verdict::Deny))
}
