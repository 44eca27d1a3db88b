//! The static routes of a file, each from its statements.

ghost use Rattle.std.specs.Prelude.{◌≡◌, ◌<◌, vec_len, length, ◌++◌, ◌∷◌, [], map, All};
ghost use Rattle.std.specs.Prelude.{OnOk, IfOk};
ghost use Rattle.nc_reader.specs.Gathering.{IsLine};
ghost use Rattle.nc_reader.specs.Parts.{AreStatics, Adds, key_view, static_part, with_statement};
ghost use Rattle.nc_lines.specs.Groups.{changed_at};
ghost use Rattle.nc_reader.specs.Things.{key_of, routes_in};

use indexmap::IndexSet;
use nc_lines::Lines;
use nc_read_link::read_static;
use nc_types::{Addr, ConfigFault, Prefix, StaticRoute, Text, Via};
use std::alloc::{AllocError, Global};

/// By what a static route is told from others.
#[derive(Drop, PartialEq, Eq, Hash)]
pub(crate) struct RouteKey {
    pub(crate) prefix: Prefix,
    pub(crate) interface: Option<Text>,
    pub(crate) hop: Option<Addr>,
}

/// A static route with the lines of its statements.
#[derive(Drop)]
pub(crate) struct RouteLines {
    pub(crate) route: StaticRoute,
    /// The lines, ascending, from 1.
    pub(crate) lines: Vec<u32>,
}

// The key of a route.
fn key_of(alloc: Global, route: &StaticRoute) -> Result<RouteKey, AllocError>
    ensures { IfOk result (λ k. key_view k ≡ key_of route.now) }
{
    let (interface, hop) = match &route.via {
        Via::Null => (None, None),
        Via::Hop(hop) => (None, Some(*hop)),
        Via::Through(reference, hop) => {
            (Some(Text::new(alloc, reference.name.bytes())?), Some(*hop))
        }
    };
    Ok(RouteKey {
        prefix: route.prefix,
        interface,
        hop,
    })
}

// Adds a route of which one statement was read.
fn add(
    alloc: Global,
    parts: &mut Vec<RouteLines>,
    line: u32,
    route: StaticRoute,
) -> Result<(), AllocError>
    ensures { OnOk result (map static_part parts.new.items
        ≡ map static_part parts.old.items ++ record { route = route; lines = line ∷ [] } ∷ []) }
{
    let mut lines = Vec::new(alloc);
    lines.push(line)?;
    parts.push(RouteLines { route, lines })?;
    Ok(())
}

// Lets one more statement decide the route at a place.
fn renew(
    parts: &mut Vec<RouteLines>,
    place: usize,
    line: u32,
    route: StaticRoute,
) -> Result<(), AllocError>
    requires { place < vec_len parts.old }
    ensures { OnOk result (map static_part parts.new.items
        ≡ changed_at (with_statement line route) place (map static_part parts.old.items)) }
{
    let part = &mut parts[place];
    part.lines.push(line)?;
    part.route = route;
    Ok(())
}

// Puts one more statement to its route.
fn put(
    alloc: Global,
    keys: &mut IndexSet<RouteKey>,
    parts: &mut Vec<RouteLines>,
    line: u32,
    route: StaticRoute,
) -> Result<(), AllocError>
    requires { length keys.old.keys ≡ length parts.old.items }
    ensures same { OnOk result (length keys.new.keys ≡ length parts.new.items) }
    ensures more { OnOk result (Adds (record { line = line; route = route })
        keys.old.keys parts.old.items keys.new.keys parts.new.items) }
{
    let (place, is_new) = keys.insert_full(key_of(alloc, &route)?)?;
    if is_new {
        add(alloc, parts, line, route)?;
    } else {
        renew(parts, place, line, route)?;
    }
    Ok(())
}

/// Reads the static routes of these lines, in order of first mention.
///
/// # Errors
///
/// The first faulty line, with its cause; memory that runs out.
pub(crate) fn read_routes(
    alloc: Global,
    lines: &Lines,
    places: &[u32],
) -> Result<Vec<RouteLines>, ConfigFault>
    requires { All (IsLine lines.now) places.now }
    ensures { AreStatics result (routes_in lines.now places.now) }
{
    let mut keys = IndexSet::new(alloc);
    let mut parts = Vec::new(alloc);
    'routes: for line in places {
        let route = match read_static(alloc, lines, *line) {
            Ok(route) => route,
            Err(fault) => return Err(fault),
        };
        put(alloc, &mut keys, &mut parts, *line, route)?;
    }
    Ok(parts)
}
