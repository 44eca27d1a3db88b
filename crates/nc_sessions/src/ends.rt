//! Neighbor statements, and the sides of sessions that they make.

ghost use Rattle.std.specs.Prelude.{◌≡◌, ◌<◌, ◌^◌, IfSome, length, slice_get};
ghost use Rattle.std.specs.Option.{option_map};
ghost use Rattle.nc_types.specs.Config.{config_view};
ghost use Rattle.nc_types.specs.Joining.{IsValid};
ghost use Rattle.nc_types.specs.Network.{element_count};
ghost use Rattle.nc_tables.specs.Sessions.{end_at, source_of, side_at};
ghost use Rattle.nc_sessions.specs.Views.{end_view, source_view, side_view};
ghost use Rattle.nc_sessions.specs.Statements.{neighbors_of, statements_of};

use crate::sources::source_iface;
use nc_tables::BaseTables;
use nc_types::{Addr, IfaceId, Neighbor, Network, Process, RouterConfig, RouterId};

/// A neighbor statement, with the process and the router that have it.
#[derive(Clone, Copy)]
pub struct End<'a> {
    pub config: &'a RouterConfig,
    pub process: &'a Process,
    pub statement: &'a Neighbor,
}

/// Where a session starts: an interface that is up, and its address.
#[derive(Clone, Copy, PartialEq, Eq)]
pub(crate) struct Source {
    pub(crate) iface: IfaceId,
    pub(crate) addr: Addr,
}

/// One side of a session: a neighbor statement by its router and its place, and where it starts.
#[derive(Clone, Copy)]
pub(crate) struct Side<'a> {
    pub(crate) router: RouterId,
    pub(crate) place: u32,
    pub(crate) end: End<'a>,
    pub(crate) source: Source,
}

// The configuration of a router.
fn config_at(network: &Network, router: RouterId) -> Option<&RouterConfig>
    ensures config { option_map (λ c. config_view c.now) result ≡ slice_get network.now router.0 }
    ensures valid { IsValid network.now }
    ensures count { element_count network.now < 2 ^ 32 }
{
    let _count = network.element_count();
    network.routers().get(router.0 as usize)
}

// The neighbor statements of a configuration; none where it has no process.
fn neighbors_of(config: &RouterConfig) -> &[Neighbor]
    ensures { result.now ≡ neighbors_of (config_view config.now) }
{
    match &config.process {
        Some(process) => &process.neighbors,
        None => &[],
    }
}

/// The neighbor statements of a router; none where it has no process, and where there is no such
/// router.
pub fn statements(network: &Network, router: RouterId) -> &[Neighbor]
    ensures statements { result.now ≡ statements_of network.now router.0 }
    ensures few { length result.now < 2 ^ 32 }
{
    match config_at(network, router) {
        Some(config) => neighbors_of(config),
        None => &[],
    }
}

/// The neighbor statement at a place of a router; `None` where there is no such statement or
/// router. Takes no memory.
pub fn end_at(network: &Network, router: RouterId, place: u32) -> Option<End<'_>>
    ensures end { option_map end_view result ≡ end_at network.now router.0 place }
    ensures within { IfSome result (λ _. router.0 < length network.now) }
    ensures few { IfSome result (λ e. length e.config.now.interfaces.items < 2 ^ 32) }
{
    let config = config_at(network, router)?;
    let process = config.process.as_ref()?;
    let statement = process.neighbors.get(place as usize)?;
    Some(End {
        config,
        process,
        statement,
    })
}

// The interface from which a neighbor statement of a router starts its session, if it is up, and
// its address.
fn source_of(network: &Network, base: &BaseTables, router: RouterId, end: &End) -> Option<Source>
    requires router { router.0 < length base.now }
    requires tables { length base.now ≡ length network.now }
    requires few { length end.now.config.now.interfaces.items < 2 ^ 32 }
    ensures { option_map source_view result
        ≡ source_of network.now base.now router.0 (end_view end.now) }
{
    let iface = source_iface(network, base, router, end)?;
    let address = network.up(router, iface)?;
    Some(Source {
        iface,
        addr: address.addr,
    })
}

/// The side of the statement at a place of a router, if it has a source.
pub(crate) fn side_at<'a>(
    network: &'a Network,
    base: &BaseTables,
    router: RouterId,
    place: u32,
) -> Option<Side<'a>>
    requires tables { length base.now ≡ length network.now }
    ensures side { option_map side_view result ≡ side_at network.now base.now router.0 place }
    ensures within { IfSome result (λ s. s.router.0 < length network.now) }
    ensures place { IfSome result (λ s. s.place ≡ place) }
{
    let end = end_at(network, router, place)?;
    let source = source_of(network, base, router, &end)?;
    Some(Side {
        router,
        place,
        end,
        source,
    })
}
