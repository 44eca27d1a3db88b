//! Tables of the access lists of a network.

ghost use Rattle.std.specs.Prelude.{◌≡◌, ◌<◌, ◌+◌, ◌^◌, Some, IfOk, length, slice_get};
ghost use Rattle.std.specs.Option.{option_map_or};
ghost use Rattle.nc_types.specs.Config.{ConfigView, config_view};
ghost use Rattle.nc_tables.specs.Filters.{passing_at, passing_by, passes};
ghost use Rattle.nc_tables.specs.declared.filters.Passing.TheVariants.{Free};
ghost use Rattle.nc_filter.specs.Gates.{gate_for, gate_of};
ghost use Rattle.nc_filter.specs.Spots.{IsIndexed};
ghost use Rattle.nc_filter.specs.Tables.{IsOf, IsDeciding, AreKept, AreFilters};

use crate::configs::config_of;
use crate::gates::{Gate, gates_of};
use crate::index::Index;
use crate::kept::Kept;
use crate::names::lists_of;
use crate::said::{lets_by, said_by};
use crate::walks::deciding_in;
use nc_tables::Passing;
use nc_types::{Addr, IfaceId, Network, RouterConfig, RouterId};
use std::alloc::{AllocError, Global};

/// The tables of a router: the filters of its interfaces in both directions, and its entries.
#[derive(Drop)]
pub(crate) struct RouterFilters {
    pub(crate) inward: Vec<Option<Gate>>,
    pub(crate) outward: Vec<Option<Gate>>,
    pub(crate) index: Index,
}

// Those of a configuration.
fn filters_of(alloc: Global, config: &RouterConfig) -> Result<RouterFilters, AllocError>
    requires { length config.now.filters.items < 2 ^ 32 }
    ensures { IfOk result (IsOf (config_view config.now)) }
{
    let lists = lists_of(alloc, &config.filters)?;
    let inward = gates_of(alloc, config, &lists, true)?;
    let outward = gates_of(alloc, config, &lists, false)?;
    let index = Index::new(alloc, &config.filters, &lists)?;
    Ok(RouterFilters {
        inward,
        outward,
        index,
    })
}

// The filter of an interface of a router in a direction.
fn gate_at(filters: &RouterFilters, iface: IfaceId, inward: bool) -> Option<Gate>
    ensures { (c : ConfigView) → IsOf c filters.now → result ≡ gate_of c iface.0 inward }
{
    let gates = if inward {
        &filters.inward
    } else {
        &filters.outward
    };
    let gate = gates.get(iface.0 as usize)?;
    *gate
}

// The entry of a list that decides on the packet of which something is kept. The list is gone through once.
fn deciding(
    kept: &mut Kept,
    network: &Network,
    router: RouterId,
    config: &RouterConfig,
    index: &Index,
    list: usize,
) -> Result<Option<usize>, AllocError>
    requires config { slice_get network.now router.0 ≡ Some (config_view config.now) }
    requires index { IsIndexed config.now.filters.items index.now }
    requires kept { AreKept network.now kept.old }
    ensures kept { AreKept network.now kept.new }
    ensures deciding { IfOk result (IsDeciding network.now kept.old.from.0 kept.old.to.0 router.0 list) }
{
    if let Some(entry) = kept.get(router, list) {
        return Ok(entry);
    }
    let entry = deciding_in(&config.filters, index, list, kept.from, kept.to);
    kept.put(router, list, entry)?;
    Ok(entry)
}

// What the filter at a place says of that packet.
fn passing_in(
    kept: &mut Kept,
    network: &Network,
    router: RouterId,
    config: &RouterConfig,
    index: &Index,
    gate: Gate,
) -> Result<Passing, AllocError>
    requires config { slice_get network.now router.0 ≡ Some (config_view config.now) }
    requires index { IsIndexed config.now.filters.items index.now }
    requires gate { gate_for (config_view config.now) gate.group ≡ Some gate }
    requires few { length config.now.filters.items + length config.now.groups.items < 2 ^ 32 }
    requires kept { AreKept network.now kept.old }
    ensures kept { AreKept network.now kept.new }
    ensures passing { IfOk result (λ answer. answer
        ≡ option_map_or (passing_by kept.old.from.0 kept.old.to.0 (config_view config.now) gate.group)
        (slice_get config.now.groups.items gate.group) Free) }
{
    let Some(list) = gate.list else {
        return Ok(Passing::Free);
    };
    match deciding(kept, network, router, config, index, list)? {
        Some(entry) => Ok(said_by(config, gate.group, entry)),
        None => Ok(Passing::Deny),
    }
}

/// The access lists of a network by tables, with what they said of the last packet. It doesn't hold the network that
/// it was made of.
#[derive(Drop)]
pub struct FilterTables {
    pub(crate) routers: Vec<RouterFilters>,
    pub(crate) kept: Kept,
}

impl FilterTables {
    /// Those of a network. No packet was asked about yet.
    ///
    /// # Errors
    ///
    /// Memory that runs out.
    pub fn new(alloc: Global, network: &Network) -> Result<FilterTables, AllocError>
        ensures { IfOk result (AreFilters network.now) }
    {
        let _few = network.element_count();
        let configs = network.routers();
        let mut routers = Vec::with_capacity(alloc, configs.len())?;
        'routers: for config in configs {
            routers.push(filters_of(alloc, config)?)?;
        }
        Ok(FilterTables {
            routers,
            kept: Kept::new(alloc),
        })
    }

    /// What an interface of a router says of a packet from one address to another that comes in by it, or goes out;
    /// [`Passing::Free`] where there is no such interface or router. A list is gone through once for a packet, as long
    /// as no other one is asked about. The network is that of which the tables were made.
    ///
    /// # Errors
    ///
    /// Memory that runs out.
    pub fn passing(
        &mut self,
        network: &Network,
        router: RouterId,
        iface: IfaceId,
        inward: bool,
        from: Addr,
        to: Addr,
    ) -> Result<Passing, AllocError>
        requires { AreFilters network.now self.old }
        ensures tables { AreFilters network.now self.new }
        ensures passing { IfOk result (λ answer. answer
            ≡ passing_at from.0 to.0 network.now router.0 iface.0 inward) }
    {
        let Some(config) = config_of(network, router) else {
            return Ok(Passing::Free);
        };
        let filters = &self.routers[router.0 as usize];
        let Some(gate) = gate_at(filters, iface, inward) else {
            return Ok(Passing::Free);
        };
        self.kept.turn_to(from, to);
        let passing = passing_in(
            &mut self.kept,
            network,
            router,
            config,
            &filters.index,
            gate,
        )?;
        Ok(passing)
    }

    /// Whether an interface is up and lets a packet from one address to another in, or out; not where there is no such
    /// interface or router.
    ///
    /// # Errors
    ///
    /// Memory that runs out.
    pub fn passes(
        &mut self,
        network: &Network,
        router: RouterId,
        iface: IfaceId,
        inward: bool,
        from: Addr,
        to: Addr,
    ) -> Result<bool, AllocError>
        requires { AreFilters network.now self.old }
        ensures tables { AreFilters network.now self.new }
        ensures passes { IfOk result (λ answer. answer
            ≡ passes from.0 to.0 network.now router.0 iface.0 inward) }
    {
        let passing = self.passing(network, router, iface, inward, from, to)?;
        Ok(lets_by(network, router, iface, passing))
    }
}
