//! The filters of a router's interfaces, each with its list.

ghost use Rattle.std.specs.Prelude.{◌≡◌, IfOk};
ghost use Rattle.nc_types.specs.Config.{config_view};
ghost use Rattle.nc_filter.specs.Names.{AreLists, AreSides};
ghost use Rattle.nc_filter.specs.Gates.{gate_by, gate_for, AreGates};

use crate::names::sides_of;
use nc_types::{Interface, RouterConfig};
use std::alloc::{AllocError, Global};
use std::collections::HashMap;

/// The filter of an interface in a direction, by its place, and the place of the first entry of its list; `None` where
/// the list has no entry.
#[derive(Clone, Copy)]
pub(crate) struct Gate {
    pub(crate) group: usize,
    pub(crate) list: Option<usize>,
}

// The filter at a place.
fn gate_for(config: &RouterConfig, lists: &HashMap<Vec<u8>, usize>, group: usize) -> Option<Gate>
    requires { AreLists config.now.filters.items lists.now }
    ensures { result ≡ gate_for (config_view config.now) group }
{
    let filter = config.groups.get(group)?;
    let list = lists.get(filter.list.bytes()).copied();
    Some(Gate { group, list })
}

// The filter of an interface.
fn gate_by(
    config: &RouterConfig,
    lists: &HashMap<Vec<u8>, usize>,
    sides: &HashMap<Vec<u8>, usize>,
    inward: bool,
    interface: &Interface,
) -> Option<Gate>
    requires lists { AreLists config.now.filters.items lists.now }
    requires sides { AreSides config.now.groups.items inward sides.now }
    ensures { result ≡ gate_by (config_view config.now) inward interface.now }
{
    let group = sides.get(interface.name.bytes()).copied()?;
    gate_for(config, lists, group)
}

/// The filters of a router's interfaces in a direction, by the interfaces' places.
///
/// # Errors
///
/// Memory that runs out.
pub(crate) fn gates_of(
    alloc: Global,
    config: &RouterConfig,
    lists: &HashMap<Vec<u8>, usize>,
    inward: bool,
) -> Result<Vec<Option<Gate>>, AllocError>
    requires { AreLists config.now.filters.items lists.now }
    ensures { IfOk result (λ gates. AreGates (config_view config.now) inward gates.items) }
{
    let sides = sides_of(alloc, &config.groups, inward)?;
    let mut gates = Vec::with_capacity(alloc, config.interfaces.len())?;
    'interfaces: for interface in &config.interfaces {
        gates.push(gate_by(config, lists, &sides, inward, interface))?;
    }
    Ok(gates)
}
