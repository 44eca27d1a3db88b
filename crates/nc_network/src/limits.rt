//! How many prefixes and neighbors several configurations have.

ghost use Rattle.std.specs.Prelude.{◌≡◌, ◌∷◌, [], nat_lt, map, IfOk};
ghost use Rattle.std.specs.List.{filter_map};
ghost use Rattle.std.specs.Option.{option_map, option_map_or};
ghost use Rattle.nc_types.specs.Config.{config_view, process_view};
ghost use Rattle.nc_network.specs.declared.TheConstants.{PREFIX_LIMIT, NEIGHBOR_LIMIT};
ghost use Rattle.nc_network.specs.Judged.{prefixes_in, process_prefixes, prefix_count};
ghost use Rattle.nc_network.specs.Judged.{neighbors_in, neighbor_count};
ghost use Rattle.nc_network.specs.Steps.{Fits};

use crate::{NEIGHBOR_LIMIT, PREFIX_LIMIT};
use indexmap::IndexSet;
use nc_types::{
    AggregateStatement, Interface, NetworkStatement, Prefix, Process, RouterConfig, StaticRoute,
};
use std::alloc::{AllocError, Global};

// Adds a prefix, and tells whether that isn't one too many.
fn add(seen: &mut IndexSet<Prefix>, prefix: Prefix) -> Result<bool, AllocError>
    ensures { IfOk result (λ fits. Fits fits seen.old.keys seen.new.keys (prefix ∷ [])) }
{
    seen.insert(prefix)?;
    Ok(seen.len() <= PREFIX_LIMIT)
}

// Adds the prefixes of interfaces that have an address.
fn add_interfaces(seen: &mut IndexSet<Prefix>, interfaces: &[Interface]) -> Result<bool, AllocError>
    ensures { IfOk result
        (λ fits. Fits fits seen.old.keys seen.new.keys
        (filter_map (λ i. option_map (λ a. a.prefix) i.address) interfaces.now)) }
{
    'items: for item in interfaces {
        if let Some(address) = item.address {
            if !add(seen, address.prefix)? {
                return Ok(false);
            }
        }
    }
    Ok(true)
}

// Adds the prefixes of static routes.
fn add_statics(seen: &mut IndexSet<Prefix>, statics: &[StaticRoute]) -> Result<bool, AllocError>
    ensures { IfOk result
        (λ fits. Fits fits seen.old.keys seen.new.keys (map (λ s. s.prefix) statics.now)) }
{
    'items: for item in statics {
        if !add(seen, item.prefix)? {
            return Ok(false);
        }
    }
    Ok(true)
}

// Adds the prefixes that a process originates.
fn add_networks(
    seen: &mut IndexSet<Prefix>,
    networks: &[NetworkStatement],
) -> Result<bool, AllocError>
    ensures { IfOk result
        (λ fits. Fits fits seen.old.keys seen.new.keys (map (λ n. n.prefix) networks.now)) }
{
    'items: for item in networks {
        if !add(seen, item.prefix)? {
            return Ok(false);
        }
    }
    Ok(true)
}

// Adds the prefixes that a process aggregates.
fn add_aggregates(
    seen: &mut IndexSet<Prefix>,
    aggregates: &[AggregateStatement],
) -> Result<bool, AllocError>
    ensures { IfOk result
        (λ fits. Fits fits seen.old.keys seen.new.keys (map (λ a. a.prefix) aggregates.now)) }
{
    'items: for item in aggregates {
        if !add(seen, item.prefix)? {
            return Ok(false);
        }
    }
    Ok(true)
}

// Adds the prefixes of a process.
fn add_process(seen: &mut IndexSet<Prefix>, process: &Process) -> Result<bool, AllocError>
    ensures { IfOk result
        (λ fits. Fits fits seen.old.keys seen.new.keys
        (process_prefixes (process_view process.now))) }
{
    if !add_networks(seen, &process.networks)? {
        return Ok(false);
    }
    let fits = add_aggregates(seen, &process.aggregates)?;
    Ok(fits)
}

// Adds the prefixes of a process where there is one.
fn add_some(seen: &mut IndexSet<Prefix>, process: &Option<Process>) -> Result<bool, AllocError>
    ensures { IfOk result
        (λ fits. Fits fits seen.old.keys seen.new.keys
        (option_map_or process_prefixes (option_map process_view process.now) [])) }
{
    match process {
        None => Ok(true),
        Some(process) => {
            let fits = add_process(seen, process)?;
            Ok(fits)
        }
    }
}

// Adds the prefixes of a router.
fn add_router(seen: &mut IndexSet<Prefix>, config: &RouterConfig) -> Result<bool, AllocError>
    ensures { IfOk result
        (λ fits. Fits fits seen.old.keys seen.new.keys (prefixes_in (config_view config.now))) }
{
    if !add_interfaces(seen, &config.interfaces)? {
        return Ok(false);
    }
    if !add_statics(seen, &config.statics)? {
        return Ok(false);
    }
    let fits = add_some(seen, &config.process)?;
    Ok(fits)
}

/// Whether there are too many distinct prefixes.
pub(crate) fn many_prefixes(alloc: Global, routers: &[RouterConfig]) -> Result<bool, AllocError>
    ensures { IfOk result
        (λ many. many ≡ nat_lt PREFIX_LIMIT (prefix_count (map config_view routers.now))) }
{
    let mut seen = IndexSet::new(alloc);
    'items: for item in routers {
        if !add_router(&mut seen, item)? {
            return Ok(true);
        }
    }
    Ok(seen.len() > PREFIX_LIMIT)
}

// How many neighbors a router has.
fn neighbors_of(config: &RouterConfig) -> usize
    ensures { result ≡ neighbors_in (config_view config.now) }
{
    match &config.process {
        None => 0,
        Some(process) => process.neighbors.len(),
    }
}

/// Whether there are too many neighbors.
pub(crate) fn many_neighbors(routers: &[RouterConfig]) -> bool
    ensures { result ≡ nat_lt NEIGHBOR_LIMIT (neighbor_count (map config_view routers.now)) }
{
    let mut count = 0;
    'items: for item in routers {
        let neighbors = neighbors_of(item);
        if neighbors > NEIGHBOR_LIMIT - count {
            return true;
        }
        count += neighbors;
    }
    false
}
