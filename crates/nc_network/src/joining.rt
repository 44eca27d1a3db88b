//! Whether several configurations go together, and the network that they make.

ghost use Rattle.std.specs.Prelude.{◌≡◌, ◌≤◌, length, map, All, OnOk, IfOk};
ghost use Rattle.nc_types.specs.declared.TheConstants.{ROUTER_LIMIT, LINE_LIMIT};
ghost use Rattle.nc_types.specs.Config.{config_view};
ghost use Rattle.nc_types.specs.WellFormed.{IsWellFormed};
ghost use Rattle.nc_types.specs.Joining.{IsValid};
ghost use Rattle.nc_network.specs.Judged.{judged, Names, Overlaps, Addresses, References};
ghost use Rattle.nc_network.specs.Told.{IsTold, clash_fault};

use crate::addresses::address_clash;
use crate::clash::LinePair;
use crate::fault::{JoinFault, LimitWord};
use crate::limits::{many_neighbors, many_prefixes};
use crate::names::name_clash;
use crate::overlaps::overlap_clash;
use crate::references::reference_clash;
use nc_types::{Network, RouterConfig, RouterId};
use std::alloc::Global;

// The fault of two routers of one name.
fn same_name(pair: LinePair) -> JoinFault
    ensures { result ≡ clash_fault Names pair }
{
    JoinFault::SameName {
        first: RouterId(pair.first),
        second: RouterId(pair.second),
        line: pair.second_line,
    }
}

// The fault of two prefixes that overlap.
fn overlap(pair: LinePair) -> JoinFault
    ensures { result ≡ clash_fault Overlaps pair }
{
    JoinFault::Overlap {
        router: RouterId(pair.first),
        first: pair.first_line,
        second: pair.second_line,
    }
}

// The fault of one address of two routers.
fn same_address(pair: LinePair) -> JoinFault
    ensures { result ≡ clash_fault Addresses pair }
{
    JoinFault::SameAddress {
        first: RouterId(pair.first),
        first_line: pair.first_line,
        second: RouterId(pair.second),
        second_line: pair.second_line,
    }
}

// The fault of a reference to what isn't defined.
fn undefined(pair: LinePair) -> JoinFault
    ensures { result ≡ clash_fault References pair }
{
    JoinFault::Undefined {
        router: RouterId(pair.first),
        line: pair.first_line,
    }
}

/// Finds out whether several configurations go together. Faults are looked for in this order: two
/// routers of one name; two interfaces of one router that are up, one prefix inside the other;
/// interfaces of two routers that are up and have one address; a statement that refers to what its
/// router doesn't define; more distinct prefixes than [`crate::PREFIX_LIMIT`]; more neighbors than
/// [`crate::NEIGHBOR_LIMIT`]. Of one kind that of the first router, first line, second router and
/// second line is told. `Memory` may come in place of each answer.
pub fn judge(alloc: Global, routers: &[RouterConfig]) -> Result<(), JoinFault>
    requires { length routers.now ≤ ROUTER_LIMIT }
    ensures told { IsTold (judged (map config_view routers.now)) result }
    ensures valid { OnOk result (All IsWellFormed (map config_view routers.now)
        → IsValid (map config_view routers.now)) }
{
    if let Some(pair) = name_clash(routers) {
        return Err(same_name(pair));
    }
    if let Some(pair) = overlap_clash(alloc, routers)? {
        return Err(overlap(pair));
    }
    if let Some(pair) = address_clash(alloc, routers)? {
        return Err(same_address(pair));
    }
    if let Some(pair) = reference_clash(alloc, routers)? {
        return Err(undefined(pair));
    }
    if many_prefixes(alloc, routers)? {
        return Err(JoinFault::Limit {
            which: LimitWord::Prefixes,
        });
    }
    if many_neighbors(routers) {
        return Err(JoinFault::Limit {
            which: LimitWord::Neighbours,
        });
    }
    Ok(())
}

/// Makes one network of the configurations of several routers, each of a file of at most
/// [`nc_types::LINE_LIMIT`] lines; a router's number is its place among them. A fault is told where
/// [`judge`] tells it, and then no network is made; `Memory` may come in place of each answer.
pub fn join(alloc: Global, routers: Vec<RouterConfig>) -> Result<Network, JoinFault>
    requires few { length routers.items ≤ ROUTER_LIMIT }
    requires formed { All IsWellFormed (map config_view routers.items) }
    requires lines { All (λ c. c.line_count ≤ LINE_LIMIT) routers.items }
    ensures told { IsTold (judged (map config_view routers.items)) result }
    ensures network { IfOk result (λ n. n ≡ map config_view routers.items) }
{
    judge(alloc, &routers)?;
    Ok(Network::new(alloc, routers)?)
}
