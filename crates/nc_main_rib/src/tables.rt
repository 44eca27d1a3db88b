ghost use Rattle.std.specs.Prelude.{◌≡◌, ◌++◌, ◌^◌, ◌<◌, ◌≤◌, [], All, length, IfOk, IfSome, OnOk};
ghost use Rattle.std.specs.List.Sorted.{IsSortedByKey};
ghost use Rattle.std.specs.Option.{option_map_or};
ghost use Rattle.nc_types.specs.Cidr.{IsCidr};
ghost use Rattle.nc_types.specs.declared.TheConstants.{MULTIPATH_LIMIT};
ghost use Rattle.nc_tables.specs.Base.{base_tables, prefix_cmp};
ghost use Rattle.nc_tables.specs.Longest.{AreByPrefix};
ghost use Rattle.nc_tables.specs.Main.{main_table, main_tables, nearer};
ghost use Rattle.nc_tables.specs.Sessions.{process_of};
ghost use Rattle.nc_main_rib.specs.Sides.{base_in, bgp_rows, chosen_of, ArePassed};

use crate::discards::active_places;
use crate::prefixes::prefixes_of;
use crate::rows::{add_alone, add_rows};
use nc_tables::{BaseRow, BaseTables, BgpTable, ChosenRow, MainRow, MainTables, rows_on};
use nc_types::{AggregateStatement, Network, Prefix, RouterId};
use std::alloc::{AllocError, Global};

// The aggregates of a router; none where it has no BGP process.
fn aggregates_of(network: &Network, router: RouterId) -> &[AggregateStatement]
    requires { router.0 < length network.now }
    ensures { result.now ≡ option_map_or (λ p. p.aggregates) (process_of network.now router.0) [] }
{
    match &network.routers()[router.0 as usize].process {
        Some(process) => &process.aggregates,
        None => &[],
    }
}

// Adds the main rows of a prefix of a router, given its base rows, what is chosen of the prefix by BGP, the place of
// the first active aggregate of the prefix, and how many base rows were passed on the way to it. Passes the prefix's
// base rows, and says how many are passed then.
fn add_prefix(
    main: &mut Vec<MainRow>,
    prefix: Prefix,
    base: &[BaseRow],
    chosen: Option<ChosenRow<'_>>,
    discard: Option<u32>,
    passed: usize,
) -> Result<usize, AllocError>
    requires ordered { IsSortedByKey (λ row. row.prefix) prefix_cmp base.now }
    requires few { length base.now < 2 ^ 32 }
    requires base { ArePassed base.now passed prefix }
    requires own { IfSome chosen (λ row. row.prefix.now ≡ prefix) }
    requires few_chosen { length (chosen_of chosen) ≤ MULTIPATH_LIMIT }
    ensures rows { OnOk result (main.new.items ≡ main.old.items
        ++ nearer (base_in prefix base.now) (bgp_rows prefix discard (chosen_of chosen.entry))) }
    ensures base { IfOk result (λ next. ArePassed base.now next prefix) }
    ensures valid { IsCidr prefix.base prefix.len }
{
    let _len = prefix.len();
    let found = rows_on(base, passed, prefix);
    let rows = &base[found.from..found.to];
    add_rows(main, prefix, rows, found.from, discard, chosen)?;
    Ok(found.to)
}

// The main rows of a router. The rows of both tables stand in order of prefix, and so do the prefixes of base rows
// and of aggregates. A BGP row between two of these prefixes stands alone: nothing else has its prefix.
fn main_table(
    alloc: Global,
    network: &Network,
    base: &BaseTables,
    bgp: &BgpTable,
    router: RouterId,
) -> Result<Vec<MainRow>, AllocError>
    requires router { router.0 < length network.now }
    requires base { base.now ≡ base_tables network.now }
    requires bgp { length bgp.now ≡ length network.now }
    ensures rows { IfOk result (λ main. main.items
        ≡ main_table network.now base.now bgp.now router.0) }
    ensures by_prefix { IfOk result (λ main. AreByPrefix (λ row. row.prefix) main.items) }
{
    let _routers = network.routers();
    let _count = network.element_count();
    let aggregates = aggregates_of(network, router);
    let base_rows = base.rows(router);
    let mut rows = bgp.rows(router);
    let prefixes = prefixes_of(alloc, base_rows, aggregates)?;
    let discards = active_places(alloc, bgp, router, aggregates)?;
    let mut main = Vec::with_capacity(alloc, base_rows.len().saturating_add(rows.bound()))?;
    let mut passed = 0;
    'prefixes: for prefix in &prefixes {
        let (lower, row) = rows.pass(*prefix);
        add_alone(&mut main, lower)?;
        let discard = discards.get(prefix).copied();
        passed = add_prefix(&mut main, *prefix, base_rows, row, discard, passed)?;
    }
    add_alone(&mut main, rows)?;
    main.shrink_to_fit();
    Ok(main)
}

/// The main tables of a network, one a router, for its base tables and a BGP table that has a list
/// for each router. No router has more main rows than a `u32` numbers.
///
/// # Errors
///
/// Memory that runs out.
pub fn main_tables(
    alloc: Global,
    network: &Network,
    base: &BaseTables,
    bgp: &BgpTable,
) -> Result<MainTables, AllocError>
    requires base { base.now ≡ base_tables network.now }
    requires bgp { length bgp.now ≡ length network.now }
    requires few { All (λ rows. length rows < 2 ^ 32) (main_tables network.now base.now bgp.now) }
    ensures { IfOk result (λ main. main ≡ main_tables network.now base.now bgp.now) }
{
    let mut tables = Vec::new(alloc);
    'routers: for router in 0..network.routers().len() {
        let rows = main_table(alloc, network, base, bgp, RouterId(router as u32))?;
        tables.push(rows)?;
    }
    Ok(MainTables::from_rows(tables))
}
