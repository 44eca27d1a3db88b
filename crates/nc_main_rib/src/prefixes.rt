//! The prefixes that a router may have main rows for, beside what it learns.

ghost use Rattle.std.specs.Prelude.{◌≡◌, ◌++◌, map, IfOk, OnOk};
ghost use Rattle.nc_tables.specs.Base.{prefix_cmp};
ghost use Rattle.nc_tables.specs.Order.{in_order};
ghost use Rattle.nc_tables.specs.Rounds.{distinct};

use nc_tables::BaseRow;
use nc_types::{AggregateStatement, Prefix};
use std::alloc::{AllocError, Global};

// Adds the prefixes of base rows.
fn add_of_base(prefixes: &mut Vec<Prefix>, rows: &[BaseRow]) -> Result<(), AllocError>
    ensures { OnOk result (prefixes.new.items
        ≡ prefixes.old.items ++ map (λ row. row.prefix) rows.now) }
{
    'rows: for row in rows {
        prefixes.push(row.prefix)?;
    }
    Ok(())
}

// Adds the prefixes of aggregates.
fn add_of_aggregates(
    prefixes: &mut Vec<Prefix>,
    aggregates: &[AggregateStatement],
) -> Result<(), AllocError>
    ensures { OnOk result (prefixes.new.items
        ≡ prefixes.old.items ++ map (λ a. a.prefix) aggregates.now) }
{
    'aggregates: for aggregate in aggregates {
        prefixes.push(aggregate.prefix)?;
    }
    Ok(())
}

/// Prefixes in order (address, then length), each once.
///
/// # Errors
///
/// Memory that runs out.
pub fn in_order(mut prefixes: Vec<Prefix>) -> Result<Vec<Prefix>, AllocError>
    ensures { IfOk result (λ sorted. sorted.items ≡ in_order prefix_cmp (distinct prefixes.items)) }
{
    prefixes.sort()?;
    prefixes.dedup();
    Ok(prefixes)
}

/// The prefixes of a router's base rows and of its aggregates, each once, in order (address, then
/// length).
pub(crate) fn prefixes_of(
    alloc: Global,
    base: &[BaseRow],
    aggregates: &[AggregateStatement],
) -> Result<Vec<Prefix>, AllocError>
    ensures { IfOk result (λ prefixes. prefixes.items
        ≡ in_order prefix_cmp (distinct (map (λ row. row.prefix) base.now
        ++ map (λ a. a.prefix) aggregates.now))) }
{
    let mut prefixes = Vec::new(alloc);
    prefixes.reserve(base.len().saturating_add(aggregates.len()))?;
    add_of_base(&mut prefixes, base)?;
    add_of_aggregates(&mut prefixes, aggregates)?;
    let sorted = in_order(prefixes)?;
    Ok(sorted)
}
