//! Sets of communities in memory: calls that no run makes.

use crate::judging::Verdict;
use crate::row::Row;
use nc_community::{gather, union};
use nc_types::Communities;
use std::alloc::{AllocError, Global};

// Whether so many numbers make a set; the first of them is given twice.
fn fit(alloc: Global, count: u32) -> Result<bool, AllocError> {
    let mut values = Vec::new(alloc);
    for value in 0..count {
        values.push(value)?;
    }
    values.push(0)?;
    Ok(gather(alloc, &values)?.is_some())
}

// Whether the union of a set of 1 and 2 and one of 2 and 3 has the three in order.
fn is_joined(alloc: Global, one: &Communities, other: &Communities) -> Result<bool, AllocError> {
    match union(alloc, one, other)? {
        Some(both) => Ok(both.numbers() == [1, 2, 3].as_slice()),
        None => Ok(false),
    }
}

// Whether a set has its union with one of 2 and 3.
fn joins(alloc: Global, one: &Communities) -> Result<bool, AllocError> {
    match gather(alloc, &[3, 2, 3])? {
        Some(other) => is_joined(alloc, one, &other),
        None => Ok(false),
    }
}

// Whether a set of 1 and 2 is made, and joined with one of 2 and 3.
fn are_joined(alloc: Global) -> Result<bool, AllocError> {
    match gather(alloc, &[2, 1])? {
        Some(one) => joins(alloc, &one),
        None => Ok(false),
    }
}

/// The row of the sets: sixty-four members fit and one more doesn't; a union has the members of both
/// in order.
///
/// # Errors
///
/// No memory for the row or the sets.
pub fn add_sets(alloc: Global, rows: &mut Vec<Row>) -> Result<(), AllocError> {
    let is_right = fit(alloc, 64)? && !fit(alloc, 65)? && are_joined(alloc)?;
    rows.push(Row::new("communities", "sets in memory", Verdict::Called(is_right)))?;
    Ok(())
}
