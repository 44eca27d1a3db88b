//! All trials of a tool, in order.

use crate::cutting::add_cutting;
use crate::example::EXAMPLES;
use crate::faults::add_faults;
use crate::limits::add_limits;
use crate::lines::add_long_lines;
use crate::many_tests::add_many_tests;
use crate::refusals::add_refusals;
use crate::row::Row;
use crate::session_ends::add_session_ends;
use crate::tool::Tool;
use std::alloc::{AllocError, Global};

// The rows of the examples, whose sessions come in pieces.
fn add_all_cutting<T: Tool>(
    tool: &T,
    alloc: Global,
    rows: &mut Vec<Row>,
) -> Result<(), AllocError> {
    for example in &EXAMPLES {
        add_cutting(tool, alloc, example, rows)?;
    }
    Ok(())
}

// The rows of the examples, of which calls fail.
fn add_all_faults<T: Tool>(tool: &T, alloc: Global, rows: &mut Vec<Row>) -> Result<(), AllocError> {
    for example in &EXAMPLES {
        add_faults(tool, alloc, example, rows)?;
    }
    Ok(())
}

/// The rows of all trials of a tool, in order. They are lent, so that each row's want of memory
/// leaves them as they are.
///
/// # Errors
///
/// No memory for the rows or the objects of a run.
pub fn add_trials<T: Tool>(tool: &T, alloc: Global, rows: &mut Vec<Row>) -> Result<(), AllocError> {
    add_all_cutting(tool, alloc, rows)?;
    add_all_faults(tool, alloc, rows)?;
    add_session_ends(tool, alloc, rows)?;
    add_refusals(tool, alloc, rows)?;
    add_long_lines(tool, alloc, rows)?;
    add_limits(tool, alloc, rows)?;
    add_many_tests(tool, alloc, rows)
}
