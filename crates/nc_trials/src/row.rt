//! The rows of the table.

use crate::judging::Verdict;
use std::alloc::AllocError;
use std::fmt::{self, Display, Formatter, Write};
use std::io;

/// What came of runs of one kind, over one network.
#[derive(Clone, Copy)]
pub struct Row {
    /// Over what the runs went.
    pub over: &'static str,
    /// What they show.
    pub name: &'static str,
    /// What came of them.
    pub verdict: Verdict,
}

impl Row {
    /// A row.
    pub fn new(over: &'static str, name: &'static str, verdict: Verdict) -> Row {
        Row {
            over,
            name,
            verdict,
        }
    }
}

impl Display for Row {
    fn fmt<W: Write>(&self, f: &mut Formatter<W>) -> fmt::Result {
        write!(f, "{}, {}: {}", self.over, self.name, self.verdict)
    }
}

/// Adds the row of runs of one kind, where there was memory for their objects.
///
/// # Errors
///
/// No memory for the row, or the want of memory that came in place of a verdict.
pub fn add_row(
    rows: &mut Vec<Row>,
    over: &'static str,
    name: &'static str,
    verdict: Result<Verdict, AllocError>,
) -> Result<(), AllocError> {
    rows.push(Row::new(over, name, verdict?))?;
    Ok(())
}

/// Prints a line for each row and, last, how many came to what they must; answers how many did not.
///
/// # Errors
///
/// The output takes no more.
pub fn print_rows(rt: &HostRuntime, rows: &[Row]) -> io::Result<usize> {
    let mut failed: usize = 0;
    for row in rows {
        println!(rt; "{row}")?;
        failed = failed.saturating_add(usize::from(!row.verdict.is_fine()));
    }
    let passed = rows.len().saturating_sub(failed);
    println!(rt; "{passed} passed, {failed} failed")?;
    Ok(failed)
}
