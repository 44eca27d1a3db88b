//! Sessions that come in pieces, and with carriage returns: the replies are the same.

use crate::example::Example;
use crate::judging::{Expectation, Verdict};
use crate::prepared::Prepared;
use crate::row::{Row, add_row};
use crate::tool::Tool;
use crate::trial::{Pieces, Trial};
use std::alloc::{AllocError, Global};

/// The session cut into two pieces, once behind so many of its bytes, once behind one more, and so
/// on up to the last but one.
///
/// # Errors
///
/// No memory for the objects of a run.
pub fn at_each_place<T: Tool>(
    tool: &T,
    alloc: Global,
    trial: Trial<'_>,
    first: usize,
    wanted: Expectation<'_>,
) -> Result<Verdict, AllocError> {
    let mut verdict = Verdict::new();
    for place in first..trial.session.len() {
        verdict = verdict.and(tool, alloc, trial.in_pieces(Pieces::Cut(place)), wanted)?;
    }
    Ok(verdict)
}

// With what the lines of a session end, and what its runs are called then.
#[derive(Clone, Copy)]
struct LineEnd {
    end: &'static [u8],
    whole: &'static str,
    bytes: &'static str,
    lines: &'static str,
    cut: &'static str,
}

static LINE_ENDS: [LineEnd; 2] = [
    LineEnd {
        end: b"\n",
        whole: "at once",
        bytes: "byte by byte",
        lines: "line by line",
        cut: "cut at each place",
    },
    LineEnd {
        end: b"\r\n",
        whole: "carriage returns, at once",
        bytes: "carriage returns, byte by byte",
        lines: "carriage returns, line by line",
        cut: "carriage returns, cut at each place",
    },
];

// The rows of a session that is read at once, byte by byte, line by line, and cut at each place.
fn add_pieces<T: Tool>(
    tool: &T,
    alloc: Global,
    over: &'static str,
    names: &LineEnd,
    prepared: &Prepared,
    rows: &mut Vec<Row>,
) -> Result<(), AllocError> {
    let (trial, wanted) = (prepared.trial(), prepared.done());
    let whole = Verdict::of(tool, alloc, trial, wanted);
    add_row(rows, over, names.whole, whole)?;
    let bytes = Verdict::of(tool, alloc, trial.in_pieces(Pieces::Bytes), wanted);
    add_row(rows, over, names.bytes, bytes)?;
    let lines = Verdict::of(tool, alloc, trial.in_pieces(Pieces::Lines), wanted);
    add_row(rows, over, names.lines, lines)?;
    let cut = at_each_place(tool, alloc, trial, 1, wanted);
    add_row(rows, over, names.cut, cut)
}

// The rows of an example whose lines end so.
fn add_with_end<T: Tool>(
    tool: &T,
    alloc: Global,
    example: &Example,
    end: &LineEnd,
    rows: &mut Vec<Row>,
) -> Result<(), AllocError> {
    let prepared = Prepared::of(alloc, example, end.end)?;
    add_pieces(tool, alloc, example.name, end, &prepared, rows)
}

/// The rows on how a session comes.
///
/// # Errors
///
/// No memory for the rows or the objects of a run.
pub fn add_cutting<T: Tool>(
    tool: &T,
    alloc: Global,
    example: &Example,
    rows: &mut Vec<Row>,
) -> Result<(), AllocError> {
    for end in &LINE_ENDS {
        add_with_end(tool, alloc, example, end, rows)?;
    }
    Ok(())
}
