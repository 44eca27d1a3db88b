//! Session lines about as long as a line may be, cut at many places.

use crate::cutting::at_each_place;
use crate::example::SINGLE;
use crate::judging::{Expectation, Verdict};
use crate::prepared::Prepared;
use crate::row::{Row, add_row};
use crate::sized::filled;
use crate::tool::Tool;
use crate::trial::{Pieces, Trial};
use std::alloc::{AllocError, Global};

// A long line, and its reply.
#[derive(Clone, Copy)]
struct LongLine {
    name: &'static str,
    // The bytes that it begins with.
    head: &'static [u8],
    // The byte behind them, up to its size.
    fill: u8,
    // How many bytes it has, without its end.
    size: usize,
    end: &'static [u8],
    reply: &'static [u8],
}

// From which place on the lines are cut in two.
const FIRST_CUT: usize = 4_085;

static LONG_LINES: [LongLine; 7] = [
    LongLine {
        name: "a line of 4,096 bytes",
        head: b"",
        fill: b'a',
        size: 4_096,
        end: b"\n",
        reply: b"refused syntax\n",
    },
    LongLine {
        name: "a line of 4,097 bytes",
        head: b"",
        fill: b'a',
        size: 4_097,
        end: b"\n",
        reply: b"refused long\n",
    },
    LongLine {
        name: "a line of 4,096 bytes with a carriage return",
        head: b"",
        fill: b'a',
        size: 4_096,
        end: b"\r\n",
        reply: b"refused syntax\n",
    },
    LongLine {
        name: "a line of 4,097 bytes with a carriage return",
        head: b"",
        fill: b'a',
        size: 4_097,
        end: b"\r\n",
        reply: b"refused long\n",
    },
    LongLine {
        name: "a test of 4,096 bytes",
        head: b"rib r1 10.0.0.0/24",
        fill: b' ',
        size: 4_096,
        end: b"\n",
        reply: b"test 1 facts 4\nstrong 2 weak 0 uncovered 3 outside 4\nr1 ..S.S.UUU\n",
    },
    LongLine {
        name: "a test of 4,097 bytes",
        head: b"rib r1 10.0.0.0/24",
        fill: b' ',
        size: 4_097,
        end: b"\n",
        reply: b"refused long\n",
    },
    LongLine {
        name: "a note of 4,200 bytes",
        head: b"# ",
        fill: b'x',
        size: 4_200,
        end: b"\n",
        reply: b"refused long\n",
    },
];

// A long line and one more.
fn session_of(alloc: Global, line: &LongLine) -> Result<Vec<u8>, AllocError> {
    let mut session = filled(alloc, line.head, line.fill, line.size)?;
    session.extend_from_slice(line.end)?;
    session.extend_from_slice(b"frob\n")?;
    Ok(session)
}

// The replies to both.
fn replies_to(alloc: Global, line: &LongLine) -> Result<Vec<u8>, AllocError> {
    let mut replies = line.reply.to_vec(alloc)?;
    replies.extend_from_slice(b"refused syntax\n")?;
    Ok(replies)
}

// What comes of a session that is read at once, byte by byte, and cut at places near its end.
fn near_its_end<T: Tool>(
    tool: &T,
    alloc: Global,
    trial: Trial<'_>,
    wanted: Expectation<'_>,
) -> Result<Verdict, AllocError> {
    let cuts = at_each_place(tool, alloc, trial, FIRST_CUT, wanted)?;
    let whole = cuts.and(tool, alloc, trial, wanted)?;
    whole.and(tool, alloc, trial.in_pieces(Pieces::Bytes), wanted)
}

// A router, with a session of a long line and one more.
fn prepare(alloc: Global, line: &LongLine) -> Result<Prepared, AllocError> {
    let session = session_of(alloc, line)?;
    let replies = replies_to(alloc, line)?;
    Prepared::new(alloc, &SINGLE, session, replies)
}

// What comes of that session.
fn judge<T: Tool>(tool: &T, alloc: Global, line: &LongLine) -> Result<Verdict, AllocError> {
    let prepared = prepare(alloc, line)?;
    near_its_end(tool, alloc, prepared.trial(), prepared.done())
}

/// The rows on long lines.
///
/// # Errors
///
/// No memory for the rows or the objects of a run.
pub fn add_long_lines<T: Tool>(
    tool: &T,
    alloc: Global,
    rows: &mut Vec<Row>,
) -> Result<(), AllocError> {
    for line in &LONG_LINES {
        add_row(rows, SINGLE.name, line.name, judge(tool, alloc, line))?;
    }
    Ok(())
}
