//! How a session ends: by its bytes, by `quit`, or by a call that fails.

use crate::ending::Ending;
use crate::example::SINGLE;
use crate::judging::{Expectation, Verdict};
use crate::network::Network;
use crate::row::{Row, add_row};
use crate::tool::Tool;
use crate::trial::{Failing, Pieces, Trial};
use std::alloc::{AllocError, Global};

// A session over one router, and what the run must come to.
#[derive(Clone, Copy)]
struct SessionEnd {
    name: &'static str,
    session: &'static [u8],
    pieces: Pieces,
    failing: Failing,
    ending: Ending,
    written: &'static [u8],
}

// The reply to the test of the router's one route.
const REPLY: &[u8] = b"test 1 facts 4\nstrong 2 weak 0 uncovered 3 outside 4\nr1 ..S.S.UUU\n";

static SESSION_ENDS: [SessionEnd; 9] = [
    SessionEnd {
        name: "no byte, and a second read that would fail",
        session: b"",
        pieces: Pieces::Whole,
        failing: Failing::Read(1),
        ending: Ending::Done,
        written: b"",
    },
    SessionEnd {
        name: "quit before a read that would fail",
        session: b"rib r1 10.0.0.0/24\nquit\nfrob\n",
        pieces: Pieces::Lines,
        failing: Failing::Read(2),
        ending: Ending::Done,
        written: REPLY,
    },
    SessionEnd {
        name: "quit without its line feed",
        session: b"rib r1 10.0.0.0/24\nquit",
        pieces: Pieces::Bytes,
        failing: Failing::Nothing,
        ending: Ending::Done,
        written: REPLY,
    },
    SessionEnd {
        name: "a test without its line feed",
        session: b"rib r1 10.0.0.0/24",
        pieces: Pieces::Bytes,
        failing: Failing::Nothing,
        ending: Ending::Done,
        written: REPLY,
    },
    SessionEnd {
        name: "quit with a further word",
        session: b"quit x\nfrob\n",
        pieces: Pieces::Whole,
        failing: Failing::Nothing,
        ending: Ending::Done,
        written: b"refused syntax\nrefused syntax\n",
    },
    SessionEnd {
        name: "a read that fails in the middle of a line",
        session: b"rib r1 10.0.0.0/24\n",
        pieces: Pieces::Cut(7),
        failing: Failing::Read(1),
        ending: Ending::InputFault,
        written: b"",
    },
    SessionEnd {
        name: "a read that fails behind a test without its line feed",
        session: b"frob\nrib r1 10.0.0.0/24",
        pieces: Pieces::Whole,
        failing: Failing::Read(1),
        ending: Ending::InputFault,
        written: b"refused syntax\n",
    },
    SessionEnd {
        name: "room for ten bytes",
        session: b"rib r1 10.0.0.0/24\nfrob\n",
        pieces: Pieces::Whole,
        failing: Failing::Room(10),
        ending: Ending::OutputFault,
        written: b"test 1 fac",
    },
    SessionEnd {
        name: "room for the replies before quit",
        session: b"frob\nquit\nfrob\n",
        pieces: Pieces::Whole,
        failing: Failing::Room(15),
        ending: Ending::Done,
        written: b"refused syntax\n",
    },
];

// What comes of a session over the router.
fn judge<T: Tool>(
    tool: &T,
    alloc: Global,
    network: &Network,
    end: &SessionEnd,
) -> Result<Verdict, AllocError> {
    let trial = Trial::new(network, end.session);
    let trial = trial.in_pieces(end.pieces).where_fails(end.failing);
    Verdict::of(tool, alloc, trial, Expectation::of(end.ending, end.written))
}

// The rows of the sessions over the router.
fn add_rows<T: Tool>(
    tool: &T,
    alloc: Global,
    network: &Network,
    rows: &mut Vec<Row>,
) -> Result<(), AllocError> {
    for end in &SESSION_ENDS {
        add_row(
            rows,
            SINGLE.name,
            end.name,
            judge(tool, alloc, network, end),
        )?;
    }
    Ok(())
}

/// The rows on how a session ends.
///
/// # Errors
///
/// No memory for the rows or the objects of a run.
pub fn add_session_ends<T: Tool>(
    tool: &T,
    alloc: Global,
    rows: &mut Vec<Row>,
) -> Result<(), AllocError> {
    let network = SINGLE.network(alloc)?;
    add_rows(tool, alloc, &network, rows)
}
