//! Each limit, and one past it.

use crate::ending::Ending;
use crate::example::SINGLE;
use crate::judging::{Expectation, Verdict};
use crate::network::Network;
use crate::row::{Row, add_row};
use crate::sized::{
    NOTES, notes, quit_at, with_bytes, with_lines, with_neighbors, with_networks, with_routes,
};
use crate::tool::Tool;
use crate::trial::{Failing, Trial};
use std::alloc::{AllocError, Global};

// The limits stand here as the documents have them, so a change of one in the code is seen.

// How many files a network may have.
const ROUTERS: usize = 256;

// How many bytes a file may have.
const BYTES: usize = 4_194_304;

// How many lines a file may have.
const LINES: usize = 65_535;

// How many prefixes a network may have.
const PREFIXES: usize = 1_024;

// How many neighbors a network may have.
const NEIGHBORS: usize = 1_024;

// Among how many files neighbors are shared.
const SHARING: usize = 16;

// How many bytes a session may have.
const SESSION: usize = 16_777_216;

// What a run is given so much of.
#[derive(Clone, Copy)]
enum Given {
    // Files.
    Files(usize),
    // Words for a file that isn't there.
    Words(usize),
    // Bytes of a file.
    Bytes(usize),
    // Lines of a file.
    Lines(usize),
    // Static routes of a router, of prefixes that differ.
    Routes(usize),
    // Networks of a router, of prefixes that differ.
    Networks(usize),
    // Neighbors of a router.
    Neighbors(usize),
    // Neighbors of several routers, so many more than a network may have.
    Shared(usize),
    // Bytes behind a session at its limit.
    Session(&'static [u8]),
    // Bytes of a longer session through the line feed of its `quit`.
    QuitAt(usize),
}

// So much of something, and what a run over it must come to.
#[derive(Clone, Copy)]
struct Limit {
    name: &'static str,
    given: Given,
    ending: Ending,
    written: &'static [u8],
}

static LIMITS: [Limit; 20] = [
    Limit {
        name: "256 files",
        given: Given::Files(ROUTERS),
        ending: Ending::Done,
        written: b"",
    },
    Limit {
        name: "257 files",
        given: Given::Files(ROUTERS + 1),
        ending: Ending::Limit,
        written: b"refused limit routers\n",
    },
    Limit {
        name: "256 words, the first file not there",
        given: Given::Words(ROUTERS),
        ending: Ending::FileFault,
        written: b"",
    },
    Limit {
        name: "257 words, none of them entered",
        given: Given::Words(ROUTERS + 1),
        ending: Ending::Limit,
        written: b"refused limit routers\n",
    },
    Limit {
        name: "a file of 4,194,304 bytes",
        given: Given::Bytes(BYTES),
        ending: Ending::Done,
        written: b"",
    },
    Limit {
        name: "a file of one byte more",
        given: Given::Bytes(BYTES + 1),
        ending: Ending::Limit,
        written: b"refused limit bytes\n",
    },
    Limit {
        name: "a file of 65,535 lines",
        given: Given::Lines(LINES),
        ending: Ending::Done,
        written: b"",
    },
    Limit {
        name: "a file of one line more",
        given: Given::Lines(LINES + 1),
        ending: Ending::Limit,
        written: b"refused limit lines\n",
    },
    Limit {
        name: "1,024 prefixes",
        given: Given::Routes(PREFIXES),
        ending: Ending::Done,
        written: b"",
    },
    Limit {
        name: "1,025 prefixes",
        given: Given::Routes(PREFIXES + 1),
        ending: Ending::Limit,
        written: b"refused limit prefixes\n",
    },
    Limit {
        name: "1,024 networks",
        given: Given::Networks(PREFIXES),
        ending: Ending::Done,
        written: b"",
    },
    Limit {
        name: "1,025 networks",
        given: Given::Networks(PREFIXES + 1),
        ending: Ending::Limit,
        written: b"refused limit prefixes\n",
    },
    Limit {
        name: "1,024 neighbors",
        given: Given::Neighbors(NEIGHBORS),
        ending: Ending::Done,
        written: b"",
    },
    Limit {
        name: "1,025 neighbors",
        given: Given::Neighbors(NEIGHBORS + 1),
        ending: Ending::Limit,
        written: b"refused limit neighbours\n",
    },
    Limit {
        name: "1,024 neighbors of 16 files",
        given: Given::Shared(0),
        ending: Ending::Done,
        written: b"",
    },
    Limit {
        name: "1,025 neighbors of 16 files",
        given: Given::Shared(1),
        ending: Ending::Limit,
        written: b"refused limit neighbours\n",
    },
    Limit {
        name: "a session of 16,777,216 bytes",
        given: Given::Session(b""),
        ending: Ending::Done,
        written: b"",
    },
    Limit {
        name: "a session of one byte more",
        given: Given::Session(b"#"),
        ending: Ending::Limit,
        written: b"refused limit session\n",
    },
    Limit {
        name: "quit at the limit of a longer session",
        given: Given::QuitAt(SESSION),
        ending: Ending::Done,
        written: b"",
    },
    Limit {
        name: "quit one byte past the limit",
        given: Given::QuitAt(SESSION + 1),
        ending: Ending::Limit,
        written: b"refused limit session\n",
    },
];

// One run over a single file, with no session.
fn over_file<T: Tool>(
    tool: &T,
    alloc: Global,
    text: &[u8],
    wanted: Expectation<'_>,
) -> Result<Verdict, AllocError> {
    let mut network = Network::new(alloc);
    network.add_file(alloc, "r1.cfg", text)?;
    Verdict::of(tool, alloc, Trial::new(&network, b""), wanted)
}

// The same of a file that is made first, where there was memory for it.
fn over_text<T: Tool>(
    tool: &T,
    alloc: Global,
    text: Result<Vec<u8>, AllocError>,
    wanted: Expectation<'_>,
) -> Result<Verdict, AllocError> {
    let text = text?;
    over_file(tool, alloc, &text, wanted)
}

// One run over a single router with this session.
fn over_router<T: Tool>(
    tool: &T,
    alloc: Global,
    session: &[u8],
    wanted: Expectation<'_>,
) -> Result<Verdict, AllocError> {
    let network = SINGLE.network(alloc)?;
    Verdict::of(tool, alloc, Trial::new(&network, session), wanted)
}

// The same with a session that is made first, where there was memory for it.
fn over_session<T: Tool>(
    tool: &T,
    alloc: Global,
    session: Result<Vec<u8>, AllocError>,
    wanted: Expectation<'_>,
) -> Result<Verdict, AllocError> {
    let session = session?;
    over_router(tool, alloc, &session, wanted)
}

// Adds a router of which only the name is said.
fn add_router(alloc: Global, network: &mut Network, number: usize) -> Result<(), AllocError> {
    let name = format!(in alloc; "r{number}")?;
    let text = format!(in alloc; "hostname r{number}\n")?;
    network.add_file(alloc, name.as_str(), text.as_str().as_bytes())
}

// A run over so many routers, each with a file of its own.
fn over_routers<T: Tool>(
    tool: &T,
    alloc: Global,
    count: usize,
    wanted: Expectation<'_>,
) -> Result<Verdict, AllocError> {
    let mut network = Network::new(alloc);
    for number in 0..count {
        add_router(alloc, &mut network, number)?;
    }
    Verdict::of(tool, alloc, Trial::new(&network, b""), wanted)
}

// A run over so many words for a file that isn't there, where the first call of the files would
// fail besides.
fn over_words<T: Tool>(
    tool: &T,
    alloc: Global,
    count: usize,
    wanted: Expectation<'_>,
) -> Result<Verdict, AllocError> {
    let mut network = Network::new(alloc);
    for _ in 0..count {
        network.add_word(alloc, "r1.cfg")?;
    }
    let trial = Trial::new(&network, b"").where_fails(Failing::Files(0));
    Verdict::of(tool, alloc, trial, wanted)
}

// Adds a router with so many neighbors, named by its place.
fn add_sharing(
    alloc: Global,
    network: &mut Network,
    place: usize,
    count: usize,
) -> Result<(), AllocError> {
    let name = format!(in alloc; "r{place}")?;
    let text = with_neighbors(alloc, name.as_str(), count)?;
    network.add_file(alloc, name.as_str(), &text)
}

// One run over files that share neighbors evenly, and the first of which has so many more.
fn over_shared<T: Tool>(
    tool: &T,
    alloc: Global,
    more: usize,
    wanted: Expectation<'_>,
) -> Result<Verdict, AllocError> {
    let mut network = Network::new(alloc);
    for place in 0..SHARING {
        let extra = if place == 0 { more } else { 0 };
        let count = (NEIGHBORS / SHARING).saturating_add(extra);
        add_sharing(alloc, &mut network, place, count)?;
    }
    Verdict::of(tool, alloc, Trial::new(&network, b""), wanted)
}

// What comes of a run that is given so much.
fn judge<T: Tool>(tool: &T, alloc: Global, limit: &Limit) -> Result<Verdict, AllocError> {
    let wanted = Expectation::of(limit.ending, limit.written);
    match limit.given {
        Given::Files(count) => over_routers(tool, alloc, count, wanted),
        Given::Words(count) => over_words(tool, alloc, count, wanted),
        Given::Bytes(count) => over_text(tool, alloc, with_bytes(alloc, count), wanted),
        Given::Lines(count) => over_text(tool, alloc, with_lines(alloc, count), wanted),
        Given::Routes(count) => over_text(tool, alloc, with_routes(alloc, count), wanted),
        Given::Networks(count) => over_text(tool, alloc, with_networks(alloc, count), wanted),
        Given::Neighbors(count) => {
            over_text(tool, alloc, with_neighbors(alloc, "r1", count), wanted)
        }
        Given::Shared(more) => over_shared(tool, alloc, more, wanted),
        Given::Session(last) => over_session(tool, alloc, notes(alloc, NOTES, last), wanted),
        Given::QuitAt(place) => over_session(tool, alloc, quit_at(alloc, place), wanted),
    }
}

/// The rows on limits but for that of tests.
///
/// # Errors
///
/// No memory for the rows or the objects of a run.
pub fn add_limits<T: Tool>(tool: &T, alloc: Global, rows: &mut Vec<Row>) -> Result<(), AllocError> {
    for limit in &LIMITS {
        add_row(rows, "limits", limit.name, judge(tool, alloc, limit))?;
    }
    Ok(())
}
