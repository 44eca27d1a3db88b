//! Words, files and generated networks that are refused before the session is read, also where that can't be written.

use crate::ending::Ending;
use crate::judging::{Expectation, Verdict};
use crate::network::{Config, Network};
use crate::row::{Row, add_row};
use crate::tool::Tool;
use crate::trial::{Failing, Trial};
use std::alloc::{AllocError, Global};

// What a run is given that reads no session, what of it fails, and what it must come to.
#[derive(Clone, Copy)]
struct Refused {
    name: &'static str,
    words: &'static [&'static str],
    failing: Failing,
    ending: Ending,
    written: &'static [u8],
}

// A file in order, one with a mask that isn't ones followed by zeros, and one whose routing settles
// in two rounds.
const FILES: [Config; 3] = [
    Config {
        name: "good.cfg",
        text: b"hostname r1\n",
    },
    Config {
        name: "bad.cfg",
        text: b"hostname r2\nip route 10.0.0.0 255.0.255.0 10.0.0.2\n",
    },
    Config {
        name: "begun.cfg",
        text: b"hostname r3\nip route 10.0.0.0 255.0.0.0 Null0\nrouter bgp 65001\n network 10.0.0.0\n",
    },
];

// A session that none of the runs may answer.
const SESSION: &[u8] = b"frob\n";

static REFUSALS: [Refused; 20] = [
    Refused {
        name: "no word",
        words: &[],
        failing: Failing::Nothing,
        ending: Ending::Usage,
        written: b"refused usage\n",
    },
    Refused {
        name: "no word, and a write that fails",
        words: &[],
        failing: Failing::Write(0),
        ending: Ending::OutputFault,
        written: b"",
    },
    Refused {
        name: "no word, and room for ten bytes",
        words: &[],
        failing: Failing::Room(10),
        ending: Ending::OutputFault,
        written: b"refused us",
    },
    Refused {
        name: "a word with a dash, and a call of the files that would fail",
        words: &["good.cfg", "-v"],
        failing: Failing::Files(0),
        ending: Ending::Usage,
        written: b"refused usage\n",
    },
    Refused {
        name: "a file that isn't there",
        words: &["good.cfg", "other.cfg"],
        failing: Failing::Nothing,
        ending: Ending::FileFault,
        written: b"",
    },
    Refused {
        name: "a faulty file, and a read of the session that would fail",
        words: &["bad.cfg"],
        failing: Failing::Read(0),
        ending: Ending::Config,
        written: b"refused config bad.cfg 2 syntax\n",
    },
    Refused {
        name: "a faulty file, and a write that fails",
        words: &["bad.cfg"],
        failing: Failing::Write(0),
        ending: Ending::OutputFault,
        written: b"",
    },
    Refused {
        name: "a faulty file, and room for twenty bytes",
        words: &["bad.cfg"],
        failing: Failing::Room(20),
        ending: Ending::OutputFault,
        written: b"refused config bad.c",
    },
    Refused {
        name: "a faulty file before one that would not be entered",
        words: &["bad.cfg", "good.cfg"],
        failing: Failing::Files(3),
        ending: Ending::Config,
        written: b"refused config bad.cfg 2 syntax\n",
    },
    Refused {
        name: "a file that is not entered before a faulty one",
        words: &["good.cfg", "bad.cfg"],
        failing: Failing::Files(0),
        ending: Ending::FileFault,
        written: b"",
    },
    Refused {
        name: "a round too few, and a read of the session that would fail",
        words: &["--rounds", "1", "begun.cfg"],
        failing: Failing::Read(0),
        ending: Ending::Unstable,
        written: b"refused unstable 1\n",
    },
    Refused {
        name: "a round too few, and a write that fails",
        words: &["--rounds=1", "begun.cfg"],
        failing: Failing::Write(0),
        ending: Ending::OutputFault,
        written: b"",
    },
    Refused {
        name: "a round too few, and room for ten bytes",
        words: &["begun.cfg", "--rounds", "1"],
        failing: Failing::Room(10),
        ending: Ending::OutputFault,
        written: b"refused un",
    },
    Refused {
        name: "three pods",
        words: &["--fat-tree", "3"],
        failing: Failing::Nothing,
        ending: Ending::Usage,
        written: b"refused usage\n",
    },
    Refused {
        name: "a file beside a generated network",
        words: &["--fat-tree=2", "good.cfg"],
        failing: Failing::Nothing,
        ending: Ending::Usage,
        written: b"refused usage\n",
    },
    Refused {
        name: "a generated network in a round too few, and a call of the files that would fail",
        words: &["--fat-tree", "2", "--rounds", "5"],
        failing: Failing::Files(0),
        ending: Ending::Unstable,
        written: b"refused unstable 5\n",
    },
    Refused {
        name: "a generated network in a round too few, and a read of the session that would fail",
        words: &["--rounds=5", "--fat-tree=2"],
        failing: Failing::Read(0),
        ending: Ending::Unstable,
        written: b"refused unstable 5\n",
    },
    Refused {
        name: "a generated network in a round too few, and a write that fails",
        words: &["--fat-tree", "2", "--rounds=5"],
        failing: Failing::Write(0),
        ending: Ending::OutputFault,
        written: b"",
    },
    Refused {
        name: "a generated network, and a write that fails",
        words: &["--fat-tree", "2"],
        failing: Failing::Write(0),
        ending: Ending::OutputFault,
        written: b"",
    },
    Refused {
        name: "a generated network, and room for ten bytes",
        words: &["--fat-tree", "2"],
        failing: Failing::Room(10),
        ending: Ending::OutputFault,
        written: b"fat-tree 2",
    },
];

// The files, under these words.
fn named(alloc: Global, words: &[&str]) -> Result<Network, AllocError> {
    let mut network = Network::new(alloc);
    for file in &FILES {
        network.keep_file(alloc, file.name, file.text)?;
    }
    for word in words {
        network.add_word(alloc, word)?;
    }
    Ok(network)
}

// What comes of a run that reads no session.
fn judge<T: Tool>(tool: &T, alloc: Global, refused: &Refused) -> Result<Verdict, AllocError> {
    let network = named(alloc, refused.words)?;
    let trial = Trial::new(&network, SESSION).where_fails(refused.failing);
    let wanted = Expectation::of(refused.ending, refused.written);
    Verdict::of(tool, alloc, trial, wanted)
}

/// The rows on what is refused before the session is read.
///
/// # Errors
///
/// No memory for the rows or the objects of a run.
pub fn add_refusals<T: Tool>(
    tool: &T,
    alloc: Global,
    rows: &mut Vec<Row>,
) -> Result<(), AllocError> {
    for refused in &REFUSALS {
        add_row(rows, "refusals", refused.name, judge(tool, alloc, refused))?;
    }
    Ok(())
}
