//! The parts of a file: its name, and what each of its topics makes.

ghost use Rattle.std.specs.Prelude.{◌≡◌, List, All, OnOk, IfOk};
ghost use Rattle.nc_types.specs.declared.fault.Fault.{Fault};
ghost use Rattle.nc_types.specs.Faults.{lowest};
ghost use Rattle.nc_reader.specs.Gathering.{IsLine};
ghost use Rattle.nc_reader.specs.Parts.{IsLowest, AreRead, Reads, Tells, parts_by};
ghost use Rattle.nc_reader.specs.Things.{part_in};
ghost use Rattle.nc_reader.specs.Topics.{process_among};
ghost use Rattle.nc_reader.specs.Whole.{AreParts};

use crate::faults::note;
use crate::gather::{Gathered, gather};
use crate::odd::note_odd;
use crate::things::{Part, read_part};
use crate::topic::Topic;
use indexmap::IndexSet;
use nc_lines::{Block, Lines};
use nc_types::{Fault, Text};
use std::alloc::{AllocError, Global};

/// What the lines of a file make, before it is put in order.
#[derive(Drop)]
pub(crate) struct Parts {
    /// The line of the name in force, and the name.
    pub(crate) name: Option<(u32, Text)>,
    /// What the topics make that have no fault, in order of first mention.
    pub(crate) made: Vec<Part>,
    /// The lowest fault of all.
    pub(crate) fault: Option<Fault>,
}

// What some topics make.
#[derive(Drop)]
struct Made {
    parts: Vec<Part>,
    // The lowest fault so far.
    fault: Option<Fault>,
}

// The process of a file that has these topics: the first of them that is one.
#[tactic(auto, using(crate::proofs::ProcessTopics::here, crate::proofs::ProcessTopics::later))]
fn process_among(topics: &[Topic]) -> Option<u32>
    ensures { result ≡ process_among topics.now }
{
    'topics: for topic in topics {
        if let Some(asn) = topic.asn() {
            return Some(asn);
        }
    }
    None
}

// Reads what one more topic makes.
fn read_one(
    alloc: Global,
    lines: &Lines,
    process: Option<u32>,
    topic: Topic,
    block: Block,
    parts: &mut Vec<Part>,
    told: &mut Option<Fault>,
) -> Result<(), AllocError>
    requires { All (IsLine lines.now) block.lines.items }
    ensures parts { OnOk result (Reads (part_in lines.now process topic block.lines.items)
        parts.old.items parts.new.items) }
    ensures told { OnOk result (Tells (part_in lines.now process topic block.lines.items)
        told.old told.new) }
{
    match read_part(alloc, lines, process, topic, block) {
        Ok(part) => parts.push(part)?,
        Err(fault) => note(told, fault)?,
    }
    Ok(())
}

// Reads what these topics make, each of its block, in a file that has this process, given the
// lowest fault before them.
fn read_all(
    alloc: Global,
    lines: &Lines,
    process: Option<u32>,
    topics: IndexSet<Topic>,
    blocks: Vec<Block>,
    before: Option<Fault>,
) -> Result<Made, AllocError>
    requires { All (λ b. All (IsLine lines.now) b.lines.items) blocks.items }
    ensures parts { IfOk result (λ r. AreRead r.parts.items
        (parts_by lines.now process topics.keys blocks.items)) }
    ensures told { IfOk result (λ r. (fs : List Fault) → before ≡ lowest fs
        → IsLowest fs r.fault (parts_by lines.now process topics.keys blocks.items)) }
{
    let mut parts = Vec::with_capacity(alloc, blocks.len())?;
    let mut told = before;
    let mut left = blocks.into_iter();
    'topics: for topic in topics {
        let Some(block) = left.next() else {
            continue;
        };
        read_one(alloc, lines, process, topic, block, &mut parts, &mut told)?;
    }
    Ok(Made { parts, fault: told })
}

/// Reads the parts of a file.
pub(crate) fn read_parts(alloc: Global, lines: &Lines) -> Result<Parts, AllocError>
    ensures { IfOk result (AreParts lines.now) }
{
    let Gathered {
        name,
        topics,
        lines: blocks,
        fault,
    } = gather(alloc, lines)?;
    let process = process_among(topics.as_slice());
    let read = read_all(alloc, lines, process, topics, blocks, fault)?;
    let fault = note_odd(alloc, &read.parts, read.fault)?;
    Ok(Parts {
        name,
        made: read.parts,
        fault,
    })
}
