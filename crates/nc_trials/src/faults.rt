//! Each call of each object failing in turn, a sink with little room, and files that are cut.

use crate::ending::Ending;
use crate::example::Example;
use crate::judging::{Expectation, Verdict};
use crate::network::{Config, Network};
use crate::prepared::Prepared;
use crate::row::{Row, add_row};
use crate::tool::Tool;
use crate::trial::{Failing, Pieces, Trial};
use std::alloc::{AllocError, Global};

// Each call of the files fails in turn, and then one behind the last, which is never made.
fn file_calls<T: Tool>(
    tool: &T,
    alloc: Global,
    example: &Example,
    trial: Trial<'_>,
    wanted: Expectation<'_>,
) -> Result<Verdict, AllocError> {
    let mut verdict = Verdict::new();
    for number in 0..example.file_calls {
        let failed = Expectation::of(Ending::FileFault, b"");
        verdict = verdict.and(
            tool,
            alloc,
            trial.where_fails(Failing::Files(number)),
            failed,
        )?;
    }
    let behind = trial.where_fails(Failing::Files(example.file_calls));
    verdict.and(tool, alloc, behind, wanted)
}

// Each read of a line fails in turn, and then one behind the last, which is never made: the lines
// before are answered.
fn reads<T: Tool>(
    tool: &T,
    alloc: Global,
    example: &Example,
    trial: Trial<'_>,
    wanted: Expectation<'_>,
) -> Result<Verdict, AllocError> {
    let mut verdict = Verdict::new();
    for number in 0..example.reads {
        let answered = example.replies(alloc, number)?;
        let failed = Expectation::of(Ending::InputFault, &answered);
        verdict = verdict.and(
            tool,
            alloc,
            trial.where_fails(Failing::Read(number as u64)),
            failed,
        )?;
    }
    let behind = trial.where_fails(Failing::Read(example.reads as u64));
    verdict.and(tool, alloc, behind, wanted)
}

// Each write of a reply fails in turn, and then one behind the last: the replies before stand
// written.
fn writes<T: Tool>(
    tool: &T,
    alloc: Global,
    example: &Example,
    trial: Trial<'_>,
    wanted: Expectation<'_>,
) -> Result<Verdict, AllocError> {
    let mut verdict = Verdict::new();
    for number in 0..example.writes {
        let written = example.written(alloc, number)?;
        let failed = Expectation::of(Ending::OutputFault, &written);
        verdict = verdict.and(
            tool,
            alloc,
            trial.where_fails(Failing::Write(number as u64)),
            failed,
        )?;
    }
    let behind = trial.where_fails(Failing::Write(example.writes as u64));
    verdict.and(tool, alloc, behind, wanted)
}

// The sink has room for no byte, for one, and so on up to all: what fits stands written.
fn rooms<T: Tool>(
    tool: &T,
    alloc: Global,
    trial: Trial<'_>,
    wanted: Expectation<'_>,
) -> Result<Verdict, AllocError> {
    let mut verdict = Verdict::new();
    for room in 0..wanted.written.len() {
        let failed = Expectation::of(Ending::OutputFault, wanted.written.split_at(room).0);
        verdict = verdict.and(tool, alloc, trial.where_fails(Failing::Room(room)), failed)?;
    }
    let whole = trial.where_fails(Failing::Room(wanted.written.len()));
    verdict.and(tool, alloc, whole, wanted)
}

// With a run more, which reads its files or refuses one of them.
fn is_read_or_refused<T: Tool>(
    tool: &T,
    alloc: Global,
    trial: Trial<'_>,
    runs: Verdict,
) -> Result<Verdict, AllocError> {
    let ran = trial.run(tool, alloc)?;
    let is_refused = ran.written.starts_with(b"refused config ");
    let is_met = if is_refused {
        ran.ending == Ending::Config
    } else {
        ran.ending == Ending::Done
    };
    Ok(runs.with(&ran, is_met))
}

// The network of these files, of which one ends behind so many bytes.
fn with_cut(
    alloc: Global,
    files: &[Config],
    cut: &Config,
    size: usize,
) -> Result<Network, AllocError> {
    let mut network = Network::new(alloc);
    for file in files {
        let text = if file.name == cut.name {
            file.text.get(..size).unwrap_or(file.text)
        } else {
            file.text
        };
        network.add_file(alloc, file.name, text)?;
    }
    Ok(network)
}

// One file is cut behind each of its bytes in turn: it is read, or it is refused.
fn cuts_of<T: Tool>(
    tool: &T,
    alloc: Global,
    example: &Example,
    cut: &Config,
    runs: Verdict,
) -> Result<Verdict, AllocError> {
    let mut verdict = runs;
    for size in 0..cut.text.len() {
        let network = with_cut(alloc, example.files, cut, size)?;
        verdict = is_read_or_refused(tool, alloc, Trial::new(&network, b""), verdict)?;
    }
    Ok(verdict)
}

// Each file is cut behind each of its bytes in turn.
fn cut_files<T: Tool>(tool: &T, alloc: Global, example: &Example) -> Result<Verdict, AllocError> {
    let mut verdict = Verdict::new();
    for file in example.files {
        verdict = cuts_of(tool, alloc, example, file, verdict)?;
    }
    Ok(verdict)
}

// The rows of runs over an example of which a call fails.
fn add_failing<T: Tool>(
    tool: &T,
    alloc: Global,
    example: &Example,
    trial: Trial<'_>,
    wanted: Expectation<'_>,
    rows: &mut Vec<Row>,
) -> Result<(), AllocError> {
    let over = example.name;
    let by_lines = trial.in_pieces(Pieces::Lines);
    let verdict = file_calls(tool, alloc, example, trial, wanted);
    add_row(rows, over, "each call of the files fails", verdict)?;
    let verdict = reads(tool, alloc, example, by_lines, wanted);
    add_row(rows, over, "each read fails", verdict)?;
    let verdict = writes(tool, alloc, example, by_lines, wanted);
    add_row(rows, over, "each write fails", verdict)?;
    let verdict = rooms(tool, alloc, trial, wanted);
    add_row(rows, over, "room for fewer bytes", verdict)?;
    let verdict = cut_files(tool, alloc, example);
    add_row(rows, over, "a file cut at each place", verdict)
}

/// The rows of runs of which a call fails, or a file is cut.
///
/// # Errors
///
/// No memory for the rows or the objects of a run.
pub fn add_faults<T: Tool>(
    tool: &T,
    alloc: Global,
    example: &Example,
    rows: &mut Vec<Row>,
) -> Result<(), AllocError> {
    let prepared = Prepared::of(alloc, example, b"\n")?;
    add_failing(
        tool,
        alloc,
        example,
        prepared.trial(),
        prepared.done(),
        rows,
    )
}
