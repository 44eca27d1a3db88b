//! Whole runs over objects in memory that are cut, that fail or that meet a limit.
//!
//! The runs are the trials of `nc_trials`, of which the session's top call is the tool. Beside them
//! stands what those trials have of the adapters and of sets.
//! The program prints a line for each kind of runs and, last, how many came to what they must; it
//! ends with 1 where one did not.
//!
//! Two promises are proved besides safety: [`steady::run_in_memory`], over objects of which none can
//! fail, ends as the words, the files and the session have it, or for want of memory; and
//! [`session::ending_of`] tells a status by the ending of its number. The crate
//! stands on `nc_session` for the run, on `nc_trials` for the trials, on `nc_outside` for the objects
//! in memory, on `nc_words` for what is said of words and on `nc_engine` for what is said of files.
#![tactic(auto)]

mod session;
pub mod steady;

use nc_session::Status;
use nc_trials::{
    EXAMPLES, Ending, Example, Network, Row, Verdict, add_adapters, add_sets, add_trials,
    print_rows,
};
use session::{Session, ending_of};
use std::alloc::{AllocError, Global};
use std::io::Result as IoResult;
use std::process::ExitCode;
use steady::run_in_memory;

// How a run of an example ends over objects that can't fail.
fn steady_status(alloc: Global, example: &Example) -> Result<Status, AllocError> {
    let session = example.session(alloc, b"\n")?;
    let Network { words, files } = example.network(alloc)?;
    Ok(run_in_memory(alloc, &words, files, session))
}

// The rows of runs over objects that can't fail.
fn add_steady(alloc: Global, rows: &mut Vec<Row>) -> Result<(), AllocError> {
    for example in &EXAMPLES {
        let ending = ending_of(steady_status(alloc, example)?);
        let verdict = Verdict::of_ending(ending, Ending::Done);
        rows.push(Row::new(example.name, "nothing can fail", verdict))?;
    }
    Ok(())
}

// All rows, in order. They are lent, so that each row's want of memory leaves them as they are.
fn add_rows(rt: &HostRuntime, rows: &mut Vec<Row>) -> IoResult<()> {
    let alloc = rt.alloc();
    add_steady(alloc, rows)?;
    add_trials(&Session, alloc, rows)?;
    add_adapters(rt, rows)?;
    add_sets(alloc, rows)?;
    Ok(())
}

fn main(rt: HostRuntime) -> IoResult<ExitCode> {
    let mut rows = Vec::new(rt.alloc());
    add_rows(&rt, &mut rows)?;
    let failed = print_rows(&rt, &rows)?;
    Ok(ExitCode::from(u8::from(failed > 0)))
}
