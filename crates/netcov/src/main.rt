//! The program: files of the system, a session on the standard input, replies on the standard output.
//!
//! It stands on `nc_session` and `nc_outside`. `main` makes the three objects of the outside and calls
//! [`nc_session::run`], which writes all that is printed; it prints nothing itself. What it ends with is promised by the
//! contract of its one step: the number of the status of a run over the words, or where the words can't be taken one of
//! two numbers.
#![tactic(auto)]

ghost use Rattle.std.specs.Prelude.{◌≡◌, MatchResult};
ghost use Rattle.std.specs.IoError.{error_kind};
ghost use Rattle.std.specs.Process.{exit_status};
ghost use Rattle.nc_words.specs.Words.{texts};
ghost use Rattle.netcov.specs.Ending.{IsStatusFor, IsNumberFor, number_untaken};

use nc_outside::{FolderFiles, StdinSource, StdoutSink};
use nc_session::{Afterwards, Status, run};
use std::io::{Error, ErrorKind, Result};
use std::process::ExitCode;
use std::{env, rt};

// The system doesn't give the words as text.
const NO_TEXT: u8 = 9;

// The words behind the program's name.
fn words_of(rt: &HostRuntime) -> Result<Vec<String>> {
    let mut words = Vec::new(rt.alloc());
    for word in env::args(rt)?.skip(1) {
        words.push(word)?;
    }
    Ok(words)
}

// Where the words can't be taken: no memory, or no text.
fn untaken(error: &Error) -> u8
    ensures { result ≡ number_untaken (error_kind error.now) }
{
    match error.kind() {
        ErrorKind::OutOfMemory => Status::Memory.number(),
        _ => NO_TEXT,
    }
}

// Runs over the system.
fn run_here(rt: &HostRuntime, words: &[String]) -> Status
    ensures { IsStatusFor (texts words.now) result }
{
    let Ok(system) = rt.clone() else {
        return Status::Memory;
    };
    let mut files = FolderFiles::new(system);
    let mut input = StdinSource::new(rt.stdin());
    let mut output = StdoutSink::new(rt.stdout());
    run(
        rt.alloc(),
        words,
        Afterwards::Ends,
        &mut files,
        &mut input,
        &mut output,
    )
}

// What the program ends with, by the words or by why they can't be taken.
fn end_of(rt: &HostRuntime, words: Result<Vec<String>>) -> ExitCode
    ensures { MatchResult words (λ words. IsNumberFor (texts words.items) (exit_status result))
        (λ error. exit_status result ≡ number_untaken (error_kind error)) }
{
    match words {
        Ok(words) => ExitCode::from(run_here(rt, &words).number()),
        Err(error) => ExitCode::from(untaken(&error)),
    }
}

fn main(rt: HostRuntime) -> ExitCode {
    let words = words_of(&rt);
    end_of(&rt, words)
}
