//! The session as what is tried.

ghost use Rattle.std.specs.Prelude.{◌≡◌};
ghost use Rattle.nc_session.specs.Refusals.{number_of as status_number};
ghost use Rattle.nc_trials.specs.Ending.{number_of as ending_number};

use nc_outside::{MemFiles, MemSink, MemSource};
use nc_session::{Afterwards, Status, run};
use nc_trials::{Ending, Tool};
use std::alloc::Global;

/// The ending that a status tells: the one with its number.
pub fn ending_of(status: Status) -> Ending
    ensures { ending_number result ≡ status_number status }
{
    match status {
        Status::Done => Ending::Done,
        Status::Config => Ending::Config,
        Status::Usage => Ending::Usage,
        Status::Unstable => Ending::Unstable,
        Status::InputFault => Ending::InputFault,
        Status::OutputFault => Ending::OutputFault,
        Status::FileFault => Ending::FileFault,
        Status::Memory => Ending::Memory,
        Status::Limit => Ending::Limit,
    }
}

/// The top call of the session.
pub struct Session;

impl Tool for Session {
    fn run(
        &self,
        alloc: Global,
        words: &[String],
        files: &mut MemFiles,
        input: &mut MemSource,
        output: &mut MemSink,
    ) -> Ending {
        ending_of(run(alloc, words, Afterwards::GoesOn, files, input, output))
    }
}
