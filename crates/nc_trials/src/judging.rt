//! What a run must come to, and what is said of runs that are judged.

ghost use Rattle.std.specs.Prelude.{◌≡◌, ◌≢◌, ◌↔◌, IfOk, IsTrue, false};
ghost use Rattle.nc_trials.specs.Verdict.{with_run, fine_of};
ghost use Rattle.nc_trials.specs.declared.judging.Verdict.TheVariants as Verdict;

use crate::ending::Ending;
use crate::tool::Tool;
use crate::trial::{Ran, Trial};
use std::alloc::{AllocError, Global};
use std::fmt::{self, Display, Formatter, Write};

/// What a run must come to.
#[derive(Clone, Copy)]
pub struct Expectation<'a> {
    /// How it ends.
    pub ending: Ending,
    /// The bytes that it writes.
    pub written: &'a [u8],
}

impl<'a> Expectation<'a> {
    /// A run that ends so and writes these bytes.
    pub fn of(ending: Ending, bytes: &'a [u8]) -> Expectation<'a>
        ensures ends { result.ending ≡ ending }
        ensures writes { result.written.now ≡ bytes.now }
    {
        Expectation {
            ending,
            written: bytes,
        }
    }

    /// A run that ends well and writes these bytes.
    pub fn done(bytes: &'a [u8]) -> Expectation<'a> {
        Expectation::of(Ending::Done, bytes)
    }

    /// Whether a run came to that.
    pub fn is_met(&self, ran: &Ran) -> bool
        ensures { IsTrue result ↔ ((ran.now.ending ≡ self.now.ending)
            × (ran.now.written.items ≡ self.now.written.now)) }
    {
        ran.ending == self.ending && ran.written.as_slice() == self.written
    }
}

/// What comes of runs of one kind.
#[derive(Clone, Copy)]
pub enum Verdict {
    /// So many runs were made, and each came to what it must.
    Fine(u64),
    /// The run of this number, from 0, ended so, and that or what it wrote is wrong.
    Wrong { run: u64, ending: Ending },
    /// Calls were made beside any run, and each was answered as it must be, or not.
    Called(bool),
}

impl Verdict {
    /// Before the first run.
    pub fn new() -> Verdict
        ensures { result ≡ Verdict.Fine 0 }
    {
        Verdict::Fine(0)
    }

    /// With one more run, made now, which must come to that.
    ///
    /// # Errors
    ///
    /// No memory for the objects of the run.
    pub fn and<T: Tool>(
        self,
        tool: &T,
        alloc: Global,
        trial: Trial<'_>,
        wanted: Expectation<'_>,
    ) -> Result<Verdict, AllocError>
        ensures stays { fine_of self ≡ false → IfOk result (λ verdict. verdict ≡ self) }
    {
        let ran = trial.run(tool, alloc)?;
        let is_met = wanted.is_met(&ran);
        Ok(self.with(&ran, is_met))
    }

    /// With one more run, of which is said whether it came to what it must. The first wrong run
    /// stays.
    pub fn with(self, ran: &Ran, is_met: bool) -> Verdict
        ensures { result ≡ with_run self ran.now.ending is_met }
    {
        match self {
            Verdict::Fine(runs) if is_met => Verdict::Fine(runs.saturating_add(1)),
            Verdict::Fine(runs) => Verdict::Wrong {
                run: runs,
                ending: ran.ending,
            },
            wrong => wrong,
        }
    }

    /// What comes of one run that must come to that.
    ///
    /// # Errors
    ///
    /// No memory for the objects of the run.
    pub fn of<T: Tool>(
        tool: &T,
        alloc: Global,
        trial: Trial<'_>,
        wanted: Expectation<'_>,
    ) -> Result<Verdict, AllocError> {
        Verdict::new().and(tool, alloc, trial, wanted)
    }

    /// What comes of one run of which only the ending is known.
    pub fn of_ending(ending: Ending, wanted: Ending) -> Verdict
        ensures fine { ending ≡ wanted → result ≡ Verdict.Fine 1 }
        ensures wrong { ending ≢ wanted → result ≡ Verdict.Wrong 0 ending }
    {
        if ending == wanted {
            return Verdict::Fine(1);
        }
        Verdict::Wrong { run: 0, ending }
    }

    /// Whether all runs and calls came to what they must.
    pub fn is_fine(self) -> bool
        ensures { result ≡ fine_of self }
    {
        matches!(self, Verdict::Fine(_) | Verdict::Called(true))
    }
}

impl Display for Verdict {
    fn fmt<W: Write>(&self, f: &mut Formatter<W>) -> fmt::Result {
        match self {
            Verdict::Fine(1) | Verdict::Called(true) => write!(f, "ok"),
            Verdict::Called(false) => write!(f, "FAILED"),
            Verdict::Fine(runs) => write!(f, "ok, {runs} runs"),
            Verdict::Wrong { run, ending } => {
                let number = ending.number();
                write!(f, "FAILED, run {run} ended with {number}")
            }
        }
    }
}
