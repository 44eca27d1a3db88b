//! One run over objects in memory: what it is given, what of it fails, and what came of it.

ghost use Rattle.std.specs.Prelude.{◌≡◌, ◌<◌, All, IfOk, []};
ghost use Rattle.nc_outside.specs.Memory.{no_calls};
ghost use Rattle.nc_trials.specs.Trial.{file_calls_of, reads_of, writes_of, room_of};

use crate::ending::Ending;
use crate::network::Network;
use crate::tool::Tool;
use nc_outside::{MemFiles, MemSink, MemSource};
use std::alloc::{AllocError, Global};

// Room for all replies of a run, in bytes.
const ROOM: usize = 524_288;

/// In which pieces a session is read.
#[derive(Clone, Copy)]
pub enum Pieces {
    /// As many bytes as fit at once.
    Whole,
    /// One byte at a time.
    Bytes,
    /// So many bytes first, then as many as fit.
    Cut(usize),
    /// A line at a time, through its line feed.
    Lines,
}

/// What fails of the three objects.
#[derive(Clone, Copy)]
pub enum Failing {
    /// Nothing.
    Nothing,
    /// The call of the files with this number, from 0, entering and reading counted together.
    Files(u64),
    /// The read of the session with this number, from 0.
    Read(u64),
    /// The write with this number, from 0.
    Write(u64),
    /// Each write behind so many bytes.
    Room(usize),
}

/// What a run is given, and what of it fails.
#[derive(Clone, Copy)]
pub struct Trial<'a> {
    /// The words and the files.
    pub network: &'a Network,
    /// The bytes of the session.
    pub session: &'a [u8],
    /// In which pieces they are read.
    pub pieces: Pieces,
    /// What fails.
    pub failing: Failing,
}

/// What came of a run.
#[derive(Drop)]
pub struct Ran {
    /// How it ended.
    pub ending: Ending,
    /// The bytes that were written.
    pub written: Vec<u8>,
}

impl Ran {
    // A run that ended so and wrote these bytes.
    fn of(alloc: Global, ending: Ending, written: &[u8]) -> Result<Ran, AllocError>
        ensures ends { IfOk result (λ ran. ran.ending ≡ ending) }
        ensures writes { IfOk result (λ ran. ran.written.items ≡ written.now) }
    {
        let written = written.to_vec(alloc)?;
        Ok(Ran { ending, written })
    }
}

impl Failing {
    // The numbers of the calls of the files that fail.
    fn file_calls(self, alloc: Global) -> Result<Vec<u64>, AllocError>
        ensures { IfOk result (λ numbers. numbers.items ≡ file_calls_of self) }
    {
        match self {
            Failing::Files(number) => Ok(vec![in alloc; number]?),
            _ => Ok(Vec::new(alloc)),
        }
    }

    // The numbers of the reads that fail.
    fn reads(self, alloc: Global) -> Result<Vec<u64>, AllocError>
        ensures { IfOk result (λ numbers. numbers.items ≡ reads_of self) }
    {
        match self {
            Failing::Read(number) => Ok(vec![in alloc; number]?),
            _ => Ok(Vec::new(alloc)),
        }
    }

    // The numbers of the writes that fail.
    fn writes(self, alloc: Global) -> Result<Vec<u64>, AllocError>
        ensures { IfOk result (λ numbers. numbers.items ≡ writes_of self) }
    {
        match self {
            Failing::Write(number) => Ok(vec![in alloc; number]?),
            _ => Ok(Vec::new(alloc)),
        }
    }

    // How many bytes the sink takes.
    fn room(self) -> usize
        ensures { result ≡ room_of self }
    {
        match self {
            Failing::Room(room) => room,
            _ => ROOM,
        }
    }

    // A sink that fails so, with room for all replies unless that is what it lacks.
    fn sink(self, alloc: Global) -> Result<MemSink, AllocError>
        ensures { IfOk result (λ sink. sink ≡ record {
          written = [];
          room = room_of self;
          calls = no_calls (writes_of self);
        }) }
    {
        let fails = self.writes(alloc)?;
        MemSink::new(alloc, self.room(), fails)
    }
}

// How many bytes each line of a text has, with its line feed.
fn line_sizes(alloc: Global, text: &[u8]) -> Result<Vec<usize>, AllocError> {
    let mut sizes = Vec::new(alloc);
    for line in text.split(|b| *b == b'\n') {
        sizes.push(line.len().saturating_add(1))?;
    }
    Ok(sizes)
}

impl Pieces {
    // The most that each of the first reads gives; 0 for a read that gives what fits.
    fn sizes(self, alloc: Global, session: &[u8]) -> Result<Vec<usize>, AllocError> {
        match self {
            Pieces::Whole => Ok(Vec::new(alloc)),
            Pieces::Bytes => Ok(vec![in alloc; 1; session.len()]?),
            Pieces::Cut(size) => Ok(vec![in alloc; size]?),
            Pieces::Lines => line_sizes(alloc, session),
        }
    }
}

// The sizes of which a source can be made: those that aren't 0.
fn positive(alloc: Global, sizes: &[usize]) -> Result<Vec<usize>, AllocError>
    ensures { IfOk result (λ kept. All (λ size. 0 < size) kept.items) }
{
    let mut kept = Vec::new(alloc);
    for size in sizes {
        if *size > 0 {
            kept.push(*size)?;
        }
    }
    Ok(kept)
}

// The pieces of a trial's session.
fn pieces_of(alloc: Global, trial: &Trial<'_>) -> Result<Vec<usize>, AllocError>
    ensures { IfOk result (λ pieces. All (λ size. 0 < size) pieces.items) }
{
    let sizes = trial.pieces.sizes(alloc, trial.session)?;
    positive(alloc, &sizes)
}

// A source of a session, which fails so.
fn source_of(alloc: Global, trial: &Trial<'_>) -> Result<MemSource, AllocError>
    ensures bytes { IfOk result (λ source. source.rest ≡ trial.now.session.now) }
    ensures calls { IfOk result (λ source. source.calls ≡ no_calls (reads_of trial.now.failing)) }
{
    let fails = trial.failing.reads(alloc)?;
    let pieces = pieces_of(alloc, trial)?;
    let session = trial.session.to_vec(alloc)?;
    Ok(MemSource::new(session, pieces, fails))
}

// The files of a network, of whose calls these fail.
fn files_of(alloc: Global, trial: &Trial<'_>) -> Result<MemFiles, AllocError>
    ensures calls { IfOk result (λ files. files.calls ≡ no_calls (file_calls_of trial.now.failing)) }
{
    let fails = trial.failing.file_calls(alloc)?;
    let files = trial.network.copied_files(alloc)?;
    Ok(MemFiles::new(files, fails))
}

impl<'a> Trial<'a> {
    /// A run over this network in which nothing fails and the session comes at once.
    pub fn new(network: &'a Network, session: &'a [u8]) -> Trial<'a> {
        Trial {
            network,
            session,
            pieces: Pieces::Whole,
            failing: Failing::Nothing,
        }
    }

    /// The same, with the session in such pieces.
    pub fn in_pieces(self, pieces: Pieces) -> Trial<'a> {
        Trial { pieces, ..self }
    }

    /// The same, where this fails.
    pub fn where_fails(self, failing: Failing) -> Trial<'a> {
        Trial { failing, ..self }
    }

    // Makes the run over these files and this source.
    fn run_over<T: Tool>(
        &self,
        tool: &T,
        alloc: Global,
        files: &mut MemFiles,
        input: &mut MemSource,
    ) -> Result<Ran, AllocError> {
        let mut output = self.failing.sink(alloc)?;
        let ending = tool.run(alloc, &self.network.words, files, input, &mut output);
        Ran::of(alloc, ending, output.written())
    }

    // Makes the run over these files.
    fn run_over_files<T: Tool>(
        &self,
        tool: &T,
        alloc: Global,
        files: &mut MemFiles,
    ) -> Result<Ran, AllocError> {
        let mut input = source_of(alloc, self)?;
        self.run_over(tool, alloc, files, &mut input)
    }

    /// Makes the run.
    ///
    /// # Errors
    ///
    /// No memory for the objects. Want of memory in the run itself is its ending.
    pub fn run<T: Tool>(&self, tool: &T, alloc: Global) -> Result<Ran, AllocError> {
        let mut files = files_of(alloc, self)?;
        self.run_over_files(tool, alloc, &mut files)
    }
}
