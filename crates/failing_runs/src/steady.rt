//! A run over objects in memory of which none can fail.

ghost use Rattle.std.specs.Prelude.{◌≡◌, ◌⊎◌, true, Ok};
ghost use Rattle.nc_engine.specs.File.{LoadedView};
ghost use Rattle.nc_words.specs.Words.{texts};
ghost use Rattle.nc_session.specs.Load.{load};
ghost use Rattle.nc_session.specs.Output.{is_within, session_of};
ghost use Rattle.nc_session.specs.Causes.{status_of};
ghost use Rattle.nc_session.specs.declared.status.Status.TheVariants as Status;

use nc_outside::{CountSink, MemFile, MemFiles, MemSource};
use nc_session::{Afterwards, Status, run};
use std::alloc::Global;

/// Runs over files and a session in memory, of which nothing fails, and keeps none of the replies. They aren't used
/// where the words ask for a generated network.
///
/// The run ends as the words, the files and the session have it: as Done where the files give a
/// state and the session is within its limit. Want of memory alone is free.
pub fn run_in_memory(
    alloc: Global,
    words: &[String],
    files: Vec<MemFile>,
    session: Vec<u8>,
) -> Status
    ensures complete { (result ≡ status_of (load (texts words.now) files.items)
        (session_of (texts words.now) session.items)) ⊎ (result ≡ Status.Memory) }
    ensures served { (loaded : LoadedView) → load (texts words.now) files.items ≡ Ok loaded
        → is_within (session_of (texts words.now) session.items) ≡ true
        → (result ≡ Status.Done) ⊎ (result ≡ Status.Memory) }
{
    let mut files = MemFiles::new(files, Vec::new(alloc));
    let mut input = MemSource::new(session, Vec::new(alloc), Vec::new(alloc));
    let mut output = CountSink::new();
    run(
        alloc,
        words,
        Afterwards::GoesOn,
        &mut files,
        &mut input,
        &mut output,
    )
}
