//! The adapters over the system, where the system fails: a file that isn't there, a folder as a
//! file, and a reader and a writer that give way in the middle.

use crate::judging::Verdict;
use crate::row::{Row, add_row};
use nc_outside::{Files, FolderFiles, Sink, Source, StdinSource, StdoutSink};
use std::alloc::AllocError;
use std::io::{self, ErrorKind, Read, Write};

// Has room for one byte: gives or takes it, then gives and takes nothing, and fails from its third
// call on.
#[derive(Drop)]
struct Narrow {
    calls: u8,
}

impl Narrow {
    // One that wasn't called yet.
    fn new() -> Narrow {
        Narrow { calls: 0 }
    }

    // How many bytes the next call moves.
    fn next(&mut self) -> io::Result<usize> {
        self.calls = self.calls.saturating_add(1);
        match self.calls {
            1 => Ok(1),
            2 => Ok(0),
            _ => Err(io::Error::from(ErrorKind::BrokenPipe)),
        }
    }
}

impl Read for Narrow {
    fn read(&mut self, buf: &mut [u8]) -> io::Result<usize> {
        Ok(self.next()?.min(buf.len()))
    }
}

impl Write for Narrow {
    fn write(&mut self, buf: &[u8]) -> io::Result<usize> {
        Ok(self.next()?.min(buf.len()))
    }

    fn flush(&mut self) -> io::Result<()> {
        Ok(())
    }
}

// Whether a file is entered, or isn't, and the read behind that gives so many bytes, or fails.
fn answers(
    files: &mut FolderFiles<HostRuntime>,
    name: &str,
    enters: bool,
    reads: Option<usize>,
) -> bool {
    let mut into = [1u8; 4];
    let is_entered = files.enter(name).is_ok();
    let read = files.read(&mut into).ok();
    is_entered == enters && read == reads
}

// A file that has bytes, one that isn't there, and a folder, which is entered and can't be read.
fn files_of_the_system(rt: &HostRuntime) -> io::Result<Verdict> {
    let mut files = FolderFiles::new(rt.clone()?);
    let has_bytes = answers(&mut files, "/dev/zero", true, Some(4));
    let is_missing = answers(&mut files, "/no/such/file", false, Some(0));
    let is_folder = answers(&mut files, "/", true, None);
    Ok(Verdict::Called(has_bytes && is_missing && is_folder))
}

// A reader that ends is at its end, and one that fails has failed.
fn a_reader_fails() -> Verdict {
    let mut source = StdinSource::new(Narrow::new());
    let mut into = [0u8; 4];
    let mut is_met = true;
    for reads in [Some(1), Some(0), None] {
        is_met &= source.read(&mut into).ok() == reads;
    }
    Verdict::Called(is_met)
}

// A writer that takes nothing has failed.
fn a_writer_fails() -> Verdict {
    let mut sink = StdoutSink::new(Narrow::new());
    let mut is_met = true;
    for taken in [Some(1), None, None] {
        is_met &= sink.write(b"abc").ok() == taken;
    }
    Verdict::Called(is_met)
}

// The rows of the adapters, with what came of the files.
fn add_rows(rows: &mut Vec<Row>, files: Verdict) -> Result<(), AllocError> {
    let over = "system";
    add_row(rows, over, "a file, no file, and a folder", Ok(files))?;
    add_row(rows, over, "a reader fails", Ok(a_reader_fails()))?;
    let verdict = a_writer_fails();
    add_row(rows, over, "a writer takes nothing and fails", Ok(verdict))
}

/// The rows of the adapters.
///
/// # Errors
///
/// No memory for the rows, or no handle to the system.
pub fn add_adapters(rt: &HostRuntime, rows: &mut Vec<Row>) -> io::Result<()> {
    let files = files_of_the_system(rt)?;
    add_rows(rows, files)?;
    Ok(())
}
