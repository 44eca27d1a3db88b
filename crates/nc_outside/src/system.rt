//! The system: what it refuses is counted, and nothing is told of its bytes.
ghost use Rattle.std.specs.Prelude.{◌≡◌, ◌≤◌, ◌<◌, length, None, Ok, IfOk, is_ok, is_err, false};
ghost use Rattle.std.specs.Io.KnownBytes.{ReadConsumes, WriteAppends};
ghost use Rattle.nc_outside.specs.Counts.{HasCause, HasEnterCause, one_entry};
ghost use Rattle.nc_outside.specs.Ends.{end_after, end_entered};
ghost use Rattle.nc_outside.specs.Memory.{faults_after, entries_of, no_end};
ghost use Rattle.nc_outside.specs.System.{failing};

use crate::{End, Failed, Files, Sink, Source};
use std::io::{Read, Write};
use std::marker::Model;
use std::{fs, rt};

/// Files of the system, by their paths.
#[derive(Drop)]
pub struct FolderFiles<R: rt::Files + Drop>
where
    R::File: Drop,
{
    rt: R,
    file: Option<R::File>,
    faults: u64,
    entries: u64,
    end: End,
}

impl<R: rt::Files + Drop> Model for FolderFiles<R>
where
    R::File: Drop,
{
    ghost use Rattle.std.specs.Prelude.{is_some};
    ghost use Rattle.std.specs.Option.{option_and_then};
    ghost use Rattle.nc_outside.specs.System.{FolderState};

    ghost Value = { FolderState };

    ghost view = { λ s. record {
      is_entered = is_some s.file;
      told = option_and_then R.File.remaining s.file;
      faults = s.faults;
      entries = s.entries;
      end = s.end;
    } };
}

impl<R: rt::Files + Drop> FolderFiles<R>
where
    R::File: Drop,
{
    /// No file is entered, and nothing failed yet.
    pub fn new(rt: R) -> FolderFiles<R>
        ensures { result ≡ record {
          is_entered = false;
          told = None;
          faults = 0;
          entries = 0;
          end = no_end;
        } }
    {
        FolderFiles {
            rt,
            file: None,
            faults: 0,
            entries: 0,
            end: End::new(),
        }
    }
}

impl<R: rt::Files + Drop> Files for FolderFiles<R>
where
    R::File: Drop,
{
    ghost files = { λ _. None };

    ghost entered = { λ _. None };

    ghost left = { λ _. None };

    ghost faults = { λ s. failing s.faults };

    ghost entries = { λ s. entries_of s.entries };

    ghost end = { λ s. s.end };

    ghost together = { λ _. ((λ none. none, λ none. none), λ none. none) };

    fn enter(&mut self, name: &str) -> Result<(), Failed>
        ensures cause { HasEnterCause None name.now
            (failing self.old.faults) (failing self.new.faults) result }
        ensures entries { entries_of self.new.entries
            ≡ one_entry name.now (entries_of self.old.entries) }
        ensures end { self.new.end ≡ end_entered self.old.end }
        ensures entered { self.new.is_entered ≡ is_ok result }
        ensures count { self.new.faults ≡ faults_after (is_err result) self.old.faults }
    {
        self.entries = self.entries.saturating_add(1);
        self.end = self.end.entered();
        self.file = None;
        match fs::open(&self.rt, name) {
            Ok(file) => {
                self.file = Some(file);
                Ok(())
            }
            Err(_) => {
                self.faults = self.faults.saturating_add(1);
                Err(Failed)
            }
        }
    }

    fn read(&mut self, into: &mut [u8]) -> Result<usize, Failed>
        ensures within { IfOk result (λ n. n ≤ length into.old) }
        ensures cause { HasCause (failing self.old.faults) (failing self.new.faults) result }
        ensures entries { entries_of self.new.entries ≡ entries_of self.old.entries }
        ensures end { self.new.end ≡ end_after (length into.old) result self.old.end }
        ensures entered { self.new.is_entered ≡ self.old.is_entered }
        ensures told { ReadConsumes self.old.told self.new.told result into.new }
        ensures none_entered { self.old.is_entered ≡ false → result ≡ Ok 0 }
        ensures count { self.new.faults ≡ faults_after (is_err result) self.old.faults }
    {
        let room = into.len();
        let answer = match &mut self.file {
            Some(file) => read_from(file, &mut self.faults, into),
            None => Ok(0),
        };
        self.end = self.end.after(room, answer);
        answer
    }
}

// Reads from a reader of the system, and counts its fault.
fn read_from<R: Read>(reader: &mut R, faults: &mut u64, into: &mut [u8]) -> Result<usize, Failed>
    ensures within { IfOk result (λ n. n ≤ length into.old) }
    ensures cause { HasCause (failing faults.old) (failing faults.new) result }
    ensures told { ReadConsumes (R.remaining reader.old) (R.remaining reader.new) result into.new }
    ensures count { faults.new ≡ faults_after (is_err result) faults.old }
{
    match reader.read(into) {
        Ok(count) => Ok(count),
        Err(_) => {
            *faults = faults.saturating_add(1);
            Err(Failed)
        }
    }
}

/// A session that comes from a reader.
#[derive(Drop)]
pub struct StdinSource<R: Read + Drop> {
    reader: R,
    faults: u64,
    end: End,
}

impl<R: Read + Drop> Model for StdinSource<R> {
    ghost use Rattle.nc_outside.specs.System.{ReaderState};

    ghost Value = { ReaderState };

    ghost view = { λ s. record { told = R.remaining s.reader; faults = s.faults; end = s.end } };
}

impl<R: Read + Drop> StdinSource<R> {
    /// Nothing failed yet.
    pub fn new(reader: R) -> StdinSource<R>
        ensures { result ≡ record { told = R.remaining reader; faults = 0; end = no_end } }
    {
        StdinSource {
            reader,
            faults: 0,
            end: End::new(),
        }
    }
}

impl<R: Read + Drop> Source for StdinSource<R> {
    ghost rest = { λ _. None };

    ghost faults = { λ s. failing s.faults };

    ghost end = { λ s. s.end };

    fn read(&mut self, into: &mut [u8]) -> Result<usize, Failed>
        ensures within { IfOk result (λ n. n ≤ length into.old) }
        ensures cause { HasCause (failing self.old.faults) (failing self.new.faults) result }
        ensures end { self.new.end ≡ end_after (length into.old) result self.old.end }
        ensures told { ReadConsumes self.old.told self.new.told result into.new }
        ensures count { self.new.faults ≡ faults_after (is_err result) self.old.faults }
    {
        let room = into.len();
        let answer = read_from(&mut self.reader, &mut self.faults, into);
        self.end = self.end.after(room, answer);
        answer
    }
}

/// Replies that go to a writer.
#[derive(Drop)]
pub struct StdoutSink<W: Write + Drop> {
    writer: W,
    faults: u64,
}

impl<W: Write + Drop> Model for StdoutSink<W> {
    ghost use Rattle.nc_outside.specs.System.{WriterState};

    ghost Value = { WriterState };

    ghost view = { λ s. record { told = W.contents s.writer; faults = s.faults } };
}

impl<W: Write + Drop> StdoutSink<W> {
    /// Nothing failed yet.
    pub fn new(writer: W) -> StdoutSink<W>
        ensures { result ≡ record { told = W.contents writer; faults = 0 } }
    {
        StdoutSink { writer, faults: 0 }
    }
}

impl<W: Write + Drop> Sink for StdoutSink<W> {
    ghost written = { λ _. None };

    ghost faults = { λ s. failing s.faults };

    fn write(&mut self, from: &[u8]) -> Result<usize, Failed>
        ensures within { IfOk result (λ n. n ≤ length from.now) }
        ensures some { IfOk result (λ n. 0 < length from.now → 0 < n) }
        ensures cause { HasCause (failing self.old.faults) (failing self.new.faults) result }
        ensures told { WriteAppends self.old.told self.new.told result from.now }
        ensures count { self.new.faults ≡ faults_after (is_err result) self.old.faults }
    {
        match self.writer.write(from) {
            Ok(count) if count > 0 || from.is_empty() => Ok(count),
            _ => {
                self.faults = self.faults.saturating_add(1);
                Err(Failed)
            }
        }
    }
}
