ghost use Rattle.std.specs.Prelude.{◌≡◌, ◌≤◌, ◌<◌, ◌^◌, ◌++◌, ◌||◌, min, length, take, drop, Some, None, IfOk, IfSome, OnOk, OnErr, is_err, is_none, IsSome, MatchOption, true, slice_get};
ghost use Rattle.std.specs.Option.{ForSome, option_and_then, option_map};
ghost use Rattle.std.specs.Io.KnownBytes.{ReadConsumes};
ghost use Rattle.nc_outside.specs.Named.{Enters, content_of};
ghost use Rattle.nc_outside.specs.Counts.{HasCause, HasEnterCause, one_entry};
ghost use Rattle.nc_outside.specs.Ends.{end_after, end_entered};
ghost use Rattle.nc_outside.specs.Memory.{no_calls, fails_next, after_call, faults_of, entries_of, no_end, less_front, name_of_entered, left_of_entered, bytes_left, whole, entering, giving, after_enter, after_read};
ghost use Rattle.std.specs.Str.{bytes_eq};

use super::calls::Calls;
use super::source::copy_front;
use crate::{End, Failed, Files};
use nc_types::Text;
use std::marker::Model;

/// A file in memory.
#[derive(Drop)]
pub struct MemFile {
    /// Its name, as `enter` is given it.
    pub name: Text,
    /// Its content.
    pub bytes: Vec<u8>,
}

impl Model for MemFile {
    ghost use Rattle.nc_outside.specs.Named.{Named};

    ghost Value = { Named };

    ghost view = { λ f. record { name = f.name; content = f.bytes.items } };
}

impl MemFile {
    /// What follows its first bytes.
    fn rest(&self, at: usize) -> &[u8]
        requires { at ≤ length self.now.content }
        ensures rest { result.now ≡ drop at self.now.content }
        ensures fits { length self.now.content < 2 ^ 64 }
    {
        self.bytes.split_at(at).1
    }

    /// Whether it has that name.
    fn has_name(&self, name: &[u8]) -> bool
        ensures { result ≡ bytes_eq self.now.name name.now }
    {
        self.name.bytes() == name
    }
}

/// Where the reading stands: the place of a file, and how many of its bytes were read.
#[derive(Clone, Copy)]
struct Place {
    file: usize,
    at: usize,
}

/// The place of the first file of that name.
fn place_of(files: &[MemFile], name: &[u8]) -> Option<usize>
    ensures found { option_and_then (slice_get files.now) result ≡ whole files.now name.now }
    ensures within { IfSome result (λ place. place < length files.now) }
    ensures missing { MatchOption result (content_of files.now name.now ≡ None)
        (λ _. IsSome (content_of files.now name.now)) }
{
    for (place, file) in files.iter().enumerate() {
        if file.has_name(name) {
            return Some(place);
        }
    }
    None
}

/// Files in memory that fail at given calls.
#[derive(Drop)]
pub struct MemFiles {
    files: Vec<MemFile>,
    place: Option<Place>,
    calls: Calls,
    entries: u64,
    end: End,
}

impl Model for MemFiles {
    ghost use Rattle.std.specs.Option.{ForSome};
    ghost use Rattle.nc_outside.specs.Memory.{FilesState, IsInside, file_from};

    ghost Value = { FilesState };

    ghost use Rattle.std.specs.Option.{option_and_then};

    ghost view = { λ s. record {
      files = s.files.items;
      entered = option_and_then (λ p. file_from s.files.items p.file p.at) s.place;
      calls = s.calls;
      entries = s.entries;
      end = s.end;
    } };

    ghost invariant = { λ s. ForSome s.place (λ p. IsInside s.files.items p.file p.at) };
}

impl MemFiles {
    /// These files, of which none is entered. Calls of `enter` and `read` are counted together from 0: one
    /// whose number is in `fails` fails. Where two files have one name the first is entered.
    pub fn new(files: Vec<MemFile>, fails: Vec<u64>) -> MemFiles
        ensures { result ≡ record {
          files = files.items;
          entered = None;
          calls = no_calls fails.items;
          entries = 0;
          end = no_end;
        } }
    {
        MemFiles {
            files,
            place: None,
            calls: Calls::new(fails),
            entries: 0,
            end: End::new(),
        }
    }

    // Enters the first file of that name, or fails.
    fn go_to(&mut self, name: &str) -> Result<(), Failed>
        ensures entered { OnOk result (Enters (Some self.old.files) name.now
            (name_of_entered self.new) (left_of_entered self.new)) }
        ensures cause { HasEnterCause (Some self.old.files) name.now
            (faults_of self.old.calls) (faults_of self.new.calls) result }
        ensures fails { is_err result
            ≡ (fails_next self.old.calls || is_none (whole self.old.files name.now)) }
        ensures after { self.new ≡ entering self.old name.now }
    {
        self.place = None;
        self.calls.make()?;
        let Some(file) = place_of(&self.files, name.as_bytes()) else {
            return Err(Failed);
        };
        self.place = Some(Place { file, at: 0 });
        Ok(())
    }

    // Gives what is left of the entered file, as far as there is room, or fails.
    fn give(&mut self, into: &mut [u8]) -> Result<usize, Failed>
        ensures bytes { ReadConsumes (left_of_entered self.old) (left_of_entered self.new)
            result into.new }
        ensures none_entered { name_of_entered self.old ≡ None → IfOk result (λ n. n ≡ 0) }
        ensures cause { HasCause (faults_of self.old.calls) (faults_of self.new.calls) result }
        ensures fails { is_err result ≡ fails_next self.old.calls }
        ensures count { IfOk result
            (λ n. n ≡ min (length into.old) (length (bytes_left self.old.entered))) }
        ensures moved { IfOk result
            (λ n. into.new ≡ take n (bytes_left self.old.entered) ++ drop n into.old) }
        ensures after { IfOk result (λ n. self.new ≡ giving self.old n) }
        ensures failed { OnErr result
            (self.new ≡ record self.old { calls = after_call true self.old.calls }) }
        ensures untouched { OnErr result (into.new ≡ into.old) }
    {
        self.calls.make()?;
        let Some(place) = self.place else {
            return Ok(0);
        };
        let file = &self.files[place.file];
        let room = into.len();
        let count = copy_front(file.rest(place.at), into, room);
        self.place = Some(Place {
            file: place.file,
            at: place.at + count,
        });
        Ok(count)
    }
}

impl Files for MemFiles {
    ghost use Rattle.std.specs.Prelude.{Some};
    ghost use Rattle.nc_outside.specs.Memory.{name_of_entered, left_of_entered, faults_of, entries_of, IsNone-name-left};

    ghost files = { λ s. Some s.files };

    ghost entered = { name_of_entered };

    ghost left = { left_of_entered };

    ghost faults = { λ s. faults_of s.calls };

    ghost entries = { λ s. entries_of s.entries };

    ghost end = { λ s. s.end };

    ghost together = { λ s. (IsNone-name-left s, λ none. Prim.cc) };

    fn enter(&mut self, name: &str) -> Result<(), Failed>
        ensures files { self.new.files ≡ self.old.files }
        ensures entered { OnOk result (Enters (Some self.old.files) name.now
            (name_of_entered self.new) (left_of_entered self.new)) }
        ensures failed { OnErr result
            ((name_of_entered self.new ≡ None) × (left_of_entered self.new ≡ None)) }
        ensures cause { HasEnterCause (Some self.old.files) name.now
            (faults_of self.old.calls) (faults_of self.new.calls) result }
        ensures entries { entries_of self.new.entries
            ≡ one_entry name.now (entries_of self.old.entries) }
        ensures end { self.new.end ≡ end_entered self.old.end }

        ensures fails { is_err result
            ≡ (fails_next self.old.calls || is_none (whole self.old.files name.now)) }
        ensures after { self.new ≡ after_enter self.old name.now }
    {
        self.entries = self.entries.saturating_add(1);
        self.end = self.end.entered();
        self.go_to(name)?;
        Ok(())
    }

    fn read(&mut self, into: &mut [u8]) -> Result<usize, Failed>
        ensures files { self.new.files ≡ self.old.files }
        ensures entered { name_of_entered self.new ≡ name_of_entered self.old }
        ensures within { IfOk result (λ n. n ≤ length into.old) }
        ensures bytes { ReadConsumes (left_of_entered self.old) (left_of_entered self.new)
            result into.new }
        ensures none_entered { name_of_entered self.old ≡ None → IfOk result (λ n. n ≡ 0) }
        ensures cause { HasCause (faults_of self.old.calls) (faults_of self.new.calls) result }
        ensures entries { entries_of self.new.entries ≡ entries_of self.old.entries }
        ensures end { self.new.end ≡ end_after (length into.old) result self.old.end }

        ensures fails { is_err result ≡ fails_next self.old.calls }
        ensures count { IfOk result
            (λ n. n ≡ min (length into.old) (length (bytes_left self.old.entered))) }
        ensures moved { IfOk result
            (λ n. into.new ≡ take n (bytes_left self.old.entered) ++ drop n into.old) }
        ensures after { IfOk result (λ n. self.new ≡ after_read self.old (length into.old) n) }
        ensures failed { OnErr result (self.new ≡ record self.old {
          calls = after_call true self.old.calls;
          end = end_after (length into.old) result self.old.end;
        }) }
        ensures untouched { OnErr result (into.new ≡ into.old) }
    {
        let room = into.len();
        let answer = self.give(into);
        self.end = self.end.after(room, answer);
        answer
    }
}
