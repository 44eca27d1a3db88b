ghost use Rattle.std.specs.Prelude.{◌≡◌, ◌≤◌, ◌<◌, ◌++◌, min, length, take, drop, All, Some, IfOk, OnErr, is_err, Ok, true, false};
ghost use Rattle.std.specs.Io.KnownBytes.{ReadConsumes};
ghost use Rattle.nc_outside.specs.Counts.{HasCause};
ghost use Rattle.nc_outside.specs.Ends.{end_after};
ghost use Rattle.nc_outside.specs.Memory.{no_calls, fails_next, after_call, given, faults_of, no_end};

use super::calls::Calls;
use crate::{End, Failed, Source};
use std::marker::Model;

/// Copies the front of `from` to the front of `into`, at most so many bytes, and answers how many.
pub fn copy_front(from: &[u8], into: &mut [u8], most: usize) -> usize
    ensures count { result ≡ min most (min (length into.old) (length from.now)) }
    ensures moved { into.new ≡ take result from.now ++ drop result into.old }
{
    let count = most.min(into.len().min(from.len()));
    into[..count].copy_from_slice(from.split_at(count).0);
    count
}

/// A source over bytes in memory that never fails.
#[derive(Drop)]
pub struct PlainSource {
    bytes: Vec<u8>,
    at: usize,
    end: End,
}

impl Model for PlainSource {
    ghost use Rattle.std.specs.Prelude.{◌≤◌, length, drop};
    ghost use Rattle.nc_outside.specs.Memory.{PlainState};

    ghost Value = { PlainState };

    ghost view = { λ s. record { rest = drop s.at s.bytes.items; end = s.end } };

    ghost invariant = { λ s. s.at ≤ length s.bytes.items };
}

impl PlainSource {
    /// A source of these bytes.
    pub fn new(bytes: Vec<u8>) -> PlainSource
        ensures { result ≡ record { rest = bytes.items; end = no_end } }
    {
        PlainSource {
            bytes,
            at: 0,
            end: End::new(),
        }
    }

    /// Moves at most so many bytes to the front of `into`, and answers how many.
    pub(super) fn give(&mut self, into: &mut [u8], most: usize) -> usize
        ensures count { result ≡ min most (min (length into.old) (length self.old.rest)) }
        ensures moved { into.new ≡ take result self.old.rest ++ drop result into.old }
        ensures after { self.new ≡ record self.old { rest = drop result self.old.rest } }
    {
        let count = copy_front(self.bytes.split_at(self.at).1, into, most);
        self.at += count;
        count
    }
}

impl Source for PlainSource {
    ghost rest = { λ s. Some s.rest };

    ghost faults = { λ _. record { count = 0; is_steady = true } };

    ghost end = { λ s. s.end };

    fn read(&mut self, into: &mut [u8]) -> Result<usize, Failed>
        ensures within { IfOk result (λ n. n ≤ length into.old) }
        ensures bytes { ReadConsumes (Some self.old.rest) (Some self.new.rest) result into.new }
        ensures end { self.new.end ≡ end_after (length into.old) result self.old.end }

        ensures count { result ≡ Ok (min (length into.old) (length self.old.rest)) }
        ensures moved { IfOk result (λ n. into.new ≡ take n self.old.rest ++ drop n into.old) }
        ensures rest { IfOk result (λ n. self.new.rest ≡ drop n self.old.rest) }
    {
        let room = into.len();
        let count = self.give(into, room);
        self.end = self.end.after(room, Ok(count));
        Ok(count)
    }
}

/// A source over bytes in memory that gives them in given pieces and fails at given reads.
#[derive(Drop)]
pub struct MemSource {
    plain: PlainSource,
    pieces: Vec<usize>,
    calls: Calls,
}

impl Model for MemSource {
    ghost use Rattle.std.specs.Prelude.{◌<◌, All};
    ghost use Rattle.nc_outside.specs.Memory.{SourceState};

    ghost Value = { SourceState };

    ghost view = { λ s. record {
      rest = s.plain.rest;
      pieces = s.pieces.items;
      calls = s.calls;
      end = s.plain.end;
    } };

    ghost invariant = { λ s. All (λ piece. 0 < piece) s.pieces.items };
}

impl MemSource {
    /// A source of these bytes. The read of number k, from 0, gives at most `pieces[k]` bytes, and later
    /// reads what fits. A read whose number is in `fails` fails, and no other.
    pub fn new(bytes: Vec<u8>, pieces: Vec<usize>, fails: Vec<u64>) -> MemSource
        requires { All (λ piece. 0 < piece) pieces.items }
        ensures { result ≡ record {
          rest = bytes.items;
          pieces = pieces.items;
          calls = no_calls fails.items;
          end = no_end;
        } }
    {
        MemSource {
            plain: PlainSource::new(bytes),
            pieces,
            calls: Calls::new(fails),
        }
    }

    // Gives the next piece, or fails.
    fn give(&mut self, into: &mut [u8]) -> Result<usize, Failed>
        ensures bytes { ReadConsumes (Some self.old.rest) (Some self.new.rest) result into.new }
        ensures fails { is_err result ≡ fails_next self.old.calls }
        ensures count { IfOk result (λ n. n ≡ given self.old (length into.old)) }
        ensures moved { IfOk result (λ n. into.new ≡ take n self.old.rest ++ drop n into.old) }
        ensures after { IfOk result (λ n. self.new ≡ record self.old {
          rest = drop n self.old.rest;
          calls = after_call false self.old.calls;
        }) }
        ensures failed { OnErr result
            (self.new ≡ record self.old { calls = after_call true self.old.calls }) }
        ensures untouched { OnErr result (into.new ≡ into.old) }
        ensures cause { HasCause (faults_of self.old.calls) (faults_of self.new.calls) result }
    {
        let number = self.calls.made() as usize;
        self.calls.make()?;
        let room = into.len();
        let most = self.pieces.get(number).copied().unwrap_or(room);
        Ok(self.plain.give(into, most))
    }
}

impl Source for MemSource {
    ghost rest = { λ s. Some s.rest };

    ghost faults = { λ s. faults_of s.calls };

    ghost end = { λ s. s.end };

    fn read(&mut self, into: &mut [u8]) -> Result<usize, Failed>
        ensures within { IfOk result (λ n. n ≤ length into.old) }
        ensures bytes { ReadConsumes (Some self.old.rest) (Some self.new.rest) result into.new }
        ensures cause { HasCause (faults_of self.old.calls) (faults_of self.new.calls) result }
        ensures end { self.new.end ≡ end_after (length into.old) result self.old.end }

        ensures fails { is_err result ≡ fails_next self.old.calls }
        ensures count { IfOk result (λ n. n ≡ given self.old (length into.old)) }
        ensures moved { IfOk result (λ n. into.new ≡ take n self.old.rest ++ drop n into.old) }
        ensures after { IfOk result (λ n. self.new ≡ record self.old {
          rest = drop n self.old.rest;
          calls = after_call false self.old.calls;
          end = end_after (length into.old) result self.old.end;
        }) }
        ensures failed { OnErr result (self.new ≡ record self.old {
          calls = after_call true self.old.calls;
          end = end_after (length into.old) result self.old.end;
        }) }
        ensures untouched { OnErr result (into.new ≡ into.old) }
    {
        let room = into.len();
        let answer = self.give(into);
        self.plain.end = self.plain.end.after(room, answer);
        answer
    }
}
