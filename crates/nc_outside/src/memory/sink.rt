ghost use Rattle.std.specs.Prelude.{◌≡◌, ◌≤◌, ◌<◌, ◌+◌, ◌-◌, ◌^◌, ◌++◌, ◌||◌, [], min, length, take, Some, None, IfOk, OnErr, is_err, Ok, true, false};
ghost use Rattle.std.specs.Io.KnownBytes.{WriteAppends};
ghost use Rattle.nc_outside.specs.Counts.{HasCause};
ghost use Rattle.nc_outside.specs.Memory.{no_calls, fails_next, after_call, overflows, taken, faults_beside};

use super::calls::Calls;
use crate::{Failed, Sink};
use std::alloc::{AllocError, Global};
use std::marker::Model;

/// A sink that keeps what it takes, has room for so many bytes, and fails at given writes. Since it fails once
/// it is full, it never says that it is steady.
#[derive(Drop)]
pub struct MemSink {
    bytes: Vec<u8>,
    room: usize,
    calls: Calls,
}

impl Model for MemSink {
    ghost use Rattle.std.specs.Prelude.{◌≤◌, length, vec_capacity};
    ghost use Rattle.nc_outside.specs.Memory.{SinkState};

    ghost Value = { SinkState };

    ghost view = { λ s. record { written = s.bytes.items; room = s.room; calls = s.calls } };

    ghost invariant = { λ s. (length s.bytes.items ≤ s.room) × (s.room ≤ vec_capacity s.bytes) };
}

impl MemSink {
    /// A sink with room for so many bytes, which it takes now. A write whose number, from 0, is in `fails`
    /// fails, and so does one of some bytes once the room is full; no other does.
    pub fn new(alloc: Global, room: usize, fails: Vec<u64>) -> Result<MemSink, AllocError>
        ensures { IfOk result
            (λ sink. sink ≡ record { written = []; room = room; calls = no_calls fails.items }) }
    {
        Ok(MemSink {
            bytes: Vec::with_capacity(alloc, room)?,
            room,
            calls: Calls::new(fails),
        })
    }

    /// The bytes that were taken so far.
    pub fn written(&self) -> &[u8]
        ensures { result.now ≡ self.now.written }
    {
        &self.bytes
    }
}

impl Sink for MemSink {
    ghost written = { λ s. Some s.written };

    ghost faults = { λ s. faults_beside s.calls };

    fn write(&mut self, from: &[u8]) -> Result<usize, Failed>
        ensures within { IfOk result (λ n. n ≤ length from.now) }
        ensures some { IfOk result (λ n. 0 < length from.now → 0 < n) }
        ensures bytes { WriteAppends (Some self.old.written) (Some self.new.written) result from.now }
        ensures cause { HasCause (faults_beside self.old.calls) (faults_beside self.new.calls) result }

        ensures fails { is_err result ≡ (overflows self.old from.now || fails_next self.old.calls) }
        ensures count { IfOk result (λ n. n ≡ taken self.old from.now) }
        ensures after { IfOk result (λ n. self.new ≡ record self.old {
          written = self.old.written ++ take n from.now;
          calls = after_call false self.old.calls;
        }) }
        ensures failed { OnErr result
            (self.new ≡ record self.old { calls = after_call true self.old.calls }) }
    {
        if !from.is_empty() && self.bytes.len() >= self.room {
            return Err(self.calls.refuse());
        }
        self.calls.make()?;
        let count = from.len().min(self.room - self.bytes.len());
        self.bytes
            .extend_from_slice(from.split_at(count).0)
            .unwrap();
        Ok(count)
    }
}

/// A sink that takes every byte and keeps only their number.
#[derive(Drop)]
pub struct CountSink {
    count: u64,
}

impl Model for CountSink {
    ghost use Rattle.std.specs.Prelude.{ℕ};

    ghost Value = { ℕ };

    ghost view = { λ s. s.count };
}

impl CountSink {
    /// A sink that took no byte yet.
    pub fn new() -> CountSink
        ensures { result ≡ 0 }
    {
        CountSink { count: 0 }
    }

    /// How many bytes were taken; it stays at 2^64 - 1.
    pub fn count(&self) -> u64
        ensures { result ≡ self.now }
    {
        self.count
    }
}

impl Sink for CountSink {
    ghost written = { λ _. None };

    ghost faults = { λ _. record { count = 0; is_steady = true } };

    fn write(&mut self, from: &[u8]) -> Result<usize, Failed>
        ensures within { IfOk result (λ n. n ≤ length from.now) }
        ensures some { IfOk result (λ n. 0 < length from.now → 0 < n) }

        ensures all { result ≡ Ok (length from.now) }
        ensures count { self.new ≡ min (self.old + length from.now) (2 ^ 64 - 1) }
    {
        self.count = self.count.saturating_add(from.len() as u64);
        Ok(from.len())
    }
}
