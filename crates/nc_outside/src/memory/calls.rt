ghost use Rattle.std.specs.Prelude.{◌≡◌, is_err, true};
ghost use Rattle.nc_outside.specs.Counts.{HasCause, Rose};
ghost use Rattle.nc_outside.specs.Memory.{no_calls, fails_next, after_call, faults_of, faults_beside};

use crate::Failed;
use std::marker::Model;

/// The calls of an object in memory, counted from 0, and the numbers of those that fail.
#[derive(Drop)]
pub struct Calls {
    fails: Vec<u64>,
    made: u64,
    faults: u64,
}

impl Model for Calls {
    ghost use Rattle.nc_outside.specs.Memory.{CallCounts};

    ghost Value = { CallCounts };

    ghost view = { λ c. record { fails = c.fails.items; made = c.made; faults = c.faults } };
}

impl Calls {
    /// No call was made yet; those of these numbers will fail.
    pub fn new(fails: Vec<u64>) -> Calls
        ensures { result ≡ no_calls fails.items }
    {
        Calls {
            fails,
            made: 0,
            faults: 0,
        }
    }

    /// How many calls were made, which is the number of the next one.
    pub fn made(&self) -> u64
        ensures { result ≡ self.now.made }
    {
        self.made
    }

    /// Counts one more call, which fails where its number is among those given.
    pub fn make(&mut self) -> Result<(), Failed>
        ensures fails { is_err result ≡ fails_next self.old }
        ensures after { self.new ≡ after_call (is_err result) self.old }
        ensures cause { HasCause (faults_of self.old) (faults_of self.new) result }
        ensures beside { HasCause (faults_beside self.old) (faults_beside self.new) result }
    {
        let fails = self.fails.contains(&self.made);
        self.made = self.made.saturating_add(1);
        if fails {
            self.faults = self.faults.saturating_add(1);
            return Err(Failed);
        }
        Ok(())
    }

    /// Counts one more call, which the object refuses.
    pub fn refuse(&mut self) -> Failed
        ensures after { self.new ≡ after_call true self.old }
        ensures beside { Rose (faults_beside self.old) (faults_beside self.new) }
    {
        self.made = self.made.saturating_add(1);
        self.faults = self.faults.saturating_add(1);
        Failed
    }
}
