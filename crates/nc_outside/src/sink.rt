ghost use Rattle.std.specs.Prelude.{◌<◌, ◌≤◌, ℕ, List, Option, length, IfOk};
ghost use Rattle.std.specs.Io.KnownBytes.{WriteAppends};
ghost use Rattle.nc_outside.specs.Counts.{Faults, HasCause};

use crate::Failed;

/// Where replies go.
pub trait Sink {
    /// The bytes that were taken so far, where the object tells them.
    ghost written: { Self → Option (List ℕ) };

    /// How often the outside failed, and whether it never will. The count never falls, and stays once it
    /// is at 2^64 - 1.
    ghost faults: { Self → Faults };

    /// Takes bytes from the front of `from`, and answers how many: at least one, unless `from` is empty.
    /// After `Failed` none was taken.
    fn write(&mut self, from: &[u8]) -> Result<usize, Failed>
        ensures within { IfOk result (λ n. n ≤ length from.now) }
        ensures some { IfOk result (λ n. 0 < length from.now → 0 < n) }
        ensures bytes { WriteAppends (written self.old) (written self.new) result from.now }
        ensures cause { HasCause (faults self.old) (faults self.new) result };
}
