ghost use Rattle.std.specs.Prelude.{◌≡◌, ◌≤◌, ℕ, List, Option, length, IfOk};
ghost use Rattle.std.specs.Io.KnownBytes.{ReadConsumes};
ghost use Rattle.nc_outside.specs.Counts.{Faults, HasCause};
ghost use Rattle.nc_outside.specs.Ends.{end_after};
ghost use Rattle.nc_outside.specs.declared.end.End.{End};

use crate::Failed;

/// Where a session comes from.
pub trait Source {
    /// The bytes that weren't read yet, where the object tells them.
    ghost rest: { Self → Option (List ℕ) };

    /// How often the outside failed, and whether it never will. The count never falls, and stays once it
    /// is at 2^64 - 1.
    ghost faults: { Self → Faults };

    /// Whether the end was told, and how many reads came behind it.
    ghost end: { Self → End };

    /// Moves the next bytes to the front of `into`, and answers how many. For an `into` that isn't empty,
    /// 0 says that nothing is left. After `Failed` the rest is as before.
    fn read(&mut self, into: &mut [u8]) -> Result<usize, Failed>
        ensures within { IfOk result (λ n. n ≤ length into.old) }
        ensures bytes { ReadConsumes (rest self.old) (rest self.new) result into.new }
        ensures cause { HasCause (faults self.old) (faults self.new) result }
        ensures end { end self.new ≡ end_after (length into.old) result (end self.old) };
}
