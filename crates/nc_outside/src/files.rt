ghost use Rattle.std.specs.Prelude.{◌≡◌, ◌≤◌, ◌↔◌, ℕ, List, Option, Some, None, length, IfOk, OnOk, OnErr, IsNone, IsSome};
ghost use Rattle.std.specs.Io.KnownBytes.{ReadConsumes};
ghost use Rattle.nc_outside.specs.Named.{Named, Enters};
ghost use Rattle.nc_outside.specs.Counts.{Faults, Entries, HasCause, HasEnterCause, one_entry};
ghost use Rattle.nc_outside.specs.Ends.{end_after, end_entered};
ghost use Rattle.nc_outside.specs.declared.end.End.{End};

use crate::Failed;

/// Files that are entered by name and read from front to end, one at a time.
pub trait Files {
    /// The files by name, where the object tells them. No call changes them.
    ghost files: { Self → Option (List Named) };

    /// The name of the entered file, where the files are told and one is entered.
    ghost entered: { Self → Option (List ℕ) };

    /// What is left of the entered file, told together with its name.
    ghost left: { Self → Option (List ℕ) };

    /// How often the outside failed, and whether it never will. The count never falls, and stays once it
    /// is at 2^64 - 1.
    ghost faults: { Self → Faults };

    /// How often `enter` was called, up to 2^64 - 1, and the names that it was given, where the object
    /// tells them.
    ghost entries: { Self → Entries };

    /// Whether the end of the entered file was told, and how many reads came behind an end.
    ghost end: { Self → End };

    /// Makes the named file the entered one, with its whole content left. After `Failed` none is entered.
    fn enter(&mut self, name: &str) -> Result<(), Failed>
        ensures files { files self.new ≡ files self.old }
        ensures entered { OnOk result
            (Enters (files self.old) name.now (entered self.new) (left self.new)) }
        ensures failed { OnErr result ((entered self.new ≡ None) × (left self.new ≡ None)) }
        ensures cause { HasEnterCause (files self.old) name.now
            (faults self.old) (faults self.new) result }
        ensures entries { entries self.new ≡ one_entry name.now (entries self.old) }
        ensures end { end self.new ≡ end_entered (end self.old) };

    /// Moves the next bytes of the entered file to the front of `into`, and answers how many. For an `into`
    /// that isn't empty, 0 says that nothing is left. With no file entered it answers 0.
    fn read(&mut self, into: &mut [u8]) -> Result<usize, Failed>
        ensures files { files self.new ≡ files self.old }
        ensures entered { entered self.new ≡ entered self.old }
        ensures within { IfOk result (λ n. n ≤ length into.old) }
        ensures bytes { ReadConsumes (left self.old) (left self.new) result into.new }
        ensures none_entered { IsSome (files self.old) → entered self.old ≡ None
            → IfOk result (λ n. n ≡ 0) }
        ensures cause { HasCause (faults self.old) (faults self.new) result }
        ensures entries { entries self.new ≡ entries self.old }
        ensures end { end self.new ≡ end_after (length into.old) result (end self.old) };

    /// What is left is told exactly where the name is, and neither where the files aren't.
    ghost together: { (s : Self) → (IsNone (entered s) ↔ IsNone (left s)) × (IsNone (files s) → IsNone (entered s)) };
}
