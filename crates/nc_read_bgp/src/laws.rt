//! What follows from the definition of a process alone: the contracts of functions that do nothing.

ghost use Rattle.std.specs.Prelude.{◌≡◌, ◌<◌, ℕ, List, Ok, length};
ghost use Rattle.std.specs.List.Sorted.{IsStrictlyIncreasing};
ghost use Rattle.nc_types.specs.WellFormed.{IsProcess};
ghost use Rattle.nc_lines.specs.Parts.{Numbered, lines_in};
ghost use Rattle.nc_read_bgp.specs.Processes.{ProcessMade, process_in};
ghost use Rattle.nc_read_bgp.specs.Laws.{lines_of_things, lines_of_each, IsBlockOf};
ghost use Rattle.nc_read_bgp.specs.Laws.{HaveLinesBeside, HaveLines, AreWithin, Ascend, AreApart, lowest_or_process};

/// A process is well formed: each of its things has an address or a prefix of its own, no host bits
/// stand in the prefix of a network or an aggregate and its length is at most 32, and no more routes
/// are used at once than may be. Beside each thing stand its lines, of which there is one at least.
/// In the block of a file the process itself has a line too, and the number of its headers. All
/// these lines are those of the block. They ascend where those of the block do, and then no line is
/// of two.
pub fn things_of_processes_have_their_lines()
    ensures well_formed { (block : List Numbered) (made : ProcessMade) → process_in block ≡ Ok made
        → IsProcess made.process }
    ensures beside { (block : List Numbered) (made : ProcessMade) → process_in block ≡ Ok made
        → HaveLinesBeside made }
    ensures some { (block : List Numbered) (made : ProcessMade) → process_in block ≡ Ok made
        → HaveLines (lines_of_things made) }
    ensures own { (asn : ℕ) (block : List Numbered) (made : ProcessMade)
        → process_in block ≡ Ok made → IsBlockOf asn block → 0 < length made.own }
    ensures number { (asn : ℕ) (block : List Numbered) (made : ProcessMade)
        → process_in block ≡ Ok made → IsBlockOf asn block → made.process.asn ≡ asn }
    ensures within { (block : List Numbered) (made : ProcessMade) → process_in block ≡ Ok made
        → AreWithin (lines_in block) (lines_of_each made) }
    ensures ascend { (block : List Numbered) (made : ProcessMade) → process_in block ≡ Ok made
        → IsStrictlyIncreasing (lines_in block) → Ascend (lines_of_each made) }
    ensures apart { (block : List Numbered) (made : ProcessMade) → process_in block ≡ Ok made
        → IsStrictlyIncreasing (lines_in block) → AreApart (lines_of_each made) }
{}

/// Where the lines of a block ascend, its fault is the lowest of all its faulty lines and of the
/// first lines of all its neighbors that have no `remote-as`.
pub fn lowest_faults_of_processes_are_told()
    ensures { (block : List Numbered) → IsStrictlyIncreasing (lines_in block)
        → process_in block ≡ lowest_or_process block }
{}
