//! What follows from the definitions of prefix lists alone: the contracts of functions that do
//! nothing.

ghost use Rattle.std.specs.Prelude.{◌≡◌, ◌<◌, ◌==◌, ℕ, List, Ok, Some, All, length, map};
ghost use Rattle.std.specs.List.{find};
ghost use Rattle.std.specs.List.Sorted.{IsStrictlyIncreasing};
ghost use Rattle.nc_types.specs.declared.config.ListEntry.{ListEntry};
ghost use Rattle.nc_read_policy.specs.declared.TheConstants.{PREPEND_LIMIT};
ghost use Rattle.nc_lines.specs.Parts.{Numbered, lines_in};
ghost use Rattle.nc_read_policy.specs.Lists.{EntryPart, of_seq, part_of, parts_of, stated_from};
ghost use Rattle.nc_read_policy.specs.Lists.{list_in};
ghost use Rattle.nc_read_policy.specs.Laws.{HasLines, AreApart};

/// The entries of a list stand in order of their numbers. Each is what the statements of its number
/// make, and what the statements of a number make is the entry of that number. A list of lines has
/// an entry.
pub fn entries_are_in_force()
    ensures ascend { (es : List ListEntry)
        → IsStrictlyIncreasing (map (λ p. p.entry.seq) (parts_of es)) }
    ensures each { (es : List ListEntry)
        → All (λ p. part_of (of_seq p.entry.seq es) ≡ Some p) (parts_of es) }
    ensures all { (es : List ListEntry) (seq : ℕ)
        → find (λ p. p.entry.seq == seq) (parts_of es) ≡ part_of (of_seq seq es) }
    ensures filled { (es : List ListEntry) → 0 < length es → 0 < length (parts_of es) }
{}

/// The statements of a list have the lines that they are read from. An entry has a line, its lines
/// ascend where those of the list do, and no line is of two entries.
pub fn entries_have_lines()
    ensures lines { (highest : ℕ) (block : List Numbered) (es : List ListEntry)
        → stated_from highest block ≡ Ok es → map (λ e. e.line) es ≡ lines_in block }
    ensures whole { (block : List Numbered) (ps : List EntryPart) → list_in block ≡ Ok ps
        → IsStrictlyIncreasing (lines_in block) → All (HasLines (lines_in block)) ps }
    ensures apart { (block : List Numbered) (ps : List EntryPart) → list_in block ≡ Ok ps
        → IsStrictlyIncreasing (lines_in block) → AreApart ps }
{}

/// The law of the limits: each number of the definitions that stands in the code under a name is the one that is meant. It
/// does nothing.
pub fn limits_are_numbers()
    ensures prepended { PREPEND_LIMIT ≡ 10 }
{}
