//! What follows from the definitions of lines alone: the contracts of functions that do nothing.

ghost use Rattle.std.specs.Prelude.{◌≡◌, ◌++◌, ℕ, List, false};
ghost use Rattle.std.specs.List.{list_any};
ghost use Rattle.nc_lines.specs.Lines.{is_feed, lines_of};
ghost use Rattle.nc_lines.specs.WholeLines.{LinesGoOn, TakesBytes, last_line, whole_lines_of};

/// A text can be taken piece by piece: however it is cut in two, its lines are the whole lines of the front,
/// and then those of what the front left open with the rest behind it.
pub fn lines_go_on()
    ensures { (front behind : List ℕ) → LinesGoOn front behind }
{}

/// The lines of a text are its whole lines and the open one, where that has bytes; bytes without a line feed go to
/// the end of the open line, and a line feed makes it a whole one.
pub fn lines_end_at_feeds()
    ensures last { (text : List ℕ) → lines_of text ≡ whole_lines_of text ++ last_line text }
    ensures more { (text bytes : List ℕ) → list_any is_feed bytes ≡ false → TakesBytes text bytes }
{}
