//! Reports on the marks of the lines of a network's files: the one that stands behind each test,
//! and the forms that people and other tools read.
//!
//! [`Shown`] keeps the lines of a report as one text, which has a byte for each line of a file,
//! with the places of each router's letters in it, and how often each letter is there. It puts the
//! letters that a test changes in place, and writes the report of a test, a listing of a file, an
//! LCOV tracefile, which viewers of coverage and build servers take, and a JSON object (RFC 8259).
//! Each costs what it writes: a report is its counts and a copy of the text, and who takes the text
//! as it stands, by [`Shown::lines`], needs no copy. The numbers of lines are counted up in place,
//! so that a form keeps no more than one line of its own, but for the object, which keeps its
//! values. [`report_text`], [`show_text`], [`lcov_text`] and [`json_text`] write them of marks that
//! aren't kept. The crate stands on `nc_marks` for the mark of a line, on `nc_lines` for the lines
//! and on `serde_json` for JSON. Its contract promises each text byte for byte: `specs/Texts` has
//! the forms, by the letters of the lines, and `specs/Sheets` has these letters, by the marks.
#![tactic(auto)]

mod counter;
mod file;
mod lcov;
mod listing;
mod number;
mod object;
mod report;
mod show;
mod shown;
mod texts;

pub use file::LoadedFile;
pub use report::push_line;
pub use shown::Shown;
pub use texts::{json_text, lcov_text, report_text, show_text};
