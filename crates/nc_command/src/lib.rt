//! The session language: the lines of a session as they are cut while it is read, what a line asks, and the text of
//! a test.
//!
//! It stands on `nc_lines`, which says what the lines of a text are and cuts a line into words, prefixes and
//! addresses, and on `nc_types` for the tests. Its contract promises of each line, by the definitions of
//! `specs/Command`, what it asks, or that it is passed over, too long or not understood, and of each test the exact
//! text; and, by those of `specs/Cutting`, that what a [`Cutter`] gives are the lines of the bytes that were pushed
//! into it, of which it holds no more than [`HELD_LIMIT`]. The laws in `laws` say that a test's text is the words of
//! the line that asks it, and that the bytes of a whole text are cut into its lines.
#![tactic(auto)]

mod command;
mod cutter;
mod fault;
pub mod laws;
mod names;
mod reading;
mod text;

pub use command::Command;
pub use cutter::{Cut, CutLine, Cutter, cut_at_feed};
pub use fault::CommandFault;
pub use names::Names;
pub use reading::read_command;
pub use text::test_text;

/// How many bytes a line of a session may have, without its line end.
pub const LINE_LIMIT: usize = 4096;

/// The greatest number that a command may have.
pub const MOST_NUMBER: u32 = 4_294_967_295;

/// How many bytes of a line are held while it is read: those that a line may have, a carriage return, and one
/// by which a longer line is known.
pub const HELD_LIMIT: usize = LINE_LIMIT + 2;
