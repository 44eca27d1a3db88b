//! The lines of a text and the words of a line, for configuration files and for sessions alike.
//!
//! A file is split into its lines once, without a copy of any; a line is read word by word, and a word as a
//! number, an address or a prefix; a statement is told by the words that it begins with. Beside std the crate
//! stands on `nc_types`, and on `memchr` for line feeds. Its contract promises that the lines, the words and the
//! numbers are those of the definitions in `specs/`, which also say which lines belong to a banner, in which
//! block an indented line stands, what the lines of a part of a file say by a rule for one line, and how what
//! they say is grouped by a key.
#![tactic(auto)]

pub mod banner;
mod block;
pub mod cut;
pub mod laws;
pub mod line_end;
mod lines;
pub mod numbers;
pub mod split;
pub mod statement;

pub use block::Block;
pub use lines::Lines;
