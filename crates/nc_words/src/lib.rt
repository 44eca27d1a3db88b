//! The words of the command line: how many rounds of the routing they ask for, and either the files
//! of a network or a network that is generated.
//!
//! They are read by one `clap` command of two options and a list of files. The crate stands on
//! `nc_lines` for how a number is written, and on `nc_gen` for the sizes of generated networks. Its
//! contract promises that [`read_words`] answers what the definition in `specs/Words` says of every
//! list of words (profile); `specs/Cases` has some by computation.
#![tactic(auto)]

mod command;
pub mod laws;
mod read;
mod request;

pub use read::read_words;
pub use request::{Input, Request, WordsFault};

/// How many rounds of the routing are made at most, where the words ask for none.
pub const DEFAULT_ROUNDS: u32 = 256;

/// How many rounds the words may ask for.
pub const MOST_ROUNDS: u32 = 10_000;

/// The greatest number of pods of a network that is generated.
pub const MOST_PODS: u32 = 8;
