//! The session: from words, files and test commands to replies, a report of coverage after each test, and
//! the status that a run ends with.
//!
//! It stands on `nc_words` for the words, on `nc_gen` for generated networks, on `nc_load` for the network that files
//! configure and the state in which it settles, on `nc_engine` for the answers to lines and on `nc_outside` for the
//! outside. [`run`] is all that a program calls.
//! Its contract promises that every byte that it writes is the one that the definitions of `specs/` give for the
//! words, the files and the session, and that each status comes only where its cause stands. The definitions of
//! what the words load and of the output are public: `Load` and `Output`, in the order to read them, behind those of
//! files in `nc_load` and of marks and the steps of a session in `nc_engine`; `Generated` has a generated network's
//! files and session.
#![tactic(auto)]

mod afterwards;
mod generated;
pub mod laws;
mod pieces;
mod runs;
mod serving;
mod status;
mod writing;

pub use afterwards::Afterwards;
pub use nc_engine::{Engine, Flow};
pub use runs::run;
pub use status::Status;

/// How many bytes of a session are read.
pub const SESSION_LIMIT: usize = 16_777_216;
