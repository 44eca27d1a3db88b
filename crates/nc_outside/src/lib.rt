//! The outside: where files come from, where a session comes from, and where replies go.
//!
//! Three traits, [`Files`], [`Source`] and [`Sink`], are all that the tool sees of the system. Each keeps
//! a count of faults, so that a call which fails can be told from a body that gives up, and says whether
//! it will ever fail, so that a caller can know that nothing does. What is read counts the calls of `enter`
//! and the reads that come after an end was told, so that nothing is done twice outside. And each may tell
//! its bytes, so that a theorem can name them. Objects in memory tell everything and fail exactly at the
//! calls that they were given; the adapters over std tell nothing and count what the system refuses.
//! The crate stands on `nc_types` for names.
#![tactic(auto)]

mod end;
mod files;
mod memory;
mod sink;
mod source;
mod system;

pub use end::End;
pub use files::Files;
pub use memory::{CountSink, MemFile, MemFiles, MemSink, MemSource, PlainSource};
pub use sink::Sink;
pub use source::Source;
pub use system::{FolderFiles, StdinSource, StdoutSink};

/// A call of the outside didn't do what it was asked for.
#[derive(Clone, Copy, PartialEq, Eq)]
pub struct Failed;
