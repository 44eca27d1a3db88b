//! Objects in memory: they tell all their bytes, and fail exactly at the calls that they were given.

mod calls;
mod files;
mod sink;
mod source;

pub use files::{MemFile, MemFiles};
pub use sink::{CountSink, MemSink};
pub use source::{MemSource, PlainSource};
