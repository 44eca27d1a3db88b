//! What is tried.

use crate::ending::Ending;
use nc_outside::{MemFiles, MemSink, MemSource};
use std::alloc::Global;

/// A tool that makes runs over objects in memory.
pub trait Tool {
    /// Makes a run with these words over these objects, and tells how it ended.
    fn run(
        &self,
        alloc: Global,
        words: &[String],
        files: &mut MemFiles,
        input: &mut MemSource,
        output: &mut MemSink,
    ) -> Ending;
}
