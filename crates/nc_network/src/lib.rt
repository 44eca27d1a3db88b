//! What makes several configurations one network: names of their own, prefixes that don't overlap,
//! addresses of their own, no reference to what isn't defined, and no more prefixes and neighbors
//! than there may be.
//!
//! The crate stands on `nc_types` for configurations, for what is wrong with them together and for
//! the network that they make, on `indexmap` for its tables and on `thiserror` for the texts of
//! errors. Its contract promises that [`judge`] gives Ok exactly where nothing is wrong, and else
//! the one fault that comes first, and that [`join`] makes the network of well-formed
//! configurations exactly there, want of memory aside.
#![tactic(auto)]

mod addresses;
mod clash;
mod defined;
mod fault;
mod joining;
pub mod laws;
mod limits;
mod names;
mod overlaps;
mod references;

pub use fault::{JoinFault, LimitWord};
pub use joining::{join, judge};

/// How many distinct prefixes several configurations have together, at most (profile).
pub const PREFIX_LIMIT: usize = 1024;

/// How many neighbors several configurations have together, at most (profile).
pub const NEIGHBOR_LIMIT: usize = 1024;
