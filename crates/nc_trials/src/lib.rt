//! Trials of a tool: runs over objects in memory that are cut, that fail and that meet a limit.
//!
//! A session comes in pieces or with carriage returns; each call of the files, of the session's
//! source and of the sink fails in turn; the sink has little room; a file is cut behind each of its
//! bytes; words and files are refused; and each limit is met and passed. What is tried is any
//! [`Tool`], so the trials are proved without the session that they are of. [`add_trials`] makes them
//! all, each kind a [`Row`] with a [`Verdict`], over the [`EXAMPLES`] and their replies. Beside them
//! stands what no run shows: the adapters over the system where that fails, and sets of communities
//! in memory.
//! The crate stands on `nc_outside` for the objects in memory and the adapters, on `nc_types` for
//! names and on `nc_community` for sets. Its contract promises that an [`Ending`] has the number that
//! a run ends with, that the objects of a trial fail at just the calls that it names, that a run is
//! judged by its ending and all its bytes, and that the first wrong run of a kind stays told.
#![tactic(auto)]

mod adapters;
mod cutting;
mod ending;
mod example;
mod faults;
mod judging;
mod limits;
mod lines;
mod many_tests;
mod network;
mod prepared;
mod refusals;
mod row;
mod session_ends;
mod sets;
mod sized;
mod tool;
mod trial;
mod trials;

pub use adapters::add_adapters;
pub use ending::Ending;
pub use example::{EXAMPLES, Example, Exchange};
pub use judging::Verdict;
pub use network::{Config, Network};
pub use row::{Row, print_rows};
pub use sets::add_sets;
pub use tool::Tool;
pub use trials::add_trials;
