//! Irreducible suites, and dead elements.
//!
//! A suite is what is left of tests where, from the greatest number to the least, each is left out
//! without which no mark of an element changes. This crate stands on `nc_graph`, whose derivations
//! decide how an element is marked, and on `nc_marks`, which keeps the strong elements of each node.
//! Its contracts promise that `suite` answers just the tests that the definition leaves, over all
//! derivations of the tested nodes, and that `dead` answers just the elements that no node of a graph
//! is; where the graph is the closure of some roots these are the elements that stand in no
//! derivation of a root, which is a law of `laws`, as is that a suite has all marks of the tests and
//! none of its tests too many.
//!
//! A `Tally` counts for each element the tests for which it is strong, and those for which it is
//! strong or weak. What a test touches is worked out twice, once to be counted and once when it is
//! looked at, and is never kept of two tests at once: the counts, and flags of the elements and of the
//! nodes, are all that is kept besides. A test takes time for the nodes that it reaches and for the
//! strong elements of its nodes, whatever else the graph holds; one that repeats another takes none.
#![tactic(auto)]

pub mod laws;
mod leaving;
mod listing;
mod repeats;
mod tally;
mod touch;
mod unmet;

pub use leaving::suite;
pub use tally::Tally;
pub use touch::Touch;
pub use unmet::dead;
