//! The base tables of a network.
//!
//! Of each router its connected routes and the static routes that can be used, of each prefix those of the least
//! distance, in order. The interface of a next hop is looked up by a binary search in a table of the interfaces
//! that are up, of which no two overlap in a valid network. The crate stands on `nc_types` for the network and on
//! `nc_tables` for the tables and for the definition of what stands in them. Its contract promises exactly these
//! tables, and of one static route the row that [`static_row`] answers without a table.
#![tactic(auto)]

mod candidates;
mod links;
mod nearest;
mod statics;
mod tables;

pub use statics::static_row;
pub use tables::base_tables;
