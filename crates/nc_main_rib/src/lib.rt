//! The main tables of a network.
//!
//! Of each prefix of a router the rows of its base table, where BGP has nothing nearer, and else
//! the row by which an active aggregate discards, or those that were learnt. Only for the prefixes
//! of base rows and of aggregates are the two sides compared. The BGP rows between two such
//! prefixes, which are nearly all, are added one after another; a binary search says where they
//! end. Two more say which prefixes are inside an aggregate: it is active where something is chosen
//! of one of them. The crate stands on `nc_types` for the network and on `nc_tables` for the tables
//! and for the definition of what stands in them; the proofs take the laws of lists in order from
//! `nc_base_rib`. Its contract promises that [`main_tables`] gives exactly these tables, and that
//! [`in_order`] gives prefixes in order, each once.
#![tactic(auto)]

mod discards;
mod prefixes;
mod rows;
mod tables;

pub use prefixes::in_order;
pub use tables::main_tables;
