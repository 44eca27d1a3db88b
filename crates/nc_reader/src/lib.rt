//! From the lines of a configuration file to the configuration of its router.
//!
//! Each line is an unindented statement, a line of a block, or nothing that is read. The lines that
//! speak of one topic, as an interface, a process or a list, are gathered and read together, and
//! the things that they make become elements in order of their first lines. The lines that apply an
//! access list to an interface are a topic apart from it, and an entry of an access list that has
//! an odd rest is a fault exactly where an interface applies the list. The crate stands on
//! `nc_lines` for lines and banners, on `nc_read_link` for the statements of interfaces and static
//! routes, on `nc_read_bgp` for those of a BGP process, on `nc_read_policy` for those of route maps
//! and lists, on `nc_read_filter` for those of access lists, and on `indexmap` for topics in order
//! of first mention. Its contract promises that [`read_config`] gives the configuration of the
//! whole list of lines, or its one fault: that of the lowest faulty line. That every such
//! configuration is well formed is a law in [`laws`].
#![tactic(auto)]

mod asked;
mod communities;
mod config;
mod faults;
mod first;
mod gather;
mod groups;
mod header;
mod known;
pub mod laws;
mod odd;
mod order;
mod parts;
mod pieces;
mod placed;
mod places;
mod role;
mod routes;
mod things;
mod topic;

pub use config::read_config;
