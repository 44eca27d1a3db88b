//! The statements of a BGP process.
//!
//! A line is read by its words: its first word is told once, then what is behind it. The forms
//! that are read are looked at first, then what the tool refuses to pass over, and all else is
//! outside. The crate stands on `nc_lines` for lines and words, makes the types of `nc_types`,
//! and keeps the things of a process in maps of `indexmap`. Its contract promises that
//! [`read_process_header`] gives the number of the autonomous system in a header,
//! [`read_bgp_statement`] what a line says by the table of statements in `specs/`, and
//! [`read_process`] the process that the lines of its block make, with the lines of each
//! neighbor, network and aggregate: these stand in order of first mention, each made by its own
//! statements, of each field the last one decides, and the lower is told of the first faulty line
//! and the first line of a neighbor without `remote-as`. The laws say what follows of the things,
//! of their lines and of the fault.
#![tactic(auto)]

mod first;
mod header;
mod laws;
mod lines;
mod neighbor;
mod neighbor_draft;
mod numbers;
mod prefix_draft;
mod prefixes;
mod process_draft;
mod processes;
mod statement;
mod things;

pub use header::read_process_header;
pub use laws::{lowest_faults_of_processes_are_told, things_of_processes_have_their_lines};
pub use lines::read_bgp_statement;
pub use processes::{ProcessPart, read_process};
pub use statement::{BgpStatement, NeighborStatement};
