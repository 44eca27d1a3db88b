//! The statements of route maps, prefix lists and community lists.
//!
//! A line is read by its words: the forms that are read are looked at first, then what the tool
//! refuses to pass over, and all else is outside. An entry of a prefix list in its frequent form is
//! read from its bytes, without cutting it into words. The crate stands on `nc_lines` for lines and
//! words and on `nc_community` for communities, and makes the types of `nc_types`. Its contract
//! promises that [`read_clause_header`] gives the name, the number and the action of a header,
//! [`read_clause`] the clause that the lines of its block make, where the last statement of each
//! field decides and matches add up, [`read_list_entry`] and [`read_community_entry`] the entry of
//! their line, and [`read_list`] the entries of a prefix list from its lines; and that a fault is
//! told of the first faulty line, with its cause. What holds of the entries of each list are laws
//! in [`laws`].
#![tactic(auto)]

mod action;
mod bounds;
mod clauses;
mod communities;
mod draft;
mod entries;
mod frequent;
mod fronts;
mod header;
mod heads;
pub mod laws;
mod lists;
mod parts;
mod setting;
mod values;

pub use clauses::read_clause;
pub use communities::{read_community_entry, read_community_name};
pub use entries::read_list_entry;
pub use header::{ClauseHeader, read_clause_header};
pub use lists::{read_list, read_list_name};
pub use parts::EntryLines;

/// How many numbers a clause puts before a path at most (profile).
pub const PREPEND_LIMIT: u8 = 10;
