//! The statements of access lists, and those that apply them to interfaces.
//!
//! A line is read by its words. An entry that begins as one and has another rest is odd: it is told
//! with its list, since only the whole file tells whether an interface applies the list. The crate
//! stands on `nc_lines` for lines and words and makes the types of `nc_types`. Its contract
//! promises that [`opens_list`] and [`begins_entry`] tell the headers of lists and the numbered
//! statements, [`read_group`] what applies a list, [`read_filters`] the entries of all lists from
//! the lines that speak of them, each read by its own header, with the odd ones beside them, and
//! [`read_applied`] the list that is applied, which the last line decides.
#![tactic(auto)]

mod action;
mod entries;
mod filters;
mod groups;
mod lists;
mod places;

pub use filters::{FilterLine, FilterLines, OddLine, read_filters};
pub use groups::{GroupStatement, read_applied, read_group};
pub use lists::{begins_entry, opens_list};
