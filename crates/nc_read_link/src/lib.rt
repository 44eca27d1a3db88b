//! The statements of interfaces and of static routes.
//!
//! A line is read by its words: what the tool refuses to pass over is looked at first, then the forms that are
//! read, and all else is outside. The crate stands on `nc_lines` for lines and words and makes the types of
//! `nc_types`. Its contract promises that [`read_interface`] gives the interface that the lines of its block
//! make, where the last statement of each field decides, and [`read_static`] the route of its line; and that a
//! fault is told of the first faulty line, with its cause.
#![tactic(auto)]

mod draft;
mod first;
mod interfaces;
pub mod laws;
mod masks;
mod next_hop;
mod options;
mod setting;
mod statics;
mod usual;

pub use interfaces::read_interface;
pub use setting::Setting;
pub use statics::read_static;

/// The administrative distance of a static route that names none (Cisco IOS command reference, `ip route`).
pub const DEFAULT_DISTANCE: u8 = 1;
