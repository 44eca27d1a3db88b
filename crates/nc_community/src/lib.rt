//! Communities of routes: reading one from its word, sets of them, and what community lists and
//! `set community` make of them.
//!
//! A set is made and joined with no memory in a [`CommunitySet`], of at most
//! [`nc_types::COMMUNITY_LIMIT`] numbers, by one merge; [`gather`] and [`union`] copy what it
//! gives. The crate stands on `nc_types`, on `nc_lines` for numbers, and on `arrayvec` for a vector
//! of a fixed size. Its contract promises that each set is that of the definitions in `nc_types`,
//! and none where it would have more members than a route carries; that they are the one ascending
//! list of their numbers is a law in [`laws`].
#![tactic(auto)]

mod held;
mod joining;
pub mod laws;
mod lists;
mod set;
mod word;

pub use held::Held;
pub use joining::{gather, union};
pub use lists::{decide, holds_all};
pub use set::{CommunitySet, gathered, united};
pub use word::read_community;
