//! Which candidates of a prefix a BGP process chooses.
//!
//! The best candidate is found in one pass. Only where it was learnt from another autonomous system
//! are those looked for that are as good as it, and only these are sorted: they differ in who sent
//! them alone. A [`Candidate`] is asked for what decides alone, so that it needs no route in memory
//! before it is chosen. The crate stands on `nc_tables` for the definition of what is
//! chosen, and on `nc_types` for addresses. Its contract promises that [`choose`] gives exactly
//! the places of that definition, and that [`preference_cmp`] and [`is_equal_to`] compare two
//! candidates as it does.
#![tactic(auto)]

mod candidate;
mod choice;
mod preference;

pub use candidate::Candidate;
pub use choice::choose;
pub use preference::{is_equal_to, preference_cmp};
