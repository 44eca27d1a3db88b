//! Rounds of BGP, and the table that no round changes.
//!
//! A round makes the rows of the next table from the candidates that come from this one. Prefixes
//! that any router begins are numbered once, and what a router chooses is found by the number. Only
//! rows are made anew that may differ: those of a prefix at the routers that hear of a row of it
//! that changed, and those of the aggregates around such a row. Each router looks at what changed at
//! the peers of its sessions, and a row stays as it is where what a peer advertises of it now isn't
//! accepted or is beaten by what stands, and what it advertised before wasn't chosen. The sessions
//! are found once, for what is woken as for what is chosen anew, and both are done router by router,
//! while what is known of its sessions is at hand.
//!
//! Prefixes that the same router begins, and no other, spread alike where no router tells prefixes
//! apart, for no process has a map or an aggregate. While a network settles one of them stands for
//! the others, and what is chosen of these is copied from it at the end. Which stand for which is left free by the
//! contracts: each may stand for itself, and does where there is a map or an aggregate.
//!
//! The crate stands on `nc_types` for the network, on `nc_tables` for the tables and for the
//! definition of a round, on `nc_policy` for the policies and for the places of networks, on
//! `nc_message` for what messages are told by, and on `nc_decision` for what is chosen anew of one
//! row and for what leaves the best path as it is; the proofs take the laws of lists in order from
//! `nc_base_rib` and `nc_main_rib`. Its contract promises that [`round_changed`] gives exactly the
//! next table and the rows in which it differs, and that [`settle_table`] gives the first table that
//! no round changes.
#![tactic(auto)]

mod by_router;
mod changed;
mod expansion;
mod laws;
mod likeness;
mod loc_rib_change;
mod owners;
mod renewal;
mod rounds;
mod settling;
mod waking;

pub use changed::Changed;
pub use laws::rows_are_made_of_what_is_read;
pub use nc_message::RoutingInputs;
pub use rounds::{first_round, round_changed};
pub use settling::settle_table;
