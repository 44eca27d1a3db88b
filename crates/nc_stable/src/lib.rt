//! The state in which a network settles.
//!
//! [`settle`] makes rounds of BGP until none changes anything, and [`settle_network`] hands on the
//! tables of maps by which they were made. The crate stands on `nc_base_rib`
//! for the base tables, on `nc_sessions` for the sessions, on `nc_policy` and `nc_round` for the
//! rounds, on `nc_main_rib` for the main tables, and on `nc_tables` for all tables and for the
//! definition of what stands in them. Its contract promises exactly the state that is defined for
//! the network, and that a network which doesn't settle is told as such.
#![tactic(auto)]

mod fault;
mod laws;
mod routes;
mod settled_network;

pub use fault::SettleFault;
pub use laws::settled_states_are_states;
pub use routes::{settle, settle_network};
pub use settled_network::SettledNetwork;
