//! Whether the base tables of a network lead to an address.
//!
//! The crate stands on `nc_types` for the network and on `nc_tables` for the tables and for the definition of where
//! they lead. Its contract promises that [`is_hit`], [`has_hit`], [`next_hop`] and [`leads_to`] answer by that
//! definition which rows lead on, and where, [`own_interface`] whose address it is, and [`reaches`] how far a packet comes, all
//! without memory. Reach goes by levels over the routers, of which there are at most
//! [`nc_types::ROUTER_LIMIT`]. [`DistancesByAddr`] answers the same where much is asked of one address: it works out
//! once from how far each router reaches it, and keeps that, at most [`nc_types::ROUTER_LIMIT`] bytes for each address
//! of a router that was asked for and isn't next to where it was asked from.
#![tactic(auto)]

mod distances;
mod exits;
mod kept;
mod levels;
mod reach;
mod toward;

pub use exits::{base_rows, has_hit, is_hit, leads_to, next_hop, own_interface};
pub use kept::DistancesByAddr;
pub use reach::reaches;
