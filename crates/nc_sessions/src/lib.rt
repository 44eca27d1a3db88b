//! Which BGP sessions of a network are established, and the router ids.
//!
//! Of each neighbor statement the other side is looked up: the router that owns the statement's
//! address, and there the statement for the address from which this side starts. A session is
//! established where the two statements agree and each side reaches the other. The crate stands on
//! `nc_types` for the network, on `nc_tables` for the tables and for the definition of a session,
//! and on `nc_underlay` for where base tables lead. Its contract promises exactly the defined
//! sessions, and the defined router id. [`session_at`], [`end_at`] and [`link_at`] answer of one
//! statement, and take no memory. While [`sessions`] makes the table it keeps from how far each
//! neighbor address is reached, at most [`nc_types::ROUTER_LIMIT`] bytes for an address.
#![tactic(auto)]

mod conditions;
mod ends;
mod ids;
mod links;
mod peers;
mod places;
mod sources;
mod table;

pub use ends::{End, end_at, statements};
pub use ids::router_id;
pub use links::{Link, link_at};
pub use peers::session_at;
pub use places::place_for;
pub use table::sessions;
