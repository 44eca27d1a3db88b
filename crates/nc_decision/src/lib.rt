//! What a router chooses of a prefix: the decision process of BGP (RFC 4271, section 9.1).
//!
//! [`chosen_anew`] chooses among what a router accepts of its neighbors' messages, with the router's
//! own networks and active aggregates, and makes in memory what is chosen alone; where a process uses
//! one route alone none is kept but the best so far, and no map runs for what that outranks by path and
//! preference, nor for a path that holds the router's own system. Of a route that no map changed
//! nothing is made where an entry like it is remembered. The sessions are found once, as
//! [`NetworkPeerings`], each with where its two maps stand and how high a preference is accepted over
//! it: no message looks up its session or a map by its name. Where nothing stands on the way of a session
//! from another system, no map and no aggregate of the sender, all that a message asks of its ends stands
//! in one small record. [`add_counting`] tells by a look at the best path that stands which messages of a
//! neighbor can't change it.
//!
//! The crate stands on `nc_types` for the network, on `nc_tables` for the tables and the definitions,
//! on `nc_sessions` for the ends of a session, on `nc_policy` for the tables of maps, on `nc_message`
//! for what is sent and accepted, and on `nc_select` for the choice. Its contract promises exactly the
//! choice of the definitions.
#![tactic(auto)]

mod best_learnt;
mod best_path;
mod candidates;
mod choosing;
mod compared;
mod feasible;
mod learnt;
mod peerings;
mod prefix_bits;
mod rows;

pub use best_path::add_counting;
pub use choosing::chosen_anew;
pub use peerings::{NetworkPeerings, Peerings};
