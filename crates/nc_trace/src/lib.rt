//! The ways that packets take over the main tables of a settled network.
//!
//! The crate stands on `nc_types` for the network, on `nc_tables` for the state in which it settles and for the
//! definition of where main tables lead, on `nc_underlay` for where rows of base tables lead, and on `nc_filter` for
//! what access lists say of packets. Its contract promises that [`Ways`], [`alternatives`] and [`alternative_at`] give
//! the ways out of a router for an address, all of them and in the definition's order, and [`exit_iface`] the interface
//! by which one of them leaves; that [`arrives`] and [`all_arrive`] answer by the definition whether a packet arrives
//! by some way, and by each, and [`flows`] whether it does by some where access lists let it pass; [`step_at`],
//! [`all_step_at`] and [`flow_step_at`] do so for one of the ways. [`TracedTo`] holds these answers for one address, and
//! [`FlowTo`] for one source and destination, for each router that was included in it and all routers to which ways
//! lead from there, so that each further question of them is one look: of each router its ways, which lie one behind
//! the other in one vector, and counts of hops. So each never holds more than the ways of [`nc_types::ROUTER_LIMIT`]
//! routers, and nothing before a router is included, which is what makes its room; where memory runs out, none is
//! included. [`FlowTo`] has the tables of the network's access lists besides. Those two count hops by going through the
//! routers that were included, and the functions by levels of all routers, without memory; both by the same code for
//! each kind of packet. [`alternatives`], [`TracedTo`] and [`FlowTo`] alone take memory, for their lists and tables.
#![tactic(auto)]

mod alternative;
mod arriving;
mod counting;
mod exits;
mod flow;
mod found;
mod hops;
mod left;
mod levels;
mod outcomes;
mod packet;
mod span;
mod taken;
mod traced;
mod ways;

pub use alternative::{Alternative, Outcome};
pub use arriving::{all_arrive, all_step_at, arrives, flow_step_at, flows, step_at};
pub use exits::exit_iface;
pub use flow::FlowTo;
pub use traced::TracedTo;
pub use ways::{Ways, alternative_at, alternatives};
