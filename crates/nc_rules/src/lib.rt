//! Rules: the flow graph of a network.
//!
//! The crate makes of a network that settled the rules by which a graph infers facts one at a time, and counts how
//! many it was asked for. The rules own the state, so there is one count for it. The crate stands on `nc_rules_route`
//! for the parents of a fact, on `nc_fact` for what a test tests, on `nc_trace` for the ways of packets for one
//! address: those of the routers to which ways lead from where it was asked, never of more than
//! [`nc_types::ROUTER_LIMIT`]. The rules keep those of the address that was asked for last, and of up to 512 others,
//! which have 65,536 ways at most; where one more would be more, they let go of all others. On `nc_trace` it stands
//! for the ways that let one packet pass too, kept until another packet is asked of, with tables of the access lists,
//! which are made when the first such packet is asked of; on `nc_underlay` for how far each neighbor address is
//! reached, which they keep, at most [`nc_types::ROUTER_LIMIT`] bytes for an address, on `nc_stable` for the network
//! that settled, with the tables of its maps, on `nc_tables` for the state and on `nc_graph` for what a flow graph and
//! an inference are. Its contract promises that each inference answers as the flow graph of the state has it, that
//! [`Rules::facts_of`] gives exactly the facts that a test tests, that the count is raised by each while the state
//! stays, that the flow graph of every state meets the laws of flow graphs, and that a fact that holds is carried by
//! no set without elements, and by a set exactly where the elements of the network in it carry it.
#![tactic(auto)]

mod flows;
mod known;
mod laws;
mod rules;

pub use laws::facts_need_elements;
pub use rules::{Rules, rules_make_a_flow};
