//! Rules of routes and of the ways of packets: from which facts each fact follows.
//!
//! The crate stands on `nc_tables` for the state of a network, on `nc_fact` for the facts, on `nc_sessions` for the
//! two ends of a session, on `nc_policy` and `nc_message` for what maps let pass and what is accepted of a message,
//! on `nc_underlay` for how far an address is reached, which its caller keeps, on `nc_trace` for the ways of
//! packets and what lets them pass, and on `nc_graph` for the ways in which a fact may follow from others. Its
//! contract promises that [`route_parents`], for the facts of packets' ways [`path_parents`], and for those of
//! packets that access lists have to let pass [`flow_parents`] give of each fact that holds exactly the parents and
//! the kind that the rules define; that [`path_start`] and [`flow_start`] tell these facts from the others, and of
//! which router and for which addresses each is; and that the rules make a flow graph: each parent holds and has a
//! lower rank, and what follows from any of its parents has one.
//!
//! Of a message, and of what is accepted of one, it is known that they hold: where the ends of the session alone
//! tell what they follow from, they aren't worked out anew.
#![tactic(auto)]

mod begun;
mod configs;
mod elements;
mod flows;
mod laws;
mod messages;
mod packet;
mod parents;
mod paths;
mod reach;
mod routes;
mod rows;
mod sessions;

pub use laws::rules_are_lawful;
pub use parents::{flow_parents, flow_start, path_parents, path_start, route_parents};
