//! Facts: what may be so in a network, whether it is, and what a test tests.
//!
//! The crate stands on `nc_types` for the network, on `nc_tables` for the state in which it settles and for the
//! definitions of where its tables lead, on `nc_base_rib` for which static routes can be used, on `nc_underlay` for
//! where rows lead and how far a packet comes, on `nc_sessions` for both ends of a session, on `nc_filter` for what
//! access lists let pass, on `nc_trace` for the ways that packets take, and on `nc_message` and `nc_policy` for what
//! routers send each other and accept. Its contract promises that [`holds`] answers by the definition in
//! `specs/Facts`, without memory and whatever numbers a fact names, that [`rank`] is the rank defined there, and that
//! [`facts_of`] gives exactly the facts of `specs/Tested`, in order, each of which holds; of a packet it is told the
//! ways, which then say whether it arrives, and [`packet_of`] and, of one that access lists have to let pass,
//! [`flow_packet_of`] say from where and for which addresses. All three take the tables of the routers' maps beside
//! the state, which are made once. What facts rest on is offered to the crates that say from which facts each
//! follows: the rows of a prefix and of an address, where a row leads, the row of a static route, the ends of
//! sessions, and the messages, accepted and chosen routes of BGP. None of these takes memory, and of a router, a row
//! or a route that doesn't exist they say that there is nothing.
//!
//! [`all_facts`] gives the roots of a network, by `specs/Roots`: the facts that hold of main rows, of sessions and of
//! what routers accept. That these are exactly those facts is the law [`roots_are_those_that_hold`], and that they
//! stand in order, each once, is [`roots_are_in_order`]. What is accepted is asked session by session, whose ends are
//! looked up once. It keeps nothing but the facts that it gives.
#![tactic(auto)]

mod all;
mod bgp;
mod exits;
mod fact;
mod packets;
mod ranks;
mod rows;
mod statements;
mod tested;
mod truth;

pub use all::{all_facts, roots_are_in_order, roots_are_those_that_hold};
pub use bgp::{
    accepted_by, accepted_of, aggregate_of, chosen_at, chosen_of, link_at, message_of, network_of,
};
pub use exits::{is_hit, leads_to};
pub use fact::Fact;
pub use packets::{flow_packet_of, packet_of};
pub use rows::{base_rows, longest_rows, main_rows, rows_of_prefix, static_row};
pub use tested::facts_of;
pub use truth::{holds, rank};
