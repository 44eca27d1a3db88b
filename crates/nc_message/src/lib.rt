//! The message that is sent over a session of BGP, and what is accepted of it.
//!
//! Over a session its peer sends the best of what it has chosen, where its aggregates and its map
//! let it; the router accepts what isn't its own, leads somewhere and passes its map. Both are told
//! without memory by [`message_at`] and [`accepted_at`], as the clauses and entries that decided.
//! Where the ends of a session and the places of its maps are known, [`sent_out`] and [`passed_into`]
//! tell the same without a look-up.
//!
//! The crate stands on `nc_types` for the network, on `nc_tables` for the tables and the definitions,
//! on `nc_sessions` for the ends of a session, on `nc_policy` and `nc_community` for maps and
//! communities, and on `nc_underlay` for where base tables lead. Its contract promises exactly the
//! message and the acceptance of the definitions.
#![tactic(auto)]

mod accepting;
mod adjacencies;
mod inputs;
mod maps;
mod messages;
mod rows;

pub use accepting::{
    AcceptedRoute, LearntRoute, accepted_at, accepted_over, holds_receiver, hop_of, next_hop,
    passed_into,
};
pub use adjacencies::{Adjacencies, Adjacency, Sender};
pub use inputs::{RoutingInputs, adjacency_of};
pub use maps::{map_in, map_out};
pub use messages::{AdvertisedRoute, Advertisement, carried, message_at, sent_length, sent_out};
