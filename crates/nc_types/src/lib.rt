//! What NetCov speaks of: addresses, prefixes, names, the configuration of one router, and the network of
//! several.
//!
//! These are plain types that every crate above shares; beside std the crate stands on `thiserror`, for the
//! texts of errors. Its contract promises that a [`Prefix`] has no host bits and at most 32 of network, that a
//! [`Text`] has exactly the bytes that it was made of and [`Lines`] the lines, how an address is
//! written, what each question about a prefix or a mask answers, that [`Communities`] ascend and are
//! few, and what each look-up in a [`Network`] finds. What a well-formed configuration is stands in
//! `specs/WellFormed`, what valid configurations of several routers are in `specs/Joining`, and what is looked
//! up in a network in `specs/Network`.
#![tactic(auto)]

mod addr;
mod command;
mod communities;
mod config;
mod fault;
mod filters;
pub mod laws;
mod lines;
mod network;
mod prefix;
mod text;

pub use addr::{Addr, mask_len};
pub use command::TestCommand;
pub use communities::{Communities, CommunityEntry, CommunityList, SetCommunity};
pub use config::{
    AggregateStatement, Clause, Element, ElementId, IfaceAddr, IfaceId, Interface, Kind, ListEntry,
    Neighbor, NetworkStatement, OriginCode, PrefixList, Process, Reference, RouterConfig, RouterId,
    StaticRoute, Via,
};
pub use fault::{Cause, ConfigFault, Fault};
pub use filters::{AddrMatch, FilterEntry, Group};
pub use lines::Lines;
pub use network::Network;
pub use prefix::Prefix;
pub use text::Text;

/// How many routers a network has at most.
pub const ROUTER_LIMIT: usize = 256;

/// How many lines a file has at most; a line's number fits 16 bits.
pub const LINE_LIMIT: u32 = 65_535;

/// How many bytes the name of a router has at most (Cisco IOS command reference, `hostname`).
pub const NAME_LIMIT: usize = 63;

/// How many routes of a prefix a BGP process uses at once, at most (Cisco IOS command reference,
/// `maximum-paths`).
pub const MULTIPATH_LIMIT: u8 = 16;

/// How many numbers the path of a route has at most; a longer one is dropped (profile).
pub const PATH_LIMIT: usize = 250;

/// How many communities a route carries at most, and a statement names; a route with more is dropped (profile).
pub const COMMUNITY_LIMIT: usize = 64;

/// How many hops a packet is followed at most (profile).
pub const HOP_LIMIT: u8 = 30;

/// The administrative distance of a route that is never used (Cisco IOS command reference, `distance`).
pub const UNUSED_DISTANCE: u8 = 255;

/// The local preference of a route for which nothing else is said (Cisco IOS command reference,
/// `bgp default local-preference`).
pub const DEFAULT_PREFERENCE: u32 = 100;
