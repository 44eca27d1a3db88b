//! What a route map makes of a route.
//!
//! [`apply`] scans clauses and lists: the clauses of a map are gone over once, only one that can
//! still decide has its lists asked, and a match carries the entries by which it came, so that no
//! list is asked again. [`Policies`] has tables, made once for a network. By them the clauses of a
//! map are found one behind the other, and one is passed over without a list where the prefix lies
//! outside of all that its prefix lists permit, or the route has none of the communities with which
//! entries of its community lists begin. A list is found by its name at one look-up, and in one of
//! more than a few entries that a clause names the entry that decides at one binary search for each
//! length of its entries' prefixes, at most 33.
//!
//! What the maps of neighbor statements decide on the prefixes of the network's networks and
//! aggregates is worked out once and kept, for routes whose communities meet no clause of the map
//! that asks for some; a clause is asked only about the prefixes that lie between the addresses where
//! its prefix lists permit. A table of the map says which clauses ask for communities, by those of
//! which a route has to have one to meet them: a route is decided by what is kept, by one look-up for
//! each of its communities, and by the clauses that ask for these alone, however many clauses and
//! lists there are. Of a map that names no prefix list one such decision is kept for all prefixes; of
//! others 4 bytes are kept for each of a router's maps in use and prefix, for no more than 1,048,576
//! of them on a router, and each decision once where prefixes that follow one another share it. What
//! isn't kept is found by going over the clauses. [`pass`] tells the same without making the route,
//! without a set of communities and without memory: which clause let it pass, and by which entries;
//! where a map stands can be found once for many routes, and how high a preference its clauses set. The
//! tables find the network and the aggregate of a prefix too, by a binary search.
//!
//! The crate stands on `nc_types` for the configuration of a router, on `nc_tables` for routes and
//! for the definition of what a map makes of one, and on `nc_community` for sets of communities.
//! Its contract promises that both forms answer by that definition.
#![tactic(auto)]

mod asked;
mod askers;
mod best;
mod by_community;
mod clauses;
mod decisions;
mod guards;
mod index;
mod kept;
mod lists;
mod names;
mod passing;
mod policies;
mod preferences;
mod prefix_places;
mod route_map;
mod router_index;
mod setting;
mod spans;
mod spot_table;
mod statements;

pub use nc_tables::Place;
pub use passing::{ByClause, Passing, pass};
pub use policies::{MapPlace, Policies};
pub use route_map::{Verdict, apply};
