//! The tables of the routing state, and the definitions of what stands in them.
//!
//! A table has the rows of each router, in order: base rows, sessions, BGP rows or main rows. The crate makes a
//! table of its rows and answers which rows are those of a prefix or of the longest prefix that covers an
//! address, which session a neighbor statement has, what is chosen of a prefix, and whether a longer prefix inside
//! another is chosen. `LocRibs` has what routers choose while a network settles, by the numbers of prefixes, and gives the
//! table of it. In that table prefixes may stand for others: of these a router has the same rows but for the prefix, and no
//! row of theirs is in memory (`RouterRows`, `RibRoute`). What is chosen stands in entries (`RibEntry`), which share what their candidates have in common where
//! `RecentAttributes` has seen it lately: it remembers 1,024 blocks at most. One of a candidate that isn't in memory
//! (`Learnt`) is made without making the candidate where its block is remembered. `Stable` holds a network with all its
//! tables. It stands on `nc_types`. Its contract promises that a table has exactly the rows that it was made of, that each look-up answers as its definition does, and that the tables of a `Stable` are those of its
//! network. What the rows of a network are is said by the definitions in `specs/`, which the crates above are
//! proved against: `Base` and `Reach` for base tables and where they lead, `Sessions`, `Policy`, `Choice` and
//! `Rounds`, `LocRibs` and `Spread` for BGP, `Main` and `Forwarding` for main tables and paths, `Filters` and `Flows` for access lists, and `State` for all together. `Levels` and
//! `Settling` have forms of reach, forwarding and the stable state that compute over many hops and rounds;
//! [`levels_are_lawful`] and [`settling_is_lawful`] promise that they are the same. The definitions are computed on
//! small networks in the files `Case*`.
#![tactic(auto)]

mod base;
mod bgp;
mod filters;
mod inside;
mod laws;
mod learnt;
mod longest;
mod mains;
mod path;
mod policy;
mod rib_entries;
mod rib_entry;
mod rib_route;
mod ribs;
mod router_rows;
mod routes;
mod sessions;
mod stable;
mod system_bits;

pub use base::{BaseFrom, BaseRow, BaseTables};
pub use bgp::{BgpFrom, BgpRow, Chosen, MainFrom, MainRow, Route, SessionRow};
pub use filters::Passing;
pub use inside::is_longer_in;
pub use laws::{distances_are_numbers, levels_are_lawful, settling_is_lawful};
pub use learnt::Learnt;
pub use longest::{HasPrefix, Rows, rows_on};
pub use mains::MainTables;
pub use path::{Numbers, Path};
pub use policy::{Names, Place};
pub use rib_entries::RibEntries;
pub use rib_entry::{RecentAttributes, RibEntry};
pub use rib_route::RibRoute;
pub use ribs::{LocRibs, Numbered};
pub use router_rows::{ChosenRow, RouterRows};
pub use routes::BgpTable;
pub use sessions::Sessions;
pub use stable::Stable;

/// The administrative distance of a route that is learnt from another autonomous system (Cisco IOS command
/// reference, `distance bgp`).
pub const EXTERNAL_DISTANCE: u8 = 20;

/// That of a route that is learnt within the own one.
pub const INTERNAL_DISTANCE: u8 = 200;

/// That of the row by which an active aggregate discards.
pub const LOCAL_DISTANCE: u8 = 200;
