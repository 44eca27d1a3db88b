use crate::path::Path;
use crate::rib_entries::RibEntries;
use nc_types::{Addr, Communities, IfaceId, OriginCode, Prefix, RouterId};

/// An established BGP session, as one of its two neighbor statements sees it.
#[derive(Clone, Copy, PartialEq, Eq)]
pub struct SessionRow {
    pub router: RouterId,
    /// The place of the neighbor statement in the router's process.
    pub neighbor: u32,
    pub peer: RouterId,
    /// The place of the neighbor statement in the peer's process.
    pub peer_neighbor: u32,
    /// The interface of the router from which the session starts.
    pub source: IfaceId,
    /// The same of the peer.
    pub peer_source: IfaceId,
    /// Whether both are of one autonomous system.
    pub internal: bool,
}

/// A route of a prefix, as BGP carries it.
#[derive(Drop)]
pub struct Route {
    pub prefix: Prefix,
    pub path: Path,
    pub next_hop: Addr,
    /// The local preference: the higher one is preferred.
    pub preference: u32,
    /// The multi-exit discriminator: the lower one is preferred.
    pub metric: u32,
    pub origin: OriginCode,
    /// The communities that it carries.
    pub communities: Communities,
}

/// Where a candidate comes from: the place of its statement in the process.
#[derive(Clone, Copy, PartialEq, Eq)]
pub enum BgpFrom {
    /// A network statement.
    Origin(u32),
    /// An aggregate statement.
    Aggregate(u32),
    /// The neighbor from which it was learnt.
    Entry(u32),
}

/// A candidate for a prefix that was chosen.
#[derive(Drop)]
pub struct Chosen {
    pub route: Route,
    pub from: BgpFrom,
    /// Whether it was learnt from a router of the same autonomous system.
    pub internal: bool,
    /// The router id of its sender; 0.0.0.0 where it wasn't learnt.
    pub sender_id: Addr,
    /// The address of its sender; 0.0.0.0 where it wasn't learnt.
    pub sender: Addr,
}

/// The candidates of a prefix that were chosen, best first; there is one at least.
#[derive(Drop)]
pub struct BgpRow {
    pub prefix: Prefix,
    pub chosen: RibEntries,
}

/// Where a row of a main table comes from.
#[derive(Clone, Copy, PartialEq, Eq)]
pub enum MainFrom {
    /// The row at a place of the base table.
    Base(u32),
    /// The chosen candidate at a place of the prefix's row.
    Bgp(u32),
    /// The aggregate at a place of the process, which discards.
    Discard(u32),
}

/// A row of a main table.
#[derive(Clone, Copy, PartialEq, Eq)]
pub struct MainRow {
    pub prefix: Prefix,
    /// The administrative distance.
    pub distance: u8,
    pub from: MainFrom,
}
