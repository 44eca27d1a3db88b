//! A candidate that was learnt, before an entry is made of it.

use crate::bgp::BgpFrom;
use crate::path::Path;
use nc_types::{Addr, Communities, OriginCode, Prefix};

/// A candidate that was learnt and isn't in memory: what its entry has (RFC 4271, section 9.1). No map
/// added to its path, which is that of the sender's candidate, behind the sender's own number where it
/// comes from another system.
#[derive(Clone, Copy)]
pub struct Learnt<'a> {
    pub prefix: Prefix,
    /// The number that the sender puts before the path.
    pub system: Option<u32>,
    /// The path of the sender's candidate.
    pub path: &'a Path,
    /// The communities that it carries; `None` where it carries none.
    pub communities: Option<&'a Communities>,
    pub next_hop: Addr,
    /// The local preference.
    pub preference: u32,
    pub metric: u32,
    pub origin: OriginCode,
    pub from: BgpFrom,
    /// Whether it was learnt from a router of the same autonomous system.
    pub internal: bool,
    /// The router id of its sender.
    pub sender_id: Addr,
    /// The address of its sender.
    pub sender: Addr,
}
