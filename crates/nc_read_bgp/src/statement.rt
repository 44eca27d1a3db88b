//! What one line of a process says.

use nc_types::{Addr, Prefix};

/// What a statement says of a neighbor.
#[derive(Clone, Copy, PartialEq, Eq)]
pub enum NeighborStatement<'a> {
    /// `remote-as N`, from 1.
    RemoteAs(u32),
    /// `update-source W`
    Source(&'a [u8]),
    /// `ebgp-multihop [N]`
    Multihop,
    /// `next-hop-self`
    SelfHop,
    /// `route-map W in`
    MapIn(&'a [u8]),
    /// `route-map W out`
    MapOut(&'a [u8]),
    /// `send-community [standard | both]`
    SendsCommunities,
    /// `shutdown`
    Shuts,
    /// `activate`, which sets nothing.
    Activates,
}

/// What a line of a process says.
#[derive(Clone, Copy, PartialEq, Eq)]
pub enum BgpStatement<'a> {
    /// The header, with the number of the autonomous system, from 1.
    Opens(u32),
    /// `bgp router-id A`
    RouterId(Addr),
    /// `maximum-paths N`, 1 to [`nc_types::MULTIPATH_LIMIT`].
    MaxPaths(u8),
    /// `bgp bestpath as-path multipath-relax`
    Relax,
    /// What holds here anyway: `bgp always-compare-med`, `address-family ipv4 [unicast]`,
    /// `exit-address-family`.
    Agrees,
    /// `network P mask M` or `network P`
    Network(Prefix),
    /// `aggregate-address P M [summary-only]`, and whether that option stands there.
    Aggregate(Prefix, bool),
    /// `neighbor A`, and what is said of it.
    Neighbor(Addr, NeighborStatement<'a>),
}
