//! A chosen route, as it stands in a table.

ghost use Rattle.std.specs.Prelude.{◌≡◌, ◌≤◌, length};
ghost use Rattle.nc_types.specs.declared.TheConstants.{PATH_LIMIT};
ghost use Rattle.nc_tables.specs.SpreadView.{route_view};

use crate::bgp::BgpFrom;
use crate::path::Path;
use crate::rib_entry::RibEntry;
use nc_types::{Addr, Communities, OriginCode, Prefix};

/// A route that a router has chosen: the entry of its Loc-RIB, and the prefix of which it stands there. One entry
/// may stand for many prefixes.
#[derive(Clone, Copy)]
pub struct RibRoute<'a> {
    pub prefix: &'a Prefix,
    pub entry: &'a RibEntry,
}

impl<'a> RibRoute<'a> {
    /// The route of an entry, of the entry's own prefix.
    pub fn of(entry: &'a RibEntry) -> RibRoute<'a>
        ensures { route_view result ≡ entry.now }
    {
        RibRoute {
            prefix: entry.own_prefix(),
            entry,
        }
    }

    /// The autonomous systems through which it came.
    pub fn path(self) -> &'a Path
        ensures { result.now ≡ (route_view self.entry).route.path }
    {
        self.entry.path()
    }

    /// How many numbers its path has, at most [`nc_types::PATH_LIMIT`], without a look at the path.
    pub fn path_length(self) -> usize
        ensures length { result ≡ length (route_view self.entry).route.path }
        ensures few { result ≤ PATH_LIMIT }
    {
        self.entry.path_length()
    }

    /// The address to which packets are sent.
    pub fn next_hop(self) -> Addr
        ensures { result ≡ (route_view self.entry).route.next_hop }
    {
        self.entry.next_hop()
    }

    /// The local preference: the higher one is preferred.
    pub fn preference(self) -> u32
        ensures { result ≡ (route_view self.entry).route.preference }
    {
        self.entry.preference()
    }

    /// The multi-exit discriminator: the lower one is preferred.
    pub fn metric(self) -> u32
        ensures { result ≡ (route_view self.entry).route.metric }
    {
        self.entry.metric()
    }

    /// How its sender says that it came to be.
    pub fn origin(self) -> OriginCode
        ensures { result ≡ (route_view self.entry).route.origin }
    {
        self.entry.origin()
    }

    /// The communities that it carries.
    pub fn communities(self) -> &'a Communities
        ensures { result.now ≡ (route_view self.entry).route.communities }
    {
        self.entry.communities()
    }

    /// The statement of the process that it comes from.
    pub fn from(self) -> BgpFrom
        ensures { result ≡ (route_view self.entry).from }
    {
        self.entry.from()
    }

    /// Whether it was learnt from a router of the same autonomous system.
    pub fn is_internal(self) -> bool
        ensures { result ≡ (route_view self.entry).internal }
    {
        self.entry.is_internal()
    }
}
