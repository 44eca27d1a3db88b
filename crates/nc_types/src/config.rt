ghost use Rattle.std.specs.Prelude.{◌≡◌};
ghost use Rattle.std.specs.Option.{option_map};
ghost use Rattle.nc_types.specs.Network.{up_of, hop_of};
ghost use Rattle.nc_types.specs.Joining.{interface_by};

use crate::addr::Addr;
use crate::communities::{CommunityList, SetCommunity};
use crate::filters::{FilterEntry, Group};
use crate::lines::Lines;
use crate::prefix::Prefix;
use crate::text::Text;

/// A router: the place of its file among the files, from 0.
#[derive(Clone, Copy, Debug, PartialEq, Eq, PartialOrd, Ord, Hash)]
pub struct RouterId(pub u32);

/// An interface: its place in its router's configuration, by first mention, from 0.
#[derive(Clone, Copy, PartialEq, Eq, PartialOrd, Ord, Hash)]
pub struct IfaceId(pub u32);

/// An element of the network: its place among the elements of its router, plus the number of elements
/// of all earlier routers.
#[derive(Clone, Copy, PartialEq, Eq, PartialOrd, Ord, Hash)]
pub struct ElementId(pub u32);

/// What an element configures.
#[derive(Clone, Copy, PartialEq, Eq, Hash)]
pub enum Kind {
    /// An interface, by its name.
    Interface,
    /// A static route, by its prefix, its interface and its next hop.
    Static,
    /// The BGP process.
    Process,
    /// A neighbor of the process, by its address.
    Neighbor,
    /// A network that the process originates, by its prefix.
    Network,
    /// An aggregate of the process, by its prefix.
    Aggregate,
    /// A clause of a route map, by the map's name and the clause's number.
    Clause,
    /// An entry of a prefix list, by the list's name and the entry's number.
    ListEntry,
    /// A statement of a community list.
    CommunityEntry,
    /// An entry of an access list, by its statement.
    Filter,
    /// The access list that filters an interface in a direction, by the interface's name and the direction.
    Group,
}

/// A thing that a configuration configures, with the lines of its statements.
#[derive(Drop)]
pub struct Element {
    pub kind: Kind,
    /// The lines, ascending, from 1.
    pub lines: Lines,
}

/// A name that a statement refers to, and the line of the statement.
#[derive(Drop)]
pub struct Reference {
    pub name: Text,
    /// The line, from 1.
    pub line: u32,
}

/// The address of an interface, and the prefix that its mask makes of it.
#[derive(Clone, Copy, PartialEq, Eq, Hash)]
pub struct IfaceAddr {
    pub addr: Addr,
    pub prefix: Prefix,
}

/// An interface as its statements leave it: of each field the last statement decides.
#[derive(Drop)]
pub struct Interface {
    pub name: Text,
    pub address: Option<IfaceAddr>,
    /// The line of the `ip address` statement in force; 0 where there is none.
    pub address_line: u32,
    pub shut: bool,
    /// The place of its element in the router's elements.
    pub element: u32,
}

impl Interface {
    /// The address of an interface that is up: it has one and isn't shut.
    pub fn up(&self) -> Option<IfaceAddr>
        ensures { result ≡ up_of self.now }
    {
        if self.shut { None } else { self.address }
    }
}

/// Where a static route leads.
#[derive(Drop)]
pub enum Via {
    /// Nowhere: what it covers is discarded.
    Null,
    /// To a next hop.
    Hop(Addr),
    /// To a next hop through the interface of this name.
    Through(Reference, Addr),
}

impl Via {
    /// The next hop; `None` where it discards.
    pub fn hop(&self) -> Option<Addr>
        ensures { result ≡ hop_of self.now }
    {
        match self {
            Via::Null => None,
            Via::Hop(hop) => Some(*hop),
            Via::Through(_, hop) => Some(*hop),
        }
    }

    /// The interface that it names, and the line where it does; `None` where it names none.
    pub fn interface(&self) -> Option<&Reference>
        ensures { option_map (λ reference. reference.now) result ≡ interface_by self.now }
    {
        match self {
            Via::Through(reference, _) => Some(reference),
            Via::Null | Via::Hop(_) => None,
        }
    }
}

/// A static route as its statements leave it: the last one decides its distance and the line of its
/// reference.
#[derive(Drop)]
pub struct StaticRoute {
    pub prefix: Prefix,
    pub via: Via,
    /// The administrative distance, 1 to 255; one of [`crate::UNUSED_DISTANCE`] is never used.
    pub distance: u8,
    /// The place of its element in the router's elements.
    pub element: u32,
}

/// A neighbor of a BGP process as its statements leave it.
#[derive(Drop)]
pub struct Neighbor {
    pub addr: Addr,
    /// The number of its autonomous system, from 1.
    pub remote_as: u32,
    /// The interface whose address the session starts from, where one is named.
    pub source: Option<Reference>,
    /// Whether it need not be on a network of this router.
    pub multihop: bool,
    /// Whether what is sent to it names this router as the next hop.
    pub self_hop: bool,
    /// Whether what is sent to it carries communities.
    pub send_community: bool,
    /// The route map for what it sends.
    pub map_in: Option<Reference>,
    /// The route map for what is sent to it.
    pub map_out: Option<Reference>,
    pub shut: bool,
    /// The place of its element in the router's elements.
    pub element: u32,
}

/// A network that a BGP process originates.
#[derive(Clone, Copy, PartialEq, Eq)]
pub struct NetworkStatement {
    pub prefix: Prefix,
    /// The place of its element in the router's elements.
    pub element: u32,
}

/// An aggregate of a BGP process.
#[derive(Clone, Copy, PartialEq, Eq)]
pub struct AggregateStatement {
    pub prefix: Prefix,
    /// Whether the longer prefixes inside it are held back.
    pub summary_only: bool,
    /// The place of its element in the router's elements.
    pub element: u32,
}

/// The BGP process of a router.
#[derive(Drop)]
pub struct Process {
    /// The number of its autonomous system, from 1.
    pub asn: u32,
    /// The router id that a statement gives.
    pub router_id: Option<Addr>,
    /// How many routes of a prefix are used at once, 1 to [`crate::MULTIPATH_LIMIT`].
    pub max_paths: u8,
    /// Whether routes of paths that differ, but are equally long, are used together.
    pub relax: bool,
    /// The neighbors, in order of first mention.
    pub neighbors: Vec<Neighbor>,
    /// The networks, in order of first mention.
    pub networks: Vec<NetworkStatement>,
    /// The aggregates, in order of first mention.
    pub aggregates: Vec<AggregateStatement>,
    /// The place of its element in the router's elements.
    pub element: u32,
}

/// Where a route came from, as BGP tells it.
#[derive(Clone, Copy, PartialEq, Eq, PartialOrd, Ord, Hash)]
pub enum OriginCode {
    Igp,
    Incomplete,
}

/// A clause of a route map.
#[derive(Drop)]
pub struct Clause {
    /// The name of its map.
    pub map: Text,
    /// The clauses of a map are looked at in order of this number.
    pub number: u16,
    pub permit: bool,
    /// The prefix lists of which one has to permit the prefix; none where each prefix matches.
    pub lists: Vec<Reference>,
    /// The community lists of which one has to permit the communities; none where all match.
    pub community_lists: Vec<Reference>,
    /// The local preference that it sets.
    pub preference: Option<u32>,
    /// The metric that it sets.
    pub metric: Option<u32>,
    /// The numbers that it puts before the path, in order; at most 10, each from 1.
    pub prepend: Vec<u32>,
    /// The origin that it sets.
    pub origin: Option<OriginCode>,
    /// The communities that it sets or adds; at most [`crate::COMMUNITY_LIMIT`].
    pub communities: Option<SetCommunity>,
    /// The place of its element in the router's elements.
    pub element: u32,
}

/// An entry of a prefix list.
#[derive(Clone, Copy, PartialEq, Eq)]
pub struct ListEntry {
    /// The entries of a list are looked at in order of this number.
    pub seq: u32,
    pub prefix: Prefix,
    pub permit: bool,
    /// The least length of a prefix that it is of.
    pub low: u8,
    /// The greatest length of a prefix that it is of, at most 32.
    pub high: u8,
    /// The line of the statement in force, from 1.
    pub line: u32,
    /// The place of its element in the router's elements.
    pub element: u32,
}

/// A prefix list.
#[derive(Drop)]
pub struct PrefixList {
    pub name: Text,
    /// The entries, in order of their numbers.
    pub entries: Vec<ListEntry>,
}

/// The configuration of one router, as its file has it.
#[derive(Drop)]
pub struct RouterConfig {
    pub name: Text,
    /// The line of the `hostname` statement in force, from 1.
    pub name_line: u32,
    /// How many lines the file has.
    pub line_count: u32,
    /// The elements, in order of first line.
    pub elements: Vec<Element>,
    /// The interfaces, in order of first mention.
    pub interfaces: Vec<Interface>,
    /// The static routes, in order of first mention.
    pub statics: Vec<StaticRoute>,
    /// The BGP process, if there is one.
    pub process: Option<Process>,
    /// The clauses of route maps, in order of first mention.
    pub clauses: Vec<Clause>,
    /// The prefix lists, in order of first mention.
    pub lists: Vec<PrefixList>,
    /// The community lists, in order of first mention.
    pub community_lists: Vec<CommunityList>,
    /// The entries of all access lists, in order of statements.
    pub filters: Vec<FilterEntry>,
    /// The access lists that filter interfaces, in order of first line.
    pub groups: Vec<Group>,
}
