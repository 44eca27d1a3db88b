use nc_types::{Addr, ElementId, IfaceId, Prefix, RouterId};

/// Something that may be so in a network, and on which a test or another fact may rest. A place is
/// counted from 0, in the table or the list of the router that is named first.
#[derive(Clone, Copy, PartialEq, Eq, Hash)]
pub enum Fact {
    /// An element of a configuration.
    Element(ElementId),
    /// That an interface is up, which gives the router a connected route.
    Connected(RouterId, IfaceId),
    /// That the static route at a place can be used.
    Static(RouterId, u32),
    /// The row at a place of the base table.
    Base(RouterId, u32),
    /// That a packet for an address finds a row of the base table that doesn't discard it.
    Resolve(RouterId, Addr),
    /// That the base table has a row of a prefix.
    NetSource(RouterId, Prefix),
    /// That a packet comes to the owner of an address over at most so many hops.
    Reach(RouterId, Addr, u8),
    /// That it does by the row at a place of the base table, the hop by that row counted.
    Hop(RouterId, Addr, u32, u8),
    /// That the BGP session of the neighbor statement at a place of the process is established.
    Session(RouterId, u32),
    /// That the network statement at a place of the process has a row in the base table, so that the
    /// router begins its prefix.
    Origin(RouterId, u32),
    /// That the aggregate statement at a place of the process has a chosen route to gather.
    Contrib(RouterId, u32),
    /// That the router begins the prefix of this aggregate.
    Aggregate(RouterId, u32),
    /// The message for a prefix to the neighbor statement at a place of the process.
    Message(RouterId, u32, Prefix),
    /// That it is accepted.
    Entry(RouterId, u32, Prefix),
    /// The route of a prefix that is chosen at a place, the best at 0.
    Chosen(RouterId, Prefix, u32),
    /// The row at a place of the main table.
    Main(RouterId, u32),
    /// That a packet for an address arrives by the alternative at a place of the main table, the first at 0,
    /// over at most so many hops, the one by it counted: it is delivered there, or arrives by some way from
    /// where it goes.
    Step(RouterId, Addr, u32, u8),
    /// That it arrives by some alternative, or the router owns the address.
    Trace(RouterId, Addr, u8),
    /// The same of one alternative where each way has to lead on from there.
    AllStep(RouterId, Addr, u32, u8),
    /// That there is an alternative and it arrives by each, or the router owns the address.
    AllTrace(RouterId, Addr, u8),
    /// That an interface is up and that its access list lets packets from the first address to the second pass, into the
    /// router where this is true, out of it where it is false.
    Pass(bool, RouterId, IfaceId, Addr, Addr),
    /// That a packet from the first address to the second, which stands at the router past what filters come in there,
    /// arrives over at most so many hops by the alternative at a place, the hop by it counted: it is let out, and is
    /// delivered there, or is let in where it goes and arrives by some way from there. The small number stands first, so
    /// that a fact takes no more memory than others do.
    FlowStep(u8, RouterId, Addr, Addr, u32),
    /// That it arrives by some alternative, or the router owns the second address.
    Flow(RouterId, Addr, Addr, u8),
}

// A graph holds each fact, so its size counts.
const _: () = prove!(size_of::<Fact>() == 20);
