use crate::addr::Addr;
use crate::prefix::Prefix;
use crate::text::Text;

/// A test: what a line of a session asks of the router that it names first.
#[derive(Drop)]
pub enum TestCommand {
    /// That its main table has rows of a prefix; where an address is given, rows with that next hop.
    Rib(Text, Prefix, Option<Addr>),
    /// That a candidate of a prefix was chosen; where an address is given, that a route of that
    /// neighbor was accepted.
    Bgp(Text, Prefix, Option<Addr>),
    /// That the session with the neighbor of an address is established.
    Session(Text, Addr),
    /// That a packet for an address arrives by some way.
    Reach(Text, Addr),
    /// That a packet for an address arrives by every way.
    Every(Text, Addr),
    /// That a packet from the first address to the second is let pass and arrives by some way.
    Flow(Text, Addr, Addr),
    /// The element that has a line, from 1.
    Element(Text, u32),
}
