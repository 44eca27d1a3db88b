use nc_types::Addr;

/// By what ways a packet is to arrive.
#[derive(Clone, Copy)]
pub(crate) enum Packet {
    /// By some way, whatever access lists say.
    BySome,
    /// By each way, whatever access lists say.
    ByEach,
    /// By some way on which access lists let it pass, coming from this address.
    From(Addr),
}

/// A packet on its way.
#[derive(Clone, Copy)]
pub(crate) struct Trip {
    /// By what ways it is to arrive.
    pub(crate) packet: Packet,
    /// The address to which it goes.
    pub(crate) addr: Addr,
    /// Over how many hops it may go at most.
    pub(crate) hops: u8,
}
