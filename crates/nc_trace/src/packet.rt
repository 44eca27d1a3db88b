//! What is followed, and by which ways it has to arrive.

ghost use Rattle.std.specs.Prelude.{◌≡◌};
ghost use Rattle.nc_trace.specs.Packets.{packet_of, source_of, is_each};

use nc_types::Addr;

/// A packet to an address: from anywhere, where no access list is asked whether it may pass, or from an address.
#[derive(Clone, Copy)]
pub(crate) struct Packet {
    pub(crate) from: Option<Addr>,
    pub(crate) to: Addr,
}

/// By which ways a packet has to arrive.
#[derive(Clone, Copy)]
pub(crate) enum By {
    /// By some way.
    SomeWay,
    /// By each way, of which there is one.
    EachWay,
    /// By some way on which access lists let it pass, where it comes from this address.
    Filtered(Addr),
}

impl By {
    // The address from which the packet comes, where access lists are asked.
    fn source(self) -> Option<Addr>
        ensures { result ≡ source_of self }
    {
        match self {
            By::SomeWay | By::EachWay => None,
            By::Filtered(from) => Some(from),
        }
    }

    /// The packet to an address that is followed.
    pub(crate) fn packet(self, to: Addr) -> Packet
        ensures { result ≡ packet_of self to.0 }
    {
        Packet {
            from: self.source(),
            to,
        }
    }

    /// Whether each way has to lead there.
    pub(crate) fn is_each(self) -> bool
        ensures { result ≡ is_each self }
    {
        matches!(self, By::EachWay)
    }
}
