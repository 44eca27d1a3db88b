use nc_types::{IfaceId, RouterId};

/// What comes of a packet by one way out of a router.
#[derive(Clone, Copy, PartialEq, Eq)]
pub enum Outcome {
    /// It is delivered on a network of the router.
    Deliver,
    /// It goes to an interface of another router.
    Go(RouterId, IfaceId),
    /// It is lost.
    Lost,
}

/// One way out of a router for an address.
#[derive(Clone, Copy, PartialEq, Eq)]
pub struct Alternative {
    /// The place of the main row.
    pub main: u32,
    /// The place of the base row by which the next hop of a BGP row is reached; `None` for any other row.
    pub base: Option<u32>,
    /// What comes of the packet.
    pub outcome: Outcome,
}
