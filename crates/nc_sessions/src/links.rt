ghost use Rattle.std.specs.Prelude.{◌≡◌, length};
ghost use Rattle.std.specs.Option.{option_map};
ghost use Rattle.nc_tables.specs.Rounds.{link_at};
ghost use Rattle.nc_sessions.specs.Views.{link_view};

use crate::ends::{End, end_at};
use nc_tables::{SessionRow, Sessions};
use nc_types::{Addr, Network, RouterId};

/// Both ends of a session.
#[derive(Clone, Copy)]
pub struct Link<'a> {
    pub session: SessionRow,
    pub receiver: End<'a>,
    pub sender: End<'a>,
    /// The address from which the sender starts.
    pub source: Addr,
}

/// The ends of the session of the neighbor statement at a place of a router, which is the receiver;
/// `None` where the statement has no session, and where there is no such statement or router. There
/// is a list of sessions for each router of the network. Takes no memory.
pub fn link_at<'a>(
    network: &'a Network,
    sessions: &Sessions,
    router: RouterId,
    place: u32,
) -> Option<Link<'a>>
    requires { length sessions.now ≡ length network.now }
    ensures { option_map link_view result ≡ link_at network.now sessions.now router.0 place }
{
    if router.0 as usize >= network.routers().len() {
        return None;
    }
    let session = *sessions.get(router, place)?;
    let receiver = end_at(network, router, place)?;
    let sender = end_at(network, session.peer, session.peer_neighbor)?;
    let address = network.up(session.peer, session.peer_source)?;
    Some(Link {
        session,
        receiver,
        sender,
        source: address.addr,
    })
}
