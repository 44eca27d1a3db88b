//! Where the maps of a session stand.

ghost use Rattle.std.specs.Prelude.{◌≡◌, Some, slice_get};
ghost use Rattle.nc_policy.specs.Indexes.{ArePolicies};
ghost use Rattle.nc_sessions.specs.Views.{link_view};
ghost use Rattle.nc_message.specs.Maps.{IsMapIn, IsMapOut};

use nc_policy::{MapPlace, Policies};
use nc_sessions::Link;
use nc_types::{Network, RouterId};

/// Where the map of the sender's statement of a session stands, by which it sends; `None` where the
/// statement has none, or its router none of that name. The tables are those of the network. Takes no
/// memory.
pub fn map_out(network: &Network, policies: &Policies, link: &Link) -> Option<MapPlace>
    requires policies { ArePolicies network.now policies.now }
    requires sender { slice_get network.now link.now.session.peer.0
        ≡ Some (link_view link.now).sender.config }
    ensures { IsMapOut (link_view link.now) result }
{
    let map = &link.sender.statement.map_out;
    policies.map_place(network, link.session.peer, map)
}

/// The same of the map of the receiver's statement, by which it accepts.
pub fn map_in(
    network: &Network,
    policies: &Policies,
    router: RouterId,
    link: &Link,
) -> Option<MapPlace>
    requires policies { ArePolicies network.now policies.now }
    requires receiver { slice_get network.now router.0 ≡ Some (link_view link.now).receiver.config }
    ensures { IsMapIn (link_view link.now) result }
{
    let map = &link.receiver.statement.map_in;
    policies.map_place(network, router, map)
}
