//! What interfaces say of an address.

ghost use Rattle.std.specs.Prelude.{◌≡◌};
ghost use Rattle.nc_tables.specs.Base.{is_own};
ghost use Rattle.nc_sessions.specs.Views.{link_view};
ghost use Rattle.nc_message.specs.Inputs.{IsBetween};

use nc_sessions::Link;
use nc_types::{Addr, Network, RouterId};
use nc_underlay::own_interface;

/// Whether an address is that of one of the interfaces of a session's receiver that are up.
pub(crate) fn is_own(network: &Network, router: RouterId, link: &Link, addr: Addr) -> bool
    requires { IsBetween network.now router.0 (link_view link.now) }
    ensures { result ≡ is_own (link_view link.now).receiver.config.interfaces addr.0 }
{
    own_interface(network, router, addr).is_some()
}
