//! The address of an interface with its mask.

ghost use Rattle.std.specs.Prelude.{◌≡◌};
ghost use Rattle.nc_read_link.specs.Interfaces.{iface_addr_of};

use nc_lines::numbers::read_masked;
use nc_types::{IfaceAddr, Prefix};

/// The address of an interface, whose mask has at least one bit.
pub(crate) fn iface_addr(address: &[u8], mask: &[u8]) -> Option<IfaceAddr>
    ensures { result ≡ iface_addr_of address.now mask.now }
{
    let (addr, len) = read_masked(address, mask)?;
    if len == 0 {
        return None;
    }
    Some(IfaceAddr {
        addr,
        prefix: Prefix::around(addr, len),
    })
}
