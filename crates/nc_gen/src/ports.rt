//! The ports of a router: its ends of its links.

ghost use Rattle.std.specs.Prelude.{◌≡◌, ◌<◌, All, IfOk};
ghost use Rattle.nc_gen.specs.Tree.{port_at, ports_in, system_of};
ghost use Rattle.nc_gen.specs.Shape.{IsSmall};

use crate::tree::Link;
use nc_types::Addr;
use std::alloc::{AllocError, Global};

/// The address at which the networks of links begin: 10.128.0.0.
const LINK_START: u32 = 0x0a80_0000;

/// The system of the first router, the first of those for private use (RFC 6996).
const FIRST_SYSTEM: u32 = 64_512;

/// An end of a link at a router: its address, and the address and the system of the other end.
#[derive(Clone, Copy)]
pub(crate) struct Port {
    pub(crate) own: Addr,
    pub(crate) peer: Addr,
    pub(crate) peer_system: u32,
}

/// The number of the autonomous system of a router.
pub(crate) fn system_of(number: u32) -> u32
    requires { number < 256 }
    ensures { result ≡ system_of number }
{
    FIRST_SYSTEM + number
}

// The end of a link at a router, which is one of its ends.
#[tactic(auto, unfolding(crate::specs::Tree::port_at))]
fn port_at(number: u32, link: Link) -> Port
    requires { IsSmall link }
    ensures { result ≡ port_at number link }
{
    let start = LINK_START + 4 * link.number;
    if link.upper == number {
        Port {
            own: Addr(start + 1),
            peer: Addr(start + 2),
            peer_system: system_of(link.lower),
        }
    } else {
        Port {
            own: Addr(start + 2),
            peer: Addr(start + 1),
            peer_system: system_of(link.upper),
        }
    }
}

/// The ports of a router, in order of its links.
pub(crate) fn ports_in(alloc: Global, links: &[Link], number: u32) -> Result<Vec<Port>, AllocError>
    requires { All IsSmall links.now }
    ensures { IfOk result (λ ports. ports.items ≡ ports_in links.now number) }
{
    let mut ports = Vec::new(alloc);
    'links: for link in links {
        if link.upper == number || link.lower == number {
            ports.push(port_at(number, *link))?;
        }
    }
    Ok(ports)
}
