//! The interfaces of a router that are up, in a table by prefix.

ghost use Rattle.std.specs.Prelude.{◌≡◌, ◌≤◌, ◌<◌, ◌^◌, true, false, length, All, Contains, IfNone, IfSome, IfOk};
ghost use Rattle.nc_tables.specs.Base.{covers};
ghost use Rattle.nc_types.specs.Cidr.{IsCidr};
ghost use Rattle.nc_base_rib.specs.Links.{AreApart, IsTable, IsTableOf, links_from};

use nc_types::{Addr, IfaceAddr, Interface};
use std::alloc::{AllocError, Global};

/// An interface that is up.
#[derive(Clone, Copy)]
pub(crate) struct Link {
    /// The network address of its prefix.
    pub(crate) network: Addr,
    pub(crate) address: IfaceAddr,
    /// The place of the interface.
    pub(crate) place: u32,
}

// The links of interfaces, in their order.
fn links_in_order(alloc: Global, interfaces: &[Interface]) -> Result<Vec<Link>, AllocError>
    requires { length interfaces.now < 2 ^ 32 }
    ensures links { IfOk result (λ links. links.items ≡ links_from 0 interfaces.now) }
    ensures valid { IfOk result (λ links. All (λ l. IsCidr l.address.prefix.base l.address.prefix.len) links.items) }
{
    let mut links = Vec::new(alloc);
    'interfaces: for (place, interface) in interfaces.iter().enumerate() {
        if let Some(address) = interface.up() {
            links.push(Link {
                network: address.prefix.addr(),
                address,
                place: place as u32,
            })?;
        }
    }
    Ok(links)
}

/// The table of a router's interfaces that are up.
pub(crate) fn link_table(alloc: Global, interfaces: &[Interface]) -> Result<Vec<Link>, AllocError>
    requires few { length interfaces.now < 2 ^ 32 }
    requires apart { AreApart interfaces.now }
    ensures { IfOk result (λ links. IsTableOf interfaces.now links.items) }
{
    let mut links = links_in_order(alloc, interfaces)?;
    links.sort_by_key(|link| link.network.0)?;
    Ok(links)
}

/// The link of a table through which an address is reached: the one whose prefix covers it.
pub(crate) fn toward(links: &[Link], addr: Addr) -> Option<Link>
    requires { IsTable links.now }
    ensures none { IfNone result (All (λ l. covers l.address.prefix addr.0 ≡ false) links.now) }
    ensures found { IfSome result (Contains links.now) }
    ensures covering { IfSome result (λ l. covers l.address.prefix addr.0 ≡ true) }
{
    let next = links.partition_point(|link| link.network.0 <= addr.0);
    if next == 0 {
        return None;
    }
    let link = &links[next - 1];
    if !link.address.prefix.covers(addr) {
        return None;
    }
    Some(*link)
}
