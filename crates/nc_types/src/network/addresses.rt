//! Which interface has each address.

ghost use Rattle.std.specs.Prelude.{◌≡◌, ◌^◌, ◌<◌, ◌==◌, ℕ, length, map, All, IfOk, OnOk, None, Some, if◌then◌else◌};
ghost use Rattle.std.specs.Option.{option_map, option_or};
ghost use Rattle.nc_types.specs.Config.{config_view};
ghost use Rattle.nc_types.specs.Network.{has_address, owner_of};
ghost use Rattle.nc_types.specs.Tables.{place_in, owner_by, iface_from};

use crate::addr::Addr;
use crate::config::{IfaceId, Interface, RouterConfig, RouterId};
use std::alloc::{AllocError, Global};
use std::collections::BTreeMap;

/// An interface of the network: its router, and the interface there.
#[derive(Clone, Copy, PartialEq, Eq)]
pub(crate) struct IfacePlace {
    pub(crate) router: RouterId,
    pub(crate) iface: IfaceId,
}

// Gives the address of an interface that is up to it, if no interface has that address yet.
fn claim_address(
    owners: &mut BTreeMap<Addr, IfacePlace>,
    interface: &Interface,
    owner: IfacePlace,
) -> Result<(), AllocError>
    ensures { OnOk result ((addr : ℕ) → owner_by owners.new addr
        ≡ option_or (owner_by owners.old addr) (if has_address addr interface.now then Some owner else None)) }
{
    let Some(address) = interface.up() else {
        return Ok(());
    };
    if owners.contains_key(&address.addr) {
        return Ok(());
    }
    owners.insert(address.addr, owner)?;
    Ok(())
}

// Gives each interface of a router its address, the interfaces in order.
fn claim_addresses(
    owners: &mut BTreeMap<Addr, IfacePlace>,
    router: RouterId,
    interfaces: &[Interface],
) -> Result<(), AllocError>
    requires { length interfaces.now < 2 ^ 32 }
    ensures { OnOk result ((addr : ℕ) → owner_by owners.new addr
        ≡ option_or (owner_by owners.old addr) (iface_from router.0 0 interfaces.now addr)) }
{
    'interfaces: for (place, interface) in interfaces.iter().enumerate() {
        let iface = IfaceId(place as u32);
        claim_address(owners, interface, IfacePlace { router, iface })?;
    }
    Ok(())
}

/// The owner of each address: the first interface that is up and has it.
pub(crate) fn address_owners(
    alloc: Global,
    routers: &[RouterConfig],
) -> Result<BTreeMap<Addr, IfacePlace>, AllocError>
    requires few { length routers.now < 2 ^ 32 }
    requires each { All (λ c. length c.interfaces.items < 2 ^ 32) routers.now }
    ensures { IfOk result (λ owners. (addr : ℕ)
        → option_map place_in (owner_by owners addr) ≡ owner_of (map config_view routers.now) addr) }
{
    let mut owners = BTreeMap::new(alloc);
    'routers: for (router, config) in routers.iter().enumerate() {
        claim_addresses(&mut owners, RouterId(router as u32), &config.interfaces)?;
    }
    Ok(owners)
}
