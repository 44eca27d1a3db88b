//! The tables of a network, from which look-ups are served.

ghost use Rattle.std.specs.Prelude.{◌^◌, ◌<◌, length, map, All, IfOk};
ghost use Rattle.nc_types.specs.Config.{config_view};
ghost use Rattle.nc_types.specs.Network.{element_count};
ghost use Rattle.nc_types.specs.Tables.{AreTables};

use crate::addr::Addr;
use crate::config::{RouterConfig, RouterId};
use crate::network::addresses::{IfacePlace, address_owners};
use crate::network::elements::{ElementPlace, element_offsets, element_places};
use crate::network::names::router_names;
use crate::network::owner::Owner;
use crate::network::owners::line_owners;
use std::alloc::{AllocError, Global};
use std::collections::BTreeMap;

/// The tables of a network.
#[derive(Drop)]
pub(crate) struct Tables {
    /// The router of each name.
    pub(crate) names: BTreeMap<Vec<u8>, RouterId>,
    /// Where each element stands, by its number.
    pub(crate) places: Vec<ElementPlace>,
    /// The number of the first element of each router.
    pub(crate) offsets: Vec<u32>,
    /// Of each router, the place of the element that has each line, from a line 0 on.
    pub(crate) owners: Vec<Vec<Owner>>,
    /// The interface that is up and has each address.
    pub(crate) addresses: BTreeMap<Addr, IfacePlace>,
}

/// The tables of these routers.
pub(crate) fn make_tables(alloc: Global, routers: &[RouterConfig]) -> Result<Tables, AllocError>
    requires few { length routers.now < 2 ^ 32 }
    requires elements { All (λ c. length c.elements.items < 2 ^ 32) routers.now }
    requires interfaces { All (λ c. length c.interfaces.items < 2 ^ 32) routers.now }
    requires count { element_count (map config_view routers.now) < 2 ^ 32 }
    ensures { IfOk result (AreTables (map config_view routers.now)) }
{
    let names = router_names(alloc, routers)?;
    let places = element_places(alloc, routers)?;
    let offsets = element_offsets(alloc, routers)?;
    let owners = line_owners(alloc, routers)?;
    let addresses = address_owners(alloc, routers)?;
    Ok(Tables {
        names,
        places,
        offsets,
        owners,
        addresses,
    })
}
