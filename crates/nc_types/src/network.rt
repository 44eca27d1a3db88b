//! The routers of a network, with look-ups that tables serve.

ghost use Rattle.std.specs.Prelude.{◌≡◌, ◌≤◌, ◌<◌, ◌*◌, length, map, All, IfOk, is_some, nat_lt, slice_get};
ghost use Rattle.std.specs.Option.{ForSome, option_map};
ghost use Rattle.nc_types.specs.Config.{config_view, element_view};
ghost use Rattle.nc_types.specs.Joining.{IsValid};
ghost use Rattle.nc_types.specs.Network.{router_named, element_count, element_at, number_at, owner_at, owner_of, up_at};
ghost use Rattle.nc_types.specs.declared.TheConstants.{ROUTER_LIMIT, LINE_LIMIT};

mod addresses;
mod elements;
mod names;
mod owner;
mod owners;
mod tables;

use crate::addr::Addr;
use crate::config::{Element, ElementId, IfaceAddr, IfaceId, RouterConfig, RouterId};
use crate::network::elements::element_in;
use crate::network::tables::{Tables, make_tables};
use std::alloc::{AllocError, Global};
use std::marker::Model;

/// The routers of a network, which are valid together: a router's number is its place among them. No
/// look-up takes memory, and none goes over all routers.
#[derive(Drop)]
pub struct Network {
    routers: Vec<RouterConfig>,
    tables: Tables,
}

impl Model for Network {
    ghost use Rattle.std.specs.Prelude.{List, map};
    ghost use Rattle.nc_types.specs.Config.{ConfigView, config_view};
    ghost use Rattle.nc_types.specs.Tables.{IsNetwork};

    ghost Value = { List ConfigView };

    ghost view = { λ n. map config_view n.routers.items };

    ghost invariant = { λ n. IsNetwork (map config_view n.routers.items) n.tables };
}

impl Network {
    /// A network of these routers: at most [`crate::ROUTER_LIMIT`], each of a file of at most
    /// [`crate::LINE_LIMIT`] lines.
    pub fn new(alloc: Global, routers: Vec<RouterConfig>) -> Result<Network, AllocError>
        requires valid { IsValid (map config_view routers.items) }
        requires few { length routers.items ≤ ROUTER_LIMIT }
        requires lines { All (λ c. c.line_count ≤ LINE_LIMIT) routers.items }
        ensures { IfOk result (λ n. n ≡ map config_view routers.items) }
    {
        let tables = make_tables(alloc, &routers)?;
        Ok(Network { routers, tables })
    }

    /// The routers, in order of their numbers; they are valid together, and at most
    /// [`crate::ROUTER_LIMIT`].
    pub fn routers(&self) -> &[RouterConfig]
        ensures routers { map config_view result.now ≡ self.now }
        ensures valid { IsValid self.now }
        ensures few { length self.now ≤ ROUTER_LIMIT }
    {
        &self.routers
    }

    /// The router of a name; `None` where no router has it.
    pub fn router_named(&self, name: &[u8]) -> Option<RouterId>
        ensures { option_map (λ r. r.0) result ≡ router_named self.now name.now }
    {
        self.tables.names.get(name).copied()
    }

    /// How many elements the routers have together: no more than the files of as many routers as are allowed have lines.
    pub fn element_count(&self) -> u32
        ensures count { result ≡ element_count self.now }
        ensures few { element_count self.now ≤ ROUTER_LIMIT * LINE_LIMIT }
    {
        self.tables.places.len() as u32
    }

    /// The element of a number, with its router; `None` where the number isn't below the count of
    /// elements.
    pub fn element(&self, id: ElementId) -> Option<(RouterId, &Element)>
        ensures element { option_map (λ r. record { router = r.0.0; element = element_view r.1.now }) result ≡ element_at self.now id.0 }
        ensures within { is_some result ≡ nat_lt id.0 (element_count self.now) }
    {
        let place = self.tables.places.get(id.0 as usize)?;
        element_in(&self.routers, *place)
    }

    /// The number of the element at a place of a router, which has one there.
    pub fn element_id(&self, router: RouterId, place: u32) -> ElementId
        requires router { router.0 < length self.now }
        requires place { ForSome (slice_get self.now router.0) (λ c. place < length c.elements) }
        ensures number { result.0 ≡ number_at self.now router.0 place }
        ensures within { result.0 < element_count self.now }
    {
        let first = self.tables.offsets[router.0 as usize];
        ElementId(first + place)
    }

    /// The element that has a line of a router's file; `None` where no element has it, and where there
    /// is no such line or router.
    pub fn owner(&self, router: RouterId, line: u32) -> Option<ElementId>
        ensures { option_map (λ e. e.0) result ≡ owner_at self.now router.0 line }
    {
        let owners = self.tables.owners.get(router.0 as usize)?;
        let owner = *owners.get(line as usize)?;
        let place = owner.place()?;
        Some(self.element_id(router, place))
    }

    /// The interface that is up and has an address, with its router; `None` where there is none.
    pub fn owner_of(&self, addr: Addr) -> Option<(RouterId, IfaceId)>
        ensures { option_map (λ r. record { router = r.0.0; place = r.1.0 }) result ≡ owner_of self.now addr.0 }
    {
        let owner = self.tables.addresses.get(&addr)?;
        Some((owner.router, owner.iface))
    }

    /// The address of an interface that is up; `None` where it has none or is shut, and where there
    /// is no such interface.
    pub fn up(&self, router: RouterId, iface: IfaceId) -> Option<IfaceAddr>
        ensures { result ≡ up_at self.now router.0 iface.0 }
    {
        let config = self.routers.get(router.0 as usize)?;
        let interface = config.interfaces.get(iface.0 as usize)?;
        interface.up()
    }
}
