//! Where each element stands.

ghost use Rattle.std.specs.Prelude.{◌≡◌, ◌<◌, ◌^◌, ◌++◌, length, map, All, IfOk, OnOk};
ghost use Rattle.std.specs.Option.{option_map};
ghost use Rattle.nc_types.specs.Config.{config_view, element_view};
ghost use Rattle.nc_types.specs.Network.{element_count};
ghost use Rattle.nc_types.specs.Tables.{places_in, places_from, offsets_from, element_in};

use crate::config::{Element, RouterConfig, RouterId};
use std::alloc::{AllocError, Global};

/// The place of an element: its router, and where it stands among the elements of that router.
#[derive(Clone, Copy, PartialEq, Eq)]
pub(crate) struct ElementPlace {
    pub(crate) router: RouterId,
    pub(crate) place: u32,
}

// Adds the places of so many elements of a router.
fn push_places(
    places: &mut Vec<ElementPlace>,
    router: RouterId,
    count: usize,
) -> Result<(), AllocError>
    requires { count < 2 ^ 32 }
    ensures { OnOk result (places.new.items ≡ places.old.items ++ places_in router.0 count) }
{
    'places: for place in 0..count {
        places.push(ElementPlace {
            router,
            place: place as u32,
        })?;
    }
    Ok(())
}

/// The places of all elements, router by router.
pub(crate) fn element_places(
    alloc: Global,
    routers: &[RouterConfig],
) -> Result<Vec<ElementPlace>, AllocError>
    requires few { length routers.now < 2 ^ 32 }
    requires each { All (λ c. length c.elements.items < 2 ^ 32) routers.now }
    ensures { IfOk result (λ places. places.items ≡ places_from 0 (map config_view routers.now)) }
{
    let mut places = Vec::new(alloc);
    'routers: for (router, config) in routers.iter().enumerate() {
        push_places(&mut places, RouterId(router as u32), config.elements.len())?;
    }
    Ok(places)
}

/// The number of the first element of each router.
pub(crate) fn element_offsets(
    alloc: Global,
    routers: &[RouterConfig],
) -> Result<Vec<u32>, AllocError>
    requires { element_count (map config_view routers.now) < 2 ^ 32 }
    ensures { IfOk result (λ offsets. offsets.items ≡ offsets_from 0 (map config_view routers.now)) }
{
    let mut offsets = Vec::new(alloc);
    let mut first = 0;
    'routers: for config in routers {
        offsets.push(first)?;
        first += config.elements.len() as u32;
    }
    Ok(offsets)
}

/// The element at a place, with its router.
pub(crate) fn element_in(
    routers: &[RouterConfig],
    place: ElementPlace,
) -> Option<(RouterId, &Element)>
    ensures { option_map (λ r. record { router = r.0.0; element = element_view r.1.now }) result ≡ element_in (map config_view routers.now) place }
{
    let config = routers.get(place.router.0 as usize)?;
    let element = config.elements.get(place.place as usize)?;
    Some((place.router, element))
}
