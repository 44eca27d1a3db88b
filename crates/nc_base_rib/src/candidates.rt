//! What may become a row of a router's base table.

ghost use Rattle.std.specs.Prelude.{◌≡◌, ◌^◌, ◌<◌, length, All, IfOk};
ghost use Rattle.nc_types.specs.Config.{config_view};
ghost use Rattle.nc_tables.specs.Base.{connected_from, candidates};
ghost use Rattle.nc_base_rib.specs.Links.{AreApart, HasOwnPrefix};

use crate::links::link_table;
use crate::statics::add_statics;
use nc_tables::{BaseFrom, BaseRow};
use nc_types::{IfaceId, Interface, RouterConfig};
use std::alloc::{AllocError, Global};

// The connected routes in order of the interfaces.
fn connected(alloc: Global, interfaces: &[Interface]) -> Result<Vec<BaseRow>, AllocError>
    requires { length interfaces.now < 2 ^ 32 }
    ensures { IfOk result (λ rows. rows.items ≡ connected_from 0 interfaces.now) }
{
    let mut rows = Vec::new(alloc);
    'interfaces: for (place, interface) in interfaces.iter().enumerate() {
        if let Some(address) = interface.up() {
            rows.push(BaseRow {
                prefix: address.prefix,
                distance: 0,
                from: BaseFrom::Connected(IfaceId(place as u32)),
            })?;
        }
    }
    Ok(rows)
}

/// The connected rows of a router and the rows of its static routes that can be used.
pub(crate) fn candidate_rows(
    alloc: Global,
    config: &RouterConfig,
) -> Result<Vec<BaseRow>, AllocError>
    requires interfaces { length config.now.interfaces.items < 2 ^ 32 }
    requires statics { length config.now.statics.items < 2 ^ 32 }
    requires apart { AreApart config.now.interfaces.items }
    requires covered { All HasOwnPrefix config.now.interfaces.items }
    ensures { IfOk result (λ rows. rows.items ≡ candidates (config_view config.now)) }
{
    let mut rows = connected(alloc, &config.interfaces)?;
    let links = link_table(alloc, &config.interfaces)?;
    add_statics(&mut rows, &config.interfaces, &links, &config.statics)?;
    Ok(rows)
}
