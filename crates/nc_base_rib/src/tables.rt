ghost use Rattle.std.specs.Prelude.{◌≡◌, ◌^◌, ◌<◌, length, All, IfOk};
ghost use Rattle.nc_types.specs.Config.{config_view};
ghost use Rattle.nc_tables.specs.Base.{base_table, base_tables, AreRows};
ghost use Rattle.nc_base_rib.specs.Links.{AreApart, HasOwnPrefix};

use crate::candidates::candidate_rows;
use crate::nearest::nearest_rows;
use nc_tables::{BaseRow, BaseTables};
use nc_types::{Network, RouterConfig};
use std::alloc::{AllocError, Global};

/// The rows of the base table of a router.
pub(crate) fn base_rows(alloc: Global, config: &RouterConfig) -> Result<Vec<BaseRow>, AllocError>
    requires interfaces { length config.now.interfaces.items < 2 ^ 32 }
    requires statics { length config.now.statics.items < 2 ^ 32 }
    requires apart { AreApart config.now.interfaces.items }
    requires covered { All HasOwnPrefix config.now.interfaces.items }
    ensures table { IfOk result (λ rows. rows.items ≡ base_table (config_view config.now)) }
    ensures rows { IfOk result (λ rows. AreRows rows.items) }
{
    let candidates = candidate_rows(alloc, config)?;
    nearest_rows(alloc, candidates)
}

/// The base tables of a network, one a router.
///
/// # Errors
///
/// Memory that runs out.
pub fn base_tables(alloc: Global, network: &Network) -> Result<BaseTables, AllocError>
    ensures { IfOk result (λ tables. tables ≡ base_tables network.now) }
{
    let _count = network.element_count();
    let mut tables = Vec::new(alloc);
    'routers: for config in network.routers() {
        tables.push(base_rows(alloc, config)?)?;
    }
    Ok(BaseTables::from_rows(tables))
}
