//! Which aggregates of a router discard.

ghost use Rattle.std.specs.Prelude.{◌≡◌, ◌&&◌, ◌^◌, ◌<◌, [], length, slice_index_or, IfOk, OnOk, Some, if◌then◌else◌};
ghost use Rattle.nc_types.specs.Cidr.{Cidr};
ghost use Rattle.nc_tables.specs.Base.{same_prefix};
ghost use Rattle.nc_tables.specs.Rounds.{has_longer};
ghost use Rattle.nc_main_rib.specs.Sides.{active_from, place_by};

use nc_tables::BgpTable;
use nc_types::{AggregateStatement, Prefix, RouterId};
use std::alloc::{AllocError, Global};
use std::collections::BTreeMap;

// Gives the prefix of an aggregate that is active this place.
fn add_active(
    places: &mut BTreeMap<Prefix, u32>,
    table: &BgpTable,
    router: RouterId,
    aggregate: &AggregateStatement,
    place: u32,
) -> Result<(), AllocError>
    requires { router.0 < length table.now }
    ensures { OnOk result ((prefix : Cidr) → place_by places.new prefix
        ≡ (if same_prefix aggregate.now.prefix prefix
        && has_longer (slice_index_or table.now router.0 []) aggregate.now.prefix
        then Some place else place_by places.old prefix)) }
{
    if table.has_longer(router, aggregate.prefix) {
        places.insert(aggregate.prefix, place)?;
        return Ok(());
    }
    Ok(())
}

/// The active aggregates of a router, among these: of each prefix the place of the first.
pub(crate) fn active_places(
    alloc: Global,
    table: &BgpTable,
    router: RouterId,
    aggregates: &[AggregateStatement],
) -> Result<BTreeMap<Prefix, u32>, AllocError>
    requires router { router.0 < length table.now }
    requires few { length aggregates.now < 2 ^ 32 }
    ensures { IfOk result (λ places. (prefix : Cidr) → place_by places prefix
        ≡ active_from (slice_index_or table.now router.0 []) prefix 0 aggregates.now) }
{
    let mut places = BTreeMap::new(alloc);
    let mut place = aggregates.len();
    'aggregates: while place > 0 {
        place -= 1;
        add_active(&mut places, table, router, &aggregates[place], place as u32)?;
    }
    Ok(places)
}
