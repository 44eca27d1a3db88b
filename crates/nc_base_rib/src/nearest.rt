//! Of each prefix the rows of the least distance.

ghost use Rattle.std.specs.Prelude.{◌≡◌, ◌==◌, ◌&&◌, nat_lt, false, AllPairs, All, IfOk, filter};
ghost use Rattle.std.specs.List.Sorted.{IsSorted};
ghost use Rattle.std.specs.Option.{option_map_or};
ghost use Rattle.std.specs.declared.cmp.Ordering.TheVariants.{Less};
ghost use Rattle.nc_types.specs.Cidr.{IsCidr};
ghost use Rattle.nc_tables.specs.Base.{row_cmp, from_cmp, is_nearest};
ghost use Rattle.nc_tables.specs.Order.{in_order};
ghost use Rattle.nc_base_rib.specs.Nearness.{distance_cmp};

use nc_tables::BaseRow;
use nc_types::Addr;
use std::alloc::{AllocError, Global};

// What rows are sorted by.
#[derive(Clone, Copy, PartialEq, Eq, PartialOrd, Ord)]
struct Key {
    addr: Addr,
    len: u8,
    distance: u8,
}

impl Key {
    fn of(row: &BaseRow) -> Key
        ensures key { result ≡ record {
          addr = record { 0 = row.now.prefix.base };
          len = row.now.prefix.len;
          distance = row.now.distance;
        } }
        ensures valid { IsCidr row.now.prefix.base row.now.prefix.len }
    {
        Key {
            addr: row.prefix.addr(),
            len: row.prefix.len(),
            distance: row.distance,
        }
    }

    // Whether another one has the same prefix and a lower distance.
    fn loses_to(self, other: Option<Key>) -> bool
        ensures { result ≡ option_map_or (λ o. ((o.addr.0 == self.addr.0) && (o.len == self.len))
            && nat_lt o.distance self.distance) other false }
    {
        match other {
            Some(other) => {
                other.addr == self.addr && other.len == self.len && other.distance < self.distance
            }
            None => false,
        }
    }
}

// Of rows in order of prefix and distance those of the least distance of their prefix.
fn keep_nearest(alloc: Global, rows: &[BaseRow]) -> Result<Vec<BaseRow>, AllocError>
    requires { IsSorted distance_cmp rows.now }
    ensures nearest { IfOk result (λ kept. kept.items ≡ filter (is_nearest rows.now) rows.now) }
    ensures valid { IfOk result (λ kept. All (λ row. IsCidr row.prefix.base row.prefix.len) kept.items) }
{
    let mut kept = Vec::new(alloc);
    let mut last: Option<Key> = None;
    'rows: for row in rows {
        let key = Key::of(row);
        if !key.loses_to(last) {
            kept.push(*row)?;
            last = Some(key);
        }
    }
    Ok(kept)
}

/// Of rows with places that ascend those of the least distance of their prefix, in order.
pub(crate) fn nearest_rows(
    alloc: Global,
    mut rows: Vec<BaseRow>,
) -> Result<Vec<BaseRow>, AllocError>
    requires { AllPairs (λ a b. from_cmp a.from b.from ≡ Less) rows.items }
    ensures nearest { IfOk result (λ kept. kept.items
        ≡ in_order row_cmp (filter (is_nearest rows.items) rows.items)) }
    ensures ordered { IfOk result (λ kept. IsSorted row_cmp kept.items) }
    ensures valid { IfOk result (λ kept. All (λ row. IsCidr row.prefix.base row.prefix.len) kept.items) }
{
    rows.sort_by_key(|row| Key::of(row))?;
    keep_nearest(alloc, &rows)
}
