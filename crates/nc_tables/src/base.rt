ghost use Rattle.std.specs.Prelude.{◌≡◌, ◌-◌, ◌<◌, ◌≤◌, [], All, length, map, slice_index_or};
ghost use Rattle.std.specs.List.{range_with_len};
ghost use Rattle.std.specs.List.Sorted.{IsSorted};
ghost use Rattle.nc_types.specs.Cidr.{IsCidr};
ghost use Rattle.nc_tables.specs.Base.{row_cmp, same_prefix, AreRows};
ghost use Rattle.nc_tables.specs.Longest.{longest, places_from};

use crate::longest::{HasPrefix, Rows, longest_rows, rows_at, rows_with};
use nc_types::{Addr, IfaceId, Prefix, RouterId};
use std::marker::Model;

/// Where a row of a base table comes from.
#[derive(Clone, Copy, PartialEq, Eq)]
pub enum BaseFrom {
    /// An interface that is up.
    Connected(IfaceId),
    /// The static route at a place, through an interface.
    Static(u32, IfaceId),
    /// The static route at a place, which discards.
    Null(u32),
}

/// A row of a base table.
#[derive(Clone, Copy, PartialEq, Eq)]
pub struct BaseRow {
    pub prefix: Prefix,
    /// The administrative distance: 0 of a connected row, 1 to 254 of a static one.
    pub distance: u8,
    pub from: BaseFrom,
}

impl HasPrefix for BaseRow {
    ghost prefix_of = { λ row. row.prefix };

    fn prefix(&self) -> Prefix {
        self.prefix
    }
}

/// The base tables of the routers of a network: the rows of each router, in order of prefix (address, then
/// length), connected ones before static ones, static ones by their place.
#[derive(Drop)]
pub struct BaseTables {
    rows: Vec<Vec<BaseRow>>,
}

impl Model for BaseTables {
    ghost use Rattle.std.specs.Prelude.{List, All, map};
    ghost use Rattle.nc_tables.specs.declared.base.BaseRow.{BaseRow};
    ghost use Rattle.nc_tables.specs.Base.{AreRows};

    ghost Value = { List (List BaseRow) };

    ghost view = { λ t. map (λ rows. rows.items) t.rows.items };

    ghost invariant = { λ t. All (λ rows. AreRows rows.items) t.rows.items };
}

impl BaseTables {
    /// The tables that have these rows, a list for each router.
    pub fn from_rows(rows: Vec<Vec<BaseRow>>) -> BaseTables
        requires { All (λ rows. AreRows rows.items) rows.items }
        ensures { result ≡ map (λ rows. rows.items) rows.items }
    {
        BaseTables { rows }
    }

    /// The rows of a router, which has a number below that of the routers.
    pub fn rows(&self, router: RouterId) -> &[BaseRow]
        requires { router.0 < length self.now }
        ensures rows { result.now ≡ slice_index_or self.now router.0 [] }
        ensures ordered { IsSorted row_cmp result.now }
        ensures valid { All (λ row. IsCidr row.prefix.base row.prefix.len) result.now }
    {
        rows_at(&self.rows, router)
    }

    /// Where the rows of a prefix stand, among those of a router, which has a number below that of the
    /// routers; an empty range exactly where no row has the prefix. Takes no memory.
    pub fn rows_of(&self, router: RouterId, prefix: Prefix) -> Rows
        requires { router.0 < length self.now }
        ensures rows { places_from (λ row. same_prefix row.prefix prefix) 0
            (slice_index_or self.now router.0 [])
            ≡ range_with_len result.from (result.to - result.from) }
        ensures ordered { result.from ≤ result.to }
        ensures within { result.to ≤ length (slice_index_or self.now router.0 []) }
    {
        rows_with(self.rows(router), prefix)
    }

    /// The rows of the longest prefix that covers an address, among those of a router, which has a number
    /// below that of the routers; an empty range exactly where no prefix covers the address. Takes no memory.
    pub fn longest(&self, router: RouterId, addr: Addr) -> Rows
        requires { router.0 < length self.now }
        ensures rows { longest (map (λ row. row.prefix) (slice_index_or self.now router.0 [])) addr.0
            ≡ range_with_len result.from (result.to - result.from) }
        ensures ordered { result.from ≤ result.to }
        ensures within { result.to ≤ length (slice_index_or self.now router.0 []) }
    {
        longest_rows(self.rows(router), addr)
    }
}
