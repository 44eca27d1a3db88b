ghost use Rattle.std.specs.Prelude.{◌≡◌, ◌-◌, ◌^◌, ◌<◌, ◌≤◌, [], All, length, map, slice_index_or};
ghost use Rattle.std.specs.List.{range_with_len};
ghost use Rattle.nc_tables.specs.Base.{same_prefix};
ghost use Rattle.nc_tables.specs.Longest.{longest, places_from, AreByPrefix};
ghost use Rattle.nc_tables.specs.Main.{AreMainRows};

use crate::bgp::MainRow;
use crate::longest::{HasPrefix, Rows, longest_rows, rows_at, rows_with};
use nc_types::{Addr, Prefix, RouterId};
use std::marker::Model;

impl HasPrefix for MainRow {
    ghost prefix_of = { λ row. row.prefix };

    fn prefix(&self) -> Prefix {
        self.prefix
    }
}

/// The main tables of the routers of a network: the rows of each router, in order of prefix (address, then
/// length), so that those of one prefix stand side by side. A router has fewer than 2^32 rows, so that a place
/// is a `u32`.
#[derive(Drop)]
pub struct MainTables {
    rows: Vec<Vec<MainRow>>,
}

impl Model for MainTables {
    ghost use Rattle.std.specs.Prelude.{List, All, map};
    ghost use Rattle.nc_tables.specs.declared.bgp.MainRow.{MainRow};
    ghost use Rattle.nc_tables.specs.Main.{AreMainRows};

    ghost Value = { List (List MainRow) };

    ghost view = { λ t. map (λ rows. rows.items) t.rows.items };

    ghost invariant = { λ t. All (λ rows. AreMainRows rows.items) t.rows.items };
}

impl MainTables {
    /// The tables that have these rows, a list for each router.
    pub fn from_rows(rows: Vec<Vec<MainRow>>) -> MainTables
        requires { All (λ rows. AreMainRows rows.items) rows.items }
        ensures { result ≡ map (λ rows. rows.items) rows.items }
    {
        MainTables { rows }
    }

    /// The rows of a router, which has a number below that of the routers.
    pub fn rows(&self, router: RouterId) -> &[MainRow]
        requires { router.0 < length self.now }
        ensures rows { result.now ≡ slice_index_or self.now router.0 [] }
        ensures ordered { AreByPrefix (λ row. row.prefix) result.now }
        ensures few { length result.now < 2 ^ 32 }
    {
        rows_at(&self.rows, router)
    }

    /// Where the rows of a prefix stand, among those of a router, which has a number below that of the
    /// routers; an empty range exactly where no row has the prefix. Takes no memory.
    pub fn rows_of(&self, router: RouterId, prefix: Prefix) -> Rows
        requires { router.0 < length self.now }
        ensures rows { places_from (λ row. same_prefix row.prefix prefix) 0
            (slice_index_or self.now router.0 [])
            ≡ range_with_len result.from (result.to - result.from) }
        ensures ordered { result.from ≤ result.to }
        ensures within { result.to ≤ length (slice_index_or self.now router.0 []) }
        ensures few { result.to < 2 ^ 32 }
    {
        rows_with(self.rows(router), prefix)
    }

    /// The rows of the longest prefix that covers an address, among those of a router, which has a number
    /// below that of the routers; an empty range exactly where no prefix covers the address. Takes no memory.
    pub fn longest(&self, router: RouterId, addr: Addr) -> Rows
        requires { router.0 < length self.now }
        ensures rows { longest (map (λ row. row.prefix) (slice_index_or self.now router.0 [])) addr.0
            ≡ range_with_len result.from (result.to - result.from) }
        ensures ordered { result.from ≤ result.to }
        ensures within { result.to ≤ length (slice_index_or self.now router.0 []) }
        ensures few { result.to < 2 ^ 32 }
    {
        longest_rows(self.rows(router), addr)
    }
}
