ghost use Rattle.std.specs.Prelude.{◌≡◌, ◌<◌, ◌≤◌, [], All, IfSome, length, map, slice_index_or};
ghost use Rattle.std.specs.Option.{option_map_or};
ghost use Rattle.nc_types.specs.declared.TheConstants.{MULTIPATH_LIMIT};
ghost use Rattle.nc_tables.specs.Rounds.{chosen_in, has_longer, AreBgpRows};
ghost use Rattle.nc_tables.specs.SpreadView.{row_view, rows_by_places, rows_in, AreKept, ArePlaced, IsSpread};

use crate::bgp::BgpRow;
use crate::rib_entries::RibEntries;
use crate::router_rows::{ChosenRow, RouterRows, Spread, row_of};
use nc_types::{Prefix, RouterId};
use std::marker::Model;

// What a router chooses of those prefixes that stand for others, and the rows of its own.
#[derive(Drop)]
pub(crate) struct Choices {
    pub(crate) own: Vec<BgpRow>,
    pub(crate) standing: Vec<RibEntries>,
}

/// The BGP tables of the routers of a network: the rows of each router, one for each prefix that it has a
/// candidate for, in order of prefix (address, then length). Prefixes of which a router chooses the same, but for
/// the prefix, may share what it chooses.
#[derive(Drop)]
pub struct BgpTable {
    prefixes: Vec<Prefix>,
    places: Vec<usize>,
    routers: Vec<Choices>,
}

impl Model for BgpTable {
    ghost use Rattle.std.specs.Prelude.{List, All, map};
    ghost use Rattle.nc_tables.specs.Rounds.{BgpRowView};
    ghost use Rattle.nc_tables.specs.SpreadView.{rows_by_places, AreKept, ArePlaced};

    ghost Value = { List (List BgpRowView) };

    ghost view = { λ t. map (rows_by_places t.prefixes.items t.places.items) t.routers.items };

    ghost invariant = { λ t. ArePlaced t.prefixes.items t.places.items
        × All (AreKept t.places.items) t.routers.items };
}

impl BgpTable {
    // The tables of these prefixes, each with the place of the one that stands for it, and of what each router
    // chooses.
    pub(crate) fn of(prefixes: Vec<Prefix>, places: Vec<usize>, routers: Vec<Choices>) -> BgpTable
        requires placed { ArePlaced prefixes.items places.items }
        requires kept { All (AreKept places.items) routers.items }
        ensures { result ≡ map (rows_by_places prefixes.items places.items) routers.items }
    {
        BgpTable {
            prefixes,
            places,
            routers,
        }
    }

    // What a router chooses of all prefixes.
    fn spread(&self, router: RouterId) -> Spread<'_>
        requires { router.0 < length self.now }
        ensures rows { rows_in result ≡ slice_index_or self.now router.0 [] }
        ensures spread { IsSpread result }
    {
        let choices = &self.routers[router.0 as usize];
        Spread {
            prefixes: &self.prefixes,
            places: &self.places,
            own: &choices.own,
            standing: &choices.standing,
        }
    }

    /// How many routers the tables have rows of; those of each are as the rows of a router are.
    pub fn count(&self) -> usize
        ensures count { result ≡ length self.now }
        ensures valid { All AreBgpRows self.now }
    {
        self.routers.len()
    }

    /// The rows of a router, which has a number below that of the routers.
    pub fn rows(&self, router: RouterId) -> RouterRows<'_>
        requires { router.0 < length self.now }
        ensures rows { result ≡ slice_index_or self.now router.0 [] }
        ensures valid { AreBgpRows result }
    {
        RouterRows::of(self.spread(router))
    }

    /// The chosen candidates of a prefix at a router, which has a number below that of the routers; `None` where
    /// the prefix has no row there. Takes two binary searches and no memory.
    pub fn chosen(&self, router: RouterId, prefix: Prefix) -> Option<ChosenRow<'_>>
        requires { router.0 < length self.now }
        ensures chosen { option_map_or (λ row. (row_view row).chosen) result []
            ≡ chosen_in (slice_index_or self.now router.0 []) prefix }
        ensures prefix { IfSome result (λ row. row.prefix.now ≡ prefix) }
        ensures some { IfSome result (λ row. 0 < length (row_view row).chosen) }
        ensures few { IfSome result (λ row. length (row_view row).chosen ≤ MULTIPATH_LIMIT) }
    {
        row_of(self.spread(router), prefix)
    }

    /// Whether a router, which has a number below that of the routers, has chosen candidates of a longer
    /// prefix inside another. Takes no memory, and goes over the prefixes inside up to the first of which something
    /// is chosen.
    pub fn has_longer(&self, router: RouterId, outer: Prefix) -> bool
        requires { router.0 < length self.now }
        ensures { result ≡ has_longer (slice_index_or self.now router.0 []) outer }
    {
        let mut inside = self.rows(router).inside(outer);
        inside.next_row().is_some()
    }
}
