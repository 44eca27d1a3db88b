//! What is left of the ways out of a router, where some of its main rows are done.

ghost use Rattle.std.specs.Prelude.{◌≡◌, ◌+◌, ◌^◌, ◌<◌, ◌∷◌, [], MatchOption, filter, length, slice_get};
ghost use Rattle.std.specs.List.{cons_option};
ghost use Rattle.std.specs.Option.{option_map};
ghost use Rattle.nc_tables.specs.Forwarding.{alternatives};
ghost use Rattle.nc_tables.specs.Reach.{is_hit, hits};
ghost use Rattle.nc_tables.specs.Rounds.{chosen_at};
ghost use Rattle.nc_trace.specs.Views.{alternative_view};
ghost use Rattle.nc_trace.specs.Left.{places, ways_at, hit_ways, left_ways, IsLeft};

use crate::alternative::{Alternative, Outcome};
use crate::outcomes::{outcome_of, outcome_toward};
use nc_tables::{MainFrom, Rows, Stable};
use nc_types::{Addr, Prefix, RouterId};
use nc_underlay::is_hit;

/// What is left of the ways out of a router: first those of one BGP row, then those of the main rows behind it.
#[derive(Clone, Copy)]
pub(crate) struct Left {
    /// The BGP row, its next hop, and the base rows toward that which are left.
    main: u32,
    hop: Addr,
    hits: Rows,
    mains: Rows,
}

// The first base row that doesn't discard, among some that stand side by side.
fn next_hit(state: &Stable, router: RouterId, rows: Rows) -> Option<usize>
    ensures { MatchOption result
        (filter (is_hit state.now.base router.0) (places rows) ≡ [])
        (λ place. (place < rows.to) × (filter (is_hit state.now.base router.0) (places rows)
        ≡ place ∷ filter (is_hit state.now.base router.0) (places (record { from = place + 1; to = rows.to })))) }
{
    'rows: for place in rows.from..rows.to {
        if is_hit(state.network(), state.base(), router, place) {
            return Some(place);
        }
    }
    None
}

// The way by the first of the base rows that are left, and what is left then.
fn next_by_hit(state: &Stable, router: RouterId, left: Left) -> Option<(Alternative, Left)>
    requires { IsLeft left }
    ensures { MatchOption result
        (hit_ways state.now router.0 left ≡ [])
        (λ found. IsLeft found.1 × (hit_ways state.now router.0 left
        ≡ alternative_view found.0 ∷ hit_ways state.now router.0 found.1) × (found.1.mains ≡ left.mains)) }
{
    let place = next_hit(state, router, left.hits)?;
    let way = Alternative {
        main: left.main,
        base: Some(place as u32),
        outcome: outcome_toward(state, router, left.hop, place),
    };
    let hits = Rows {
        from: place + 1,
        to: left.hits.to,
    };
    Some((way, Left { hits, ..left }))
}

/// The next hop of a route of a prefix that is chosen at a place.
pub(crate) fn bgp_hop(state: &Stable, router: RouterId, prefix: Prefix, place: u32) -> Option<Addr>
    requires { router.0 < length state.now.routers }
    ensures { option_map (λ a. a.0) result
        ≡ option_map (λ x. x.route.next_hop.0) (slice_get (chosen_at state.now.bgp router.0 prefix) place) }
{
    let chosen = state.bgp().chosen(router, prefix)?.get(place as usize)?;
    Some(chosen.next_hop())
}

// The base rows of the longest prefix that covers an address, those that discard among them.
fn base_rows_toward(state: &Stable, router: RouterId, addr: Addr) -> Rows
    requires { router.0 < length state.now.routers }
    ensures hits { filter (is_hit state.now.base router.0) (places result) ≡ hits state.now.base router.0 addr.0 }
    ensures few { result.to < 2 ^ 32 }
{
    let _count = state.network().element_count();
    state.base().longest(router, addr)
}

// The ways of the first of the main rows that are left: the one that isn't toward a next hop, and those that are.
fn opened(state: &Stable, router: RouterId, addr: Addr, mains: Rows) -> (Option<Alternative>, Left)
    requires router { router.0 < length state.now.routers }
    requires some { mains.from < mains.to }
    requires few { mains.to < 2 ^ 32 }
    ensures ways { ways_at state.now router.0 addr.0 mains.from
        ≡ cons_option (option_map alternative_view result.0) (hit_ways state.now router.0 result.1) }
    ensures left { IsLeft result.1 }
    ensures rest { result.1.mains ≡ record { from = mains.from + 1; to = mains.to } }
{
    let main = mains.from as u32;
    let rest = Left {
        main,
        hop: addr,
        hits: Rows { from: 0, to: 0 },
        mains: Rows {
            from: mains.from + 1,
            to: mains.to,
        },
    };
    let Some(row) = state.main().rows(router).get(mains.from) else {
        return (None, rest);
    };
    let outcome = match row.from {
        MainFrom::Base(place) => outcome_of(state, router, addr, place as usize),
        MainFrom::Discard(_) => Outcome::Lost,
        MainFrom::Bgp(place) => {
            let Some(hop) = bgp_hop(state, router, row.prefix, place) else {
                return (None, rest);
            };
            let hits = base_rows_toward(state, router, hop);
            return (None, Left { hop, hits, ..rest });
        }
    };
    (
        Some(Alternative {
            main,
            base: None,
            outcome,
        }),
        rest,
    )
}

/// What is left at first: all ways out of the router.
pub(crate) fn first_left(state: &Stable, router: RouterId, addr: Addr) -> Left
    requires { router.0 < length state.now.routers }
    ensures ways { left_ways state.now router.0 addr.0 result
        ≡ alternatives state.now.routers state.now.base state.now.bgp state.now.main router.0 addr.0 }
    ensures left { IsLeft result }
{
    Left {
        main: 0,
        hop: addr,
        hits: Rows { from: 0, to: 0 },
        mains: state.main().longest(router, addr),
    }
}

/// The first way that is left, and what is left then.
pub(crate) fn next_way(
    state: &Stable,
    router: RouterId,
    addr: Addr,
    left: Left,
) -> Option<(Alternative, Left)>
    requires router { router.0 < length state.now.routers }
    requires left { IsLeft left }
    ensures { MatchOption result
        (left_ways state.now router.0 addr.0 left ≡ [])
        (λ found. IsLeft found.1 × (left_ways state.now router.0 addr.0 left
        ≡ alternative_view found.0 ∷ left_ways state.now router.0 addr.0 found.1)) }
{
    let mut left = left;
    'rows: while left.mains.from < left.mains.to {
        if let Some(found) = next_by_hit(state, router, left) {
            return Some(found);
        }
        let (way, rest) = opened(state, router, addr, left.mains);
        if let Some(way) = way {
            return Some((way, rest));
        }
        left = rest;
    }
    next_by_hit(state, router, left)
}
