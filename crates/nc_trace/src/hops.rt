//! What the fewest hops from each router tell.

ghost use Rattle.std.specs.Prelude.{◌≡◌, ◌≤◌, ℕ, Bool, map, nat_le, slice_get};
ghost use Rattle.std.specs.Option.{option_map};
ghost use Rattle.nc_types.specs.declared.TheConstants.{HOP_LIMIT};
ghost use Rattle.nc_tables.specs.Forwarding.{arrives_by, goes_on};
ghost use Rattle.nc_trace.specs.Views.{alternative_view, outcome_view};
ghost use Rattle.nc_underlay.specs.Distances.{fewest_of, AreFewest};

use crate::alternative::{Alternative, Outcome};
use nc_types::{HOP_LIMIT, RouterId};

/// Whether the number of a router is no greater than these hops.
pub(crate) fn is_within(fewest: &[u8], router: RouterId, hops: u8) -> bool
    requires { hops ≤ HOP_LIMIT }
    ensures { result ≡ nat_le (fewest_of fewest.now router.0) hops }
{
    match fewest.get(router.0 as usize) {
        Some(number) => *number <= hops,
        None => false,
    }
}

/// Whether a packet arrives by a way over at most so many hops, the one by the way counted.
pub(crate) fn leads_on(fewest: &[u8], outcome: Outcome, hops: u8) -> bool
    requires { hops ≤ HOP_LIMIT }
    ensures { (over : ℕ → ℕ → ℕ → Bool) (addr : ℕ) → AreFewest (λ hops router. over hops router addr) fewest.now
        → result ≡ arrives_by (goes_on over addr hops) (outcome_view outcome) }
{
    match outcome {
        Outcome::Deliver => true,
        Outcome::Go(next, _) => hops > 0 && is_within(fewest, next, hops - 1),
        Outcome::Lost => false,
    }
}

/// What comes of a packet by the way at a place; `None` where there is none.
pub(crate) fn outcome_in(ways: &[Alternative], place: usize) -> Option<Outcome>
    ensures { option_map outcome_view result
        ≡ option_map (λ way. way.outcome) (slice_get (map alternative_view ways.now) place) }
{
    let way = ways.get(place)?;
    Some(way.outcome)
}
