//! Which clause of a map decides on each of a network's prefixes, for routes without communities. A
//! clause is asked only about the prefixes that lie between the addresses where its prefix lists
//! permit: it matches no other one.

ghost use Rattle.std.specs.Prelude.{◌≡◌, ◌<◌, ◌≤◌, ℕ, All, true, false, nat_lt, length, IfOk, None, Some, slice_get};
ghost use Rattle.std.specs.List.Sorted.{IsNonDecreasingBy};
ghost use Rattle.nc_types.specs.Cidr.{Cidr};
ghost use Rattle.nc_types.specs.Config.{ClauseView, ConfigView, config_view};
ghost use Rattle.nc_types.specs.WellFormed.{IsWellFormed};
ghost use Rattle.nc_tables.specs.Policy.{met, prefix_place};
ghost use Rattle.nc_policy.specs.Best.{AreBest, AreBetter, AreMatching, IsRising};
ghost use Rattle.nc_policy.specs.Indexes.{place_from};
ghost use Rattle.nc_policy.specs.Seen.{IsIndexed};
ghost use Rattle.nc_policy.specs.Spans.{is_outside};
ghost use Rattle.nc_policy.specs.Views.{map_names};

use crate::clauses::{Candidate, better};
use crate::router_index::RouterIndex;
use crate::spans::{Span, everywhere};
use nc_community::Held;
use nc_types::{Prefix, RouterConfig};
use std::alloc::{AllocError, Global};

// The place of the first of some prefixes whose address isn't below a number; behind the last if there
// is none.
fn first_from(prefixes: &[Prefix], low: u64) -> usize
    requires { IsNonDecreasingBy (λ p. p.base) prefixes.now }
    ensures before { (k : ℕ) (p : Cidr) → slice_get prefixes.now k ≡ Some p → k < result
        → nat_lt p.base low ≡ true }
    ensures behind { (k : ℕ) (p : Cidr) → slice_get prefixes.now k ≡ Some p → result ≤ k
        → nat_lt p.base low ≡ false }
    ensures bound { result ≤ length prefixes.now }
{
    prefixes.partition_point(|prefix| u64::from(prefix.addr().0) < low)
}

// The addresses of the clause at a place; all where none are known.
fn span_of(index: &RouterIndex, place: usize) -> Span
    ensures { (config : ConfigView) (k : ClauseView) → IsIndexed config index.now
        → slice_get config.clauses place ≡ Some k → (p : Cidr) → p.base < 4294967296
        → is_outside result p.base ≡ true → met (prefix_place config p) k.lists ≡ None }
{
    match index.spans.get(place) {
        Some(span) => *span,
        None => everywhere(),
    }
}

// For each of some prefixes the better one of the clause at a place and the best one so far.
fn better_each<'a>(
    config: &'a RouterConfig,
    index: &RouterIndex,
    place: usize,
    prefixes: &[Prefix],
    best: &mut Vec<Option<Candidate<'a>>>,
)
    requires indexed { IsIndexed (config_view config.now) index.now }
    requires formed { IsWellFormed (config_view config.now) }
    requires place { place < length config.now.clauses.items }
    requires rising { IsRising prefixes.now }
    requires count { length best.old.items ≡ length prefixes.now }
    requires best { AreMatching (config_view config.now) prefixes.now best.old.items }
    ensures count { length best.new.items ≡ length prefixes.now }
    ensures best { AreMatching (config_view config.now) prefixes.now best.new.items }
    ensures better { (k : ClauseView) → slice_get (config_view config.now).clauses place ≡ Some k
        → AreBetter (config_view config.now) prefixes.now place k best.old.items best.new.items }
{
    let held = Held::none();
    let span = span_of(index, place);
    let first = first_from(prefixes, span.low);
    let end = first_from(prefixes, span.end);
    'prefixes: for number in first..end {
        let found = better(
            config,
            Some(index),
            prefixes[number],
            &held,
            place,
            best[number],
        );
        best[number] = found;
    }
}

// No clause yet, for each of so many prefixes.
fn none_yet<'a>(alloc: Global, count: usize) -> Result<Vec<Option<Candidate<'a>>>, AllocError>
    ensures count { IfOk result (λ best. length best.items ≡ count) }
    ensures none { IfOk result (λ best. All (λ b. b ≡ None) best.items) }
{
    let mut best = Vec::with_capacity(alloc, count)?;
    'prefixes: for _number in 0..count {
        best.push(None)?;
    }
    Ok(best)
}

/// For each of some prefixes, in order, the clause of a map with the least number that matches a route
/// of it without communities. The map's first clause stands at this place.
pub(crate) fn best_of_each<'a>(
    alloc: Global,
    config: &'a RouterConfig,
    index: &RouterIndex,
    name: &[u8],
    first: usize,
    prefixes: &[Prefix],
) -> Result<Vec<Option<Candidate<'a>>>, AllocError>
    requires indexed { IsIndexed (config_view config.now) index.now }
    requires formed { IsWellFormed (config_view config.now) }
    requires first { Some first ≡ place_from name.now 0 (map_names (config_view config.now)) }
    requires rising { IsRising prefixes.now }
    ensures count { IfOk result (λ best. length best.items ≡ length prefixes.now) }
    ensures best { IfOk result (λ best. AreBest (config_view config.now) name.now prefixes.now best.items) }
{
    let mut best = none_yet(alloc, prefixes.len())?;
    let mut next = Some(first);
    'clauses: while let Some(place) = next {
        better_each(config, index, place, prefixes, &mut best);
        next = index.maps.behind(place);
    }
    Ok(best)
}
