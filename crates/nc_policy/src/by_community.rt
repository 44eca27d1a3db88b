//! Which clause of a map decides, found by the communities of a route.

ghost use Rattle.std.specs.Prelude.{◌≡◌, ◌<◌, ℕ, List, All, true, length, nat_eq, slice_get, IfSome, Some};
ghost use Rattle.std.specs.Option.{option_map};
ghost use Rattle.nc_types.specs.Communities.{has};
ghost use Rattle.nc_types.specs.Config.{config_view};
ghost use Rattle.nc_types.specs.WellFormed.{IsWellFormed};
ghost use Rattle.nc_tables.specs.Policy.{deciding};
ghost use Rattle.nc_policy.specs.Views.{asked, candidate_view, map_names, IsCandidate};
ghost use Rattle.nc_policy.specs.Kept.{IsKnown};
ghost use Rattle.nc_policy.specs.Walks.{IsBeaten, IsOfMap};
ghost use Rattle.nc_policy.specs.Seen.{IsIndexed};
ghost use Rattle.nc_policy.specs.declared.askers.Asker.{Asker};

use crate::askers::Askers;
use crate::clauses::{Candidate, better, is_missed};
use crate::kept::{Known, candidate_of};
use crate::router_index::RouterIndex;
use nc_community::Held;
use nc_types::{Prefix, RouterConfig};

// The better one of the clause at a place and the best one before it. One whose prefix lists don't
// permit the prefix isn't asked for its communities.
fn better_within<'a>(
    config: &'a RouterConfig,
    index: Option<&RouterIndex>,
    prefix: Prefix,
    held: &Held,
    place: usize,
    before: Option<Candidate<'a>>,
) -> Option<Candidate<'a>>
    requires indexed { IfSome index (λ x. IsIndexed (config_view config.now) x.now) }
    requires formed { IsWellFormed (config_view config.now) }
    requires place { place < length config.now.clauses.items }
    requires best { IfSome before (IsCandidate (config_view config.now) (asked prefix held.now)) }
    ensures candidate { IfSome result (IsCandidate (config_view config.now) (asked prefix held.now)) }
    ensures named { (name : List ℕ) → slice_get (map_names (config_view config.now)) place ≡ Some name
        → IsOfMap name (option_map candidate_view before.entry)
        → IsOfMap name (option_map candidate_view result) }
    ensures beats { (j : ℕ) → IsBeaten (config_view config.now) (asked prefix held.now)
        (option_map candidate_view before.entry) j
        → IsBeaten (config_view config.now) (asked prefix held.now)
        (option_map candidate_view result) j }
    ensures beaten { IsBeaten (config_view config.now) (asked prefix held.now)
        (option_map candidate_view result) place }
{
    if is_missed(index, place, prefix) {
        return before;
    }
    better(config, index, prefix, held, place, before)
}

// The best one of the clauses that ask for a community and of the one before them.
fn best_asked<'a>(
    config: &'a RouterConfig,
    index: Option<&RouterIndex>,
    askers: &Askers,
    prefix: Prefix,
    held: &Held,
    community: u32,
    before: Option<Candidate<'a>>,
) -> Option<Candidate<'a>>
    requires indexed { IfSome index (λ x. IsIndexed (config_view config.now) x.now) }
    requires formed { IsWellFormed (config_view config.now) }
    requires own { All (λ a. a.place < length config.now.clauses.items) askers.now }
    requires best { IfSome before (IsCandidate (config_view config.now) (asked prefix held.now)) }
    ensures candidate { IfSome result (IsCandidate (config_view config.now) (asked prefix held.now)) }
    ensures named { (name : List ℕ)
        → All (λ a. slice_get (map_names (config_view config.now)) a.place ≡ Some name) askers.now
        → IsOfMap name (option_map candidate_view before.entry)
        → IsOfMap name (option_map candidate_view result) }
    ensures beats { (j : ℕ) → IsBeaten (config_view config.now) (asked prefix held.now)
        (option_map candidate_view before.entry) j
        → IsBeaten (config_view config.now) (asked prefix held.now)
        (option_map candidate_view result) j }
    ensures beaten { (k : ℕ) (a : Asker) → slice_get askers.now k ≡ Some a
        → nat_eq a.community community ≡ true
        → IsBeaten (config_view config.now) (asked prefix held.now)
        (option_map candidate_view result) a.place }
{
    let (from, end) = askers.range(community);
    let mut best = before;
    'askers: for at in from..end {
        best = better_within(config, index, prefix, held, askers.clause(at), best);
    }
    best
}

// The same of all clauses that ask for one of some communities.
fn best_asked_of<'a>(
    config: &'a RouterConfig,
    index: Option<&RouterIndex>,
    askers: &Askers,
    prefix: Prefix,
    held: &Held,
    communities: &[u32],
    before: Option<Candidate<'a>>,
) -> Option<Candidate<'a>>
    requires indexed { IfSome index (λ x. IsIndexed (config_view config.now) x.now) }
    requires formed { IsWellFormed (config_view config.now) }
    requires own { All (λ a. a.place < length config.now.clauses.items) askers.now }
    requires best { IfSome before (IsCandidate (config_view config.now) (asked prefix held.now)) }
    ensures candidate { IfSome result (IsCandidate (config_view config.now) (asked prefix held.now)) }
    ensures named { (name : List ℕ)
        → All (λ a. slice_get (map_names (config_view config.now)) a.place ≡ Some name) askers.now
        → IsOfMap name (option_map candidate_view before.entry)
        → IsOfMap name (option_map candidate_view result) }
    ensures beats { (j : ℕ) → IsBeaten (config_view config.now) (asked prefix held.now)
        (option_map candidate_view before.entry) j
        → IsBeaten (config_view config.now) (asked prefix held.now)
        (option_map candidate_view result) j }
    ensures beaten { (k : ℕ) (a : Asker) → slice_get askers.now k ≡ Some a
        → has a.community communities.now ≡ true
        → IsBeaten (config_view config.now) (asked prefix held.now)
        (option_map candidate_view result) a.place }
{
    let mut best = before;
    'communities: for community in communities {
        best = best_asked(config, index, askers, prefix, held, *community, best);
    }
    best
}

/// The clause of a map with the least number that matches a route of a prefix with communities, by what
/// is known of map and prefix: the one that decides without communities, or one that asks for one of
/// them.
pub(crate) fn decided<'a>(
    config: &'a RouterConfig,
    index: Option<&RouterIndex>,
    map: &[u8],
    known: Known<'_>,
    prefix: Prefix,
    held: &Held,
) -> Option<Candidate<'a>>
    requires indexed { IfSome index (λ x. IsIndexed (config_view config.now) x.now) }
    requires formed { IsWellFormed (config_view config.now) }
    requires known { IsKnown (config_view config.now) map.now prefix known }
    ensures deciding { option_map candidate_view result
        ≡ deciding (config_view config.now) map.now (asked prefix held.now) }
    ensures candidate { IfSome result (IsCandidate (config_view config.now) (asked prefix held.now)) }
{
    let askers = known.askers;
    let (first, added) = held.parts();
    let bare = candidate_of(config, known.decided);
    if askers.are_beyond(first) && askers.are_beyond(added) {
        return bare;
    }
    let best = best_asked_of(config, index, askers, prefix, held, first, bare);
    best_asked_of(config, index, askers, prefix, held, added, best)
}
