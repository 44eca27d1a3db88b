//! Which clause of a route map decides, and by which entries it matches.

ghost use Rattle.std.specs.Prelude.{ℕ, List, ◌≡◌, ◌<◌, ◌≤◌, ◌+◌, ◌&&◌, length, map, slice_get};
ghost use Rattle.std.specs.Prelude.{true, IfSome, None, Some, if◌then◌else◌};
ghost use Rattle.std.specs.Option.{option_map};
ghost use Rattle.nc_types.specs.Config.{ClauseView, ConfigView, config_view, clause_view};
ghost use Rattle.nc_types.specs.WellFormed.{IsWellFormed};
ghost use Rattle.nc_tables.specs.Policy.{prefix_place, community_place, first_place, met};
ghost use Rattle.nc_tables.specs.Policy.{names_of, is_matching, deciding};
ghost use Rattle.nc_policy.specs.Views.{asked, candidate_view, is_lower, map_names, IsCandidate};
ghost use Rattle.nc_policy.specs.Indexes.{place_from};
ghost use Rattle.nc_policy.specs.Kept.{IsKnown};
ghost use Rattle.nc_policy.specs.Walks.{of_map, rest_of};
ghost use Rattle.nc_policy.specs.Seen.{IsIndexed};

use crate::by_community::decided;
use crate::kept::{Asking, Known};
use crate::lists::{community_place, prefix_place};
use crate::router_index::RouterIndex;
use nc_community::Held;
use nc_tables::{Names, Numbered, Place};
use nc_types::{Clause, Prefix, Reference, RouterConfig};

// The entry of the first prefix list, in order of mention, that permits a prefix.
fn first_prefix_place(
    config: &RouterConfig,
    index: Option<&RouterIndex>,
    prefix: Prefix,
    references: &[Reference],
) -> Option<Place>
    requires indexed { IfSome index (λ x. IsIndexed (config_view config.now) x.now) }
    requires formed { IsWellFormed (config_view config.now) }
    ensures { result ≡ first_place (prefix_place (config_view config.now) prefix) references.now }
{
    'references: for reference in references {
        if let Some(place) = prefix_place(config, index, prefix, reference) {
            return Some(place);
        }
    }
    None
}

// The entry of the first community list, in order of mention, that permits communities.
fn first_community_place(
    config: &RouterConfig,
    index: Option<&RouterIndex>,
    held: &Held,
    references: &[Reference],
) -> Option<Place>
    requires indexed { IfSome index (λ x. IsIndexed (config_view config.now) x.now) }
    requires formed { IsWellFormed (config_view config.now) }
    ensures { result
        ≡ first_place (community_place (config_view config.now) held.now) references.now }
{
    'references: for reference in references {
        if let Some(place) = community_place(config, index, held, reference) {
            return Some(place);
        }
    }
    None
}

// What a clause asks of a prefix, where it is met: the entry that permits, and none where it names
// no prefix list.
fn prefixes_met(
    config: &RouterConfig,
    index: Option<&RouterIndex>,
    prefix: Prefix,
    references: &[Reference],
) -> Option<Option<Place>>
    requires indexed { IfSome index (λ x. IsIndexed (config_view config.now) x.now) }
    requires formed { IsWellFormed (config_view config.now) }
    ensures { result ≡ met (prefix_place (config_view config.now) prefix) references.now }
{
    if references.is_empty() {
        return Some(None);
    }
    let place = first_prefix_place(config, index, prefix, references)?;
    Some(Some(place))
}

// The same of communities.
fn communities_met(
    config: &RouterConfig,
    index: Option<&RouterIndex>,
    held: &Held,
    references: &[Reference],
) -> Option<Option<Place>>
    requires indexed { IfSome index (λ x. IsIndexed (config_view config.now) x.now) }
    requires formed { IsWellFormed (config_view config.now) }
    ensures { result ≡ met (community_place (config_view config.now) held.now) references.now }
{
    if references.is_empty() {
        return Some(None);
    }
    let place = first_community_place(config, index, held, references)?;
    Some(Some(place))
}

// The entries by which a clause matches a route of a prefix with communities; `None` where it doesn't
// match.
fn names_of(
    config: &RouterConfig,
    index: Option<&RouterIndex>,
    prefix: Prefix,
    held: &Held,
    clause: &Clause,
) -> Option<Names>
    requires indexed { IfSome index (λ x. IsIndexed (config_view config.now) x.now) }
    requires formed { IsWellFormed (config_view config.now) }
    ensures { result
        ≡ names_of (config_view config.now) (asked prefix held.now) (clause_view clause.now) }
{
    let entry = prefixes_met(config, index, prefix, &clause.lists)?;
    let community = communities_met(config, index, held, &clause.community_lists)?;
    Some(Names { entry, community })
}

/// A clause that matches a route, with its place among a router's clauses and the entries by which
/// it matches.
#[derive(Clone, Copy)]
pub(crate) struct Candidate<'a> {
    pub(crate) place: usize,
    pub(crate) clause: &'a Clause,
    pub(crate) names: Names,
}

// Whether a clause has a lower number than the best one so far, if there is one.
fn is_lower(clause: &Clause, best: Option<Candidate<'_>>) -> bool
    ensures { result ≡ is_lower (clause_view clause.now) (option_map candidate_view best.entry) }
{
    let Some(best) = best else {
        return true;
    };
    clause.number < best.clause.number
}

// Whether communities have none without which a clause matches no route, as far as the router's table
// says so.
fn is_unheld(index: Option<&RouterIndex>, place: usize, held: &Held) -> bool
    ensures { (config : ConfigView) (k : ClauseView)
        → IfSome index.entry (λ x. IsIndexed config x.now)
        → slice_get config.clauses place ≡ Some k → result ≡ true
        → met (community_place config held.now) k.community_lists ≡ None }
{
    let Some(index) = index else {
        return false;
    };
    match index.guards.get(place) {
        Some(guard) => guard.is_unheld(held),
        None => false,
    }
}

/// The better one of the clause at a place and the best one so far: the clause, where it has a lower
/// number and matches. Its lists are asked last.
pub(crate) fn better<'a>(
    config: &'a RouterConfig,
    index: Option<&RouterIndex>,
    prefix: Prefix,
    held: &Held,
    place: usize,
    best: Option<Candidate<'a>>,
) -> Option<Candidate<'a>>
    requires indexed { IfSome index (λ x. IsIndexed (config_view config.now) x.now) }
    requires formed { IsWellFormed (config_view config.now) }
    requires place { place < length config.now.clauses.items }
    requires best { IfSome best (IsCandidate (config_view config.now) (asked prefix held.now)) }
    ensures better { (k : ClauseView) → slice_get (config_view config.now).clauses place ≡ Some k
        → option_map candidate_view result
        ≡ (if is_lower k (option_map candidate_view best.entry)
        && is_matching (config_view config.now) (asked prefix held.now) k
        then Some (record { place = place; clause = k })
        else option_map candidate_view best.entry) }
    ensures candidate { IfSome result (IsCandidate (config_view config.now) (asked prefix held.now)) }
{
    let clause = &config.clauses[place];
    if !is_lower(clause, best) || is_unheld(index, place, held) {
        return best;
    }
    match names_of(config, index, prefix, held, clause) {
        None => best,
        Some(names) => Some(Candidate {
            place,
            clause,
            names,
        }),
    }
}

// The place of the first clause of a map from a place on.
fn clause_from(clauses: &[Clause], name: &[u8], from: usize) -> Option<usize>
    ensures { result
        ≡ place_from name.now from (map (λ k. k.map_name) (map clause_view clauses.now)) }
{
    'clauses: for place in from..clauses.len() {
        if name == clauses[place].map.bytes() {
            return Some(place);
        }
    }
    None
}

/// The place of the first clause of a map: by the router's table, if there is one.
pub(crate) fn first_clause(
    config: &RouterConfig,
    index: Option<&RouterIndex>,
    map: &[u8],
) -> Option<usize>
    requires indexed { IfSome index (λ x. IsIndexed (config_view config.now) x.now) }
    ensures { result ≡ place_from map.now 0 (map_names (config_view config.now)) }
{
    match index {
        Some(index) => index.maps.place(map),
        None => clause_from(&config.clauses, map, 0),
    }
}

// The place of the next clause of a map behind one of it.
fn clause_behind(
    config: &RouterConfig,
    index: Option<&RouterIndex>,
    map: &[u8],
    place: usize,
) -> Option<usize>
    requires indexed { IfSome index (λ x. IsIndexed (config_view config.now) x.now) }
    requires named { slice_get (map_names (config_view config.now)) place ≡ Some map.now }
    ensures { result ≡ place_from map.now (place + 1) (map_names (config_view config.now)) }
{
    match index {
        Some(index) => index.maps.behind(place),
        None => clause_from(&config.clauses, map, place + 1),
    }
}

// What is known of a map and a prefix, if the router has tables.
fn known<'i>(
    config: &RouterConfig,
    index: Option<&'i RouterIndex>,
    map: &[u8],
    first: Option<usize>,
    of: Numbered,
) -> Option<Known<'i>>
    requires indexed { IfSome index (λ x. IsIndexed (config_view config.now) x.now) }
    requires first { first ≡ place_from map.now 0 (map_names (config_view config.now)) }
    ensures { IfSome result (IsKnown (config_view config.now) map.now of.prefix) }
{
    let index = index?;
    let first = first?;
    let asking = Asking {
        map: first,
        prefix: of.prefix,
    };
    index.kept.get(asking, of.number)
}

/// Whether a prefix lies outside of what the prefix lists of a clause permit, as far as the router's
/// table says so.
pub(crate) fn is_missed(index: Option<&RouterIndex>, place: usize, prefix: Prefix) -> bool
    ensures { (config : ConfigView) (k : ClauseView)
        → IfSome index.entry (λ x. IsIndexed config x.now)
        → slice_get config.clauses place ≡ Some k → result ≡ true
        → met (prefix_place config prefix) k.lists ≡ None }
{
    let Some(index) = index else {
        return false;
    };
    match index.spans.get(place) {
        Some(span) => span.misses(prefix.addr()),
        None => false,
    }
}

// The next clause of a map, from one of it on, whose prefix lists may permit a prefix, as far as the
// router's table says so.
fn possible_from(
    config: &RouterConfig,
    index: Option<&RouterIndex>,
    map: &[u8],
    prefix: Prefix,
    from: Option<usize>,
) -> Option<usize>
    requires indexed { IfSome index (λ x. IsIndexed (config_view config.now) x.now) }
    requires named { IfSome from
        (λ k. slice_get (map_names (config_view config.now)) k ≡ Some map.now) }
    ensures named { IfSome result
        (λ k. slice_get (map_names (config_view config.now)) k ≡ Some map.now) }
    ensures rest { (held : List ℕ) → rest_of (of_map map.now
        (λ k. is_matching (config_view config.now) (asked prefix held) k.clause))
        (config_view config.now).clauses result
        ≡ rest_of (of_map map.now
        (λ k. is_matching (config_view config.now) (asked prefix held) k.clause))
        (config_view config.now).clauses from }
    ensures behind { (least : ℕ) → IfSome from (λ k. least ≤ k) → IfSome result (λ k. least ≤ k) }
{
    let mut next = from;
    'clauses: while let Some(place) = next {
        if !is_missed(index, place, prefix) {
            return next;
        }
        next = clause_behind(config, index, map, place);
    }
    next
}

// The clause of a map with the least number that matches a route of a prefix with communities. The
// lists of a clause whose number isn't lower than that of a matching one before it aren't asked.
pub(crate) fn scanned<'a>(
    config: &'a RouterConfig,
    index: Option<&RouterIndex>,
    map: &[u8],
    first: Option<usize>,
    prefix: Prefix,
    held: &Held,
) -> Option<Candidate<'a>>
    requires indexed { IfSome index (λ x. IsIndexed (config_view config.now) x.now) }
    requires first { first ≡ place_from map.now 0 (map_names (config_view config.now)) }
    requires formed { IsWellFormed (config_view config.now) }
    ensures deciding { option_map candidate_view result
        ≡ deciding (config_view config.now) map.now (asked prefix held.now) }
    ensures candidate { IfSome result (IsCandidate (config_view config.now) (asked prefix held.now)) }
{
    let mut best = None;
    let mut next = possible_from(config, index, map, prefix, first);
    'clauses: while let Some(place) = next {
        best = better(config, index, prefix, held, place, best);
        let behind = clause_behind(config, index, map, place);
        next = possible_from(config, index, map, prefix, behind);
    }
    best
}

/// The clause of a map with the least number that matches a route of a prefix with communities: the
/// one that is kept, if the router's table has one, else found by going over the clauses. The map's
/// first clause stands at this place; `None` where it has none. What is kept is looked for at the
/// prefix's number first.
pub(crate) fn deciding<'a>(
    config: &'a RouterConfig,
    index: Option<&RouterIndex>,
    map: &[u8],
    first: Option<usize>,
    of: Numbered,
    held: &Held,
) -> Option<Candidate<'a>>
    requires indexed { IfSome index (λ x. IsIndexed (config_view config.now) x.now) }
    requires first { first ≡ place_from map.now 0 (map_names (config_view config.now)) }
    requires formed { IsWellFormed (config_view config.now) }
    ensures deciding { option_map candidate_view result
        ≡ deciding (config_view config.now) map.now (asked of.prefix held.now) }
    ensures candidate { IfSome result (IsCandidate (config_view config.now) (asked of.prefix held.now)) }
{
    let prefix = of.prefix;
    match known(config, index, map, first, of) {
        Some(known) => decided(config, index, map, known, prefix, held),
        None => scanned(config, index, map, first, prefix, held),
    }
}
