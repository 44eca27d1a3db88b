//! The best of the candidates of a prefix, found as they come: none is kept but the best so far.

ghost use Rattle.std.specs.Prelude.{◌≡◌, ◌<◌, ◌^◌, MatchOption, IfSome, Some, false, length, true};
ghost use Rattle.std.specs.Ordering.{is_gt};
ghost use Rattle.std.specs.Option.{option_map_or};
ghost use Rattle.nc_tables.specs.Choice.{preference_cmp};
ghost use Rattle.nc_tables.specs.LocRibs.{IsNumbered};
ghost use Rattle.nc_tables.specs.Rounds.{entry_at, made_from};
ghost use Rattle.nc_sessions.specs.Views.{link_view};
ghost use Rattle.nc_decision.specs.BestPath.{best_among, best_from, best_with, better_of, stays_beside, IsOutranked};
ghost use Rattle.nc_decision.specs.SessionMaps.{highest_from_outside};
ghost use Rattle.nc_message.specs.Inputs.{AreRoutingInputs, IsOf};
ghost use Rattle.nc_decision.specs.Peerings.{ArePeerings, IsPeering};

use crate::best_path::is_outranked;
use crate::feasible::{FeasibleRoute, feasible_over};
use crate::peerings::{Peering, Peerings};
use crate::rows::best_of;
use nc_message::RoutingInputs;
use nc_select::preference_cmp;
use nc_tables::{LocRibs, Numbered, RibEntry};
use nc_types::{Process, RouterId};

// Whether the best so far beats what may be learnt over a session of the peer's candidate, whatever the
// maps on its way: then no map runs.
fn is_outranked_by(best: &Option<FeasibleRoute<'_>>, peering: &Peering<'_>, sent: &RibEntry) -> bool
    requires highest { peering.now.highest
        ≡ highest_from_outside (link_view peering.now.adjacency.link) }
    requires bare { IfSome peering.now.bare
        (λ b. peering.now.adjacency.link.session.internal ≡ false) }
    ensures { result ≡ true → MatchOption best.now (false ≡ true)
        (λ b. IsOutranked b (link_view peering.now.adjacency.link) sent.now) }
{
    match best {
        Some(standing) => is_outranked(standing, peering, sent),
        None => false,
    }
}

// Whether the best so far is preferred to another route.
fn is_preferred_to(best: &Option<FeasibleRoute<'_>>, route: &FeasibleRoute<'_>) -> bool
    ensures { result ≡ option_map_or (λ b. is_gt (preference_cmp route.now b)) best.now false }
{
    match best {
        Some(standing) => preference_cmp(route, standing).is_gt(),
        None => false,
    }
}

// Whether the best so far stays beside what may have been found: nothing was, or the best is preferred.
fn stays(best: &Option<FeasibleRoute<'_>>, found: &Option<FeasibleRoute<'_>>) -> bool
    ensures { result ≡ stays_beside found.now best.now }
{
    match found {
        None => true,
        Some(route) => is_preferred_to(best, route),
    }
}

// Takes what a router learns over a session, unless the best so far is preferred.
fn prefer<'a>(
    best: &mut Option<FeasibleRoute<'a>>,
    inputs: &RoutingInputs<'a>,
    ribs: &'a LocRibs,
    router: RouterId,
    peering: &'a Peering<'a>,
    of: &Numbered,
)
    requires inputs { AreRoutingInputs inputs.now }
    requires ribs { length ribs.now.rows ≡ length inputs.now.network.now }
    requires number { IsNumbered ribs.now.prefixes of.now }
    requires peering { IsPeering inputs.now.network.now inputs.now.base.now
        inputs.now.sessions.now router.0 peering.now }
    ensures best { best.new ≡ best_with (entry_at inputs.now.network.now inputs.now.base.now
        inputs.now.sessions.now ribs.now.rows router.0 peering.now.place of.now.prefix) best.old }
    ensures own { IfSome best.old (IsOf of.now.prefix) → IfSome best.new (IsOf of.now.prefix) }
{
    let Some(sent) = best_of(ribs, peering.peer, *of) else {
        return;
    };
    if is_outranked_by(&*best, peering, sent) {
        return;
    }
    let found = feasible_over(inputs, router, peering, sent, of.number);
    if stays(&*best, &found) {
        return;
    }
    *best = found;
}

// Takes what a router learns by the neighbor statement at a place, unless the best so far is
// preferred.
fn prefer_at<'a>(
    best: &mut Option<FeasibleRoute<'a>>,
    inputs: &RoutingInputs<'a>,
    peerings: &'a Peerings<'a>,
    ribs: &'a LocRibs,
    router: RouterId,
    place: usize,
    of: &Numbered,
)
    requires inputs { AreRoutingInputs inputs.now }
    requires peerings { ArePeerings inputs.now.network.now inputs.now.base.now
        inputs.now.sessions.now router.0 peerings.now }
    requires ribs { length ribs.now.rows ≡ length inputs.now.network.now }
    requires place { place < length peerings.now.sessions }
    requires number { IsNumbered ribs.now.prefixes of.now }
    ensures best { best.new ≡ best_with (entry_at inputs.now.network.now inputs.now.base.now
        inputs.now.sessions.now ribs.now.rows router.0 place of.now.prefix) best.old }
    ensures own { IfSome best.old (IsOf of.now.prefix) → IfSome best.new (IsOf of.now.prefix) }
{
    let Some(peering) = peerings.at(place) else {
        return;
    };
    prefer(best, inputs, ribs, router, peering, of);
}

/// The best of what a router learns of a prefix by the neighbor statements of its process.
pub(crate) fn best_learnt<'a>(
    inputs: &RoutingInputs<'a>,
    peerings: &'a Peerings<'a>,
    ribs: &'a LocRibs,
    router: RouterId,
    process: &Process,
    of: &Numbered,
) -> Option<FeasibleRoute<'a>>
    requires inputs { AreRoutingInputs inputs.now }
    requires peerings { ArePeerings inputs.now.network.now inputs.now.base.now
        inputs.now.sessions.now router.0 peerings.now }
    requires all { length peerings.now.sessions ≡ length process.now.neighbors.items }
    requires ribs { length ribs.now.rows ≡ length inputs.now.network.now }
    requires number { IsNumbered ribs.now.prefixes of.now }
    requires few { length process.now.neighbors.items < 2 ^ 32 }
    ensures best { result ≡ best_among (made_from (λ place n. entry_at inputs.now.network.now
        inputs.now.base.now inputs.now.sessions.now ribs.now.rows router.0 place of.now.prefix) 0
        process.now.neighbors.items) }
    ensures own { IfSome result (IsOf of.now.prefix) }
{
    let mut best = None;
    let mut place = peerings.count();
    'neighbors: while place > 0 {
        place -= 1;
        prefer_at(&mut best, inputs, peerings, ribs, router, place, of);
    }
    best
}

// Takes a candidate, unless the best of those behind it is preferred.
fn prefer_one<'a>(best: &mut Option<FeasibleRoute<'a>>, route: FeasibleRoute<'a>)
    ensures { best.new ≡ Some (better_of route.entry best.old) }
{
    if is_preferred_to(&*best, &route) {
        return;
    }
    *best = Some(route);
}

/// Takes each of some candidates, the last first, unless the best of those behind it is preferred.
pub(crate) fn prefer_each<'a>(
    best: &mut Option<FeasibleRoute<'a>>,
    mut routes: Vec<FeasibleRoute<'a>>,
)
    ensures { best.new ≡ best_from routes.entry.items best.old }
{
    'routes: while let Some(route) = routes.pop() {
        prefer_one(best, route);
    }
}
