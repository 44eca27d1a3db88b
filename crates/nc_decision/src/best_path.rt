//! What neighbors say now, that may change what is chosen.

ghost use Rattle.std.specs.Prelude.{◌≡◌, ◌<◌, ◌++◌, All, false, filter, length, not, true, IfSome, OnOk};
ghost use Rattle.std.specs.List.{list_any};
ghost use Rattle.std.specs.Option.{option_map, option_map_or};
ghost use Rattle.nc_types.specs.Config.{process_view};
ghost use Rattle.nc_tables.specs.Choice.{is_learnt};
ghost use Rattle.nc_tables.specs.LocRibs.{IsNumbered};
ghost use Rattle.nc_tables.specs.Rounds.{entry_at};
ghost use Rattle.nc_tables.specs.Sessions.{process_of};
ghost use Rattle.nc_sessions.specs.Views.{link_view};
ghost use Rattle.nc_message.specs.Inputs.{AreRoutingInputs};
ghost use Rattle.nc_decision.specs.BestPath.{is_beaten, is_from, leaves_best_path, IsOutranked};
ghost use Rattle.nc_decision.specs.SessionMaps.{highest_from_outside};
ghost use Rattle.nc_decision.specs.Peerings.{ArePeerings, IsPeering, IsPeeringAt};

use crate::compared::Compared;
use crate::feasible::{FeasibleRoute, feasible_over};
use crate::peerings::{Peering, Peerings};
use crate::rows::best_of;
use nc_message::RoutingInputs;
use nc_select::{Candidate, is_equal_to, preference_cmp};
use nc_tables::{BgpFrom, LocRibs, Numbered, RibEntry};
use nc_types::{Process, RouterId};
use std::alloc::AllocError;

// Whether a candidate was learnt by the neighbor statement at a place.
fn is_from(place: u32, from: BgpFrom) -> bool
    ensures { result ≡ is_from place from }
{
    match from {
        BgpFrom::Origin(_) => false,
        BgpFrom::Aggregate(_) => false,
        BgpFrom::Entry(number) => number == place,
    }
}

// Whether one of some candidates was learnt by the neighbor statement at a place.
fn has_from(chosen: &[RibEntry], place: u32) -> bool
    ensures { result ≡ list_any (λ x. is_from place x.from) chosen.now }
{
    chosen
        .iter()
        .any(|candidate| is_from(place, candidate.from()))
}

// Whether a candidate was learnt.
fn is_learnt(from: BgpFrom) -> bool
    ensures { result ≡ is_learnt from }
{
    matches!(from, BgpFrom::Entry(_))
}

/// Whether the best candidate that stands beats what may be learnt over a session of the peer's
/// candidate, whatever the maps on its way: by its path, and by its preference, above which none is
/// accepted over the session.
pub(crate) fn is_outranked<C: Candidate>(best: &C, peering: &Peering<'_>, sent: &RibEntry) -> bool
    requires highest { peering.now.highest
        ≡ highest_from_outside (link_view peering.now.adjacency.link) }
    requires bare { IfSome peering.now.bare
        (λ b. peering.now.adjacency.link.session.internal ≡ false) }
    ensures { result ≡ true
        → IsOutranked (C.candidate_of best.now) (link_view peering.now.adjacency.link) sent.now }
{
    if peering.is_internal() {
        return false;
    }
    if sent.path_length() < best.path_length() {
        return false;
    }
    !is_learnt(best.from()) || best.preference() >= peering.highest
}

// Whether the best candidate beats a feasible route: it is preferred, and the other isn't used
// beside it.
fn is_beaten(process: &Process, best: &RibEntry, feasible: &FeasibleRoute<'_>) -> bool
    ensures { result ≡ is_beaten (process_view process.now) best.now feasible.now }
{
    let best = Compared::Standing(best);
    let feasible = Compared::New(feasible);
    if !preference_cmp(&best, &feasible).is_lt() {
        return false;
    }
    if process.max_paths == 1 {
        return true;
    }
    !is_equal_to(process.relax, &best, &feasible)
}

// Whether what a router learns now of a prefix over a session, if anything, is beaten by the best
// that stands. No map runs where what the peer has chosen tells it at once.
fn cannot_win<'a>(
    inputs: &RoutingInputs<'a>,
    ribs: &'a LocRibs,
    router: RouterId,
    peering: &'a Peering<'a>,
    process: &Process,
    best: &RibEntry,
    of: &Numbered,
) -> bool
    requires inputs { AreRoutingInputs inputs.now }
    requires ribs { length ribs.now.rows ≡ length inputs.now.network.now }
    requires number { IsNumbered ribs.now.prefixes of.now }
    requires peering { IsPeering inputs.now.network.now inputs.now.base.now
        inputs.now.sessions.now router.0 peering.now }
    ensures { result ≡ option_map_or (is_beaten (process_view process.now) best.now)
        (entry_at inputs.now.network.now inputs.now.base.now inputs.now.sessions.now
        ribs.now.rows router.0 peering.now.place of.now.prefix) true }
{
    let Some(sent) = best_of(ribs, peering.peer, *of) else {
        return true;
    };
    if is_outranked(best, peering, sent) {
        return true;
    }
    match feasible_over(inputs, router, peering, sent, of.number) {
        None => true,
        Some(feasible) => is_beaten(process, best, &feasible),
    }
}

// Whether what a router learns now of a prefix by the neighbor statement at a place, whose session
// this is, leaves what its process, which this is, has chosen as it is: something stands chosen,
// nothing of it comes from the neighbor, and the neighbor's message isn't accepted, or the best that
// stands beats what is learnt from it.
fn leaves_best_path(
    inputs: &RoutingInputs<'_>,
    ribs: &LocRibs,
    router: RouterId,
    place: u32,
    process: Option<&Process>,
    peering: Option<&Peering<'_>>,
    of: &Numbered,
) -> bool
    requires inputs { AreRoutingInputs inputs.now }
    requires ribs { length ribs.now.rows ≡ length inputs.now.network.now }
    requires router { router.0 < length inputs.now.network.now }
    requires number { IsNumbered ribs.now.prefixes of.now }
    requires process { option_map (λ p. process_view p.now) process
        ≡ process_of inputs.now.network.now router.0 }
    requires peering { IsPeeringAt inputs.now.network.now inputs.now.base.now
        inputs.now.sessions.now router.0 place (option_map (λ p. p.now) peering) }
    ensures { result ≡ leaves_best_path inputs.now.network.now inputs.now.base.now inputs.now.sessions.now
        ribs.now.rows router.0 place of.now.prefix }
{
    let chosen = ribs.chosen(router, *of);
    let Some(best) = chosen.first() else {
        return false;
    };
    if has_from(chosen, place) {
        return false;
    }
    let Some(process) = process else {
        return false;
    };
    let Some(peering) = peering else {
        return true;
    };
    cannot_win(inputs, ribs, router, peering, process, best, of)
}

/// Adds those of some prefixes of which what a router learns now, by the neighbor statement at a
/// place, may change what stands chosen. It doesn't where nothing that stands comes from the
/// neighbor, and the neighbor's message isn't accepted or the best that stands beats what is learnt
/// from it. Each table has a list for each router of the network, which has the router, and the
/// sessions are those of the router.
///
/// # Errors
///
/// Memory that runs out; no more of it is taken than the list needs.
pub fn add_counting(
    noted: &mut Vec<Numbered>,
    inputs: &RoutingInputs<'_>,
    peerings: &Peerings<'_>,
    ribs: &LocRibs,
    router: RouterId,
    place: u32,
    changed: &[Numbered],
) -> Result<(), AllocError>
    requires inputs { AreRoutingInputs inputs.now }
    requires peerings { ArePeerings inputs.now.network.now inputs.now.base.now
        inputs.now.sessions.now router.0 peerings.now }
    requires ribs { length ribs.now.rows ≡ length inputs.now.network.now }
    requires router { router.0 < length inputs.now.network.now }
    requires numbers { All (IsNumbered ribs.now.prefixes) changed.now }
    ensures { OnOk result (noted.new.items ≡ noted.old.items
        ++ filter (λ n. not (leaves_best_path inputs.now.network.now inputs.now.base.now
        inputs.now.sessions.now ribs.now.rows router.0 place n.prefix)) changed.now) }
{
    let process = peerings.process();
    let peering = peerings.get(place);
    'changed: for of in changed {
        if !leaves_best_path(inputs, ribs, router, place, process, peering, of) {
            noted.push(*of)?;
        }
    }
    Ok(())
}
