//! What a router chooses of a prefix.

ghost use Rattle.std.specs.Prelude.{◌≡◌, ◌+◌, ◌^◌, ◌<◌, ◌≤◌, All, length, option_to_list, slice_get, IfOk, Some};
ghost use Rattle.std.specs.List.{filter_map};
ghost use Rattle.nc_types.specs.Config.{process_view};
ghost use Rattle.nc_types.specs.declared.TheConstants.{MULTIPATH_LIMIT};
ghost use Rattle.nc_types.specs.WellFormed.{IsProcess};
ghost use Rattle.nc_tables.specs.LocRibs.{IsNumbered};
ghost use Rattle.nc_tables.specs.Rounds.{candidates_at, chosen_anew, chosen_by};
ghost use Rattle.nc_tables.specs.Sessions.{process_of};
ghost use Rattle.nc_message.specs.Inputs.{AreRoutingInputs};
ghost use Rattle.nc_decision.specs.Peerings.{ArePeerings};

use crate::best_learnt::{best_learnt, prefer_each};
use crate::candidates::{begun_routes, candidates};
use crate::feasible::FeasibleRoute;
use crate::peerings::Peerings;
use nc_message::RoutingInputs;
use nc_select::choose;
use nc_tables::{LocRibs, Numbered, RecentAttributes, RibEntries, RibEntry};
use nc_types::{Process, RouterId};
use std::alloc::{AllocError, Global};

// The candidates that stand at these places, in the places' order, made in memory.
fn made_at(
    alloc: Global,
    recent: &mut RecentAttributes,
    candidates: &[FeasibleRoute<'_>],
    places: &[u32],
) -> Result<Vec<RibEntry>, AllocError>
    ensures { IfOk result
        (λ made. made.items ≡ filter_map (slice_get candidates.now) places.now) }
{
    let mut made = Vec::with_capacity(alloc, places.len())?;
    'places: for place in places {
        let place = *place as usize;
        if place < candidates.len() {
            let entry = candidates[place].entry(alloc, recent)?;
            made.push(entry)?;
        }
    }
    Ok(made)
}

// The best candidate alone, made in memory, if there is one.
fn alone(
    alloc: Global,
    recent: &mut RecentAttributes,
    best: &Option<FeasibleRoute<'_>>,
) -> Result<RibEntries, AllocError>
    ensures { IfOk result (λ chosen. chosen ≡ option_to_list best.now) }
{
    let Some(best) = best else {
        return Ok(RibEntries::none());
    };
    let entry = best.entry(alloc, recent)?;
    Ok(RibEntries::one(entry))
}

// What a process of a router chooses of a prefix that uses one candidate alone.
fn best_alone<'a>(
    alloc: Global,
    inputs: &RoutingInputs<'a>,
    peerings: &'a Peerings<'a>,
    ribs: &'a LocRibs,
    router: RouterId,
    process: &Process,
    of: &Numbered,
    recent: &mut RecentAttributes,
) -> Result<RibEntries, AllocError>
    requires inputs { AreRoutingInputs inputs.now }
    requires peerings { ArePeerings inputs.now.network.now inputs.now.base.now
        inputs.now.sessions.now router.0 peerings.now }
    requires ribs { length ribs.now.rows ≡ length inputs.now.network.now }
    requires number { IsNumbered ribs.now.prefixes of.now }
    requires router { router.0 < length inputs.now.network.now }
    requires few { length process.now.neighbors.items + (length process.now.networks.items
        + length process.now.aggregates.items) < 2 ^ 32 }
    requires process { process_of inputs.now.network.now router.0
        ≡ Some (process_view process.now) }
    requires formed { IsProcess (process_view process.now) }
    requires single { process.now.max_paths ≡ 1 }
    ensures chosen { IfOk result (λ chosen. chosen ≡ chosen_by (process_view process.now)
        (candidates_at inputs.now.network.now inputs.now.base.now inputs.now.sessions.now
        ribs.now.rows router.0 (process_view process.now) of.now.prefix)) }
    ensures own { IfOk result (λ chosen. All (λ x. x.route.prefix ≡ of.now.prefix) chosen) }
    ensures few { IfOk result (λ chosen. length chosen ≤ MULTIPATH_LIMIT) }
{
    let begun = begun_routes(alloc, inputs, peerings, ribs, router, process, of.prefix)?;
    let mut best = best_learnt(inputs, peerings, ribs, router, process, of);
    prefer_each(&mut best, begun);
    let chosen = alone(alloc, recent, &best)?;
    Ok(chosen)
}

// What a process of a router chooses of a prefix.
fn chosen_by(
    alloc: Global,
    inputs: &RoutingInputs<'_>,
    peerings: &Peerings<'_>,
    ribs: &LocRibs,
    router: RouterId,
    process: &Process,
    of: &Numbered,
    recent: &mut RecentAttributes,
) -> Result<RibEntries, AllocError>
    requires inputs { AreRoutingInputs inputs.now }
    requires peerings { ArePeerings inputs.now.network.now inputs.now.base.now
        inputs.now.sessions.now router.0 peerings.now }
    requires ribs { length ribs.now.rows ≡ length inputs.now.network.now }
    requires number { IsNumbered ribs.now.prefixes of.now }
    requires router { router.0 < length inputs.now.network.now }
    requires few { length process.now.neighbors.items + (length process.now.networks.items
        + length process.now.aggregates.items) < 2 ^ 32 }
    requires process { process_of inputs.now.network.now router.0
        ≡ Some (process_view process.now) }
    requires formed { IsProcess (process_view process.now) }
    ensures chosen { IfOk result (λ chosen. chosen ≡ chosen_by (process_view process.now)
        (candidates_at inputs.now.network.now inputs.now.base.now inputs.now.sessions.now ribs.now.rows
        router.0 (process_view process.now) of.now.prefix)) }
    ensures own { IfOk result (λ chosen. All (λ x. x.route.prefix ≡ of.now.prefix) chosen) }
    ensures few { IfOk result (λ chosen. length chosen ≤ MULTIPATH_LIMIT) }
{
    if peerings.is_single() {
        let chosen = best_alone(alloc, inputs, peerings, ribs, router, process, of, recent)?;
        return Ok(chosen);
    }
    let feasible = candidates(alloc, inputs, peerings, ribs, router, process, of)?;
    let places = choose(alloc, &feasible, process.max_paths, process.relax)?;
    let entries = made_at(alloc, recent, &feasible, &places)?;
    let chosen = RibEntries::of(alloc, entries)?;
    Ok(chosen)
}

/// What a router chooses of a prefix, best first, given what is chosen now: of its networks that
/// have a row in its base ribs, of its aggregates that are active, and of what it learns from its
/// neighbors. Each table has a list for each router of the network, which has the router, and the
/// sessions are those of the router. A route that is the same as a recent one but for its prefix
/// shares what they have in common.
///
/// # Errors
///
/// Memory that runs out.
pub fn chosen_anew(
    alloc: Global,
    inputs: &RoutingInputs<'_>,
    peerings: &Peerings<'_>,
    ribs: &LocRibs,
    router: RouterId,
    of: &Numbered,
    recent: &mut RecentAttributes,
) -> Result<RibEntries, AllocError>
    requires inputs { AreRoutingInputs inputs.now }
    requires peerings { ArePeerings inputs.now.network.now inputs.now.base.now
        inputs.now.sessions.now router.0 peerings.now }
    requires ribs { length ribs.now.rows ≡ length inputs.now.network.now }
    requires number { IsNumbered ribs.now.prefixes of.now }
    requires router { router.0 < length inputs.now.network.now }
    ensures chosen { IfOk result (λ chosen. chosen
        ≡ chosen_anew inputs.now.network.now inputs.now.base.now inputs.now.sessions.now ribs.now.rows
        router.0 of.now.prefix) }
    ensures own { IfOk result (λ chosen. All (λ x. x.route.prefix ≡ of.now.prefix) chosen) }
    ensures few { IfOk result (λ chosen. length chosen ≤ MULTIPATH_LIMIT) }
{
    let _count = inputs.network.element_count();
    let _routers = inputs.network.routers();
    let Some(process) = peerings.process() else {
        return Ok(RibEntries::none());
    };
    let chosen = chosen_by(alloc, inputs, peerings, ribs, router, process, of, recent)?;
    Ok(chosen)
}
