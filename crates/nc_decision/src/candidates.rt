//! All candidates of a prefix at a router: feasible routes that aren't in memory.

ghost use Rattle.std.specs.Prelude.{◌≡◌, ◌≢◌, ◌++◌, ◌+◌, ◌<◌, ◌^◌, [], ◌∷◌, All, length, position};
ghost use Rattle.std.specs.Prelude.{IfOk, IfSome, OnOk, Some, option_to_list, slice_index_or};
ghost use Rattle.std.specs.List.{AllPairs};
ghost use Rattle.nc_types.specs.Config.{process_view};
ghost use Rattle.nc_types.specs.WellFormed.{IsProcess};
ghost use Rattle.nc_tables.specs.Base.{same_prefix};
ghost use Rattle.nc_tables.specs.LocRibs.{IsNumbered};
ghost use Rattle.nc_tables.specs.Rounds.{begun, candidates_at, entry_at, has_longer, made_from};
ghost use Rattle.nc_tables.specs.Sessions.{process_of};
ghost use Rattle.nc_decision.specs.Beginning.{has_base_row, networks_of, aggregates_of};
ghost use Rattle.nc_message.specs.Inputs.{AreRoutingInputs, IsOf};
ghost use Rattle.nc_decision.specs.Peerings.{ArePeerings};

use crate::feasible::{FeasibleRoute, feasible_by};
use crate::peerings::Peerings;
use crate::rows::has_row;
use nc_message::RoutingInputs;
use nc_tables::{BgpFrom, LocRibs, Numbered};
use nc_types::{Neighbor, Prefix, Process, RouterId};
use std::alloc::{AllocError, Global};

// The place of the network of a prefix, by the table of the router. That isn't asked where the sessions tell that there
// is none.
fn network_of(
    inputs: &RoutingInputs<'_>,
    peerings: &Peerings<'_>,
    router: RouterId,
    process: &Process,
    prefix: Prefix,
) -> Option<usize>
    requires inputs { AreRoutingInputs inputs.now }
    requires peerings { ArePeerings inputs.now.network.now inputs.now.base.now
        inputs.now.sessions.now router.0 peerings.now }
    requires router { router.0 < length inputs.now.network.now }
    requires process { process_of inputs.now.network.now router.0
        ≡ Some (process_view process.now) }
    ensures place { result
        ≡ position (λ n. same_prefix n.prefix prefix) process.now.networks.items }
    ensures within { IfSome result (λ place. place < length process.now.networks.items) }
{
    if !peerings.may_have_network(prefix) {
        return None;
    }
    inputs.policies.network_of(inputs.network, router, prefix)
}

// The place of the aggregate of a prefix, by the table of the router. That isn't asked where the router has none.
fn aggregate_of(
    inputs: &RoutingInputs<'_>,
    peerings: &Peerings<'_>,
    router: RouterId,
    process: &Process,
    prefix: Prefix,
) -> Option<usize>
    requires inputs { AreRoutingInputs inputs.now }
    requires peerings { ArePeerings inputs.now.network.now inputs.now.base.now
        inputs.now.sessions.now router.0 peerings.now }
    requires router { router.0 < length inputs.now.network.now }
    requires process { process_of inputs.now.network.now router.0
        ≡ Some (process_view process.now) }
    ensures place { result
        ≡ position (λ a. same_prefix a.prefix prefix) process.now.aggregates.items }
    ensures within { IfSome result (λ place. place < length process.now.aggregates.items) }
{
    if peerings.aggregate_statements().is_empty() {
        return None;
    }
    inputs.policies.aggregate_of(inputs.network, router, prefix)
}

// Adds a candidate that a router itself begins.
fn add_begun(
    candidates: &mut Vec<FeasibleRoute<'_>>,
    prefix: Prefix,
    from: BgpFrom,
) -> Result<(), AllocError>
    ensures { OnOk result (candidates.new.items ≡ candidates.old.items ++ begun prefix from ∷ []) }
{
    candidates.push(FeasibleRoute::begun(prefix, from))?;
    Ok(())
}

// Adds the network of a prefix, where the prefix has a row in the router's base table.
fn add_network(
    candidates: &mut Vec<FeasibleRoute<'_>>,
    inputs: &RoutingInputs<'_>,
    peerings: &Peerings<'_>,
    router: RouterId,
    process: &Process,
    prefix: Prefix,
) -> Result<(), AllocError>
    requires inputs { AreRoutingInputs inputs.now }
    requires peerings { ArePeerings inputs.now.network.now inputs.now.base.now
        inputs.now.sessions.now router.0 peerings.now }
    requires router { router.0 < length inputs.now.network.now }
    requires process { process_of inputs.now.network.now router.0
        ≡ Some (process_view process.now) }
    requires single { AllPairs (λ m n. m.prefix ≢ n.prefix) process.now.networks.items }
    requires few { length process.now.networks.items < 2 ^ 32 }
    ensures { OnOk result (candidates.new.items ≡ candidates.old.items
        ++ networks_of (has_base_row inputs.now.base.now router.0 prefix) prefix
        process.now.networks.items) }
{
    let Some(place) = network_of(inputs, peerings, router, process, prefix) else {
        return Ok(());
    };
    if !has_row(inputs.base, router, prefix) {
        return Ok(());
    }
    add_begun(candidates, prefix, BgpFrom::Origin(place as u32))?;
    Ok(())
}

// Adds the aggregate of a prefix, where it is active: a longer prefix inside has a chosen candidate.
fn add_aggregate(
    candidates: &mut Vec<FeasibleRoute<'_>>,
    inputs: &RoutingInputs<'_>,
    peerings: &Peerings<'_>,
    ribs: &LocRibs,
    router: RouterId,
    process: &Process,
    prefix: Prefix,
) -> Result<(), AllocError>
    requires inputs { AreRoutingInputs inputs.now }
    requires peerings { ArePeerings inputs.now.network.now inputs.now.base.now
        inputs.now.sessions.now router.0 peerings.now }
    requires ribs { length ribs.now.rows ≡ length inputs.now.network.now }
    requires router { router.0 < length inputs.now.network.now }
    requires process { process_of inputs.now.network.now router.0
        ≡ Some (process_view process.now) }
    requires single { AllPairs (λ a b. a.prefix ≢ b.prefix) process.now.aggregates.items }
    requires few { length process.now.aggregates.items < 2 ^ 32 }
    ensures { OnOk result (candidates.new.items ≡ candidates.old.items
        ++ aggregates_of (has_longer (slice_index_or ribs.now.rows router.0 []) prefix) prefix
        process.now.aggregates.items) }
{
    let Some(place) = aggregate_of(inputs, peerings, router, process, prefix) else {
        return Ok(());
    };
    if !ribs.has_longer(router, prefix) {
        return Ok(());
    }
    add_begun(candidates, prefix, BgpFrom::Aggregate(place as u32))?;
    Ok(())
}

// What a router learns of a prefix by the neighbor statement at a place.
fn learnt_at<'a>(
    inputs: &RoutingInputs<'a>,
    peerings: &'a Peerings<'a>,
    ribs: &'a LocRibs,
    router: RouterId,
    place: usize,
    of: &Numbered,
) -> Option<FeasibleRoute<'a>>
    requires inputs { AreRoutingInputs inputs.now }
    requires peerings { ArePeerings inputs.now.network.now inputs.now.base.now
        inputs.now.sessions.now router.0 peerings.now }
    requires ribs { length ribs.now.rows ≡ length inputs.now.network.now }
    requires place { place < length peerings.now.sessions }
    requires number { IsNumbered ribs.now.prefixes of.now }
    ensures feasible { result ≡ entry_at inputs.now.network.now inputs.now.base.now
        inputs.now.sessions.now ribs.now.rows router.0 place of.now.prefix }
    ensures own { IfSome result (IsOf of.now.prefix) }
{
    let peering = peerings.at(place)?;
    feasible_by(inputs, ribs, router, peering, of)
}

// Adds what a router learns of a prefix by the neighbor statement at a place.
fn add_entry<'a>(
    candidates: &mut Vec<FeasibleRoute<'a>>,
    inputs: &RoutingInputs<'a>,
    peerings: &'a Peerings<'a>,
    ribs: &'a LocRibs,
    router: RouterId,
    place: usize,
    of: &Numbered,
) -> Result<(), AllocError>
    requires inputs { AreRoutingInputs inputs.now }
    requires peerings { ArePeerings inputs.now.network.now inputs.now.base.now
        inputs.now.sessions.now router.0 peerings.now }
    requires ribs { length ribs.now.rows ≡ length inputs.now.network.now }
    requires place { place < length peerings.now.sessions }
    requires number { IsNumbered ribs.now.prefixes of.now }
    ensures made { OnOk result (candidates.new.items ≡ candidates.old.items
        ++ option_to_list (entry_at inputs.now.network.now inputs.now.base.now
        inputs.now.sessions.now ribs.now.rows router.0 place of.now.prefix)) }
    ensures own { All (IsOf of.now.prefix) candidates.old.items
        → OnOk result (All (IsOf of.now.prefix) candidates.new.items) }
{
    match learnt_at(inputs, peerings, ribs, router, place, of) {
        Some(feasible) => {
            candidates.push(feasible)?;
            Ok(())
        }
        None => Ok(()),
    }
}

// Adds what a router learns of a prefix by its neighbor statements.
fn add_entries<'a>(
    candidates: &mut Vec<FeasibleRoute<'a>>,
    inputs: &RoutingInputs<'a>,
    peerings: &'a Peerings<'a>,
    ribs: &'a LocRibs,
    router: RouterId,
    neighbors: &[Neighbor],
    of: &Numbered,
) -> Result<(), AllocError>
    requires inputs { AreRoutingInputs inputs.now }
    requires peerings { ArePeerings inputs.now.network.now inputs.now.base.now
        inputs.now.sessions.now router.0 peerings.now }
    requires all { length peerings.now.sessions ≡ length neighbors.now }
    requires ribs { length ribs.now.rows ≡ length inputs.now.network.now }
    requires number { IsNumbered ribs.now.prefixes of.now }
    requires few { length neighbors.now < 2 ^ 32 }
    ensures made { OnOk result (candidates.new.items ≡ candidates.old.items
        ++ made_from (λ place n. entry_at inputs.now.network.now inputs.now.base.now
        inputs.now.sessions.now ribs.now.rows router.0 place of.now.prefix) 0 neighbors.now) }
    ensures own { All (IsOf of.now.prefix) candidates.old.items
        → OnOk result (All (IsOf of.now.prefix) candidates.new.items) }
{
    'neighbors: for place in 0..neighbors.len() {
        add_entry(candidates, inputs, peerings, ribs, router, place, of)?;
    }
    Ok(())
}

/// The candidates of a prefix that a router itself begins: of its networks and of its aggregates.
pub(crate) fn begun_routes<'a>(
    alloc: Global,
    inputs: &RoutingInputs<'a>,
    peerings: &Peerings<'_>,
    ribs: &LocRibs,
    router: RouterId,
    process: &Process,
    prefix: Prefix,
) -> Result<Vec<FeasibleRoute<'a>>, AllocError>
    requires inputs { AreRoutingInputs inputs.now }
    requires peerings { ArePeerings inputs.now.network.now inputs.now.base.now
        inputs.now.sessions.now router.0 peerings.now }
    requires ribs { length ribs.now.rows ≡ length inputs.now.network.now }
    requires router { router.0 < length inputs.now.network.now }
    requires few { length process.now.neighbors.items + (length process.now.networks.items
        + length process.now.aggregates.items) < 2 ^ 32 }
    requires process { process_of inputs.now.network.now router.0
        ≡ Some (process_view process.now) }
    requires formed { IsProcess (process_view process.now) }
    ensures { IfOk result (λ begun. begun.items
        ≡ networks_of (has_base_row inputs.now.base.now router.0 prefix) prefix
        process.now.networks.items
        ++ aggregates_of (has_longer (slice_index_or ribs.now.rows router.0 []) prefix) prefix
        process.now.aggregates.items) }
{
    let mut begun = Vec::new(alloc);
    add_network(&mut begun, inputs, peerings, router, process, prefix)?;
    add_aggregate(&mut begun, inputs, peerings, ribs, router, process, prefix)?;
    Ok(begun)
}

/// All candidates of a prefix at a router: of its networks, of its aggregates, and what it learns.
pub(crate) fn candidates<'a>(
    alloc: Global,
    inputs: &RoutingInputs<'a>,
    peerings: &'a Peerings<'a>,
    ribs: &'a LocRibs,
    router: RouterId,
    process: &Process,
    of: &Numbered,
) -> Result<Vec<FeasibleRoute<'a>>, AllocError>
    requires inputs { AreRoutingInputs inputs.now }
    requires peerings { ArePeerings inputs.now.network.now inputs.now.base.now
        inputs.now.sessions.now router.0 peerings.now }
    requires ribs { length ribs.now.rows ≡ length inputs.now.network.now }
    requires number { IsNumbered ribs.now.prefixes of.now }
    requires router { router.0 < length inputs.now.network.now }
    requires few { length process.now.neighbors.items + (length process.now.networks.items
        + length process.now.aggregates.items) < 2 ^ 32 }
    requires process { process_of inputs.now.network.now router.0
        ≡ Some (process_view process.now) }
    requires formed { IsProcess (process_view process.now) }
    ensures candidates { IfOk result (λ feasible. feasible.items
        ≡ candidates_at inputs.now.network.now inputs.now.base.now inputs.now.sessions.now ribs.now.rows
        router.0 (process_view process.now) of.now.prefix) }
    ensures own { IfOk result (λ feasible. All (IsOf of.now.prefix) feasible.items) }
{
    let neighbors = &process.neighbors;
    let mut feasible = Vec::with_capacity(alloc, neighbors.len())?;
    add_network(&mut feasible, inputs, peerings, router, process, of.prefix)?;
    add_aggregate(
        &mut feasible,
        inputs,
        peerings,
        ribs,
        router,
        process,
        of.prefix,
    )?;
    add_entries(&mut feasible, inputs, peerings, ribs, router, neighbors, of)?;
    Ok(feasible)
}
