//! What routers choose of all prefixes, from what they choose of those that stand for them.

ghost use Rattle.std.specs.Prelude.{◌≡◌, ◌<◌, ◌≤◌, ◌++◌, ℕ, [], All, IfOk, OnOk, length, map, slice_index_or};
ghost use Rattle.nc_types.specs.Cidr.{Cidr};
ghost use Rattle.nc_types.specs.declared.TheConstants.{MULTIPATH_LIMIT};
ghost use Rattle.nc_tables.specs.Base.{prefix_cmp};
ghost use Rattle.nc_tables.specs.LocRibs.{row_before, rows_by, Ascend, AreChoices};
ghost use Rattle.nc_tables.specs.Order.{in_order};
ghost use Rattle.nc_tables.specs.Rounds.{bgp_row_view, chosen_at, distinct, AreBgpRows};
ghost use Rattle.nc_message.specs.Inputs.{AreRoutingInputs};
ghost use Rattle.nc_round.specs.Likeness.{moved, network_at, networks_at, AreMade, AreOwnRows, IsLikeness, IsMade, IsSpread};

use crate::likeness::Likeness;
use nc_main_rib::in_order;
use nc_message::RoutingInputs;
use nc_tables::{
    BgpFrom, BgpRow, BgpTable, Chosen, LocRibs, Numbered, RecentAttributes, RibEntries, RibEntry,
    Route,
};
use nc_types::{Communities, Network, NetworkStatement, Prefix, RouterId};
use std::alloc::{AllocError, Global};

// The place of a router's network of a prefix, if it has one.
fn place_of(inputs: &RoutingInputs<'_>, router: RouterId, prefix: Prefix) -> Option<u32>
    requires inputs { AreRoutingInputs inputs.now }
    requires router { router.0 < length inputs.now.network.now }
    ensures { result ≡ network_at inputs.now.network.now router.0 prefix }
{
    let _routers = inputs.network.routers();
    let _count = inputs.network.element_count();
    let place = inputs.policies.network_of(inputs.network, router, prefix)?;
    Some(place as u32)
}

// The same candidate of another prefix, which comes from another statement.
fn moved_to(
    alloc: Global,
    recent: &mut RecentAttributes,
    entry: &RibEntry,
    prefix: Prefix,
    from: BgpFrom,
) -> Result<RibEntry, AllocError>
    ensures { IfOk result (λ made. made
        ≡ record entry.now { route = record entry.now.route { prefix = prefix }; from = from }) }
{
    let numbers = Vec::from_slice(alloc, entry.communities().numbers())?;
    let route = Route {
        prefix,
        path: entry.path().share()?,
        next_hop: entry.next_hop(),
        preference: entry.preference(),
        metric: entry.metric(),
        origin: entry.origin(),
        communities: Communities::of(alloc, numbers)?,
    };
    let chosen = Chosen {
        route,
        from,
        internal: entry.is_internal(),
        sender_id: entry.sender_id(),
        sender: entry.sender(),
    };
    let made = recent.entry(alloc, chosen)?;
    Ok(made)
}

// The same candidate of a router, of another prefix. Where the router begins it, it comes from the
// router's network of that prefix.
fn moved(
    alloc: Global,
    recent: &mut RecentAttributes,
    inputs: &RoutingInputs<'_>,
    router: RouterId,
    entry: &RibEntry,
    prefix: Prefix,
) -> Result<RibEntry, AllocError>
    requires inputs { AreRoutingInputs inputs.now }
    requires router { router.0 < length inputs.now.network.now }
    ensures { IfOk result (λ made. made
        ≡ moved prefix (network_at inputs.now.network.now router.0 prefix) entry.now) }
{
    if let BgpFrom::Origin(own) = entry.from() {
        let place = place_of(inputs, router, prefix).unwrap_or(own);
        let made = moved_to(alloc, recent, entry, prefix, BgpFrom::Origin(place))?;
        return Ok(made);
    }
    let made = entry.of_prefix(prefix)?;
    Ok(made)
}

// The same candidates of a router, of another prefix.
fn moved_each(
    alloc: Global,
    recent: &mut RecentAttributes,
    inputs: &RoutingInputs<'_>,
    router: RouterId,
    chosen: &[RibEntry],
    prefix: Prefix,
) -> Result<Vec<RibEntry>, AllocError>
    requires inputs { AreRoutingInputs inputs.now }
    requires router { router.0 < length inputs.now.network.now }
    ensures { IfOk result (λ entries. entries.items
        ≡ map (moved prefix (network_at inputs.now.network.now router.0 prefix)) chosen.now) }
{
    let mut entries = Vec::with_capacity(alloc, chosen.len())?;
    'entries: for entry in chosen {
        let made = moved(alloc, recent, inputs, router, entry, prefix)?;
        entries.push(made)?;
    }
    Ok(entries)
}

// What a router chooses of another prefix, where it chooses the same. One candidate that is alone takes
// no memory beside its own.
fn moved_chosen(
    alloc: Global,
    recent: &mut RecentAttributes,
    inputs: &RoutingInputs<'_>,
    router: RouterId,
    chosen: &[RibEntry],
    prefix: Prefix,
) -> Result<RibEntries, AllocError>
    requires inputs { AreRoutingInputs inputs.now }
    requires router { router.0 < length inputs.now.network.now }
    ensures { IfOk result (λ entries. entries
        ≡ map (moved prefix (network_at inputs.now.network.now router.0 prefix)) chosen.now) }
{
    if chosen.len() == 1 {
        let made = moved(alloc, recent, inputs, router, &chosen[0], prefix)?;
        return Ok(RibEntries::one(made));
    }
    let entries = moved_each(alloc, recent, inputs, router, chosen, prefix)?;
    let held = RibEntries::of(alloc, entries)?;
    Ok(held)
}

// The network statements of a router; none where it has no BGP process.
fn networks_of(network: &Network, router: RouterId) -> &[NetworkStatement]
    requires { router.0 < length network.now }
    ensures { result.now ≡ networks_at network.now router.0 }
{
    match &network.routers()[router.0 as usize].process {
        Some(process) => &process.networks,
        None => &[],
    }
}

// The prefixes of network statements in order, each once.
fn prefixes_of(alloc: Global, networks: &[NetworkStatement]) -> Result<Vec<Prefix>, AllocError>
    ensures { IfOk result (λ prefixes. prefixes.items
        ≡ in_order prefix_cmp (distinct (map (λ n. n.prefix) networks.now))) }
{
    let mut prefixes = Vec::with_capacity(alloc, networks.len())?;
    'networks: for network in networks {
        prefixes.push(network.prefix)?;
    }
    let sorted = in_order(prefixes)?;
    Ok(sorted)
}

// What a router chooses of a prefix, from what it chooses of the one that stands for it.
fn own_choice(
    alloc: Global,
    recent: &mut RecentAttributes,
    inputs: &RoutingInputs<'_>,
    likeness: &Likeness,
    ribs: &LocRibs,
    router: RouterId,
    prefix: Prefix,
) -> Result<RibEntries, AllocError>
    requires inputs { AreRoutingInputs inputs.now }
    requires likeness { IsLikeness inputs.now.network.now inputs.now.base.now likeness.now }
    requires router { router.0 < length inputs.now.network.now }
    requires ribs { length ribs.now.rows ≡ length inputs.now.network.now }
    requires standing { ribs.now.prefixes ≡ likeness.now.standing.items }
    requires few { (p : Cidr) → length (chosen_at ribs.now.rows router.0 p) ≤ MULTIPATH_LIMIT }
    ensures { IfOk result
        (λ chosen. IsMade inputs.now.network.now likeness.now ribs.now.rows router.0 prefix chosen) }
{
    let Ok(number) = likeness.all.binary_search(&prefix) else {
        return Ok(RibEntries::none());
    };
    let place = likeness.places[number];
    let one = Numbered {
        prefix: likeness.standing[place],
        number: place,
    };
    let chosen = ribs.chosen(router, one);
    let made = moved_chosen(alloc, recent, inputs, router, chosen, prefix)?;
    Ok(made)
}

// The same of each of some prefixes.
fn own_choices(
    alloc: Global,
    recent: &mut RecentAttributes,
    inputs: &RoutingInputs<'_>,
    likeness: &Likeness,
    ribs: &LocRibs,
    router: RouterId,
    prefixes: &[Prefix],
) -> Result<Vec<RibEntries>, AllocError>
    requires inputs { AreRoutingInputs inputs.now }
    requires likeness { IsLikeness inputs.now.network.now inputs.now.base.now likeness.now }
    requires router { router.0 < length inputs.now.network.now }
    requires ribs { length ribs.now.rows ≡ length inputs.now.network.now }
    requires standing { ribs.now.prefixes ≡ likeness.now.standing.items }
    requires few { (p : Cidr) → length (chosen_at ribs.now.rows router.0 p) ≤ MULTIPATH_LIMIT }
    ensures count { IfOk result (λ choices. length choices.items ≡ length prefixes.now) }
    ensures made { IfOk result (λ choices. AreMade inputs.now.network.now likeness.now ribs.now.rows
        router.0 prefixes.now choices.items) }
{
    let mut choices = Vec::with_capacity(alloc, prefixes.len())?;
    'prefixes: for prefix in prefixes {
        choices.push(own_choice(alloc, recent, inputs, likeness, ribs, router, *prefix)?)?;
    }
    Ok(choices)
}

// Adds the row of a prefix, where something is chosen of it.
fn push_row(rows: &mut Vec<BgpRow>, prefix: Prefix, chosen: RibEntries) -> Result<(), AllocError>
    ensures { OnOk result (map bgp_row_view rows.new.items
        ≡ map bgp_row_view rows.old.items ++ row_before prefix chosen []) }
{
    if chosen.is_empty() {
        return Ok(());
    }
    rows.push(BgpRow { prefix, chosen })?;
    Ok(())
}

// The rows of a router that chooses this of each prefix.
fn rows_of(
    alloc: Global,
    prefixes: &[Prefix],
    choices: Vec<RibEntries>,
) -> Result<Vec<BgpRow>, AllocError>
    requires ordered { Ascend prefixes.now }
    requires choices { AreChoices prefixes.now choices.items }
    ensures rows { IfOk result
        (λ rows. map bgp_row_view rows.items ≡ rows_by prefixes.now choices.items) }
    ensures valid { IfOk result (λ rows. AreBgpRows (map bgp_row_view rows.items)) }
{
    let mut rows = Vec::with_capacity(alloc, prefixes.len())?;
    let mut left = choices.into_iter();
    'prefixes: for prefix in prefixes {
        let _len = prefix.len();
        let Some(chosen) = left.next() else {
            break 'prefixes;
        };
        push_row(&mut rows, *prefix, chosen)?;
    }
    Ok(rows)
}

// The rows of the prefixes of which a router has a network, from what it chooses of those that stand for
// them: where it begins such a prefix itself, its own statement stands in the row.
fn own_rows(
    alloc: Global,
    recent: &mut RecentAttributes,
    inputs: &RoutingInputs<'_>,
    likeness: &Likeness,
    ribs: &LocRibs,
    router: RouterId,
) -> Result<Vec<BgpRow>, AllocError>
    requires inputs { AreRoutingInputs inputs.now }
    requires likeness { IsLikeness inputs.now.network.now inputs.now.base.now likeness.now }
    requires router { router.0 < length inputs.now.network.now }
    requires ribs { length ribs.now.rows ≡ length inputs.now.network.now }
    requires standing { ribs.now.prefixes ≡ likeness.now.standing.items }
    requires few { (p : Cidr) → length (chosen_at ribs.now.rows router.0 p) ≤ MULTIPATH_LIMIT }
    ensures valid { IfOk result (λ rows. AreBgpRows (map bgp_row_view rows.items)) }
    ensures own { IfOk result (λ rows. AreOwnRows inputs.now.network.now likeness.now ribs.now.rows
        router.0 (map bgp_row_view rows.items)) }
{
    let prefixes = prefixes_of(alloc, networks_of(inputs.network, router))?;
    let choices = own_choices(alloc, recent, inputs, likeness, ribs, router, &prefixes)?;
    let rows = rows_of(alloc, &prefixes, choices)?;
    Ok(rows)
}

// The same of each router.
fn each_own_rows(
    alloc: Global,
    recent: &mut RecentAttributes,
    inputs: &RoutingInputs<'_>,
    likeness: &Likeness,
    ribs: &LocRibs,
) -> Result<Vec<Vec<BgpRow>>, AllocError>
    requires inputs { AreRoutingInputs inputs.now }
    requires likeness { IsLikeness inputs.now.network.now inputs.now.base.now likeness.now }
    requires ribs { length ribs.now.rows ≡ length inputs.now.network.now }
    requires standing { ribs.now.prefixes ≡ likeness.now.standing.items }
    requires few { (router : ℕ) (p : Cidr) → length (chosen_at ribs.now.rows router p) ≤ MULTIPATH_LIMIT }
    ensures count { IfOk result (λ own. length own.items ≡ length ribs.now.rows) }
    ensures valid { IfOk result
        (λ own. All (λ rows. AreBgpRows (map bgp_row_view rows.items)) own.items) }
    ensures own { IfOk result (λ own. (router : ℕ) → router < length ribs.now.rows
        → AreOwnRows inputs.now.network.now likeness.now ribs.now.rows router
        (slice_index_or (map (λ rows. map bgp_row_view rows.items) own.items) router [])) }
{
    let _routers = inputs.network.routers();
    let count = ribs.count();
    let mut own = Vec::with_capacity(alloc, count)?;
    'routers: for router in 0..count {
        let rows = own_rows(
            alloc,
            recent,
            inputs,
            likeness,
            ribs,
            RouterId(router as u32),
        )?;
        own.push(rows)?;
    }
    Ok(own)
}

/// The table of what routers choose of all prefixes, from what they choose of those that stand for them.
/// Rows are made of those prefixes alone of which a router has a network itself.
///
/// # Errors
///
/// Memory that runs out.
pub(crate) fn expand(
    alloc: Global,
    recent: &mut RecentAttributes,
    inputs: &RoutingInputs<'_>,
    likeness: Likeness,
    ribs: LocRibs,
) -> Result<BgpTable, AllocError>
    requires inputs { AreRoutingInputs inputs.now }
    requires likeness { IsLikeness inputs.now.network.now inputs.now.base.now likeness }
    requires ribs { length ribs.rows ≡ length inputs.now.network.now }
    requires standing { ribs.prefixes ≡ likeness.standing.items }
    requires few { (router : ℕ) (p : Cidr) → length (chosen_at ribs.rows router p) ≤ MULTIPATH_LIMIT }
    ensures { IfOk result
        (λ table. IsSpread inputs.now.network.now likeness ribs.rows table) }
{
    if likeness.all.as_slice() == ribs.prefixes() {
        let table = ribs.into_table(alloc)?;
        return Ok(table);
    }
    let own = each_own_rows(alloc, recent, inputs, &likeness, &ribs)?;
    let table = ribs.spread(alloc, likeness.all, likeness.places, own)?;
    Ok(table)
}
