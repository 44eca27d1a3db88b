//! Which rows may come from rows that changed, so that they are woken.

ghost use Rattle.std.specs.Prelude.{◌≡◌, ◌↔◌, ◌+◌, ◌<◌, ◌∷◌, ◌++◌, ℕ, [], All, AllPairs, Contains, List, filter, length, map, IfOk, OnOk};
ghost use Rattle.std.specs.List.{flat_map, list_any};
ghost use Rattle.nc_types.specs.Cidr.{Cidr};
ghost use Rattle.nc_types.specs.Config.{config_view};
ghost use Rattle.nc_tables.specs.LocRibs.{Ascend, IsNumbered};
ghost use Rattle.nc_tables.specs.Rounds.{is_longer_in, prefixes_in};
ghost use Rattle.nc_message.specs.Inputs.{AreRoutingInputs};
ghost use Rattle.nc_decision.specs.Peerings.{AreNetworkPeerings, ArePeerings};
ghost use Rattle.nc_round.specs.Keys.{Key, AreInOrder};
ghost use Rattle.nc_round.specs.Rows.{listed, numbered_row, prefixes_of, row_key, AreListed};
ghost use Rattle.nc_round.specs.Waking.{begun_from, affected_over, woken_at, AreWoken, HaveAggregates};

use crate::by_router::ByRouter;
use crate::changed::NumberedRow;
use nc_decision::{NetworkPeerings, Peerings, add_counting};
use nc_message::RoutingInputs;
use nc_tables::{LocRibs, Numbered, SessionRow, is_longer_in};
use nc_types::{AggregateStatement, Network, NetworkStatement, Prefix, RouterConfig, RouterId};
use std::alloc::{AllocError, Global};

// Adds the prefixes that changed at the peers of a router's sessions, where what it learns of them
// now may count.
fn add_affected(
    noted: &mut Vec<Numbered>,
    inputs: &RoutingInputs<'_>,
    peerings: &Peerings<'_>,
    ribs: &LocRibs,
    router: RouterId,
    rows: &[SessionRow],
    lists: &ByRouter,
) -> Result<(), AllocError>
    requires inputs { AreRoutingInputs inputs.now }
    requires peerings { ArePeerings inputs.now.network.now inputs.now.base.now
        inputs.now.sessions.now router.0 peerings.now }
    requires ribs { length ribs.now.rows ≡ length inputs.now.network.now }
    requires numbers { AreListed ribs.now.prefixes lists.now }
    requires router { router.0 < length inputs.now.network.now }
    requires noted { All (IsNumbered ribs.now.prefixes) noted.old.items }
    ensures prefixes { OnOk result (prefixes_of noted.new.items ≡ prefixes_of noted.old.items
        ++ flat_map (affected_over inputs.now ribs.now.rows (listed lists.now) router.0)
        rows.now) }
    ensures numbers { OnOk result (All (IsNumbered ribs.now.prefixes) noted.new.items) }
{
    'rows: for row in rows {
        let changed = lists.changed_at(row.peer);
        add_counting(noted, inputs, peerings, ribs, router, row.neighbor, changed)?;
    }
    Ok(())
}

// Whether one of some prefixes is a longer one inside another.
fn has_inside(changed: &[Numbered], outer: Prefix) -> bool
    ensures { result ≡ list_any (λ n. is_longer_in n.prefix outer) changed.now }
{
    changed.iter().any(|of| is_longer_in(of.prefix, outer))
}

// Adds a prefix under its number.
fn add_numbered(noted: &mut Vec<Numbered>, ribs: &LocRibs, prefix: Prefix) -> Result<(), AllocError>
    requires known { Contains ribs.now.prefixes prefix }
    requires noted { All (IsNumbered ribs.now.prefixes) noted.old.items }
    ensures prefixes { OnOk result
        (prefixes_of noted.new.items ≡ prefixes_of noted.old.items ++ prefix ∷ []) }
    ensures numbers { OnOk result (All (IsNumbered ribs.now.prefixes) noted.new.items) }
{
    let Some(of) = ribs.numbered(prefix) else {
        return Ok(());
    };
    noted.push(of)?;
    Ok(())
}

// Adds the prefixes of the aggregates around what changed at a router itself.
fn add_around(
    noted: &mut Vec<Numbered>,
    ribs: &LocRibs,
    aggregates: &[AggregateStatement],
    changed: &[Numbered],
) -> Result<(), AllocError>
    requires known { All (λ a. Contains ribs.now.prefixes a.prefix) aggregates.now }
    requires noted { All (IsNumbered ribs.now.prefixes) noted.old.items }
    ensures prefixes { OnOk result (prefixes_of noted.new.items ≡ prefixes_of noted.old.items
        ++ map (λ a. a.prefix) (filter (λ a. list_any (λ q. is_longer_in q a.prefix)
        (prefixes_of changed.now)) aggregates.now)) }
    ensures numbers { OnOk result (All (IsNumbered ribs.now.prefixes) noted.new.items) }
{
    'aggregates: for aggregate in aggregates {
        if has_inside(changed, aggregate.prefix) {
            add_numbered(noted, ribs, aggregate.prefix)?;
        }
    }
    Ok(())
}

// Puts numbered prefixes in order, each once.
fn keep_once(noted: &mut Vec<Numbered>)
    ensures ordered { AllPairs (λ a b. a.number < b.number) noted.new.items }
    ensures kept { (prefixes : List Cidr) → All (IsNumbered prefixes) noted.old.items
        → (n : Numbered) → Contains noted.old.items n → Contains noted.new.items n }
    ensures numbers { (prefixes : List Cidr) → All (IsNumbered prefixes) noted.old.items
        → All (IsNumbered prefixes) noted.new.items }
{
    noted.sort_unstable_by_key(|of| of.number);
    noted.dedup_by_key(|of| of.number);
}

// Wakes the rows of prefixes at a router.
fn wake_each(
    woken: &mut Vec<NumberedRow>,
    router: RouterId,
    noted: &[Numbered],
) -> Result<(), AllocError>
    ensures { OnOk result (woken.new.items
        ≡ woken.old.items ++ map (numbered_row router) noted.now) }
{
    'noted: for of in noted {
        woken.push(NumberedRow { router, of: *of })?;
    }
    Ok(())
}

/// Wakes the rows of a router that may come from rows that changed, given the prefixes of these at
/// each router, and leaves noted of which prefixes they are. The vector for these is used again for
/// the next router.
pub(crate) fn wake(
    woken: &mut Vec<NumberedRow>,
    noted: &mut Vec<Numbered>,
    inputs: &RoutingInputs<'_>,
    all: &NetworkPeerings<'_>,
    ribs: &LocRibs,
    lists: &ByRouter,
    router: RouterId,
) -> Result<(), AllocError>
    requires inputs { AreRoutingInputs inputs.now }
    requires all { AreNetworkPeerings inputs.now.network.now inputs.now.base.now
        inputs.now.sessions.now all.now }
    requires ribs { length ribs.now.rows ≡ length inputs.now.network.now }
    requires ordered { Ascend ribs.now.prefixes }
    requires known { HaveAggregates inputs.now.network.now ribs.now.prefixes }
    requires numbers { AreListed ribs.now.prefixes lists.now }
    requires router { router.0 < length inputs.now.network.now }
    requires woken { AreWoken router.0 ribs.now.prefixes woken.old.items }
    ensures added { OnOk result (woken.new.items
        ≡ woken.old.items ++ map (numbered_row router) noted.new.items) }
    ensures noted { OnOk result (All (IsNumbered ribs.now.prefixes) noted.new.items) }
    ensures kept { OnOk result ((k : Key) → Contains (map row_key woken.old.items) k
        → Contains (map row_key woken.new.items) k) }
    ensures woken { OnOk result ((p : Cidr) → Contains (woken_at inputs.now ribs.now.rows
        (listed lists.now) router.0) p → Contains (map row_key woken.new.items) (router, p)) }
    ensures rows { OnOk result (AreWoken (router.0 + 1) ribs.now.prefixes woken.new.items) }
{
    let peerings = all.get(router);
    let rows = inputs.sessions.rows(router);
    let aggregates = peerings.aggregate_statements();
    noted.clear();
    add_affected(noted, inputs, peerings, ribs, router, rows, lists)?;
    add_around(noted, ribs, aggregates, lists.changed_at(router))?;
    keep_once(noted);
    wake_each(woken, router, noted)?;
    Ok(())
}

// Wakes the rows of the networks of a router.
fn wake_networks(
    woken: &mut Vec<(RouterId, Prefix)>,
    networks: &[NetworkStatement],
    router: RouterId,
) -> Result<(), AllocError>
    ensures { OnOk result (woken.new.items ≡ woken.old.items
        ++ map (λ p. (router, p)) (map (λ n. n.prefix) networks.now)) }
{
    'networks: for network in networks {
        woken.push((router, network.prefix))?;
    }
    Ok(())
}

// Wakes the rows of all aggregates of a router.
fn wake_own_aggregates(
    woken: &mut Vec<(RouterId, Prefix)>,
    aggregates: &[AggregateStatement],
    router: RouterId,
) -> Result<(), AllocError>
    ensures { OnOk result (woken.new.items ≡ woken.old.items
        ++ map (λ p. (router, p)) (map (λ a. a.prefix) aggregates.now)) }
{
    'aggregates: for aggregate in aggregates {
        woken.push((router, aggregate.prefix))?;
    }
    Ok(())
}

// Wakes the rows of the prefixes that a router begins.
fn wake_begun(
    woken: &mut Vec<(RouterId, Prefix)>,
    config: &RouterConfig,
    router: RouterId,
) -> Result<(), AllocError>
    ensures { OnOk result (woken.new.items ≡ woken.old.items
        ++ map (λ p. (router, p)) (prefixes_in (config_view config.now))) }
{
    match &config.process {
        Some(process) => {
            wake_networks(woken, &process.networks, router)?;
            wake_own_aggregates(woken, &process.aggregates, router)?;
            Ok(())
        }
        None => Ok(()),
    }
}

/// The rows of the prefixes that each router begins itself.
pub(crate) fn begun(alloc: Global, network: &Network) -> Result<Vec<(RouterId, Prefix)>, AllocError>
    ensures { IfOk result (λ begun. begun.items ≡ begun_from 0 network.now) }
{
    let mut woken = Vec::new(alloc);
    let routers = network.routers();
    'routers: for router in 0..routers.len() {
        wake_begun(&mut woken, &routers[router], RouterId(router as u32))?;
    }
    Ok(woken)
}

// Rows in order, each once.
fn in_order(mut keys: Vec<(RouterId, Prefix)>) -> Vec<(RouterId, Prefix)>
    ensures ordered { AreInOrder result.items }
    ensures same { (k : Key) → Contains result.items k ↔ Contains keys.items k }
{
    keys.sort_unstable();
    keys.dedup();
    keys
}

/// The rows of the prefixes that each router begins itself, in order, each once.
pub(crate) fn begun_in_order(
    alloc: Global,
    network: &Network,
) -> Result<Vec<(RouterId, Prefix)>, AllocError>
    ensures ordered { IfOk result (λ keys. AreInOrder keys.items) }
    ensures same { IfOk result (λ keys. (k : Key) → Contains keys.items k
        ↔ Contains (begun_from 0 network.now) k) }
{
    let keys = begun(alloc, network)?;
    Ok(in_order(keys))
}
