//! The stable state of any network.

ghost use Rattle.std.specs.Prelude.{◌≡◌, None, Some, IfOk, IsErrOf};
ghost use Rattle.nc_policy.specs.Indexes.{ArePolicies};
ghost use Rattle.nc_message.specs.Adjacencies.{AreAdjacencies};
ghost use Rattle.nc_tables.specs.Base.{base_tables};
ghost use Rattle.nc_tables.specs.Rounds.{IsStable, IsUnstable};
ghost use Rattle.nc_tables.specs.Sessions.{sessions};
ghost use Rattle.nc_tables.specs.Settling.{settled};

use crate::fault::SettleFault;
use crate::settled_network::SettledNetwork;
use nc_base_rib::base_tables;
use nc_main_rib::main_tables;
use nc_message::Adjacencies;
use nc_policy::Policies;
use nc_round::{RoutingInputs, settle_table};
use nc_sessions::sessions;
use nc_tables::{BaseTables, BgpTable, Sessions, Stable};
use nc_types::Network;
use std::alloc::Global;

// The first BGP table that no round changes, if no more than so many rounds show it.
fn stable_table<'a>(
    alloc: Global,
    network: &'a Network,
    base: &'a BaseTables,
    established: &'a Sessions,
    policies: &'a Policies,
    adjacencies: &'a Adjacencies,
    rounds: u32,
) -> Result<BgpTable, SettleFault>
    requires base { base.now ≡ base_tables network.now }
    requires sessions { established.now ≡ sessions network.now base.now }
    requires policies { ArePolicies network.now policies.now }
    requires adjacencies { AreAdjacencies network.now base.now established.now adjacencies.now }
    ensures stable { IfOk result (IsStable network.now base.now established.now rounds) }
    ensures unstable { IsErrOf result SettleFault.Unstable
        → IsUnstable network.now base.now established.now rounds }
{
    let inputs = RoutingInputs {
        network,
        base,
        sessions: established,
        policies,
        adjacencies: Some(adjacencies),
    };
    let table = settle_table(alloc, inputs, rounds)?;
    match table {
        Some(table) => Ok(table),
        None => Err(SettleFault::Unstable),
    }
}

/// The state in which a network settles within so many rounds of BGP: its base tables, its
/// sessions, the first BGP table that no round changes, and its main tables. The tables of its maps,
/// by which the rounds were made, are handed on with it.
///
/// # Errors
///
/// [`SettleFault::Unstable`] where each of so many rounds changes something; none where the state
/// is found. [`SettleFault::Memory`] where memory runs out.
pub fn settle_network(
    alloc: Global,
    network: Network,
    rounds: u32,
) -> Result<SettledNetwork, SettleFault>
    ensures routers { IfOk result (λ made. made.state.routers ≡ network) }
    ensures settled { IfOk result (λ made. settled rounds network ≡ Some made.state) }
    ensures policies { IfOk result (λ made. ArePolicies network made.policies) }
    ensures unstable { IsErrOf result SettleFault.Unstable → settled rounds network ≡ None }
{
    let base = base_tables(alloc, &network)?;
    let sessions = sessions(alloc, &network, &base)?;
    let policies = Policies::new(alloc, &network)?;
    let adjacencies = Adjacencies::new(alloc, &network, &base, &sessions)?;
    let bgp = stable_table(
        alloc,
        &network,
        &base,
        &sessions,
        &policies,
        &adjacencies,
        rounds,
    )?;
    let _routers = network.routers();
    let _elements = network.element_count();
    let _count = bgp.count();
    let main = main_tables(alloc, &network, &base, &bgp)?;
    let state = Stable::new(network, base, sessions, bgp, main);
    Ok(SettledNetwork { state, policies })
}

/// The state in which a network settles, as [`settle_network`] makes it, without the tables of its
/// maps.
///
/// # Errors
///
/// [`SettleFault::Unstable`] where each of so many rounds changes something; none where the state
/// is found. [`SettleFault::Memory`] where memory runs out.
pub fn settle(alloc: Global, network: Network, rounds: u32) -> Result<Stable, SettleFault>
    ensures routers { IfOk result (λ state. state.routers ≡ network) }
    ensures settled { IfOk result (λ state. settled rounds network ≡ Some state) }
    ensures unstable { IsErrOf result SettleFault.Unstable → settled rounds network ≡ None }
{
    match settle_network(alloc, network, rounds) {
        Ok(made) => Ok(made.state),
        Err(fault) => Err(fault),
    }
}
