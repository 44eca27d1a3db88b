//! The state in which the network settles, the ways of its packets, and the ranks of facts.

use crate::network::network;
use nc_fact::{Fact, rank};
use nc_stable::{SettleFault, settle, settle_network};
use nc_tables::Stable;
use nc_trace::{Alternative, Outcome, alternatives};
use nc_types::{Addr, RouterId};
use std::alloc::{AllocError, Global};

// In how many rounds the network is to settle.
const ROUNDS: u32 = 5;

// The state; `None` where the network doesn't settle.
fn state(alloc: Global) -> Result<Option<Stable>, AllocError> {
    match network(alloc)? {
        Some(network) => Ok(settle(alloc, network, ROUNDS).ok()),
        None => Ok(None),
    }
}

// Whether the state has a main row for each of two connected prefixes and two of the routes to a third.
fn has_four_rows(state: &Stable) -> bool {
    if state.network().routers().len() != 1 {
        return false;
    }
    let _tables = state.main();
    state.main().rows(RouterId(0)).len() == 4
}

/// The network settles in a state with four main rows.
///
/// # Errors
///
/// Memory that runs out.
pub fn settles(alloc: Global) -> Result<bool, AllocError> {
    match state(alloc)? {
        Some(state) => Ok(has_four_rows(&state)),
        None => Ok(false),
    }
}

/// Within no round the network isn't seen to settle.
///
/// # Errors
///
/// Memory that runs out.
pub fn is_unstable(alloc: Global) -> Result<bool, AllocError> {
    match network(alloc)? {
        Some(network) => match settle(alloc, network, 0) {
            Err(SettleFault::Unstable) => Ok(true),
            _ => Ok(false),
        },
        None => Ok(false),
    }
}

// Whether a packet to that third prefix has two ways out, and is lost on both, for no router has either next hop.
fn is_lost_twice(alloc: Global, state: &Stable) -> Result<bool, AllocError> {
    if state.network().routers().len() != 1 {
        return Ok(false);
    }
    let ways = alternatives(alloc, state, RouterId(0), Addr(0x0a09_0101))?;
    let lost = |main: u32| Alternative {
        main,
        base: None,
        outcome: Outcome::Lost,
    };
    Ok(ways.as_slice() == [lost(2), lost(3)].as_slice())
}

/// A packet to the prefix of two routes has two ways out, on both of which it is lost.
///
/// # Errors
///
/// Memory that runs out.
pub fn has_two_ways(alloc: Global) -> Result<bool, AllocError> {
    match state(alloc)? {
        Some(state) => is_lost_twice(alloc, &state),
        None => Ok(false),
    }
}

/// A session has the rank 70.
///
/// # Errors
///
/// Memory that runs out.
pub fn ranks(alloc: Global) -> Result<bool, AllocError> {
    let Some(network) = network(alloc)? else {
        return Ok(false);
    };
    match settle_network(alloc, network, ROUNDS) {
        Ok(settled) => {
            let session = Fact::Session(RouterId(0), 0);
            Ok(rank(&settled.state, &settled.policies, &session) == 70)
        }
        Err(_) => Ok(false),
    }
}
