//! What follows from a way to the owner of an address.

ghost use Rattle.std.specs.Prelude.{◌≡◌, ◌++◌, ◌&&◌, true, length, nat_eq, take, IfOk, OnOk};
ghost use Rattle.std.specs.List.{list_any};
ghost use Rattle.nc_tables.specs.Reach.{hits, is_hit};
ghost use Rattle.nc_underlay.specs.Kept.{AreKept};
ghost use Rattle.nc_fact.specs.declared.fact.Fact.TheVariants as fact;
ghost use Rattle.nc_fact.specs.Facts.{holds};
ghost use Rattle.nc_rules_route.specs.Parents.{hops_of, parents};

use nc_fact::{Fact, is_hit, leads_to, longest_rows};
use nc_tables::Stable;
use nc_types::{Addr, HOP_LIMIT, RouterId};
use nc_underlay::{DistancesByAddr, own_interface};
use std::alloc::AllocError;

// Whether a packet comes to the owner of an address by a row of the longest prefix that covers it, over at most so many
// hops, by the distances that are kept.
fn leads_on(
    state: &Stable,
    distances: &mut DistancesByAddr,
    router: RouterId,
    addr: Addr,
    row: u32,
    hops: u8,
) -> Result<bool, AllocError>
    requires longest { list_any (nat_eq row) (hits state.now.base router.0 addr.0)
        ≡ is_hit state.now.base router.0 row }
    requires kept { AreKept state.now.routers state.now.base distances.old }
    ensures kept { AreKept state.now.routers state.now.base distances.new }
    ensures leads { IfOk result (λ b. b
        ≡ (is_hit state.now.base router.0 row && holds state.now (fact.Hop router addr row hops))) }
{
    if hops == 0 {
        return Ok(false);
    }
    if HOP_LIMIT < hops {
        return Ok(false);
    }
    if !is_hit(state, router, row) {
        return Ok(false);
    }
    let network = state.network();
    let base = state.base();
    match nc_underlay::leads_to(network, base, router, addr, row as usize) {
        Some((next, _)) => {
            let reaches = distances.reaches(network, base, next, addr, hops - 1)?;
            Ok(reaches)
        }
        None => Ok(false),
    }
}

// Appends the hops by which a packet comes to the owner of an address.
fn push_hops(
    state: &Stable,
    distances: &mut DistancesByAddr,
    router: RouterId,
    addr: Addr,
    hops: u8,
    into: &mut Vec<Fact>,
) -> Result<(), AllocError>
    requires { AreKept state.now.routers state.now.base distances.old }
    ensures distances { AreKept state.now.routers state.now.base distances.new }
    ensures ok { OnOk result (into.new.items
        ≡ into.old.items ++ hops_of state.now router addr hops) }
    ensures kept { take (length into.old.items) into.new.items ≡ into.old.items }
{
    let rows = longest_rows(state, router, addr);
    'rows: for place in rows.from..rows.to {
        let row = place as u32;
        let leads = leads_on(state, distances, router, addr, row, hops)?;
        if leads {
            into.push(Fact::Hop(router, addr, row, hops))?;
        }
    }
    Ok(())
}

/// Appends what a way to the owner of an address follows from: the router's own interface that has the address,
/// or else the hops.
#[tactic(auto, unfolding(crate::specs::Parents::parents))]
pub(crate) fn push_reach(
    state: &Stable,
    distances: &mut DistancesByAddr,
    router: RouterId,
    addr: Addr,
    hops: u8,
    into: &mut Vec<Fact>,
) -> Result<(), AllocError>
    requires { AreKept state.now.routers state.now.base distances.old }
    ensures distances { AreKept state.now.routers state.now.base distances.new }
    ensures ok { OnOk result (into.new.items
        ≡ into.old.items ++ parents state.now (fact.Reach router addr hops)) }
    ensures kept { take (length into.old.items) into.new.items ≡ into.old.items }
{
    match own_interface(state.network(), router, addr) {
        Some(iface) => {
            into.push(Fact::Connected(router, iface))?;
            Ok(())
        }
        None => {
            push_hops(state, distances, router, addr, hops, into)?;
            Ok(())
        }
    }
}

/// Appends what a hop follows from: the row, the interface to which it leads, and the way on from there.
#[tactic(auto, unfolding(crate::specs::Parents::parents))]
pub(crate) fn push_hop(
    state: &Stable,
    router: RouterId,
    addr: Addr,
    row: u32,
    hops: u8,
    into: &mut Vec<Fact>,
) -> Result<(), AllocError>
    requires { holds state.now (fact.Hop router addr row hops) ≡ true }
    ensures ok { OnOk result (into.new.items
        ≡ into.old.items ++ parents state.now (fact.Hop router addr row hops)) }
    ensures kept { take (length into.old.items) into.new.items ≡ into.old.items }
{
    if let Some((next, iface)) = leads_to(state, router, addr, row) {
        let base = Fact::Base(router, row);
        let connected = Fact::Connected(next, iface);
        let onward = Fact::Reach(next, addr, hops.saturating_sub(1));
        into.extend_from_slice(&[base, connected, onward])?;
    }
    Ok(())
}
