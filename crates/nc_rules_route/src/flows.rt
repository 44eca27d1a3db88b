//! What packets follow from that access lists let pass.

ghost use Rattle.std.specs.Prelude.{◌≡◌, ◌++◌, ◌∷◌, length, take, OnOk};
ghost use Rattle.nc_trace.specs.Flow.{IsFlowTo, IsFlowIncluded};
ghost use Rattle.nc_fact.specs.declared.fact.Fact.TheVariants as fact;
ghost use Rattle.nc_rules_route.specs.Parents.{of_passing, parents};

use crate::elements::{filter_element, group_element, push_element};
use crate::paths::count_ways;
use nc_fact::Fact;
use nc_tables::{Passing, Stable};
use nc_trace::FlowTo;
use nc_types::{Addr, IfaceId, RouterId};
use nc_underlay::own_interface;
use std::alloc::AllocError;

// Appends the elements by which an access list of a router lets a packet pass: its filter, and the entry that decides.
fn push_passing(
    state: &Stable,
    router: RouterId,
    passing: Passing,
    into: &mut Vec<Fact>,
) -> Result<(), AllocError>
    ensures ok { OnOk result (into.new.items ≡ into.old.items ++ of_passing state.now router.0 passing) }
    ensures kept { take (length into.old.items) into.new.items ≡ into.old.items }
{
    match passing {
        Passing::Free | Passing::Deny => Ok(()),
        Passing::By { group, entry } => {
            push_element(group_element(state, router, group), into)?;
            push_element(filter_element(state, router, entry), into)
        }
    }
}

/// Appends what it follows from that an interface lets a packet pass: that it is up, and the elements by which its
/// access list does.
pub(crate) fn push_pass(
    state: &Stable,
    router: RouterId,
    iface: IfaceId,
    passing: Passing,
    into: &mut Vec<Fact>,
) -> Result<(), AllocError>
    ensures ok { OnOk result (into.new.items
        ≡ into.old.items ++ fact.Connected router iface ∷ of_passing state.now router.0 passing) }
    ensures kept { take (length into.old.items) into.new.items ≡ into.old.items }
{
    into.push(Fact::Connected(router, iface))?;
    push_passing(state, router, passing, into)
}

/// Appends what follows from any alternative by which a packet is let pass and arrives: the router's own interface
/// that has the address, or else these.
#[tactic(auto, unfolding(crate::specs::Parents::parents))]
pub(crate) fn push_flow(
    state: &Stable,
    flowing: &FlowTo,
    router: RouterId,
    from: Addr,
    to: Addr,
    hops: u8,
    into: &mut Vec<Fact>,
) -> Result<(), AllocError>
    requires flow { IsFlowTo state.now from.0 to.0 flowing.now }
    requires included { IsFlowIncluded state.now flowing.now router.0 }
    ensures ok { OnOk result (into.new.items
        ≡ into.old.items ++ parents state.now (fact.Flow router from to hops)) }
    ensures kept { take (length into.old.items) into.new.items ≡ into.old.items }
{
    if let Some(iface) = own_interface(state.network(), router, to) {
        into.push(Fact::Connected(router, iface))?;
        return Ok(());
    }
    let ways = flowing.ways(router);
    let count = count_ways(state, router, to, ways);
    'ways: for place in 0..count {
        if flowing.arrives_by(router, place as usize, hops) {
            into.push(Fact::FlowStep(hops, router, from, to, place))?;
        }
    }
    Ok(())
}
