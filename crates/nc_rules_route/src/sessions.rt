//! What an established BGP session follows from.

ghost use Rattle.std.specs.Prelude.{◌≡◌, ◌++◌, [], length, take, OnOk};
ghost use Rattle.std.specs.Option.{option_map_or};
ghost use Rattle.nc_tables.specs.Sessions.{end_at};
ghost use Rattle.nc_fact.specs.declared.fact.Fact.TheVariants as fact;
ghost use Rattle.nc_rules_route.specs.Parents.{end_elements, parents};

use nc_fact::Fact;
use nc_sessions::{end_at, link_at};
use nc_tables::Stable;
use nc_types::{HOP_LIMIT, RouterId};
use std::alloc::AllocError;

// Appends the elements of the process and of the neighbor statement at a place of a router; nothing where there
// is no such statement or router.
fn push_end(
    state: &Stable,
    router: RouterId,
    place: u32,
    into: &mut Vec<Fact>,
) -> Result<(), AllocError>
    ensures ok { OnOk result (into.new.items ≡ into.old.items
        ++ option_map_or (end_elements state.now router.0) (end_at state.now.routers router.0 place) []) }
    ensures kept { take (length into.old.items) into.new.items ≡ into.old.items }
{
    let network = state.network();
    if let Some(end) = end_at(network, router, place) {
        let process = network.element_id(router, end.process.element);
        let statement = network.element_id(router, end.statement.element);
        into.extend_from_slice(&[Fact::Element(process), Fact::Element(statement)])?;
    }
    Ok(())
}

/// Appends what a session follows from, of the own side and of the peer's in turn: process and neighbor statement,
/// then the interfaces from which it starts, then that each side reaches the other's address.
#[tactic(auto, unfolding(crate::specs::Parents::parents))]
pub(crate) fn push_session(
    state: &Stable,
    router: RouterId,
    place: u32,
    into: &mut Vec<Fact>,
) -> Result<(), AllocError>
    ensures ok { OnOk result (into.new.items
        ≡ into.old.items ++ parents state.now (fact.Session router place)) }
    ensures kept { take (length into.old.items) into.new.items ≡ into.old.items }
{
    if let Some(link) = link_at(state.network(), state.sessions(), router, place) {
        let session = link.session;
        push_end(state, router, place, into)?;
        push_end(state, session.peer, session.peer_neighbor, into)?;
        let source = Fact::Connected(router, session.source);
        let peer_source = Fact::Connected(session.peer, session.peer_source);
        let reach = Fact::Reach(router, link.receiver.statement.addr, HOP_LIMIT);
        let peer_reach = Fact::Reach(session.peer, link.sender.statement.addr, HOP_LIMIT);
        into.extend_from_slice(&[source, peer_source, reach, peer_reach])?;
    }
    Ok(())
}
