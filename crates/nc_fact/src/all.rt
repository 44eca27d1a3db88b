//! The roots: the facts in which it shows what a network does.

ghost use Rattle.std.specs.Prelude.{◌≡◌, ◌≢◌, ◌↔◌, ◌++◌, [], true, All, AllPairs, Contains, IfNone, IfOk, IfSome, OnOk};
ghost use Rattle.nc_tables.specs.SpreadView.{row_view};
ghost use Rattle.nc_tables.specs.State.{StateView, IsState};
ghost use Rattle.nc_policy.specs.Indexes.{ArePolicies};
ghost use Rattle.nc_fact.specs.declared.fact.Fact.{Fact};
ghost use Rattle.nc_message.specs.Inputs.{AreRoutingInputs, IsBetween};
ghost use Rattle.nc_message.specs.Adjacencies.{IsAdjacency};
ghost use Rattle.nc_sessions.specs.Views.{link_view};
ghost use Rattle.nc_fact.specs.Accepting.{accepts, entries_by, AreInputsOf};
ghost use Rattle.nc_fact.specs.Facts.{holds};
ghost use Rattle.nc_fact.specs.Roots.{IsRoot, IsBefore, sessions_at, bgp_rows};
ghost use Rattle.nc_fact.specs.Roots.{row_facts, session_facts, entries_over, entry_facts, roots_of, roots};

use crate::bgp::inputs;
use crate::fact::Fact;
use crate::rows::{has_router, main_rows};
use nc_message::{Adjacencies, Adjacency, RoutingInputs, accepted_over, adjacency_of};
use nc_policy::Policies;
use nc_tables::{ChosenRow, RouterRows, SessionRow, Stable};
use nc_types::RouterId;
use std::alloc::{AllocError, Global};

// The sessions of a router, in order of its neighbor statements; none where there is no such router.
fn sessions_at(state: &Stable, router: RouterId) -> &[SessionRow]
    ensures { result.now ≡ sessions_at state.now router.0 }
{
    if !has_router(state, router) {
        return &[];
    }
    state.sessions().rows(router)
}

// The rows of a router's BGP table, in order of prefix; `None` where there is no such router.
fn bgp_rows(state: &Stable, router: RouterId) -> Option<RouterRows<'_>>
    ensures some { IfSome result (λ rows. rows ≡ bgp_rows state.now router.0) }
    ensures none { IfNone result (bgp_rows state.now router.0 ≡ []) }
{
    if !has_router(state, router) {
        return None;
    }
    Some(state.bgp().rows(router))
}

// Adds the facts of a router's main rows.
fn add_rows(facts: &mut Vec<Fact>, state: &Stable, router: RouterId) -> Result<(), AllocError>
    ensures { OnOk result (facts.new.items ≡ facts.old.items ++ row_facts state.now router.0) }
{
    let count = main_rows(state, router).len();
    'rows: for row in 0..count {
        facts.push(Fact::Main(router, row as u32))?;
    }
    Ok(())
}

// Adds the facts of a router's sessions.
fn add_sessions(facts: &mut Vec<Fact>, state: &Stable, router: RouterId) -> Result<(), AllocError>
    ensures { OnOk result (facts.new.items ≡ facts.old.items ++ session_facts state.now router.0) }
{
    let rows = sessions_at(state, router);
    'rows: for row in rows {
        facts.push(Fact::Session(router, row.neighbor))?;
    }
    Ok(())
}

// Whether a router accepts over a session what its peer has chosen as the best of a row.
fn accepts(
    inputs: &RoutingInputs<'_>,
    router: RouterId,
    adjacency: Adjacency<'_>,
    row: ChosenRow<'_>,
) -> bool
    requires inputs { AreRoutingInputs inputs.now }
    requires between { IsBetween inputs.now.network.now router.0 (link_view adjacency.link) }
    requires sender { IsAdjacency inputs.now.base.now router.0 adjacency }
    ensures { result ≡ accepts inputs.now.base.now router.0 (link_view adjacency.entry.link) (row_view row.entry) }
{
    match row.get(0) {
        Some(best) => accepted_over(inputs, router, adjacency, best).is_some(),
        None => false,
    }
}

// Adds the facts of what a router accepts over a session of which these are the ends. Each prefix of which its peer
// has chosen a route is asked once, and no other.
fn add_entries_by(
    facts: &mut Vec<Fact>,
    inputs: &RoutingInputs<'_>,
    router: RouterId,
    place: u32,
    adjacency: Adjacency<'_>,
    mut rows: RouterRows<'_>,
) -> Result<(), AllocError>
    requires inputs { AreRoutingInputs inputs.now }
    requires between { IsBetween inputs.now.network.now router.0 (link_view adjacency.link) }
    requires sender { IsAdjacency inputs.now.base.now router.0 adjacency }
    ensures { OnOk result (facts.new.items ≡ facts.old.items
        ++ entries_by inputs.now.base.now router.0 place (link_view adjacency.entry.link) rows.entry) }
{
    'rows: while let Some(row) = rows.next_row() {
        if accepts(inputs, router, adjacency, row) {
            facts.push(Fact::Entry(router, place, *row.prefix))?;
        }
    }
    Ok(())
}

// Adds the facts of what a router accepts over one of its sessions.
fn add_entries_over(
    facts: &mut Vec<Fact>,
    state: &Stable,
    inputs: &RoutingInputs<'_>,
    router: RouterId,
    session: &SessionRow,
) -> Result<(), AllocError>
    requires inputs { AreInputsOf state.now inputs.now }
    requires own { Contains (sessions_at state.now router.0) session.now }
    ensures { OnOk result (facts.new.items
        ≡ facts.old.items ++ entries_over state.now router.0 session.now) }
{
    let _valid = state.network();
    let Some(rows) = bgp_rows(state, session.peer) else {
        return Ok(());
    };
    match adjacency_of(inputs, router, session.neighbor) {
        Some(adjacency) => add_entries_by(facts, inputs, router, session.neighbor, adjacency, rows),
        None => Ok(()),
    }
}

// Adds the facts of what a router accepts.
fn add_entries(
    facts: &mut Vec<Fact>,
    state: &Stable,
    inputs: &RoutingInputs<'_>,
    router: RouterId,
) -> Result<(), AllocError>
    requires inputs { AreInputsOf state.now inputs.now }
    ensures { OnOk result (facts.new.items ≡ facts.old.items ++ entry_facts state.now router.0) }
{
    let sessions = sessions_at(state, router);
    'sessions: for session in sessions {
        add_entries_over(facts, state, inputs, router, session)?;
    }
    Ok(())
}

// Adds the roots of a router.
fn add_roots(
    facts: &mut Vec<Fact>,
    state: &Stable,
    inputs: &RoutingInputs<'_>,
    router: RouterId,
) -> Result<(), AllocError>
    requires inputs { AreInputsOf state.now inputs.now }
    ensures { OnOk result (facts.new.items ≡ facts.old.items ++ roots_of state.now router.0) }
{
    add_rows(facts, state, router)?;
    add_sessions(facts, state, router)?;
    add_entries(facts, state, inputs, router)?;
    Ok(())
}

// The roots, router by router.
#[tactic(auto, unfolding(crate::specs::Roots::roots))]
fn roots(alloc: Global, state: &Stable, inputs: &RoutingInputs<'_>) -> Result<Vec<Fact>, AllocError>
    requires inputs { AreInputsOf state.now inputs.now }
    ensures { IfOk result (λ facts. facts.items ≡ roots state.now) }
{
    let mut facts = Vec::new(alloc);
    let count = state.network().routers().len();
    'routers: for router in 0..count {
        add_roots(&mut facts, state, inputs, RouterId(router as u32))?;
    }
    Ok(facts)
}

/// The roots of a network, each once: the facts that hold of main rows, of sessions and of what is accepted. They go
/// by router, and of each router first come the main rows by place, then the sessions by neighbor statement, then
/// what is accepted, by neighbor statement and then by prefix. Of what is accepted those prefixes alone are asked,
/// each once, of which the session's peer has chosen a route. The policies are those of the state's routers.
///
/// # Errors
///
/// Memory that runs out.
pub fn all_facts(
    alloc: Global,
    state: &Stable,
    policies: &Policies,
) -> Result<Vec<Fact>, AllocError>
    requires policies { ArePolicies state.now.routers policies.now }
    ensures facts { IfOk result (λ facts. facts.items ≡ roots state.now) }
    ensures hold { IfOk result (λ facts. All (λ f. holds state.now f ≡ true) facts.items) }
{
    let adjacencies = Adjacencies::new(alloc, state.network(), state.base(), state.sessions())?;
    let inputs = inputs(state, policies, Some(&adjacencies));
    let facts = roots(alloc, state, &inputs)?;
    Ok(facts)
}

/// A fact is among the roots of a state exactly where it is of a main row, of a session or of what is accepted, and
/// holds.
pub fn roots_are_those_that_hold()
    ensures { (s : StateView) → IsState s → (fact : Fact)
        → Contains (roots s) fact ↔ (IsRoot fact × (holds s fact ≡ true)) }
{}

/// The roots of a state stand in their order, and so none stands twice.
pub fn roots_are_in_order()
    ensures order { (s : StateView) → IsState s → AllPairs IsBefore (roots s) }
    ensures once { (s : StateView) → IsState s → AllPairs (λ fact other. fact ≢ other) (roots s) }
{}
