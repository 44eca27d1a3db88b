//! Dead elements: those that no test of a route, of an accepted route or of a session could mark, but for those of
//! access lists.

ghost use Rattle.std.specs.Prelude.{◌≡◌, ◌++◌, List, true, not, is_some, filter, map, All, IfOk, OnOk};
ghost use Rattle.std.specs.Option.{ForSome};
ghost use Rattle.std.specs.List.{flat_map};
ghost use Rattle.nc_fact.specs.Roots.{roots};
ghost use Rattle.nc_graph.specs.Closure.{IsClosure};
ghost use Rattle.nc_graph.specs.Nodes.{Mirrors, no_nodes};
ghost use Rattle.nc_engine.specs.Limits.{most_facts};
ghost use Rattle.nc_rules.specs.Rules.{flow_of};
ghost use Rattle.nc_rules.specs.Seen.{state_of, asked_of};
ghost use Rattle.nc_tables.specs.State.{IsState};
ghost use Rattle.nc_engine.specs.DeadElements.{AreDead, is_of_access_lists, is_in_access_list, dead_of};
ghost use Rattle.nc_engine.specs.Engine.{InfersApart, InfersFor};
ghost use Rattle.nc_engine.specs.Questions.{element_text};
ghost use Rattle.nc_command.specs.declared.command.Command.TheVariants.{Dead};
ghost use Rattle.nc_command.specs.Command.{Asks};
ghost use Rattle.nc_engine.specs.Session.{KeptTest};
ghost use Rattle.nc_engine.specs.Work.{IsWork, IsKnownDead, DeadTold, known_text};

use crate::FACT_LIMIT;
use crate::questions::push_element;
use crate::work::{Work, ask};
use nc_fact::{Fact, all_facts, roots_are_those_that_hold};
use nc_graph::fault::GraphFault;
use nc_graph::graph::Graph;
use nc_report::push_line;
use nc_rules::{Rules, rules_make_a_flow};
use nc_suite::dead;
use nc_suite::laws::no_node_is_dead;
use nc_types::{ElementId, Kind, Network};
use std::alloc::{AllocError, Global};

/// What is known of the dead elements of a network.
#[derive(Drop)]
pub(crate) enum DeadElements {
    /// Which they are, ascending.
    Known(Vec<ElementId>),
    /// That more facts stand behind all that a test could be of than may be asked.
    TooMany,
}

// All facts that hold of what a test of a route, of an accepted route or of a session could be of.
fn root_facts(alloc: Global, rules: &Rules) -> Result<Vec<Fact>, AllocError>
    ensures facts { IfOk result (λ facts. facts.items ≡ roots (state_of rules.now)) }
    ensures hold { IfOk result (λ facts. All
        (λ f. (flow_of (state_of rules.now)).holds f ≡ true) facts.items) }
{
    let facts = all_facts(alloc, rules.state(), rules.policies())?;
    Ok(facts)
}

// Whether a kind is one of access lists.
fn is_of_access_lists(kind: Kind) -> bool
    ensures { result ≡ is_of_access_lists kind }
{
    match kind {
        Kind::Filter | Kind::Group => true,
        Kind::Interface
        | Kind::Static
        | Kind::Process
        | Kind::Neighbor
        | Kind::Network
        | Kind::Aggregate
        | Kind::Clause
        | Kind::ListEntry
        | Kind::CommunityEntry => false,
    }
}

// Whether an element is of such a kind.
fn is_in_access_list(network: &Network, element: ElementId) -> bool
    ensures { result ≡ is_in_access_list network.now element.0 }
{
    match network.element(element) {
        Some((_, element)) => is_of_access_lists(element.kind),
        None => false,
    }
}

// Drops the elements of access lists.
fn drop_access_lists(network: &Network, elements: &mut Vec<ElementId>)
    ensures { elements.new.items
        ≡ filter (λ e. not (is_in_access_list network.now e.0)) elements.old.items }
{
    elements.retain(|element| !is_in_access_list(network, *element));
}

// The dead elements, by a graph of all that these facts follow from.
fn dead_in(alloc: Global, rules: &Rules, graph: &Graph<Fact>) -> Result<Vec<ElementId>, AllocError>
    requires state { IsState (state_of rules.now) }
    requires mirrors { Mirrors (flow_of (state_of rules.now)) graph.now }
    requires closure { IsClosure (flow_of (state_of rules.now))
        (roots (state_of rules.now)) graph.now.facts }
    ensures { IfOk result (λ ids. AreDead (state_of rules.now) (map (λ e. e.0) ids.items)) }
{
    rules_make_a_flow();
    roots_are_those_that_hold();
    no_node_is_dead::<Fact>();
    let _facts = graph.len();
    let network = rules.state().network();
    let mut elements = dead(alloc, graph, network.element_count())?;
    drop_access_lists(network, &mut elements);
    Ok(elements)
}

// Finds the dead elements of the rules' network, by these facts, which are the roots, and a graph that is empty.
fn find_dead_from(
    alloc: Global,
    rules: &mut Rules,
    graph: &mut Graph<Fact>,
    facts: &[Fact],
) -> Result<DeadElements, AllocError>
    requires state { IsState (state_of rules.old) }
    requires facts { facts.now ≡ roots (state_of rules.old) }
    requires hold { All (λ f. (flow_of (state_of rules.old)).holds f ≡ true) facts.now }
    requires empty { graph.old ≡ no_nodes most_facts }
    requires mirrors { Mirrors (flow_of (state_of rules.old)) graph.old }
    ensures known { IfOk result (IsKnownDead (state_of rules.old)) }
    ensures state { state_of rules.new ≡ state_of rules.old }
    ensures infers { OnOk result (InfersApart (asked_of rules.old) (asked_of rules.new)) }
{
    match ask(rules, graph, facts) {
        Ok(_nodes) => {}
        Err(GraphFault::Full) => return Ok(DeadElements::TooMany),
        Err(GraphFault::Memory) => return Err(AllocError),
    }
    let elements = dead_in(alloc, rules, graph)?;
    Ok(DeadElements::Known(elements))
}

// Finds the dead elements of the rules' network, by a graph of its own.
fn find_dead(alloc: Global, rules: &mut Rules) -> Result<DeadElements, AllocError>
    requires { IsState (state_of rules.old) }
    ensures known { IfOk result (IsKnownDead (state_of rules.old)) }
    ensures state { state_of rules.new ≡ state_of rules.old }
    ensures infers { OnOk result (InfersApart (asked_of rules.old) (asked_of rules.new)) }
{
    let facts = root_facts(alloc, rules)?;
    let mut graph = Graph::new(alloc, FACT_LIMIT);
    find_dead_from(alloc, rules, &mut graph, &facts)
}

// What is known of the dead elements, which are found where they aren't known yet.
fn known_dead(
    alloc: Global,
    rules: &mut Rules,
    known: Option<DeadElements>,
) -> Result<DeadElements, AllocError>
    requires state { IsState (state_of rules.old) }
    requires known { ForSome known (IsKnownDead (state_of rules.old)) }
    ensures known { IfOk result (IsKnownDead (state_of rules.old)) }
    ensures state { state_of rules.new ≡ state_of rules.old }
    ensures infers { OnOk result ((tests : List KeptTest) → InfersFor (state_of rules.old) tests
        (Asks Dead) (is_some known) (asked_of rules.old) (asked_of rules.new)) }
{
    match known {
        Some(known) => Ok(known),
        None => find_dead(alloc, rules),
    }
}

// Appends elements, each behind a space.
fn push_ids(
    alloc: Global,
    network: &Network,
    elements: &[ElementId],
    out: &mut Vec<u8>,
) -> Result<(), AllocError>
    ensures { OnOk result (out.new.items
        ≡ out.old.items ++ flat_map (element_text network.now) (map (λ e. e.0) elements.now)) }
{
    'elements: for element in elements {
        push_element(alloc, network, *element, out)?;
    }
    Ok(())
}

// Appends the answer that these elements are dead.
fn push_dead(
    alloc: Global,
    network: &Network,
    elements: &[ElementId],
    out: &mut Vec<u8>,
) -> Result<(), AllocError>
    ensures { OnOk result (out.new.items
        ≡ out.old.items ++ dead_of network.now (map (λ e. e.0) elements.now)) }
{
    let count = elements.len();
    let text = format!(in alloc; "dead {count}")?;
    out.extend_from_slice(text.as_bytes())?;
    push_ids(alloc, network, elements, out)?;
    out.push(b'\n')?;
    Ok(())
}

// Appends what is known of the dead elements.
fn push_known(
    alloc: Global,
    network: &Network,
    known: &DeadElements,
    out: &mut Vec<u8>,
) -> Result<(), AllocError>
    ensures { OnOk result (out.new.items ≡ out.old.items ++ known_text network.now known.now) }
{
    match known {
        DeadElements::Known(elements) => push_dead(alloc, network, elements, out),
        DeadElements::TooMany => push_line(out, b"refused limit facts"),
    }
}

impl Work {
    /// Answers which elements are dead. It is worked out once, for the network doesn't change.
    pub(crate) fn dead(&mut self, alloc: Global, out: &mut Vec<u8>) -> Result<(), AllocError>
        requires { IsWork self.old }
        ensures work { OnOk result (IsWork self.new) }
        ensures told { OnOk result (DeadTold self.old self.new out.old.items out.new.items) }
    {
        let known = known_dead(alloc, &mut self.rules, self.dead.take())?;
        push_known(alloc, self.rules.state().network(), &known, out)?;
        self.dead = Some(known);
        Ok(())
    }
}
