//! What the engine works with: the rules of a network, the graph of the facts that were asked,
//! their marks, the report as it stands, the tests, and what was drawn for questions about them.
//! The lines of a report are lent where they are many, so that no test costs a copy of them.

ghost use Rattle.std.specs.Prelude.{◌≡◌, ◌+◌, ◌++◌, ◌<◌, ◌≤◌, ◌-◌, List, true, length, All, IfOk, OnOk, OnErr, IsErrOf};
ghost use Rattle.nc_types.specs.Network.{element_count};
ghost use Rattle.nc_graph.specs.Closure.{IsClosure, ReachesMoreThan};
ghost use Rattle.nc_graph.specs.Flow.{raised};
ghost use Rattle.nc_graph.specs.Nodes.{Mirrors, IsGraph, Extends, AreNodesOf};
ghost use Rattle.nc_graph.specs.declared.fault.GraphFault.TheVariants as GraphFault;
ghost use Rattle.nc_marks.specs.Marks.{AreMarks};
ghost use Rattle.nc_rules.specs.Rules.{flow_of};
ghost use Rattle.nc_rules.specs.Seen.{state_of, asked_of};
ghost use Rattle.nc_engine.specs.Limits.{most_tests, most_facts};
ghost use Rattle.nc_engine.specs.Session.{live_in};
ghost use Rattle.nc_report.specs.Views.{FileView};
ghost use Rattle.nc_engine.specs.Engine.{HasReferences, begin_at};
ghost use Rattle.nc_engine.specs.Marks.{IsReport};
ghost use Rattle.nc_engine.specs.Work.{IsWork, SameNetwork, Takes, Appended, progress_of, tests_of, with_lent};

use crate::dead_elements::DeadElements;
use crate::{DIAGRAM_LIMIT, FACT_LIMIT, TEST_LIMIT};
use nc_diagram::Store;
use nc_fact::Fact;
use nc_formula::{Formulas, drawn_for_a_longer_graph, drawn_with_a_test, nothing_is_drawn};
use nc_graph::fault::GraphFault;
use nc_graph::graph::Graph;
use nc_graph::node::NodeId;
use nc_marks::kept::KeptMarks;
use nc_marks::laws::{kept_of_an_extended_graph, marks_of_nodes_are_of_facts};
use nc_report::Shown;
use nc_rules::{Rules, rules_make_a_flow};
use nc_stable::SettledNetwork;
use std::alloc::{AllocError, Global};

// How many bytes of lines are lent at least: fewer join what is pending, and go out with it.
const LENT_FROM: usize = 4096;

/// A test that was accepted: the facts that it tests, their nodes, and whether it is live.
#[derive(Drop)]
pub(crate) struct KeptTest {
    pub(crate) facts: Vec<Fact>,
    pub(crate) nodes: Vec<NodeId>,
    pub(crate) live: bool,
}

/// What the engine works with.
#[derive(Drop)]
pub(crate) struct Work {
    /// The rules, which own the network's state and count the facts that are inferred.
    pub(crate) rules: Rules,
    pub(crate) graph: Graph<Fact>,
    pub(crate) marks: KeptMarks,
    pub(crate) shown: Shown,
    /// The accepted tests, in order.
    pub(crate) tests: Vec<KeptTest>,
    /// The questions that were answered, each by the places of its two tests.
    pub(crate) pairs: Vec<(usize, usize)>,
    /// The diagrams of what was asked about, and their references.
    pub(crate) store: Store,
    pub(crate) formulas: Formulas,
    /// Of tests, by their places, whether there was no room for the diagram when it was asked for.
    pub(crate) refused: Vec<bool>,
    /// What is known of the dead elements, once they were asked for.
    pub(crate) dead: Option<DeadElements>,
    /// Whether reports list the lines of the routers.
    pub(crate) listed: bool,
}

/// Adds facts with all that they follow from to the graph.
pub(crate) fn ask(
    rules: &mut Rules,
    graph: &mut Graph<Fact>,
    facts: &[Fact],
) -> Result<Vec<NodeId>, GraphFault>
    requires holds { All (λ f. (flow_of (state_of rules.old)).holds f ≡ true) facts.now }
    requires mirrors { Mirrors (flow_of (state_of rules.old)) graph.old }
    ensures graph { (IsGraph graph.old) × (IsGraph graph.new) }
    ensures state { state_of rules.new ≡ state_of rules.old }
    ensures closure { OnOk result (IsClosure (flow_of (state_of rules.old))
        (graph.old.facts ++ facts.now) graph.new.facts) }
    ensures kept { OnOk result (Extends graph.old graph.new) }
    ensures mirrors { Mirrors (flow_of (state_of rules.old)) graph.new }
    ensures nodes { IfOk result (λ nodes. AreNodesOf graph.new nodes.items facts.now) }
    ensures asked { OnOk result (asked_of rules.new
        ≡ raised (asked_of rules.old) (length graph.new.facts - length graph.old.facts)) }
    ensures asked_full { IsErrOf result GraphFault.Full
        → asked_of rules.new ≡ raised (asked_of rules.old)
        (graph.old.limit - length graph.old.facts) }
    ensures asked_least { asked_of rules.old ≤ asked_of rules.new }
    ensures asked_most { asked_of rules.new ≤ raised (asked_of rules.old) (graph.old.limit + 1) }
    ensures full { IsErrOf result GraphFault.Full
        → ReachesMoreThan (flow_of (state_of rules.old)) graph.old.limit
        (graph.old.facts ++ facts.now) }
    ensures fits { OnOk result
        (ReachesMoreThan (flow_of (state_of rules.old)) graph.old.limit
        (graph.old.facts ++ facts.now) → ⊥) }
    ensures unchanged { OnErr result (graph.new ≡ graph.old) }
{
    let _before = graph.len();
    let nodes = graph.add(rules, facts);
    let _behind = graph.len();
    nodes
}

impl Work {
    /// For a network that settled, without tests; and whether reports list the lines of the routers.
    pub(crate) fn begin(
        alloc: Global,
        settled: SettledNetwork,
        listed: bool,
    ) -> Result<Work, AllocError>
        ensures work { IfOk result IsWork }
        ensures progress { IfOk result (λ work. (files : List FileView)
            → progress_of files work
            ≡ begin_at (record { state = settled.state; files = files; listed = listed })) }
    {
        nothing_is_drawn::<Fact>();
        let rules = Rules::new(alloc, settled);
        let network = rules.state().network();
        let kept = KeptMarks::new(alloc, network.element_count())?;
        let shown = Shown::new(alloc, network, kept.marks())?;
        Ok(Work {
            rules,
            graph: Graph::new(alloc, FACT_LIMIT),
            marks: kept,
            shown,
            tests: Vec::new(alloc),
            pairs: Vec::new(alloc),
            store: Store::new(alloc, DIAGRAM_LIMIT),
            formulas: Formulas::new(alloc),
            refused: Vec::new(alloc),
            dead: None,
            listed,
        })
    }

    /// Takes up a test of these facts, unless too many facts would be asked with it: then nothing
    /// changes but the count of facts inferred.
    pub(crate) fn accept(&mut self, facts: Vec<Fact>) -> Result<bool, AllocError>
        requires work { IsWork self.old }
        requires hold { All (λ f. (flow_of (state_of self.old.rules)).holds f ≡ true) facts.items }
        requires room { length self.old.tests.items < most_tests }
        ensures work { OnOk result (IsWork self.new) }
        ensures network { SameNetwork self.old self.new }
        ensures taken { IfOk result (λ fits. Takes fits self.old self.new facts.items) }
        ensures store { self.new.store ≡ self.old.store }
    {
        let nodes = match ask(&mut self.rules, &mut self.graph, &facts) {
            Ok(nodes) => nodes,
            Err(GraphFault::Full) => return Ok(false),
            Err(GraphFault::Memory) => return Err(AllocError),
        };
        let touched = self.marks.add(&self.graph, &nodes)?;
        let network = self.rules.state().network();
        self.shown.refresh(network, self.marks.marks(), &touched);
        self.tests.push(KeptTest {
            facts,
            nodes,
            live: true,
        })?;
        rules_make_a_flow();
        kept_of_an_extended_graph::<Fact>();
        drawn_for_a_longer_graph::<Fact>();
        drawn_with_a_test::<Fact>();
        Ok(true)
    }

    /// Does nothing: the marks that are kept are those of the facts of the live tests.
    pub(crate) fn marks_are_kept(&self)
        requires { IsWork self.now }
        ensures { AreMarks (flow_of (state_of self.now.rules)) (live_in (tests_of self.now))
            (element_count (state_of self.now.rules).routers) self.now.marks.marks }
    {
        rules_make_a_flow();
        marks_of_nodes_are_of_facts::<Fact>();
        let _facts = self.graph.len();
    }

    /// Does nothing: the store has a reference of each fact of which there is a diagram.
    pub(crate) fn references_are_kept(&self)
        requires { IsWork self.now }
        ensures { (files : List FileView) → HasReferences (progress_of files self.now) }
    {
        rules_make_a_flow();
        let _facts = self.graph.len();
    }

    /// Appends the report for the live tests, and says whether its lines are lent: they stand behind
    /// what was appended then, and aren't copied.
    pub(crate) fn push_report(&self, alloc: Global, out: &mut Vec<u8>) -> Result<bool, AllocError>
        requires { IsWork self.now }
        ensures { IfOk result (λ lends. Appended
            (IsReport (flow_of (state_of self.now.rules)) (live_in (tests_of self.now))
            (state_of self.now.rules).routers self.now.listed)
            out.old.items (with_lent lends self.now.shown out.new.items)) }
    {
        self.marks_are_kept();
        if !self.listed {
            self.shown.push_totals(alloc, out)?;
            return Ok(false);
        }
        if self.shown.lines().len() < LENT_FROM {
            self.shown.push_report(alloc, out)?;
            return Ok(false);
        }
        self.shown.push_totals(alloc, out)?;
        Ok(true)
    }
}
