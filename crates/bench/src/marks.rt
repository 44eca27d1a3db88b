//! How long the marks take that grow with a graph: of layers of disjunctive facts, of one fact over many
//! leaves, and of the last of many hops; and the marks by diagrams, in a store with room and in one without.
ghost use Rattle.std.specs.Prelude.{◌≡◌, ◌<◌, ◌≤◌, true, length, All, IfOk};
ghost use Rattle.nc_marks.specs.Kept.{kept_nodes};
ghost use Rattle.nc_marks.specs.Marks.{marked_elements};
ghost use Rattle.bench.specs.Table.{flow_of};

use crate::shapes::{LAYER_ELEMENTS, Shape};
use crate::table::{Table, TableRules};
use crate::telling::tell_time;
use anyhow::Result;
use nc_diagram::Store;
use nc_formula::Formulas;
use nc_graph::graph::Graph;
use nc_graph::node::NodeId;
use nc_marks::by_diagrams::marks_by_diagrams;
use nc_marks::kept::KeptMarks;
use nc_marks::mark::{Mark, Marks};
use nc_types::ElementId;
use std::alloc::{AllocError, Global};
use std::time::Instant;

const LAYER_FACTS: u32 = 130_000;

const WIDTH: u32 = 20_000;

const HOPS: u32 = 250;

const FEW_HOPS: u32 = 20;

// The nodes that a store has room for.
const ROOM: u32 = 1_000_000;

/// By what the marks are found.
#[derive(Clone, Copy)]
enum Method {
    /// By the sets of strong elements, which are kept.
    Sets,
    /// By diagrams, in a store with room for them.
    Diagrams,
    /// By diagrams, in a store for one node.
    TooManyDiagrams,
}

// How many elements have a mark.
fn count(marks: &Marks, elements: u32, mark: Mark) -> u32
    requires { marked_elements marks.now ≡ elements }
{
    let mut count: u32 = 0;
    for element in 0..elements {
        if marks.of_element(ElementId(element)) == mark {
            count = count.saturating_add(1);
        }
    }
    count
}

// Whether all of these are nodes of a graph.
fn are_nodes(graph: &Graph<u32>, nodes: &[NodeId]) -> bool
    ensures { result ≡ true → All (λ p. p.0 < length graph.now.facts) nodes.now }
{
    let count = graph.len();
    nodes.iter().all(|node| node.0 < count)
}

// What the marks of tested facts came to, and how long they took.
#[derive(Clone, Copy)]
struct Outcome {
    facts: u32,
    strong: u32,
    weak: u32,
    micros: u128,
}

impl Outcome {
    // Tells what was counted, and how long it took.
    fn tell(self, rt: &HostRuntime, name: &str) -> Result<()> {
        let Outcome {
            facts,
            strong,
            weak,
            micros,
        } = self;
        println!(rt; "{name}: facts {facts}, strong {strong}, weak {weak}")?;
        tell_time(rt, name, "microseconds", micros)
    }
}

// What the marks over so many elements came to.
fn counted(facts: u32, marks: &Marks, elements: u32, micros: u128) -> Outcome
    requires { marked_elements marks.now ≡ elements }
{
    Outcome {
        facts,
        strong: count(marks, elements, Mark::Strong),
        weak: count(marks, elements, Mark::Weak),
        micros,
    }
}

// Adds nodes of a graph to the marks that are kept, and tells what that came to.
fn time_adding(
    rt: &HostRuntime,
    kept: &mut KeptMarks,
    elements: u32,
    graph: &Graph<u32>,
    nodes: &[NodeId],
) -> Result<Outcome>
    requires elements { marked_elements kept.old.marks ≡ elements }
    requires valid { All (λ p. p.0 < length graph.now.facts) nodes.now }
    requires grown { kept_nodes kept.old ≤ length graph.now.facts }
{
    let start = Instant::now(rt)?;
    kept.add(graph, nodes)?;
    let micros = start.elapsed(rt)?.as_micros();
    Ok(counted(graph.len(), kept.marks(), elements, micros))
}

// Times the marks for nodes of a graph, by sets, and counts them over so many elements.
fn time_sets(
    rt: &HostRuntime,
    elements: u32,
    graph: &Graph<u32>,
    nodes: &[NodeId],
) -> Result<Outcome>
    requires { All (λ p. p.0 < length graph.now.facts) nodes.now }
{
    let mut kept = KeptMarks::new(rt.alloc(), elements)?;
    time_adding(rt, &mut kept, elements, graph, nodes)
}

// The marks by diagrams, in a store that has room for them, or room for one node.
fn marks_in(
    alloc: Global,
    elements: u32,
    graph: &Graph<u32>,
    nodes: &[NodeId],
    has_room: bool,
) -> Result<Marks, AllocError>
    requires { All (λ p. p.0 < length graph.now.facts) nodes.now }
    ensures { IfOk result (λ marks. marked_elements marks ≡ elements) }
{
    let limit = if has_room { ROOM } else { 1 };
    let mut store = Store::new(alloc, limit);
    let mut formulas = Formulas::new(alloc);
    marks_by_diagrams(alloc, graph, &mut formulas, &mut store, elements, nodes)
}

// Times and counts these marks.
fn time_diagrams(
    rt: &HostRuntime,
    elements: u32,
    graph: &Graph<u32>,
    nodes: &[NodeId],
    has_room: bool,
) -> Result<Outcome>
    requires { All (λ p. p.0 < length graph.now.facts) nodes.now }
{
    let start = Instant::now(rt)?;
    let marks = marks_in(rt.alloc(), elements, graph, nodes, has_room)?;
    let micros = start.elapsed(rt)?.as_micros();
    Ok(counted(graph.len(), &marks, elements, micros))
}

// What is measured: under which name, by what, and over how many elements.
#[derive(Clone, Copy)]
struct Subject {
    name: &'static str,
    method: Method,
    elements: u32,
}

impl Subject {
    // What has this name.
    fn new(name: &'static str, method: Method, elements: u32) -> Subject {
        Subject {
            name,
            method,
            elements,
        }
    }

    // What the marks of nodes of a graph come to.
    fn outcome(self, rt: &HostRuntime, graph: &Graph<u32>, nodes: &[NodeId]) -> Result<Outcome>
        requires { All (λ p. p.0 < length graph.now.facts) nodes.now }
    {
        match self.method {
            Method::Sets => time_sets(rt, self.elements, graph, nodes),
            Method::Diagrams => time_diagrams(rt, self.elements, graph, nodes, true),
            Method::TooManyDiagrams => time_diagrams(rt, self.elements, graph, nodes, false),
        }
    }

    // Tells it, where these are nodes of the graph.
    fn measure_nodes(self, rt: &HostRuntime, graph: &Graph<u32>, nodes: &[NodeId]) -> Result<()> {
        if !are_nodes(graph, nodes) {
            return Ok(());
        }
        let outcome = self.outcome(rt, graph, nodes)?;
        outcome.tell(rt, self.name)
    }

    // Measures the marks of tested facts.
    fn measure_facts(self, rt: &HostRuntime, table: &Table, facts: &[u32]) -> Result<()>
        requires { All (λ f. (flow_of table.now).holds f ≡ true) facts.now }
    {
        let mut graph = Graph::new(rt.alloc(), u32::MAX);
        let nodes = graph.add(&mut TableRules::new(table), facts)?;
        self.measure_nodes(rt, &graph, &nodes)
    }

    // Measures the marks of the last fact of a shape.
    fn measure_last(self, rt: &HostRuntime, shape: Shape, facts: u32) -> Result<()> {
        let table = shape.table(rt.alloc(), facts)?;
        let Some(last) = table.last() else {
            return Ok(());
        };
        self.measure_facts(rt, &table, &[last])
    }
}

// By sets: layers of which all is tested.
fn measure_layers(rt: &HostRuntime) -> Result<()> {
    let layers = Shape::Layers.table(rt.alloc(), LAYER_FACTS)?;
    let all = layers.facts(rt.alloc())?;
    let subject = Subject::new("layers, all tested", Method::Sets, LAYER_ELEMENTS);
    subject.measure_facts(rt, &layers, &all)
}

// By sets: layers of which one fact is tested, one fact over many leaves, and many hops.
fn measure_sets(rt: &HostRuntime) -> Result<()> {
    let by = Method::Sets;
    let subject = Subject::new("layers, one tested", by, LAYER_ELEMENTS);
    subject.measure_last(rt, Shape::Layers, LAYER_FACTS)?;
    let subject = Subject::new("over all leaves", by, WIDTH);
    subject.measure_last(rt, Shape::Wide(WIDTH), WIDTH + 1)?;
    let subject = Subject::new("conjunctive hops", by, 4 * HOPS);
    subject.measure_last(rt, Shape::Hops, 5 * HOPS)?;
    let subject = Subject::new("hops of two ways", by, 4 * HOPS);
    subject.measure_last(rt, Shape::Pairs, 7 * HOPS)
}

// By diagrams: a few hops of two ways, of which nothing is strong, and a few conjunctive ones, of which all is.
fn measure_diagrams(rt: &HostRuntime) -> Result<()> {
    let elements = 4 * FEW_HOPS;
    let by = Method::Diagrams;
    let subject = Subject::new("few hops, by diagrams", by, elements);
    subject.measure_last(rt, Shape::Pairs, 7 * FEW_HOPS)?;
    let subject = Subject::new("few conjunctive hops, by diagrams", by, elements);
    subject.measure_last(rt, Shape::Hops, 5 * FEW_HOPS)?;
    let by = Method::TooManyDiagrams;
    let subject = Subject::new("few hops, by too many diagrams", by, elements);
    subject.measure_last(rt, Shape::Pairs, 7 * FEW_HOPS)?;
    let subject = Subject::new("few conjunctive hops, by too many diagrams", by, elements);
    subject.measure_last(rt, Shape::Hops, 5 * FEW_HOPS)
}

/// Measures all of them.
pub fn measure(rt: &HostRuntime) -> Result<()> {
    measure_layers(rt)?;
    measure_sets(rt)?;
    measure_diagrams(rt)
}
