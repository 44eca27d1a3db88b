//! Tests that are left out one by one, as a tally tells of each whether it is spare beside those still kept, and the
//! suite of the same tests: over a graph so small that both are known by hand.
ghost use Rattle.std.specs.Prelude.{◌≡◌, ◌<◌, ◌≤◌, [], true, false, length, map, Some, All, IfOk};
ghost use Rattle.nc_graph.specs.Nodes.{node_flow};
ghost use Rattle.nc_marks.specs.Kept.{AreKept};
ghost use Rattle.nc_marks.specs.Marks.{mark_of, marked_elements};
ghost use Rattle.nc_suite.specs.Counts.{counted, Adds, AreAmong, HasRoom};
ghost use Rattle.bench.specs.Sums.{AreSums};

use crate::shapes::Shape;
use crate::table::TableRules;
use anyhow::Result;
use nc_graph::graph::Graph;
use nc_graph::node::NodeId;
use nc_marks::kept::KeptMarks;
use nc_suite::{Tally, suite};
use std::alloc::{AllocError, Global};

// One hop of two ways: the leaves 0 to 3, the way 4 over the first two of them, the way 5 over the others, and the
// fact 6 by either way.
const FACTS: u32 = 7;

const ELEMENTS: u32 = 4;

// How many tests are counted at most.
const MOST_TESTS: usize = 1_000;

// Tests in order, each of one fact.
#[derive(Clone, Copy)]
struct Tests {
    name: &'static str,
    facts: &'static [usize],
}

// Either way, both ways, and the first of them again: the ways make all elements strong, those of the first twice.
const STRONG: Tests = Tests {
    name: "either way, both ways, the first again",
    facts: &[6, 4, 5, 4],
};

// Either way, twice: all elements are weak, each twice.
const WEAK: Tests = Tests {
    name: "either way, twice",
    facts: &[6, 6],
};

// One way, and either: two elements are strong and weak, and two are weak alone.
const MIXED: Tests = Tests {
    name: "one way, either way",
    facts: &[4, 6],
};

// Whether there are few tests, of nodes of a graph.
fn are_tests(graph: &Graph<u32>, tests: &[&[NodeId]]) -> bool
    ensures few { result ≡ true → length tests.now ≤ 1000 }
    ensures valid { result ≡ true
        → All (λ t. All (λ p. p.0 < length graph.now.facts) t.now) tests.now }
{
    let count = graph.len();
    'tests: for nodes in tests {
        if !nodes.iter().all(|node| node.0 < count) {
            return false;
        }
    }
    tests.len() <= MOST_TESTS
}

// The marks for nodes of a graph, with what is kept of all its nodes.
fn kept_for(alloc: Global, graph: &Graph<u32>, nodes: &[NodeId]) -> Result<KeptMarks, AllocError>
    requires { All (λ p. p.0 < length graph.now.facts) nodes.now }
    ensures { IfOk result (λ kept. AreKept (node_flow graph.now) (length graph.now.facts)
        (map (λ p. p.0) nodes.now) 4 kept) }
{
    let mut kept = KeptMarks::new(alloc, ELEMENTS)?;
    kept.add(graph, nodes)?;
    Ok(kept)
}

// The marks of each test by itself.
fn marks_of_each(
    alloc: Global,
    graph: &Graph<u32>,
    tests: &[&[NodeId]],
) -> Result<Vec<KeptMarks>, AllocError>
    requires { All (λ t. All (λ p. p.0 < length graph.now.facts) t.now) tests.now }
    ensures len { IfOk result (λ each. length each.items ≡ length tests.now) }
    ensures marked { IfOk result (λ each. All (λ k. marked_elements k.marks ≡ 4) each.items) }
{
    let mut each = Vec::new(alloc);
    'tests: for nodes in tests {
        each.push(kept_for(alloc, graph, nodes)?)?;
    }
    Ok(each)
}

// Counts all tests, where none is counted.
fn count_all(tests: &[KeptMarks], tally: &mut Tally)
    requires few { length tests.now ≤ 1000 }
    requires marked { All (λ k. marked_elements k.marks ≡ 4) tests.now }
    requires none { AreSums 4 [] tally.old }
    ensures { AreSums 4 tests.now tally.new }
{
    'tests: for test in tests {
        tally.add(test.marks());
    }
}

// Whether a test that is counted is spare. It is then taken out of the counts.
fn leaves_out(tally: &mut Tally, test: &KeptMarks) -> bool
    requires elements { marked_elements test.now.marks ≡ counted tally.old }
    requires room { HasRoom tally.old }
    requires among { AreAmong (λ e. mark_of test.now.marks (Some e)) tally.old }
    ensures takes { result ≡ true
        → Adds (λ e. mark_of test.now.marks (Some e)) tally.new tally.old }
    ensures stays { result ≡ false → tally.new ≡ tally.old }
{
    let spare = tally.spare(test.marks());
    if spare {
        tally.take(test.marks());
    }
    spare
}

// How it is told whether a test is spare.
fn verdict(spare: bool) -> &'static str {
    if spare { "spare" } else { "kept" }
}

// Leaves out tests that are counted, from the last to the first, and tells of each whether it is spare.
fn leave_out_each(
    rt: &HostRuntime,
    name: &str,
    tally: &mut Tally,
    left: &mut Vec<KeptMarks>,
) -> Result<()>
    requires few { length left.old.items ≤ 1000 }
    requires marked { All (λ k. marked_elements k.marks ≡ 4) left.old.items }
    requires counted { AreSums 4 left.old.items tally.old }
{
    let count = left.len();
    'turns: for turn in 0..count {
        let Some(test) = left.pop() else {
            break;
        };
        let spare = leaves_out(tally, &test);
        drop(test);
        println!(rt; "{name}: test {} {}", count - turn, verdict(spare))?;
    }
    Ok(())
}

// Leaves out tests, from the last to the first, and tells of each whether it is spare.
fn leave_out(rt: &HostRuntime, name: &str, tests: Vec<KeptMarks>) -> Result<()>
    requires few { length tests.items ≤ 1000 }
    requires marked { All (λ k. marked_elements k.marks ≡ 4) tests.items }
{
    let mut tally = Tally::new(rt.alloc(), ELEMENTS)?;
    count_all(&tests, &mut tally);
    let mut left = tests;
    leave_out_each(rt, name, &mut tally, &mut left)
}

// The numbers of the tests of a suite, each behind a space.
fn suite_numbers(
    alloc: Global,
    graph: &Graph<u32>,
    kept: &KeptMarks,
    tests: &[&[NodeId]],
) -> Result<String, AllocError>
    requires few { length tests.now ≤ 1000 }
    requires valid { All (λ t. All (λ p. p.0 < length graph.now.facts) t.now) tests.now }
    requires kept { AreKept (node_flow graph.now) (length graph.now.facts) [] 4 kept.now }
{
    let mut numbers = String::new(alloc);
    for place in suite(alloc, graph, kept, tests)? {
        let number = u64::from(place) + 1;
        let text = format!(in alloc; " {number}")?;
        numbers.push_str(text.as_str())?;
    }
    Ok(numbers)
}

// Tells the numbers of the tests of a suite.
fn tell_suite(rt: &HostRuntime, name: &str, graph: &Graph<u32>, tests: &[&[NodeId]]) -> Result<()>
    requires few { length tests.now ≤ 1000 }
    requires valid { All (λ t. All (λ p. p.0 < length graph.now.facts) t.now) tests.now }
{
    let alloc = rt.alloc();
    let kept = kept_for(alloc, graph, &[])?;
    let numbers = suite_numbers(alloc, graph, &kept, tests)?;
    println!(rt; "{name}: suite{numbers}")?;
    Ok(())
}

// The nodes of tests, given those of all facts.
fn nodes_of_each(
    alloc: Global,
    nodes: &[NodeId],
    tests: Tests,
) -> Result<Vec<[NodeId; 1]>, AllocError> {
    let mut each = Vec::new(alloc);
    for fact in tests.facts {
        if let Some(node) = nodes.get(*fact) {
            each.push([*node])?;
        }
    }
    Ok(each)
}

// Leaves out tests one by one, and tells their suite, where they are of nodes of the graph.
fn measure_lists(
    rt: &HostRuntime,
    name: &str,
    graph: &Graph<u32>,
    tests: &[&[NodeId]],
) -> Result<()> {
    if !are_tests(graph, tests) {
        return Ok(());
    }
    leave_out(rt, name, marks_of_each(rt.alloc(), graph, tests)?)?;
    tell_suite(rt, name, graph, tests)
}

// The same of tests, given the nodes of all facts.
fn measure_nodes(
    rt: &HostRuntime,
    graph: &Graph<u32>,
    nodes: &[NodeId],
    tests: Tests,
) -> Result<()> {
    let each = nodes_of_each(rt.alloc(), nodes, tests)?;
    let lists: Vec<&[NodeId]> = each
        .iter()
        .map(|nodes| nodes.as_slice())
        .collect(rt.alloc())?;
    measure_lists(rt, tests.name, graph, &lists)
}

// The same over a graph that is made for them.
fn measure_tests(rt: &HostRuntime, tests: Tests) -> Result<()> {
    let alloc = rt.alloc();
    let table = Shape::Pairs.table(alloc, FACTS)?;
    let facts = table.facts(alloc)?;
    let mut graph = Graph::new(alloc, FACTS);
    let nodes = graph.add(&mut TableRules::new(&table), &facts)?;
    measure_nodes(rt, &graph, &nodes, tests)
}

/// Leaves out tests one by one of which the strong marks are spare, or the weak ones, or none.
pub fn measure(rt: &HostRuntime) -> Result<()> {
    measure_tests(rt, STRONG)?;
    measure_tests(rt, WEAK)?;
    measure_tests(rt, MIXED)
}
