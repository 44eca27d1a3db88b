//! The suite of tests.
ghost use Rattle.std.specs.Prelude.{◌≡◌, ◌↔◌, ◌<◌, ◌^◌, ◌-◌, ℕ, All, List, [], length, true, false, map, OnOk, IfOk};
ghost use Rattle.nc_graph.specs.Nodes.{node_flow};
ghost use Rattle.nc_marks.specs.Kept.{AreKept};
ghost use Rattle.nc_marks.specs.Marks.{marked_elements};
ghost use Rattle.nc_marks.specs.Sets.{flag};
ghost use Rattle.nc_suite.specs.Counts.{counted, mark_for, HasRoom, Adds, AreAmong, AreSpared, AreCounts};
ghost use Rattle.nc_suite.specs.Suite.{IsSuite};

use crate::listing::{Listing, lowered_flags};
use crate::repeats::without_repeats;
use crate::tally::Tally;
use nc_graph::graph::Graph;
use nc_graph::node::NodeId;
use nc_marks::kept::KeptMarks;
use std::alloc::{AllocError, Global};
use std::hash::Hash;

// What one test covers at a time: the list of the elements that it touches, and a flag for each node,
// by which these are found; between tests all flags are lowered.
#[derive(Drop)]
struct Coverage {
    listing: Listing,
    reached: Vec<bool>,
}

// Counts a test.
fn count<F: Copy + Eq + Hash>(
    alloc: Global,
    graph: &Graph<F>,
    marks: &KeptMarks,
    nodes: &[NodeId],
    coverage: &mut Coverage,
    tally: &mut Tally,
) -> Result<(), AllocError>
    requires valid { All (λ p. p.0 < length graph.now.facts) nodes.now }
    requires kept { (live : List ℕ) × AreKept (node_flow graph.now) (length graph.now.facts) live
        coverage.old.listing.width marks.now }
    requires len { length coverage.old.reached.items ≡ length graph.now.facts }
    requires lowered { (i : ℕ) → flag coverage.old.reached.items i ≡ false }
    requires elements { counted tally.old ≡ coverage.old.listing.width }
    requires room { HasRoom tally.old }
    ensures reached { coverage.new.reached.items ≡ coverage.old.reached.items }
    ensures width { coverage.new.listing.width ≡ coverage.old.listing.width }
    ensures adds { OnOk result
        (Adds (mark_for (node_flow graph.now) (map (λ p. p.0) nodes.now)) tally.old tally.new) }
{
    coverage
        .listing
        .list(alloc, graph, marks, &mut coverage.reached, nodes)?;
    tally.add_touches(coverage.listing.touches());
    Ok(())
}

// Whether a test that is counted is spare. It is then taken out of the counts.
fn leave_out<F: Copy + Eq + Hash>(
    alloc: Global,
    graph: &Graph<F>,
    marks: &KeptMarks,
    nodes: &[NodeId],
    coverage: &mut Coverage,
    tally: &mut Tally,
) -> Result<bool, AllocError>
    requires valid { All (λ p. p.0 < length graph.now.facts) nodes.now }
    requires kept { (live : List ℕ) × AreKept (node_flow graph.now) (length graph.now.facts) live
        coverage.old.listing.width marks.now }
    requires len { length coverage.old.reached.items ≡ length graph.now.facts }
    requires lowered { (i : ℕ) → flag coverage.old.reached.items i ≡ false }
    requires elements { counted tally.old ≡ coverage.old.listing.width }
    requires room { HasRoom tally.old }
    requires among { AreAmong
        (mark_for (node_flow graph.now) (map (λ p. p.0) nodes.now)) tally.old }
    ensures reached { coverage.new.reached.items ≡ coverage.old.reached.items }
    ensures width { coverage.new.listing.width ≡ coverage.old.listing.width }
    ensures spare { IfOk result (λ left. left ≡ true
        ↔ AreSpared (mark_for (node_flow graph.now) (map (λ p. p.0) nodes.now)) tally.old) }
    ensures takes { IfOk result (λ left. left ≡ true
        → Adds (mark_for (node_flow graph.now) (map (λ p. p.0) nodes.now)) tally.new tally.old) }
    ensures stays { IfOk result (λ left. left ≡ false → tally.new ≡ tally.old) }
{
    coverage
        .listing
        .list(alloc, graph, marks, &mut coverage.reached, nodes)?;
    let touches = coverage.listing.touches();
    let spare = tally.spare_touches(touches);
    if spare {
        tally.take_touches(touches);
    }
    Ok(spare)
}

// Counts all tests, where none is counted.
fn count_all<F: Copy + Eq + Hash>(
    alloc: Global,
    graph: &Graph<F>,
    marks: &KeptMarks,
    tests: &[&[NodeId]],
    coverage: &mut Coverage,
    tally: &mut Tally,
) -> Result<(), AllocError>
    requires few { length tests.now < 2 ^ 32 - 1 }
    requires valid { All (λ t. All (λ p. p.0 < length graph.now.facts) t.now) tests.now }
    requires kept { (live : List ℕ) × AreKept (node_flow graph.now) (length graph.now.facts) live
        coverage.old.listing.width marks.now }
    requires len { length coverage.old.reached.items ≡ length graph.now.facts }
    requires lowered { (i : ℕ) → flag coverage.old.reached.items i ≡ false }
    requires none { AreCounts (node_flow graph.now) coverage.old.listing.width [] tally.old }
    ensures reached { coverage.new.reached.items ≡ coverage.old.reached.items }
    ensures width { coverage.new.listing.width ≡ coverage.old.listing.width }
    ensures counts { OnOk result (AreCounts (node_flow graph.now) coverage.old.listing.width
        (map (λ t. map (λ p. p.0) t.now) tests.now) tally.new) }
{
    'tests: for nodes in tests {
        count(alloc, graph, marks, nodes, coverage, tally)?;
    }
    Ok(())
}

// The suite of tests: what stays where, from the last to the first, each is left out that is spare.
fn leave_out_each<F: Copy + Eq + Hash>(
    alloc: Global,
    graph: &Graph<F>,
    marks: &KeptMarks,
    tests: &[&[NodeId]],
) -> Result<Vec<u32>, AllocError>
    requires few { length tests.now < 2 ^ 32 - 1 }
    requires valid { All (λ t. All (λ p. p.0 < length graph.now.facts) t.now) tests.now }
    requires kept { (live : List ℕ) × AreKept (node_flow graph.now) (length graph.now.facts) live
        (marked_elements marks.now.marks) marks.now }
    ensures { IfOk result (λ places. IsSuite (node_flow graph.now) (marked_elements marks.now.marks)
        (map (λ t. map (λ p. p.0) t.now) tests.now) places.items) }
{
    let elements = marks.elements();
    let mut coverage = Coverage {
        listing: Listing::new(alloc, elements)?,
        reached: lowered_flags(alloc, graph.len())?,
    };
    let mut tally = Tally::new(alloc, elements)?;
    count_all(alloc, graph, marks, tests, &mut coverage, &mut tally)?;
    let mut places = Vec::new(alloc);
    let mut turn = tests.len();
    'turns: while turn > 0 {
        turn -= 1;
        if !leave_out(alloc, graph, marks, tests[turn], &mut coverage, &mut tally)? {
            places.push(turn as u32)?;
        }
    }
    places.reverse();
    Ok(places)
}

/// The suite of tests, each by its nodes: the places of those that are left, ascending, where each is
/// left out, from the last to the first, without which the tests still kept have the same marks. The
/// strong elements of all nodes are kept. For each test it takes twice the time for the nodes that it
/// reaches, for their parents and for the strong elements of its own nodes, but for a test that has the
/// nodes of the last one before it with the same first node; and memory for the elements and the nodes,
/// however many tests there are.
///
/// # Errors
///
/// That memory is refused.
pub fn suite<F: Copy + Eq + Hash>(
    alloc: Global,
    graph: &Graph<F>,
    marks: &KeptMarks,
    tests: &[&[NodeId]],
) -> Result<Vec<u32>, AllocError>
    requires few { length tests.now < 2 ^ 32 - 1 }
    requires valid { All (λ t. All (λ p. p.0 < length graph.now.facts) t.now) tests.now }
    requires kept { (live : List ℕ) × AreKept (node_flow graph.now) (length graph.now.facts) live
        (marked_elements marks.now.marks) marks.now }
    ensures { IfOk result (λ places. IsSuite (node_flow graph.now) (marked_elements marks.now.marks)
        (map (λ t. map (λ p. p.0) t.now) tests.now) places.items) }
{
    let left = without_repeats(alloc, graph.len(), tests)?;
    let places = leave_out_each(alloc, graph, marks, &left)?;
    Ok(places)
}
