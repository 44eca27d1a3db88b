//! Tests that repeat others.
ghost use Rattle.std.specs.Prelude.{◌≡◌, [], true, map, Contains, IfOk};
ghost use Rattle.nc_suite.specs.Repeats.{IsLeft, AreLeft};

use nc_graph::node::NodeId;
use std::alloc::{AllocError, Global};

// Whether the test at a place has just these nodes.
fn is_at(tests: &[&[NodeId]], place: u32, nodes: &[NodeId]) -> bool
    ensures { result ≡ true → Contains (map (λ t. t.now) tests.now) nodes.now }
{
    match tests.get(place as usize) {
        Some(test) => *test == nodes,
        None => false,
    }
}

// What is left of a test behind what is left of those before it: its nodes, or none where the test that was noted
// last at its first node has the same. One that is left is noted there.
fn left_of<'a>(before: &[&'a [NodeId]], noted: &mut [u32], nodes: &'a [NodeId]) -> &'a [NodeId]
    ensures { IsLeft (map (λ t. t.now) before.now) nodes.now result.now }
{
    let Some(first) = nodes.first() else {
        return nodes;
    };
    let Some(note) = noted.get_mut(first.0 as usize) else {
        return nodes;
    };
    if is_at(before, *note, nodes) {
        return &[];
    }
    *note = u32::try_from(before.len()).unwrap_or(u32::MAX);
    nodes
}

/// What is left of tests, each by its nodes, of a graph of so many: no nodes of a test that repeats one before it.
/// Of those with the same first node each is compared with the last one before it; it takes time for the nodes of
/// all tests, and memory for those of the graph.
pub(crate) fn without_repeats<'a>(
    alloc: Global,
    count: u32,
    tests: &[&'a [NodeId]],
) -> Result<Vec<&'a [NodeId]>, AllocError>
    ensures { IfOk result
        (λ left. AreLeft [] (map (λ t. t.now) tests.now) (map (λ t. t.now) left.items)) }
{
    // no test is noted: there is none at this place
    let mut noted = vec![in alloc; u32::MAX; count as usize]?;
    let mut left: Vec<&'a [NodeId]> = Vec::new(alloc);
    'tests: for nodes in tests {
        let nodes = left_of(&left, &mut noted, nodes);
        left.push(nodes)?;
    }
    Ok(left)
}
