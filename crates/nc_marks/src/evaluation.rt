//! The marks of elements by one evaluation of a graph.
ghost use Rattle.std.specs.Prelude.{◌≡◌, ◌+◌, ◌<◌, ◌≤◌, ℕ, All, length, false, true, map, IfOk, OnOk, slice_index_or};
ghost use Rattle.nc_graph.specs.Nodes.{node_flow, IsGraph};
ghost use Rattle.nc_graph.specs.Derivation.{strong};
ghost use Rattle.nc_marks.specs.Marks.{AreMarks};
ghost use Rattle.nc_marks.specs.Reach.{IsClosed, strong_in};
ghost use Rattle.nc_marks.specs.Sets.{flag, Grows, IsAt, in_some};

use crate::combine::{intersection_of, union_of};
use crate::flags::flag_strong;
use crate::gathered::Gathered;
use crate::mark::Marks;
use crate::reach::{elements_reached, reach};
use crate::sets::Sets;
use nc_graph::graph::Graph;
use nc_graph::node::{NodeId, NodeKind};
use std::alloc::{AllocError, Global};
use std::hash::Hash;

// The place of the strong elements of a node, by those of its parents.
pub(crate) fn place_of<F: Copy + Eq + Hash>(
    graph: &Graph<F>,
    sets: &mut Sets,
    gathered: &mut Gathered,
    places: &[u32],
    node: NodeId,
) -> Result<u32, AllocError>
    requires graph { IsGraph graph.now }
    requires valid { node.0 < length graph.now.facts }
    requires len { length places.now ≡ node.0 }
    requires width { gathered.old.width ≡ sets.old.width }
    requires empty { IsAt sets.old 0 (λ _. false) }
    requires placed { All (λ p. slice_index_or places.now p 0 < length sets.old.sets)
        ((node_flow graph.now).parents node.0) }
    requires few { length sets.old.sets ≤ length places.now + 1 }
    ensures width { gathered.new.width ≡ gathered.old.width }
    ensures grows { Grows sets.old sets.new }
    ensures most { length sets.new.sets ≤ length sets.old.sets + 1 }
    ensures placed { IfOk result (λ place. place < length sets.new.sets) }
    ensures strong { IfOk result (λ place.
        All (λ p. IsAt sets.old (slice_index_or places.now p 0) (λ e. strong (node_flow graph.now) e p))
        ((node_flow graph.now).parents node.0)
        → IsAt sets.new place (λ e. strong (node_flow graph.now) e node.0)) }
{
    let parents = graph.parents(node);
    let place = match graph.kind(node) {
        NodeKind::Leaf(element) => sets.single(element)?,
        NodeKind::Every => union_of(sets, gathered, places, parents)?,
        NodeKind::Any => intersection_of(sets, gathered, places, parents)?,
    };
    Ok(place)
}

// By node, the place of its strong elements; of a node that isn't reached the place 0.
fn places_of<F: Copy + Eq + Hash>(
    alloc: Global,
    graph: &Graph<F>,
    sets: &mut Sets,
    gathered: &mut Gathered,
    reached: &[bool],
) -> Result<Vec<u32>, AllocError>
    requires gathered { gathered.old.width ≡ sets.old.width }
    requires len { length reached.now ≡ length graph.now.facts }
    requires closed { IsClosed (node_flow graph.now) 0 reached.now }
    requires empty { IsAt sets.old 0 (λ _. false) }
    requires few { length sets.old.sets ≤ 1 }
    ensures len { IfOk result (λ places. length places.items ≡ length graph.now.facts) }
    ensures width { OnOk result (sets.new.width ≡ sets.old.width) }
    ensures strong { IfOk result (λ places. (i : ℕ) → flag reached.now i ≡ true
        → IsAt sets.new (slice_index_or places.items i 0) (λ e. strong (node_flow graph.now) e i)) }
{
    let mut places = Vec::with_capacity(alloc, graph.len() as usize)?;
    'nodes: for number in 0..graph.len() {
        let place = if reached[number as usize] {
            place_of(graph, sets, gathered, &places, NodeId(number))?
        } else {
            0
        };
        places.push(place)?;
    }
    Ok(places)
}

// Which elements are in the set of some node.
pub(crate) fn strong_of(
    alloc: Global,
    sets: &Sets,
    places: &[u32],
    nodes: &[NodeId],
) -> Result<Vec<bool>, AllocError>
    requires within { All (λ p. p.0 < length places.now) nodes.now }
    requires placed { All (λ p. slice_index_or places.now p.0 0 < length sets.now.sets) nodes.now }
    ensures len { IfOk result (λ flags. length flags.items ≡ sets.now.width) }
    ensures strong { IfOk result (λ flags. (e : ℕ) → e < sets.now.width
        → flag flags.items e ≡ in_some sets.now places.now nodes.now e) }
{
    let mut flags = vec![in alloc; false; sets.width() as usize]?;
    flag_strong(sets, places, nodes, &mut flags);
    Ok(flags)
}

// Which elements are strong for a tested node.
pub(crate) fn elements_strong<F: Copy + Eq + Hash>(
    alloc: Global,
    graph: &Graph<F>,
    elements: u32,
    tested: &[NodeId],
    reached: &[bool],
) -> Result<Vec<bool>, AllocError>
    requires valid { All (λ p. p.0 < length graph.now.facts) tested.now }
    requires len { length reached.now ≡ length graph.now.facts }
    requires tested { All (λ p. flag reached.now p.0 ≡ true) tested.now }
    requires closed { IsClosed (node_flow graph.now) 0 reached.now }
    ensures len { IfOk result (λ flags. length flags.items ≡ elements) }
    ensures strong { IfOk result (λ flags. (e : ℕ) → e < elements
        → flag flags.items e ≡ strong_in (node_flow graph.now) e (map (λ p. p.0) tested.now)) }
{
    let mut sets = Sets::new(alloc, elements)?;
    let mut gathered = Gathered::new(alloc, elements)?;
    let places = places_of(alloc, graph, &mut sets, &mut gathered, reached)?;
    let strong = strong_of(alloc, &sets, &places, tested)?;
    Ok(strong)
}

/// The marks of the elements below `elements`, for tested nodes of a graph: of each element whether
/// it stands in every derivation of some tested node, in some derivation of one, or in none. A
/// derivation is made by a choice of one parent of each disjunctive node. An element of a leaf that
/// isn't below `elements` has no mark.
///
/// # Errors
///
/// That memory is refused.
pub fn marks<F: Copy + Eq + Hash>(
    alloc: Global,
    graph: &Graph<F>,
    elements: u32,
    tested: &[NodeId],
) -> Result<Marks, AllocError>
    requires { All (λ p. p.0 < length graph.now.facts) tested.now }
    ensures { IfOk result
        (λ marks. AreMarks (node_flow graph.now) (map (λ p. p.0) tested.now) elements marks) }
{
    let reached = reach(alloc, graph, tested)?;
    let some = elements_reached(alloc, graph, elements, tested, &reached)?;
    let strong = elements_strong(alloc, graph, elements, tested, &reached)?;
    Ok(Marks::new(strong, some))
}
