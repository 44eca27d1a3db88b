//! Which nodes the tested ones reach, and which elements are at the leaves among them.
ghost use Rattle.std.specs.Prelude.{◌≡◌, ◌<◌, ◌||◌, ℕ, All, List, length, true, false, map, IfOk, OnOk};
ghost use Rattle.nc_graph.specs.Nodes.{node_flow, IsGraph};
ghost use Rattle.nc_marks.specs.Sets.{flag, Lists};
ghost use Rattle.nc_marks.specs.Reach.{is_leaf_of, occurs_in, IsReached, IsClosed, TellsLeaf, leaf_in};

use crate::flags::{flag_nodes, list_lowered};
use nc_graph::graph::Graph;
use nc_graph::node::{NodeId, NodeKind};
use std::alloc::{AllocError, Global};
use std::hash::Hash;

// Raises the flags of all that flagged nodes reach. Nodes of a higher number come first, since
// parents have lower ones.
fn descend<F: Copy + Eq + Hash>(graph: &Graph<F>, reached: &mut [bool])
    requires len { length reached.old ≡ length graph.now.facts }
    ensures len { length reached.new ≡ length reached.old }
    ensures kept { (i : ℕ) → flag reached.old i ≡ true → flag reached.new i ≡ true }
    ensures closed { IsClosed (node_flow graph.now) 0 reached.new }
    ensures within { (e : ℕ) (tops : List ℕ)
        → IsReached (node_flow graph.now) e tops reached.old
        → IsReached (node_flow graph.now) e tops reached.new }
{
    let mut number = graph.len();
    'nodes: while number > 0 {
        number -= 1;
        if reached[number as usize] {
            flag_nodes(reached, graph.parents(NodeId(number)));
        }
    }
}

// Raises the flags of all that the tested nodes reach, where none is raised.
fn flag_reached<F: Copy + Eq + Hash>(graph: &Graph<F>, tested: &[NodeId], reached: &mut [bool])
    requires valid { All (λ p. p.0 < length graph.now.facts) tested.now }
    requires len { length reached.old ≡ length graph.now.facts }
    requires lowered { (i : ℕ) → i < length reached.old → flag reached.old i ≡ false }
    ensures len { length reached.new ≡ length reached.old }
    ensures tested { All (λ p. flag reached.new p.0 ≡ true) tested.now }
    ensures closed { IsClosed (node_flow graph.now) 0 reached.new }
    ensures within { (e : ℕ) → IsReached (node_flow graph.now) e
        (map (λ p. p.0) tested.now) reached.new }
{
    flag_nodes(reached, tested);
    descend(graph, reached);
}

// Which nodes the tested ones reach.
pub(crate) fn reach<F: Copy + Eq + Hash>(
    alloc: Global,
    graph: &Graph<F>,
    tested: &[NodeId],
) -> Result<Vec<bool>, AllocError>
    requires { All (λ p. p.0 < length graph.now.facts) tested.now }
    ensures graph { IsGraph graph.now }
    ensures len { IfOk result (λ reached. length reached.items ≡ length graph.now.facts) }
    ensures tested { IfOk result (λ reached. All (λ p. flag reached.items p.0 ≡ true) tested.now) }
    ensures closed { IfOk result (λ reached. IsClosed (node_flow graph.now) 0 reached.items) }
    ensures within { IfOk result (λ reached. (e : ℕ)
        → IsReached (node_flow graph.now) e (map (λ p. p.0) tested.now) reached.items) }
{
    let mut reached = vec![in alloc; false; graph.len() as usize]?;
    flag_reached(graph, tested, &mut reached);
    Ok(reached)
}

// Raises the flag of a leaf's element, if it has one.
fn flag_leaf<F: Copy + Eq + Hash>(graph: &Graph<F>, node: NodeId, flags: &mut [bool])
    requires { node.0 < length graph.now.facts }
    ensures len { length flags.new ≡ length flags.old }
    ensures flags { (e : ℕ) → e < length flags.old
        → flag flags.new e ≡ (is_leaf_of e
        ((node_flow graph.now).kind node.0) || flag flags.old e) }
{
    if let NodeKind::Leaf(element) = graph.kind(node) {
        let element = element as usize;
        if element < flags.len() {
            flags[element] = true;
        }
    }
}

// Raises the flags of the elements of the leaves among nodes.
pub(crate) fn flag_leaves_of<F: Copy + Eq + Hash>(
    graph: &Graph<F>,
    nodes: &[NodeId],
    flags: &mut [bool],
)
    requires { All (λ p. p.0 < length graph.now.facts) nodes.now }
    ensures len { length flags.new ≡ length flags.old }
    ensures leaves { (e : ℕ) → e < length flags.old
        → flag flags.new e ≡ (leaf_in (node_flow graph.now) e nodes.now || flag flags.old e) }
{
    'nodes: for node in nodes {
        flag_leaf(graph, *node, flags);
    }
}

// Lists the element of a leaf, if its flag is lowered.
fn list_leaf<F: Copy + Eq + Hash>(
    graph: &Graph<F>,
    node: NodeId,
    flags: &[bool],
    list: &mut Vec<u32>,
) -> Result<(), AllocError>
    requires { node.0 < length graph.now.facts }
    ensures { OnOk result (Lists flags.now
        (λ e. is_leaf_of e ((node_flow graph.now).kind node.0)) list.old.items list.new.items) }
{
    if let NodeKind::Leaf(element) = graph.kind(node) {
        list_lowered(flags, element, list)?;
    }
    Ok(())
}

// Lists the elements of the leaves among nodes whose flags are lowered.
pub(crate) fn list_leaves<F: Copy + Eq + Hash>(
    graph: &Graph<F>,
    nodes: &[NodeId],
    flags: &[bool],
    list: &mut Vec<u32>,
) -> Result<(), AllocError>
    requires { All (λ p. p.0 < length graph.now.facts) nodes.now }
    ensures { OnOk result (Lists flags.now
        (λ e. leaf_in (node_flow graph.now) e nodes.now) list.old.items list.new.items) }
{
    'nodes: for node in nodes {
        list_leaf(graph, *node, flags, list)?;
    }
    Ok(())
}

// Raises the flags of the elements of all flagged leaves, where none is raised.
fn flag_leaves<F: Copy + Eq + Hash>(graph: &Graph<F>, reached: &[bool], flags: &mut [bool])
    requires len { length reached.now ≡ length graph.now.facts }
    requires lowered { (e : ℕ) → e < length flags.old → flag flags.old e ≡ false }
    ensures graph { IsGraph graph.now }
    ensures len { length flags.new ≡ length flags.old }
    ensures leaves { (e : ℕ) → e < length flags.old
        → TellsLeaf (node_flow graph.now) reached.now (length graph.now.facts) e
        (flag flags.new e) }
{
    'nodes: for number in 0..graph.len() {
        if reached[number as usize] {
            flag_leaf(graph, NodeId(number), flags);
        }
    }
}

// Which elements are at leaves that the tested nodes reach: these are in some derivation of one.
pub(crate) fn elements_reached<F: Copy + Eq + Hash>(
    alloc: Global,
    graph: &Graph<F>,
    elements: u32,
    tested: &[NodeId],
    reached: &[bool],
) -> Result<Vec<bool>, AllocError>
    requires valid { All (λ p. p.0 < length graph.now.facts) tested.now }
    requires len { length reached.now ≡ length graph.now.facts }
    requires tested { All (λ p. flag reached.now p.0 ≡ true) tested.now }
    requires closed { IsClosed (node_flow graph.now) 0 reached.now }
    requires within { (e : ℕ) → IsReached (node_flow graph.now) e
        (map (λ p. p.0) tested.now) reached.now }
    ensures len { IfOk result (λ flags. length flags.items ≡ elements) }
    ensures some { IfOk result (λ flags. (e : ℕ) → e < elements
        → flag flags.items e ≡ occurs_in (node_flow graph.now) e (map (λ p. p.0) tested.now)) }
{
    let mut flags = vec![in alloc; false; elements as usize]?;
    flag_leaves(graph, reached, &mut flags);
    Ok(flags)
}
