//! Raising the flags of all that further nodes reach, where flags tell what earlier ones reach: it
//! takes time for the nodes that are raised and their parents, and can be taken back.
ghost use Rattle.std.specs.Prelude.{◌≡◌, ◌<◌, ◌||◌, ◌++◌, ℕ, Bool, All, List, [], length, true, false, nat_eq, map, if◌then◌else◌, IfOk, OnOk, OnErr};
ghost use Rattle.nc_graph.specs.Nodes.{node_flow, IsGraph};
ghost use Rattle.nc_marks.specs.Sets.{flag, has_node};
ghost use Rattle.nc_marks.specs.Reach.{AreReached, IsClosed, IsReached, IsOpenAt, Raises};

use nc_graph::graph::Graph;
use nc_graph::node::NodeId;
use std::alloc::{AllocError, Global};
use std::hash::Hash;

// Raises the flag of a node, and lists the node where it is raised anew.
fn raise_one(
    reached: &mut Vec<bool>,
    raised: &mut Vec<NodeId>,
    node: NodeId,
) -> Result<(), AllocError>
    requires { node.0 < length reached.old.items }
    ensures raises { Raises raised.old.items raised.new.items reached.old.items reached.new.items }
    ensures flags { OnOk result ((i : ℕ)
        → flag reached.new.items i ≡ (nat_eq i node.0 || flag reached.old.items i)) }
{
    let place = node.0 as usize;
    if !reached[place] {
        raised.push(node)?;
        reached[place] = true;
    }
    Ok(())
}

// Raises the flags of nodes, and lists those that are raised anew.
fn raise_nodes(
    reached: &mut Vec<bool>,
    raised: &mut Vec<NodeId>,
    nodes: &[NodeId],
) -> Result<(), AllocError>
    requires { All (λ p. p.0 < length reached.old.items) nodes.now }
    ensures raises { Raises raised.old.items raised.new.items reached.old.items reached.new.items }
    ensures flags { OnOk result ((i : ℕ)
        → flag reached.new.items i ≡ (has_node nodes.now i || flag reached.old.items i)) }
{
    'nodes: for node in nodes {
        raise_one(reached, raised, *node)?;
    }
    Ok(())
}

// Raises the flags of all that the listed nodes reach, and lists those that are raised anew.
fn spread<F: Copy + Eq + Hash>(
    graph: &Graph<F>,
    reached: &mut Vec<bool>,
    raised: &mut Vec<NodeId>,
) -> Result<(), AllocError>
    requires len { length reached.old.items ≡ length graph.now.facts }
    requires flagged { All (λ p. flag reached.old.items p.0 ≡ true) raised.old.items }
    ensures raises { Raises raised.old.items raised.new.items reached.old.items reached.new.items }
    ensures closed { OnOk result (IsOpenAt (node_flow graph.now) raised.old.items reached.old.items
        → IsClosed (node_flow graph.now) 0 reached.new.items) }
    ensures within { OnOk result ((e : ℕ) (tops : List ℕ)
        → IsReached (node_flow graph.now) e tops reached.old.items
        → IsReached (node_flow graph.now) e tops reached.new.items) }
{
    let _nodes = graph.len();
    let mut at = 0;
    'waiting: while at < raised.len() {
        raise_nodes(reached, raised, graph.parents(raised[at]))?;
        at += 1;
    }
    Ok(())
}

// Raises the flags of nodes and of all that they reach, and lists those that are raised anew.
fn raise_all<F: Copy + Eq + Hash>(
    graph: &Graph<F>,
    nodes: &[NodeId],
    reached: &mut Vec<bool>,
    raised: &mut Vec<NodeId>,
) -> Result<(), AllocError>
    requires valid { All (λ p. p.0 < length graph.now.facts) nodes.now }
    requires len { length reached.old.items ≡ length graph.now.facts }
    requires none { raised.old.items ≡ [] }
    ensures raises { Raises [] raised.new.items reached.old.items reached.new.items }
    ensures reached { OnOk result ((before : List ℕ)
        → AreReached (node_flow graph.now) before reached.old.items
        → AreReached (node_flow graph.now) (before ++ map (λ p. p.0) nodes.now) reached.new.items) }
{
    raise_nodes(reached, raised, nodes)?;
    spread(graph, reached, raised)?;
    Ok(())
}

// Lowers the flags of nodes. Where just theirs were raised, the flags are as before.
pub(crate) fn lower_nodes(reached: &mut Vec<bool>, nodes: &[NodeId])
    requires { All (λ p. p.0 < length reached.old.items) nodes.now }
    ensures len { length reached.new.items ≡ length reached.old.items }
    ensures flags { (i : ℕ) → flag reached.new.items i
        ≡ (if has_node nodes.now i then false else flag reached.old.items i) }
    ensures back { (before : List Bool) → Raises [] nodes.now before reached.old.items
        → reached.new.items ≡ before }
{
    'nodes: for node in nodes {
        reached[node.0 as usize] = false;
    }
}

// Where flags tell what earlier nodes reach, raises those of all that further nodes reach, and
// answers the nodes that they reach anew.
pub(crate) fn raise<F: Copy + Eq + Hash>(
    alloc: Global,
    graph: &Graph<F>,
    nodes: &[NodeId],
    reached: &mut Vec<bool>,
) -> Result<Vec<NodeId>, AllocError>
    requires valid { All (λ p. p.0 < length graph.now.facts) nodes.now }
    requires len { length reached.old.items ≡ length graph.now.facts }
    ensures raises { IfOk result
        (λ raised. Raises [] raised.items reached.old.items reached.new.items) }
    ensures valid { IfOk result (λ raised. All (λ p. p.0 < length graph.now.facts) raised.items) }
    ensures reached { OnOk result ((before : List ℕ)
        → AreReached (node_flow graph.now) before reached.old.items
        → AreReached (node_flow graph.now) (before ++ map (λ p. p.0) nodes.now) reached.new.items) }
    ensures unchanged { OnErr result (reached.new.items ≡ reached.old.items) }
{
    let mut raised = Vec::new(alloc);
    match raise_all(graph, nodes, reached, &mut raised) {
        Ok(()) => Ok(raised),
        Err(error) => {
            lower_nodes(reached, &raised);
            Err(error)
        }
    }
}
