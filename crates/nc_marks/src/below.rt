//! The nodes that some nodes reach, where time is taken for these alone.
ghost use Rattle.std.specs.Prelude.{◌≡◌, ◌<◌, ℕ, All, length, false, map, IfOk};
ghost use Rattle.nc_graph.specs.Nodes.{node_flow};
ghost use Rattle.nc_marks.specs.Reach.{leaf_in, occurs_in};
ghost use Rattle.nc_marks.specs.Sets.{flag};

use crate::raise::{lower_nodes, raise};
use nc_graph::graph::Graph;
use nc_graph::node::NodeId;
use std::alloc::{AllocError, Global};
use std::hash::Hash;

/// The nodes that nodes of a graph reach, each once: the leaves among them are those of the elements
/// that stand in some derivation of one. The flags, one for each node of the graph, are all lowered,
/// and are so again afterwards. It takes time for the nodes that are reached and for their parents.
///
/// # Errors
///
/// That memory is refused.
pub fn nodes_below<F: Copy + Eq + Hash>(
    alloc: Global,
    graph: &Graph<F>,
    nodes: &[NodeId],
    flags: &mut Vec<bool>,
) -> Result<Vec<NodeId>, AllocError>
    requires valid { All (λ p. p.0 < length graph.now.facts) nodes.now }
    requires len { length flags.old.items ≡ length graph.now.facts }
    requires lowered { (i : ℕ) → flag flags.old.items i ≡ false }
    ensures flags { flags.new.items ≡ flags.old.items }
    ensures valid { IfOk result (λ found. All (λ p. p.0 < length graph.now.facts) found.items) }
    ensures leaves { IfOk result (λ found. (e : ℕ) → leaf_in (node_flow graph.now) e found.items
        ≡ occurs_in (node_flow graph.now) e (map (λ p. p.0) nodes.now)) }
{
    let _nodes = graph.len();
    let raised = raise(alloc, graph, nodes, flags)?;
    lower_nodes(flags, &raised);
    Ok(raised)
}
