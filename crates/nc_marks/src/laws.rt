//! The laws of marks, over every flow graph. Each is the contract of a function that does nothing:
//! a caller that needs a law calls the function at its type of facts.
ghost use Rattle.std.specs.Prelude.{ℕ, List, length, map};
ghost use Rattle.nc_graph.specs.Flow.{Flow, IsFlow};
ghost use Rattle.nc_graph.specs.Nodes.{Nodes, node_flow, IsGraph, Mirrors, Extends, AreNodesOf};
ghost use Rattle.nc_graph.specs.declared.node.NodeId.{NodeId};
ghost use Rattle.nc_marks.specs.Kept.{Kept, AreKept};
ghost use Rattle.nc_marks.specs.Marks.{ElementMarks, AreMarks};

/// What is kept of a graph is kept of one that extends it.
pub fn kept_of_an_extended_graph<F>()
    ensures { (old new : Nodes F) → IsGraph old → IsGraph new → Extends old new
        → (live : List ℕ) (elements : ℕ) (k : Kept)
        → AreKept (node_flow old) (length old.facts) live elements k
        → AreKept (node_flow new) (length old.facts) live elements k }
{}

/// A graph whose nodes are as a flow graph has their facts: the marks for nodes are the marks for
/// their facts.
pub fn marks_of_nodes_are_of_facts<F>()
    ensures { (g : Flow F) → IsFlow g → (n : Nodes F) → IsGraph n → Mirrors g n
        → (ids : List NodeId) (facts : List F) → AreNodesOf n ids facts
        → (elements : ℕ) (m : ElementMarks)
        → AreMarks (node_flow n) (map (λ p. p.0) ids) elements m → AreMarks g facts elements m }
{}
