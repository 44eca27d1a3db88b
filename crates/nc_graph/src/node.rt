//! What a node of a flow graph is, and the number that stands for it.

/// The kind of a fact: how it follows from its parents.
#[derive(Clone, Copy, PartialEq, Eq, Hash)]
pub enum NodeKind {
    /// An element of the configuration, by its number. It has no parents.
    Leaf(u32),
    /// Conjunctive: it follows from all of its parents together.
    Every,
    /// Disjunctive: it follows from each of its parents alone, and has at least one.
    Any,
}

/// The number of a node in its graph: nodes are numbered from 0 in the order in which they came.
#[derive(Clone, Copy, PartialEq, Eq, PartialOrd, Ord, Hash)]
pub struct NodeId(pub u32);
