//! Marks: how well the tests cover each element of a configuration.
//!
//! An element is strong where it stands in every derivation of some tested fact, weak where it
//! stands in some derivation of one, and uncovered elsewhere; a line without an owner is outside.
//! This crate stands on `nc_graph`, whose graphs of facts and derivations it reads, on `nc_types`
//! for the elements and lines of a network, and on `nc_formula` with `nc_diagram` for the marks by
//! diagrams. Its contract promises the marks by their definition, over all derivations of the
//! tested nodes of any graph. They are worked out in one pass down the numbers of the nodes, for
//! what the tested ones reach, and one pass up, which makes each node's set of strong elements of
//! those of its parents. A set is kept as its own elements, followed by an earlier set: a union takes
//! time for its sets besides the largest, an intersection for what its sets have before the one in
//! which all of them end. One set is kept for a node, or none where a parent's serves.
//! `marks_by_diagrams` answers the same marks by what the diagrams of the tested nodes need. For a
//! graph that grows, `KeptMarks` keeps the sets, which nodes the live ones reach, and the marks, so
//! that a further test costs what is new, and to forget tests costs one pass over the graph; it
//! shows the set of each node, and `nodes_below` answers what nodes reach in the time for that
//! alone. That the marks of nodes are those of their facts, and that what is kept of a graph is kept
//! of a longer one, are the laws of `laws`.
#![tactic(auto)]

pub mod below;
pub mod by_diagrams;
mod changed;
mod combine;
pub mod evaluation;
mod flags;
mod gathered;
pub mod kept;
pub mod laws;
pub mod mark;
mod raise;
mod reach;
mod sets;
