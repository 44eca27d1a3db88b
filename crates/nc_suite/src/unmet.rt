//! The elements that no node of a graph is.
ghost use Rattle.std.specs.Prelude.{◌≡◌, ◌<◌, ◌||◌, ◌++◌, ◌∷◌, [], ℕ, true, false, length, map, if◌then◌else◌, IfOk, OnOk};
ghost use Rattle.std.specs.List.{list_any};
ghost use Rattle.nc_graph.specs.Nodes.{IsGraph};
ghost use Rattle.nc_marks.specs.Reach.{is_leaf_of};
ghost use Rattle.nc_marks.specs.Sets.{flag};
ghost use Rattle.nc_suite.specs.Dead.{HaveNoNode, Misses};

use crate::listing::lowered_flags;
use nc_graph::graph::Graph;
use nc_graph::node::{NodeId, NodeKind};
use nc_types::ElementId;
use std::alloc::{AllocError, Global};
use std::hash::Hash;

// Raises the flag of a leaf's element, if it has one.
fn flag_element(kind: NodeKind, flags: &mut Vec<bool>)
    ensures len { length flags.new.items ≡ length flags.old.items }
    ensures flags { (e : ℕ) → e < length flags.old.items
        → flag flags.new.items e ≡ (is_leaf_of e kind || flag flags.old.items e) }
{
    if let NodeKind::Leaf(element) = kind {
        let place = element as usize;
        if place < flags.len() {
            flags[place] = true;
        }
    }
}

// Raises the flags of the elements that nodes are.
fn flag_elements<F: Copy + Eq + Hash>(graph: &Graph<F>, flags: &mut Vec<bool>)
    ensures graph { IsGraph graph.now }
    ensures len { length flags.new.items ≡ length flags.old.items }
    ensures flags { (e : ℕ) → e < length flags.old.items → flag flags.new.items e
        ≡ (list_any (is_leaf_of e) graph.now.kinds || flag flags.old.items e) }
{
    'nodes: for number in 0..graph.len() {
        flag_element(graph.kind(NodeId(number)), flags);
    }
}

// Lists an element, if its flag is lowered.
fn list_element(flags: &[bool], element: u32, list: &mut Vec<ElementId>) -> Result<(), AllocError>
    requires { element < length flags.now }
    ensures { OnOk result (map (λ id. id.0) list.new.items
        ≡ (if flag flags.now element then map (λ id. id.0) list.old.items
        else map (λ id. id.0) list.old.items ++ element ∷ [])) }
{
    if !flags[element as usize] {
        list.push(ElementId(element))?;
    }
    Ok(())
}

// The elements whose flags are lowered, ascending.
fn elements_lowered(
    alloc: Global,
    flags: &[bool],
    elements: u32,
) -> Result<Vec<ElementId>, AllocError>
    requires { length flags.now ≡ elements }
    ensures { IfOk result (λ listed. Misses (λ e. flag flags.now e ≡ true) elements
        (map (λ id. id.0) listed.items)) }
{
    let mut listed = Vec::new(alloc);
    'elements: for element in 0..elements {
        list_element(flags, element, &mut listed)?;
    }
    Ok(listed)
}

/// The elements below `elements` that no node of a graph is, ascending. Where the graph is the closure
/// of some roots, these stand in no derivation of a root. It takes time for the nodes and for the
/// elements.
///
/// # Errors
///
/// That memory is refused.
pub fn dead<F: Copy + Eq + Hash>(
    alloc: Global,
    graph: &Graph<F>,
    elements: u32,
) -> Result<Vec<ElementId>, AllocError>
    ensures { IfOk result (λ dead. HaveNoNode graph.now elements (map (λ id. id.0) dead.items)) }
{
    let mut flags = lowered_flags(alloc, elements)?;
    flag_elements(graph, &mut flags);
    let dead = elements_lowered(alloc, &flags, elements)?;
    Ok(dead)
}
