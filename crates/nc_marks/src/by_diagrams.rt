//! The marks of elements by the diagrams of the tested nodes.
ghost use Rattle.std.specs.Prelude.{◌≡◌, ◌||◌, ◌∷◌, [], ◌<◌, ℕ, All, length, map, IfOk, IfSome};
ghost use Rattle.nc_diagram.specs.Diagrams.{Belongs};
ghost use Rattle.nc_formula.specs.Formulas.{AreFormulas, StillKnown};
ghost use Rattle.nc_formula.specs.Parts.{IsBaseFrom, Gains};
ghost use Rattle.nc_graph.specs.Nodes.{node_flow};
ghost use Rattle.nc_marks.specs.Marks.{AreMarks};
ghost use Rattle.nc_marks.specs.Needed.{needed};
ghost use Rattle.nc_marks.specs.Reach.{strong_in};
ghost use Rattle.nc_marks.specs.Sets.{flag};

use crate::evaluation::elements_strong;
use crate::mark::Marks;
use crate::reach::{elements_reached, reach};
use nc_diagram::{Ref, Store, StoreFault};
use nc_formula::Formulas;
use nc_graph::graph::Graph;
use nc_graph::node::NodeId;
use std::alloc::{AllocError, Global};
use std::hash::Hash;

// Raises the flag of an element that a diagram needs.
fn flag_needed(store: &Store, reference: Ref, element: u32, flags: &mut [bool])
    requires belongs { Belongs store.now.nodes reference }
    requires within { element < length flags.old }
    ensures len { length flags.new ≡ length flags.old }
    ensures here { flag flags.new element
        ≡ (needed store.now.nodes reference element || flag flags.old element) }
    ensures others { (e : ℕ) → (e ≡ element → ⊥) → flag flags.new e ≡ flag flags.old e }
{
    if store.needs(reference, element) {
        flags[element as usize] = true;
    }
}

// Raises the flags of the elements that a diagram needs.
fn flag_all_needed(store: &Store, reference: Ref, elements: u32, flags: &mut [bool])
    requires belongs { Belongs store.now.nodes reference }
    requires len { length flags.old ≡ elements }
    ensures len { length flags.new ≡ length flags.old }
    ensures flags { (e : ℕ) → e < length flags.old
        → flag flags.new e ≡ (needed store.now.nodes reference e || flag flags.old e) }
{
    'elements: for element in 0..elements {
        flag_needed(store, reference, element, flags);
    }
}

// Which elements are strong for a tested node, by the nodes' diagrams; None where the store is full.
fn strong_by_diagrams<F: Copy + Eq + Hash>(
    alloc: Global,
    graph: &Graph<F>,
    formulas: &mut Formulas,
    store: &mut Store,
    elements: u32,
    tested: &[NodeId],
) -> Result<Option<Vec<bool>>, AllocError>
    requires valid { All (λ p. p.0 < length graph.now.facts) tested.now }
    requires formulas { AreFormulas (node_flow graph.now) store.old.nodes formulas.old }
    ensures len { IfOk result (λ o. IfSome o (λ flags. length flags.items ≡ elements)) }
    ensures strong { IfOk result (λ o. IfSome o (λ flags. (e : ℕ) → e < elements
        → flag flags.items e ≡ strong_in (node_flow graph.now) e (map (λ p. p.0) tested.now))) }
    ensures still { StillKnown formulas.old formulas.new }
    ensures formulas { AreFormulas (node_flow graph.now) store.new.nodes formulas.new }
    ensures gains { Gains (IsBaseFrom (node_flow graph.now) (map (λ p. p.0) tested.now))
        store.old store.new }
{
    let _nodes = graph.len();
    let mut flags = vec![in alloc; false; elements as usize]?;
    'nodes: for node in tested {
        match formulas.of(graph, store, *node) {
            Ok(reference) => flag_all_needed(store, reference, elements, &mut flags),
            Err(StoreFault::Full) => return Ok(None),
            Err(StoreFault::Memory) => return Err(AllocError),
        }
    }
    Ok(Some(flags))
}

/// The marks that `marks` answers, by the diagrams of the tested nodes: an element is strong where
/// the diagram of a tested node needs it. Where the store is full, the strong elements are those of
/// plain evaluation. All references of the formulas were found for this graph and this store.
///
/// # Errors
///
/// That memory is refused, and never that the store is full.
pub fn marks_by_diagrams<F: Copy + Eq + Hash>(
    alloc: Global,
    graph: &Graph<F>,
    formulas: &mut Formulas,
    store: &mut Store,
    elements: u32,
    tested: &[NodeId],
) -> Result<Marks, AllocError>
    requires valid { All (λ p. p.0 < length graph.now.facts) tested.now }
    requires formulas { AreFormulas (node_flow graph.now) store.old.nodes formulas.old }
    ensures marks { IfOk result
        (λ marks. AreMarks (node_flow graph.now) (map (λ p. p.0) tested.now) elements marks) }

    // At every answer what was known is known still and true, and the store has its nodes and parts
    // of what the tested nodes are derived from.
    ensures still { StillKnown formulas.old formulas.new }
    ensures formulas { AreFormulas (node_flow graph.now) store.new.nodes formulas.new }
    ensures gains { Gains (IsBaseFrom (node_flow graph.now) (map (λ p. p.0) tested.now))
        store.old store.new }
{
    let found = strong_by_diagrams(alloc, graph, formulas, store, elements, tested)?;
    let reached = reach(alloc, graph, tested)?;
    let some = elements_reached(alloc, graph, elements, tested, &reached)?;
    let strong = match found {
        Some(strong) => strong,
        None => elements_strong(alloc, graph, elements, tested, &reached)?,
    };
    Ok(Marks::new(strong, some))
}
