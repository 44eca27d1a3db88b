//! Marks of elements and of lines.
ghost use Rattle.std.specs.Prelude.{◌≡◌, ◌↔◌, ◌||◌, ◌<◌, ℕ, All, length, false, Some, None, slice_index_or, IfOk};
ghost use Rattle.nc_graph.specs.Nodes.{node_flow};
ghost use Rattle.nc_marks.specs.Marks.{mark_of, marked_elements};
ghost use Rattle.nc_marks.specs.Reach.{leaf_in};
ghost use Rattle.nc_marks.specs.Sets.{flag, has, in_some};
ghost use Rattle.nc_marks.specs.declared.mark.Mark.TheVariants.{Outside};
ghost use Rattle.nc_types.specs.Network.{element_count, owner_at};

use crate::flags::{flag_strong, list_sets};
use crate::reach::{flag_leaves_of, list_leaves};
use crate::sets::Sets;
use nc_graph::graph::Graph;
use nc_graph::node::NodeId;
use nc_types::{ElementId, Network, RouterId};
use std::alloc::{AllocError, Global};
use std::hash::Hash;
use std::marker::Model;

/// How an element or a line is covered by the tests.
#[derive(Clone, Copy, PartialEq, Eq, Hash)]
pub enum Mark {
    /// The element stands in every derivation of some tested fact.
    Strong,
    /// The element stands in some derivation of a tested fact, and isn't strong.
    Weak,
    /// The element stands in no derivation of a tested fact.
    Uncovered,
    /// The line is of no element.
    Outside,
}

/// The marks of the elements of a configuration, which are numbered from 0.
#[derive(Drop)]
pub struct Marks {
    strong: Vec<bool>,
    some: Vec<bool>,
}

impl Model for Marks {
    ghost use Rattle.std.specs.Prelude.{◌≡◌, length};
    ghost use Rattle.nc_marks.specs.Marks.{ElementMarks};

    ghost Value = { ElementMarks };

    ghost view = { λ m. record { strong = m.strong.items; some = m.some.items } };

    ghost invariant = { λ m. length m.some.items ≡ length m.strong.items };
}

impl Marks {
    // Marks by whether each element is strong, and whether it is in some derivation.
    pub(crate) fn new(strong: Vec<bool>, some: Vec<bool>) -> Self
        requires { length some.items ≡ length strong.items }
        ensures { result ≡ record { strong = strong.items; some = some.items } }
    {
        Marks { strong, some }
    }

    // No element is marked: each of the elements below `elements` is uncovered.
    pub(crate) fn none(alloc: Global, elements: u32) -> Result<Marks, AllocError>
        ensures elements { IfOk result (λ m. marked_elements m ≡ elements) }
        ensures strong { IfOk result (λ m. (e : ℕ) → flag m.strong e ≡ false) }
        ensures some { IfOk result (λ m. (e : ℕ) → flag m.some e ≡ false) }
    {
        let strong = vec![in alloc; false; elements as usize]?;
        let some = vec![in alloc; false; elements as usize]?;
        Ok(Marks { strong, some })
    }

    // Marks the elements of the sets of nodes as strong.
    pub(crate) fn add_strong(&mut self, sets: &Sets, places: &[u32], nodes: &[NodeId])
        requires within { All (λ p. p.0 < length places.now) nodes.now }
        requires placed { All
            (λ p. slice_index_or places.now p.0 0 < length sets.now.sets) nodes.now }
        ensures elements { marked_elements self.new ≡ marked_elements self.old }
        ensures some { self.new.some ≡ self.old.some }
        ensures strong { (e : ℕ) → e < marked_elements self.old
            → flag self.new.strong e
            ≡ (in_some sets.now places.now nodes.now e || flag self.old.strong e) }
    {
        flag_strong(sets, places, nodes, &mut self.strong);
    }

    // Marks the elements of the leaves among nodes as being in some derivation.
    pub(crate) fn add_leaves<F: Copy + Eq + Hash>(&mut self, graph: &Graph<F>, nodes: &[NodeId])
        requires { All (λ p. p.0 < length graph.now.facts) nodes.now }
        ensures elements { marked_elements self.new ≡ marked_elements self.old }
        ensures strong { self.new.strong ≡ self.old.strong }
        ensures some { (e : ℕ) → e < marked_elements self.old
            → flag self.new.some e ≡ (leaf_in
            (node_flow graph.now) e nodes.now || flag self.old.some e) }
    {
        flag_leaves_of(graph, nodes, &mut self.some);
    }

    // The elements that get another mark by the leaves among nodes, or by the sets of tested nodes.
    pub(crate) fn touched<F: Copy + Eq + Hash>(
        &self,
        alloc: Global,
        graph: &Graph<F>,
        nodes: &[NodeId],
        sets: &Sets,
        places: &[u32],
        tested: &[NodeId],
    ) -> Result<Vec<u32>, AllocError>
        requires valid { All (λ p. p.0 < length graph.now.facts) nodes.now }
        requires within { All (λ p. p.0 < length places.now) tested.now }
        requires placed { All
            (λ p. slice_index_or places.now p.0 0 < length sets.now.sets) tested.now }
        ensures within { IfOk result (λ touched. All
            (λ e. e < marked_elements self.now) touched.items) }
        ensures some { IfOk result (λ touched. (e : ℕ) → e < marked_elements self.now
            → has touched.items e ≡ false
            → flag self.now.some e ≡ false → leaf_in (node_flow graph.now) e nodes.now ≡ false) }
        ensures strong { IfOk result (λ touched. (e : ℕ) → e < marked_elements self.now
            → has touched.items e ≡ false
            → flag self.now.strong e ≡ false → in_some sets.now places.now tested.now e ≡ false) }
    {
        let mut touched = Vec::new(alloc);
        list_leaves(graph, nodes, &self.some, &mut touched)?;
        list_sets(sets, places, tested, &self.strong, &mut touched)?;
        Ok(touched)
    }

    /// The mark of an element, whose number is below the number of elements. It is never `Outside`.
    pub fn of_element(&self, id: ElementId) -> Mark
        requires { id.0 < marked_elements self.now }
        ensures mark { result ≡ mark_of self.now (Some id.0) }
        ensures inside { result ≡ Outside → ⊥ }
    {
        if self.strong[id.0 as usize] {
            Mark::Strong
        } else if self.some[id.0 as usize] {
            Mark::Weak
        } else {
            Mark::Uncovered
        }
    }

    /// The mark of a line of a router's file, from 1: `Outside` where no element has it, and else
    /// that of the element. The marks are those of the elements of the network.
    pub fn of_line(&self, network: &Network, router: RouterId, line: u32) -> Mark
        requires { marked_elements self.now ≡ element_count network.now }
        ensures mark { result ≡ mark_of self.now (owner_at network.now router.0 line) }
        ensures outside { result ≡ Outside ↔ (owner_at network.now router.0 line ≡ None) }
    {
        match network.owner(router, line) {
            Some(element) => self.of_element(element),
            None => Mark::Outside,
        }
    }
}
