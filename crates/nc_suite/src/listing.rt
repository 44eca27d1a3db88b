//! The elements that a test touches, as a list.
ghost use Rattle.std.specs.Prelude.{◌≡◌, ◌<◌, ℕ, All, List, [], length, true, false, nat_eq, map, if◌then◌else◌, IfOk, OnOk};
ghost use Rattle.std.specs.List.{list_any};
ghost use Rattle.nc_graph.specs.Nodes.{node_flow};
ghost use Rattle.nc_marks.specs.Kept.{AreKept, kept_nodes, strong_at};
ghost use Rattle.nc_marks.specs.Reach.{is_leaf_of, leaf_in};
ghost use Rattle.nc_marks.specs.Sets.{flag, has};
ghost use Rattle.nc_marks.specs.declared.mark.Mark.TheVariants.{Strong, Weak};
ghost use Rattle.nc_suite.specs.Counts.{mark_in, mark_for, marked_if, over, is_covered, is_listed, AreApart};

use crate::touch::Touch;
use nc_graph::graph::Graph;
use nc_graph::node::{NodeId, NodeKind};
use nc_marks::below::nodes_below;
use nc_marks::kept::KeptMarks;
use nc_marks::mark::Mark;
use std::alloc::{AllocError, Global};
use std::hash::Hash;
use std::marker::Model;

// The elements that are listed, each once, and a flag for each element that counts: whether it is.
#[derive(Drop)]
pub(crate) struct Listing {
    touches: Vec<Touch>,
    flags: Vec<bool>,
}

impl Model for Listing {
    ghost use Rattle.std.specs.Prelude.{length};
    ghost use Rattle.nc_suite.specs.Counts.{Listed, IsListing};

    ghost Value = { Listed };

    ghost view = { λ l. record { touches = l.touches.items; width = length l.flags.items } };

    ghost invariant = { λ l. IsListing l.flags.items l.touches.items };
}

// So many flags, all lowered.
pub(crate) fn lowered_flags(alloc: Global, count: u32) -> Result<Vec<bool>, AllocError>
    ensures len { IfOk result (λ flags. length flags.items ≡ count) }
    ensures lowered { IfOk result (λ flags. (i : ℕ) → flag flags.items i ≡ false) }
{
    let flags = vec![in alloc; false; count as usize]?;
    Ok(flags)
}

// Lowers the flags of listed elements.
fn lower_flags(flags: &mut Vec<bool>, touches: &[Touch])
    requires { All (λ t. t.element < length flags.old.items) touches.now }
    ensures len { length flags.new.items ≡ length flags.old.items }
    ensures flags { (e : ℕ) → e < length flags.old.items → flag flags.new.items e
        ≡ (if is_listed touches.now e then false else flag flags.old.items e) }
{
    'touches: for touch in touches {
        flags[touch.element as usize] = false;
    }
}

impl Listing {
    // No elements, of those below `width`.
    pub(crate) fn new(alloc: Global, width: u32) -> Result<Listing, AllocError>
        ensures { IfOk result (λ l. l ≡ record { touches = []; width = width }) }
    {
        let flags = lowered_flags(alloc, width)?;
        let touches = Vec::new(alloc);
        Ok(Listing { touches, flags })
    }

    // The elements that are listed, with their marks.
    pub(crate) fn touches(&self) -> &[Touch]
        ensures touches { result.now ≡ self.now.touches }
        ensures apart { AreApart self.now.width self.now.touches }
    {
        self.touches.as_slice()
    }

    // Leaves no elements.
    pub(crate) fn clear(&mut self)
        ensures { self.new ≡ record { touches = []; width = self.old.width } }
    {
        lower_flags(&mut self.flags, &self.touches);
        self.touches.clear();
    }

    // Lists an element with a mark, if it counts and isn't listed.
    fn add(&mut self, element: u32, mark: Mark) -> Result<(), AllocError>
        requires { is_covered mark ≡ true }
        ensures width { self.new.width ≡ self.old.width }
        ensures marks { OnOk result ((e : ℕ) → e < self.old.width → mark_in self.new.touches e
            ≡ over (mark_in self.old.touches e) (marked_if (nat_eq e element) mark)) }
    {
        let place = element as usize;
        if place < self.flags.len() && !self.flags[place] {
            self.touches.push(Touch { element, mark })?;
            self.flags[place] = true;
        }
        Ok(())
    }

    // Lists the elements of a set as strong.
    fn add_set(&mut self, set: &[u32]) -> Result<(), AllocError>
        ensures width { self.new.width ≡ self.old.width }
        ensures marks { OnOk result ((e : ℕ) → e < self.old.width → mark_in self.new.touches e
            ≡ over (mark_in self.old.touches e) (marked_if (has set.now e) Strong)) }
    {
        'elements: for element in set {
            self.add(*element, Mark::Strong)?;
        }
        Ok(())
    }

    // Lists the elements that are kept as strong for nodes.
    fn add_strong(&mut self, marks: &KeptMarks, nodes: &[NodeId]) -> Result<(), AllocError>
        requires { All (λ p. p.0 < kept_nodes marks.now) nodes.now }
        ensures width { self.new.width ≡ self.old.width }
        ensures marks { OnOk result ((e : ℕ) → e < self.old.width → mark_in self.new.touches e
            ≡ over (mark_in self.old.touches e)
            (marked_if (list_any (λ p. has (strong_at marks.now p.0) e) nodes.now) Strong)) }
    {
        'nodes: for node in nodes {
            let set = marks.strong_of(*node)?;
            self.add_set(&set)?;
        }
        Ok(())
    }

    // Lists the element of a leaf as weak.
    fn add_leaf<F: Copy + Eq + Hash>(
        &mut self,
        graph: &Graph<F>,
        node: NodeId,
    ) -> Result<(), AllocError>
        requires { node.0 < length graph.now.facts }
        ensures width { self.new.width ≡ self.old.width }
        ensures marks { OnOk result ((e : ℕ) → e < self.old.width → mark_in self.new.touches e
            ≡ over (mark_in self.old.touches e)
            (marked_if (is_leaf_of e ((node_flow graph.now).kind node.0)) Weak)) }
    {
        if let NodeKind::Leaf(element) = graph.kind(node) {
            self.add(element, Mark::Weak)?;
        }
        Ok(())
    }

    // Lists the elements of the leaves among nodes as weak.
    fn add_leaves<F: Copy + Eq + Hash>(
        &mut self,
        graph: &Graph<F>,
        nodes: &[NodeId],
    ) -> Result<(), AllocError>
        requires { All (λ p. p.0 < length graph.now.facts) nodes.now }
        ensures width { self.new.width ≡ self.old.width }
        ensures marks { OnOk result ((e : ℕ) → e < self.old.width → mark_in self.new.touches e
            ≡ over (mark_in self.old.touches e)
            (marked_if (leaf_in (node_flow graph.now) e nodes.now) Weak)) }
    {
        'nodes: for node in nodes {
            self.add_leaf(graph, *node)?;
        }
        Ok(())
    }

    // Lists just the elements that are strong or weak for a test of these nodes.
    pub(crate) fn list<F: Copy + Eq + Hash>(
        &mut self,
        alloc: Global,
        graph: &Graph<F>,
        marks: &KeptMarks,
        reached: &mut Vec<bool>,
        nodes: &[NodeId],
    ) -> Result<(), AllocError>
        requires valid { All (λ p. p.0 < length graph.now.facts) nodes.now }
        requires kept { (live : List ℕ) × AreKept (node_flow graph.now) (length graph.now.facts)
            live self.old.width marks.now }
        requires len { length reached.old.items ≡ length graph.now.facts }
        requires lowered { (i : ℕ) → flag reached.old.items i ≡ false }
        ensures reached { reached.new.items ≡ reached.old.items }
        ensures width { self.new.width ≡ self.old.width }
        ensures marks { OnOk result ((e : ℕ) → e < self.old.width → mark_in self.new.touches e
            ≡ mark_for (node_flow graph.now) (map (λ p. p.0) nodes.now) e) }
    {
        self.clear();
        self.add_strong(marks, nodes)?;
        let below = nodes_below(alloc, graph, nodes, reached)?;
        self.add_leaves(graph, &below)?;
        Ok(())
    }
}
