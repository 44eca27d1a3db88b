//! The formulas found so far, and the formula of one node by those of its parents.
ghost use Rattle.std.specs.Prelude.{◌≡◌, ◌≤◌, ◌<◌, ◌∷◌, [], ℕ, All, Some, None, length, map, nat_eq, if◌then◌else◌, IfOk, OnOk, OnErr, IsErrOf};
ghost use Rattle.nc_graph.specs.Nodes.{node_flow};
ghost use Rattle.nc_diagram.specs.Diagrams.{Means};
ghost use Rattle.nc_formula.specs.Parts.{carrying, carrying_each, IsBaseOf, IsBaseFrom, IsBaseOfTest, Gains, IsCrowdedBy};
ghost use Rattle.nc_formula.specs.Formulas.{known, IsKnown, StillKnown, AreFormulas, HasReference};

use nc_diagram::{Ref, Store, StoreFault};
use nc_graph::graph::Graph;
use nc_graph::node::{NodeId, NodeKind};
use std::alloc::{AllocError, Global};
use std::hash::Hash;
use std::marker::Model;

/// The diagrams of the nodes of one graph, in one store, as far as they were asked for.
#[derive(Drop)]
pub struct Formulas {
    references: Vec<Option<Ref>>,
    pub(crate) alloc: Global,
}

impl Model for Formulas {
    ghost use Rattle.std.specs.Prelude.{List, Option, ℕ};

    ghost Value = { List (Option ℕ) };

    ghost view = { λ f. f.references.items };
}

// Makes places for nodes up to a number.
fn reach(references: &mut Vec<Option<Ref>>, node: NodeId) -> Result<(), AllocError>
    ensures known { (i : ℕ) → known references.new.items i ≡ known references.old.items i }
    ensures room { OnOk result (node.0 < length references.new.items) }
{
    for _number in references.len()..node.0 as usize + 1 {
        references.push(None)?;
    }
    Ok(())
}

impl Formulas {
    /// No formula is known. It takes no memory.
    pub fn new(alloc: Global) -> Formulas
        ensures { result ≡ [] }
    {
        Formulas {
            references: Vec::new(alloc),
            alloc,
        }
    }

    /// The reference of a node's diagram, where it was found before.
    pub fn known(&self, node: NodeId) -> Option<Ref>
        ensures { result ≡ known self.now node.0 }
    {
        let place = node.0 as usize;
        if place < self.references.len() {
            self.references[place]
        } else {
            None
        }
    }

    // Notes the reference of a node.
    fn learn(&mut self, node: NodeId, reference: Ref) -> Result<(), AllocError>
        ensures learned { OnOk result ((i : ℕ) → known self.new i
            ≡ (if nat_eq i node.0 then Some reference else known self.old i)) }
        ensures known { OnErr result ((i : ℕ) → known self.new i ≡ known self.old i) }
    {
        reach(&mut self.references, node)?;
        self.references[node.0 as usize] = Some(reference);
        Ok(())
    }

    // The diagram of a node, by the formulas of its parents.
    fn diagram<F: Copy + Eq + Hash>(
        &self,
        graph: &Graph<F>,
        store: &mut Store,
        node: NodeId,
    ) -> Result<Ref, StoreFault>
        requires valid { node.0 < length graph.now.facts }
        requires formulas { AreFormulas (node_flow graph.now) store.old.nodes self.now }
        requires parents { All (IsKnown self.now) ((node_flow graph.now).parents node.0) }
        ensures means { IfOk result (λ r. Means store.new r
            (carrying (node_flow graph.now) node.0)) }
        ensures gains { Gains (IsBaseOf (node_flow graph.now) node.0) store.old store.new }
        ensures full { IsErrOf result StoreFault.Full
            → IsCrowdedBy (IsBaseOf (node_flow graph.now) node.0) store.old }
    {
        let _nodes = graph.len();
        match graph.kind(node) {
            NodeKind::Leaf(element) => store.variable(element),
            NodeKind::Every => self.each_of(store, graph.parents(node)),
            NodeKind::Any => self.one_of(store, graph.parents(node)),
        }
    }

    // Makes and notes the formula of a node, by those of its parents. Where it is known, it is the
    // same: a function has one reference.
    pub(crate) fn know<F: Copy + Eq + Hash>(
        &mut self,
        graph: &Graph<F>,
        store: &mut Store,
        node: NodeId,
    ) -> Result<(), StoreFault>
        requires valid { node.0 < length graph.now.facts }
        requires formulas { AreFormulas (node_flow graph.now) store.old.nodes self.old }
        requires parents { All (IsKnown self.old) ((node_flow graph.now).parents node.0) }
        ensures known { OnOk result (IsKnown self.new node.0) }
        ensures still { StillKnown self.old self.new }
        ensures formulas { AreFormulas (node_flow graph.now) store.new.nodes self.new }
        ensures gains { Gains (IsBaseOf (node_flow graph.now) node.0) store.old store.new }
        ensures full { IsErrOf result StoreFault.Full
            → IsCrowdedBy (IsBaseOf (node_flow graph.now) node.0) store.old }
    {
        let reference = match self.diagram(graph, store, node) {
            Ok(reference) => reference,
            Err(fault) => return Err(fault),
        };
        let _nodes = store.len();
        self.learn(node, reference)?;
        Ok(())
    }

    /// The diagram of a node: of a leaf its variable, of a conjunctive node the conjunction and of a
    /// disjunctive one the disjunction of its parents' diagrams, in their order. What isn't known
    /// of all that the node is derived from is made and noted first, each node once; the work is in
    /// proportion to that. All references were found for this graph and this store.
    ///
    /// # Errors
    ///
    /// `Full` only where the functions of the nodes held by the store and the parts of what the node
    /// is derived from are more than the store's limit, and `Memory` where memory is refused. What
    /// was found by then is kept: each formula known stays true, and each node added is such a part.
    pub fn of<F: Copy + Eq + Hash>(
        &mut self,
        graph: &Graph<F>,
        store: &mut Store,
        node: NodeId,
    ) -> Result<Ref, StoreFault>
        requires valid { node.0 < length graph.now.facts }
        requires formulas { AreFormulas (node_flow graph.now) store.old.nodes self.old }

        // The reference means what carries the node, and is known from now on.
        ensures means { IfOk result (λ r. Means store.new r
            (carrying (node_flow graph.now) node.0)) }
        ensures known { IfOk result (λ r. known self.new node.0 ≡ Some r) }

        // At every answer what was known is known still and true, and the store has its nodes and
        // parts of what the node is derived from.
        ensures still { StillKnown self.old self.new }
        ensures formulas { AreFormulas (node_flow graph.now) store.new.nodes self.new }
        ensures gains { Gains (IsBaseFrom (node_flow graph.now) (node.0 ∷ []))
            store.old store.new }

        // It is full only where there are more such parts than fit.
        ensures full { IsErrOf result StoreFault.Full
            → IsCrowdedBy (IsBaseFrom (node_flow graph.now) (node.0 ∷ [])) store.old }
    {
        match self.know_each(graph, store, &[node]) {
            Ok(()) => Ok(self.reference(store, node)),
            Err(fault) => Err(fault),
        }
    }

    /// The diagram of a test by the nodes of its facts: the conjunction of their diagrams, in their
    /// order. It isn't noted; those of the nodes are, as by `of`.
    ///
    /// # Errors
    ///
    /// As by `of`, where the parts are also those of what carries the first facts of the test.
    pub fn of_each<F: Copy + Eq + Hash>(
        &mut self,
        graph: &Graph<F>,
        store: &mut Store,
        nodes: &[NodeId],
    ) -> Result<Ref, StoreFault>
        requires valid { All (λ p. p.0 < length graph.now.facts) nodes.now }
        requires formulas { AreFormulas (node_flow graph.now) store.old.nodes self.old }
        ensures means { IfOk result (λ r. Means store.new r
            (carrying_each (node_flow graph.now) (map (λ p. p.0) nodes.now))) }
        ensures known { OnOk result (All (λ p. IsKnown self.new p.0) nodes.now) }
        ensures still { StillKnown self.old self.new }
        ensures formulas { AreFormulas (node_flow graph.now) store.new.nodes self.new }
        ensures gains { Gains (IsBaseOfTest (node_flow graph.now) (map (λ p. p.0) nodes.now))
            store.old store.new }
        ensures full { IsErrOf result StoreFault.Full → IsCrowdedBy
            (IsBaseOfTest (node_flow graph.now) (map (λ p. p.0) nodes.now)) store.old }
    {
        match self.know_each(graph, store, nodes) {
            Ok(()) => {}
            Err(fault) => return Err(fault),
        }
        match self.each_of(store, nodes) {
            Ok(all) => Ok(all),
            Err(fault) => Err(fault),
        }
    }
}
