//! A graph of facts: each has a node, whose parents have lower numbers.
ghost use Rattle.std.specs.Prelude.{◌≡◌, ◌↔◌, ℕ, ◌+◌, ◌-◌, ◌<◌, ◌≤◌, ◌++◌, true, false, [], length, slice_get, All, IfOk, OnOk, OnErr, IsErrOf, MatchOption};
ghost use Rattle.std.specs.List.{list_any, IsDistinct};
ghost use Rattle.nc_graph.specs.Closure.{IsClosure, ReachesMoreThan};
ghost use Rattle.nc_graph.specs.Flow.{Flow, raised};
ghost use Rattle.nc_graph.specs.Nodes.{no_nodes, first_nodes, IsGraph, Mirrors, Extends, HasShape, AreNodesOf, with_node};

use crate::fault::GraphFault;
use crate::inference::Inference;
use crate::lists::Lists;
use crate::node::{NodeId, NodeKind};
use crate::walk::walk;
use indexmap::IndexSet;
use std::alloc::{AllocError, Global};
use std::hash::Hash;
use std::marker::Model;

/// A graph of at most `limit` facts. A node, by its number, has a fact, that fact's kind and the
/// nodes of its parents.
#[derive(Drop)]
pub struct Graph<F: Copy + Eq + Hash> {
    facts: IndexSet<F>,
    kinds: Vec<NodeKind>,
    parents: Lists<NodeId>,
    limit: u32,
    alloc: Global,
}

impl<F: Copy + Eq + Hash> Model for Graph<F> {
    ghost use Rattle.nc_graph.specs.Nodes.{Nodes, IsGraph};

    ghost Value = { Nodes F };

    ghost view = { λ g. record {
      facts = g.facts.keys;
      kinds = g.kinds.items;
      parents = g.parents;
      limit = g.limit;
    } };

    ghost invariant = { λ g. IsGraph (record {
      facts = g.facts.keys;
      kinds = g.kinds.items;
      parents = g.parents;
      limit = g.limit;
    }) };
}

impl<F: Copy + Eq + Hash> Graph<F> {
    /// A graph without nodes. It takes no memory.
    pub fn new(alloc: Global, limit: u32) -> Self
        ensures empty { result ≡ no_nodes limit }
        ensures mirrors { (g : Flow F) → Mirrors g result }
    {
        Graph {
            facts: IndexSet::new(alloc),
            kinds: Vec::new(alloc),
            parents: Lists::new(alloc),
            limit,
            alloc,
        }
    }

    /// The number of nodes. They are numbered from 0.
    pub fn len(&self) -> u32
        ensures len { result ≡ length self.now.facts }
        ensures graph { IsGraph self.now }
        ensures distinct { IsDistinct F.eq self.now.facts }
    {
        self.facts.len() as u32
    }

    /// Whether there is no node.
    pub fn is_empty(&self) -> bool
        ensures { result ≡ true ↔ (self.now.facts ≡ []) }
    {
        self.facts.is_empty()
    }

    /// The fact of a node.
    pub fn fact(&self, node: NodeId) -> &F
        requires { node.0 < length self.now.facts }
        ensures { slice_get self.now.facts node.0 ≡ Some result.now }
    {
        &self.facts.as_slice()[node.0 as usize]
    }

    /// The kind of a node's fact.
    pub fn kind(&self, node: NodeId) -> NodeKind
        requires { node.0 < length self.now.facts }
        ensures { slice_get self.now.kinds node.0 ≡ Some result }
    {
        self.kinds[node.0 as usize]
    }

    /// The nodes of a fact's parents, in the order of the rules that gave them.
    pub fn parents(&self, node: NodeId) -> &[NodeId]
        requires { node.0 < length self.now.facts }
        ensures parents { slice_get self.now.parents node.0 ≡ Some result.now }
        ensures lower { All (λ p. p.0 < node.0) result.now }
    {
        self.parents.get(node.0 as usize)
    }

    /// Adds facts with all that they are derived from, each fact once, and answers their nodes in
    /// order. A fact that has a node keeps it, and is not inferred again. The facts hold, and the
    /// nodes of the graph are as these rules have them.
    ///
    /// # Errors
    ///
    /// `Full` where the facts of the graph with what the new ones are derived from are more than
    /// the limit, and `Memory` where memory is refused. The graph is then as it was before.
    pub fn add<I: Inference<Fact = F>>(
        &mut self,
        rules: &mut I,
        facts: &[F],
    ) -> Result<Vec<NodeId>, GraphFault>
        requires holds { All (λ f. (I.flow rules.old).holds f ≡ true) facts.now }
        requires mirrors { Mirrors (I.flow rules.old) self.old }

        // The facts are the closure, each with its kind and its parents; old nodes keep their
        // numbers.
        ensures closure { OnOk result
            (IsClosure (I.flow rules.old) (self.old.facts ++ facts.now) self.new.facts) }
        ensures kept { OnOk result (Extends self.old self.new) }
        ensures mirrors { Mirrors (I.flow rules.old) self.new }
        ensures nodes { IfOk result (λ nodes. AreNodesOf self.new nodes.items facts.now) }

        // Each new fact was inferred once. The rules stay of the same basis. Where it is full, as
        // many facts were inferred as there was room for; where memory is refused, at most one more
        // than the limit.
        ensures flow { I.flow rules.new ≡ I.flow rules.old }
        ensures basis { I.basis rules.new ≡ I.basis rules.old }
        ensures asked { OnOk result (I.asked rules.new
            ≡ raised (I.asked rules.old) (length self.new.facts - length self.old.facts)) }
        ensures asked_full { IsErrOf result GraphFault.Full → I.asked rules.new
            ≡ raised (I.asked rules.old) (self.old.limit - length self.old.facts) }
        ensures asked_least { I.asked rules.old ≤ I.asked rules.new }
        ensures asked_most { I.asked rules.new ≤ raised (I.asked rules.old) (self.old.limit + 1) }

        // It is full exactly where the closure has more facts than the limit.
        ensures full { IsErrOf result GraphFault.Full
            → ReachesMoreThan (I.flow rules.old) self.old.limit (self.old.facts ++ facts.now) }
        ensures fits { OnOk result
            (ReachesMoreThan (I.flow rules.old) self.old.limit (self.old.facts ++ facts.now) → ⊥) }
        ensures unchanged { OnErr result (self.new ≡ self.old) }
    {
        let before = self.facts.len();
        match walk(self.alloc, self, rules, facts) {
            Ok(nodes) => Ok(nodes),
            Err(fault) => {
                self.cut(before);
                Err(fault)
            }
        }
    }

    // The most nodes that there may be.
    pub(crate) fn limit(&self) -> u32
        ensures { result ≡ self.now.limit }
    {
        self.limit
    }

    // The node of a fact, if it has one.
    pub(crate) fn find(&self, fact: &F) -> Option<NodeId>
        requires exact { (x y : F) → F.eq x y ≡ true → x ≡ y }
        ensures { MatchOption result (list_any (F.eq fact.now) self.now.facts ≡ false)
            (λ node. slice_get self.now.facts node.0 ≡ Some fact.now) }
    {
        match self.facts.get_index_of(fact) {
            Some(number) => Some(NodeId(number as u32)),
            None => None,
        }
    }

    // Gives a fact the next number.
    pub(crate) fn place(
        &mut self,
        fact: F,
        kind: NodeKind,
        parents: &[NodeId],
    ) -> Result<NodeId, AllocError>
        requires shape { HasShape kind parents.now }
        requires within { All (λ p. p.0 < length self.old.facts) parents.now }
        requires new { list_any (F.eq fact) self.old.facts ≡ false }
        requires room { length self.old.facts < self.old.limit }
        ensures node { IfOk result (λ node. node ≡ record { 0 = length self.old.facts }) }
        ensures ok { OnOk result (self.new ≡ with_node self.old fact kind parents.now) }
        ensures err { OnErr result (self.new ≡ self.old) }
    {
        let number = self.facts.len() as u32;
        self.kinds.reserve(1)?;
        self.facts.reserve(1)?;
        self.parents.push(parents)?;
        self.facts.insert_full(fact).unwrap();
        self.kinds.push(kind).unwrap();
        Ok(NodeId(number))
    }

    // Keeps the nodes with numbers below `len`.
    pub(crate) fn cut(&mut self, len: usize)
        ensures { self.new ≡ first_nodes len self.old }
    {
        self.facts.truncate(len);
        self.kinds.truncate(len);
        self.parents.truncate(len);
    }
}
