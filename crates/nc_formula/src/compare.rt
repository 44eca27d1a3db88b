//! Whether one test implies another.
ghost use Rattle.std.specs.Prelude.{◌≡◌, ◌<◌, All, length, map, IfOk, OnOk, IsErrOf, MatchOption};
ghost use Rattle.std.specs.List.Sorted.{IsStrictlyIncreasing};
ghost use Rattle.nc_graph.specs.Nodes.{node_flow};
ghost use Rattle.nc_diagram.specs.Counter.{Implies, IsGreatest};
ghost use Rattle.nc_diagram.specs.Sets.{all_but};
ghost use Rattle.nc_formula.specs.Parts.{carrying_each, IsBaseOfBoth, Gains, IsCrowdedBy};
ghost use Rattle.nc_formula.specs.Formulas.{IsKnown, StillKnown, AreFormulas};

use crate::formulas::Formulas;
use nc_diagram::{Store, StoreFault};
use nc_graph::graph::Graph;
use nc_graph::node::NodeId;
use std::hash::Hash;

impl Formulas {
    /// Whether what carries one test carries another, the tests given by the nodes of their facts:
    /// None where it does, else the elements, ascending, that are missing in the greatest set that
    /// carries the first test and not the second. Of two sets that one is greater which has the
    /// lowest element in which they differ.
    ///
    /// # Errors
    ///
    /// `Full` only where the functions of the nodes held by the store and the parts of the two tests
    /// are more than the store's limit, and `Memory` where memory is refused. What was found by then
    /// is kept, as by `of`.
    pub fn compare<F: Copy + Eq + Hash>(
        &mut self,
        graph: &Graph<F>,
        store: &mut Store,
        first: &[NodeId],
        second: &[NodeId],
    ) -> Result<Option<Vec<u32>>, StoreFault>
        requires first { All (λ p. p.0 < length graph.now.facts) first.now }
        requires second { All (λ p. p.0 < length graph.now.facts) second.now }
        requires formulas { AreFormulas (node_flow graph.now) store.old.nodes self.old }
        ensures answers { IfOk result (λ o. MatchOption o
            (Implies (carrying_each (node_flow graph.now) (map (λ p. p.0) first.now))
            (carrying_each (node_flow graph.now) (map (λ p. p.0) second.now)))
            (λ missing. IsStrictlyIncreasing missing.items
            × IsGreatest (carrying_each (node_flow graph.now) (map (λ p. p.0) first.now))
            (carrying_each (node_flow graph.now) (map (λ p. p.0) second.now))
            (all_but missing.items))) }

        // The formulas of both tests' nodes are known from now on.
        ensures first { OnOk result (All (λ p. IsKnown self.new p.0) first.now) }
        ensures second { OnOk result (All (λ p. IsKnown self.new p.0) second.now) }

        // At every answer what was known is known still and true, and the store has its nodes and
        // parts of the two tests. It is full only where there are more of these than fit.
        ensures still { StillKnown self.old self.new }
        ensures formulas { AreFormulas (node_flow graph.now) store.new.nodes self.new }
        ensures gains { Gains (IsBaseOfBoth (node_flow graph.now)
            (map (λ p. p.0) first.now) (map (λ p. p.0) second.now)) store.old store.new }
        ensures full { IsErrOf result StoreFault.Full → IsCrowdedBy (IsBaseOfBoth
            (node_flow graph.now) (map (λ p. p.0) first.now) (map (λ p. p.0) second.now))
            store.old }
    {
        let left = match self.of_each(graph, store, first) {
            Ok(left) => left,
            Err(fault) => return Err(fault),
        };
        let right = match self.of_each(graph, store, second) {
            Ok(right) => right,
            Err(fault) => return Err(fault),
        };
        match store.counter(left, right) {
            Ok(missing) => Ok(missing),
            Err(fault) => Err(fault),
        }
    }
}
