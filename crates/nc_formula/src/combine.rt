//! Conjunctions and disjunctions of the formulas of nodes, in the order of the nodes.
ghost use Rattle.std.specs.Prelude.{◌≡◌, All, Some, IfOk, IsErrOf};
ghost use Rattle.nc_diagram.specs.Diagrams.{Means};
ghost use Rattle.nc_formula.specs.Parts.{Gains, IsCrowdedBy};
ghost use Rattle.nc_formula.specs.Formulas.{known, HasReference, each_known, one_known, IsFirstEachKnown, IsFirstOneKnown};

use crate::formulas::Formulas;
use nc_diagram::{Ref, Store, StoreFault};
use nc_graph::node::NodeId;

impl Formulas {
    // The reference of a node whose formula is known.
    pub(crate) fn reference(&self, store: &Store, node: NodeId) -> Ref
        requires { HasReference self.now store.now.nodes node.0 }
        ensures { known self.now node.0 ≡ Some result }
    {
        match self.known(node) {
            Some(reference) => reference,
            None => unreachable!(),
        }
    }

    // The conjunction of the formulas of nodes.
    pub(crate) fn each_of(&self, store: &mut Store, nodes: &[NodeId]) -> Result<Ref, StoreFault>
        requires { All (λ p. HasReference self.now store.old.nodes p.0) nodes.now }
        ensures means { IfOk result (λ r. Means store.new r
            (each_known store.old.nodes self.now nodes.now)) }
        ensures gains { Gains (IsFirstEachKnown store.old.nodes self.now nodes.now)
            store.old store.new }
        ensures full { IsErrOf result StoreFault.Full
            → IsCrowdedBy (IsFirstEachKnown store.old.nodes self.now nodes.now) store.old }
    {
        let mut all = store.constant(true);
        'nodes: for node in nodes {
            let one = self.reference(store, *node);
            all = match store.and(all, one) {
                Ok(all) => all,
                Err(fault) => return Err(fault),
            };
        }
        Ok(all)
    }

    // The disjunction of the formulas of nodes.
    pub(crate) fn one_of(&self, store: &mut Store, nodes: &[NodeId]) -> Result<Ref, StoreFault>
        requires { All (λ p. HasReference self.now store.old.nodes p.0) nodes.now }
        ensures means { IfOk result (λ r. Means store.new r
            (one_known store.old.nodes self.now nodes.now)) }
        ensures gains { Gains (IsFirstOneKnown store.old.nodes self.now nodes.now)
            store.old store.new }
        ensures full { IsErrOf result StoreFault.Full
            → IsCrowdedBy (IsFirstOneKnown store.old.nodes self.now nodes.now) store.old }
    {
        let mut any = store.constant(false);
        'nodes: for node in nodes {
            let one = self.reference(store, *node);
            any = match store.or(any, one) {
                Ok(any) => any,
                Err(fault) => return Err(fault),
            };
        }
        Ok(any)
    }
}
