//! The walk that makes the formulas of nodes with all that they need, with a stack of its own.
ghost use Rattle.std.specs.Prelude.{◌≡◌, ◌<◌, ◌++◌, All, length, map, OnOk, IsErrOf};
ghost use Rattle.nc_graph.specs.Nodes.{node_flow};
ghost use Rattle.nc_formula.specs.Parts.{IsBaseFrom, Gains, IsCrowdedBy};
ghost use Rattle.nc_formula.specs.Formulas.{IsKnown, StillKnown, AreFormulas};
ghost use Rattle.nc_formula.specs.Tasks.{Opens};

use crate::formulas::Formulas;
use nc_diagram::{Store, StoreFault};
use nc_graph::graph::Graph;
use nc_graph::node::NodeId;
use std::alloc::AllocError;
use std::hash::Hash;

// What a walk has still to do.
#[derive(Clone, Copy)]
pub(crate) enum Task {
    // See that the formula of a node is known.
    Need(NodeId),
    // Make the formula of a node: those of its parents are known by now.
    Make(NodeId),
}

// Puts nodes on the stack, whose formulas are needed.
fn need_all(tasks: &mut Vec<Task>, nodes: &[NodeId]) -> Result<(), AllocError>
    ensures { OnOk result (tasks.new.items ≡ tasks.old.items ++ map Task.Need nodes.now) }
{
    for node in nodes {
        tasks.push(Task::Need(*node))?;
    }
    Ok(())
}

impl Formulas {
    // Puts a node whose formula isn't known on the stack, to be made after its parents.
    fn open<F: Copy + Eq + Hash>(
        &self,
        graph: &Graph<F>,
        node: NodeId,
        tasks: &mut Vec<Task>,
    ) -> Result<(), AllocError>
        requires { node.0 < length graph.now.facts }
        ensures { OnOk result
            (Opens graph.now self.now node tasks.old.items tasks.new.items) }
    {
        if self.known(node).is_some() {
            return Ok(());
        }
        tasks.push(Task::Make(node))?;
        need_all(tasks, graph.parents(node))?;
        Ok(())
    }

    // Makes the formulas of nodes, and those of all that they are derived from, as far as they
    // aren't known. What was made by a refusal is kept.
    pub(crate) fn know_each<F: Copy + Eq + Hash>(
        &mut self,
        graph: &Graph<F>,
        store: &mut Store,
        nodes: &[NodeId],
    ) -> Result<(), StoreFault>
        requires valid { All (λ p. p.0 < length graph.now.facts) nodes.now }
        requires formulas { AreFormulas (node_flow graph.now) store.old.nodes self.old }
        ensures known { OnOk result (All (λ p. IsKnown self.new p.0) nodes.now) }
        ensures still { StillKnown self.old self.new }
        ensures formulas { AreFormulas (node_flow graph.now) store.new.nodes self.new }
        ensures gains { Gains (IsBaseFrom (node_flow graph.now) (map (λ p. p.0) nodes.now))
            store.old store.new }
        ensures full { IsErrOf result StoreFault.Full
            → IsCrowdedBy (IsBaseFrom (node_flow graph.now) (map (λ p. p.0) nodes.now))
            store.old }
    {
        let _nodes = graph.len();
        let mut tasks = Vec::new(self.alloc);
        need_all(&mut tasks, nodes)?;
        'tasks: while let Some(task) = tasks.pop() {
            match task {
                Task::Need(node) => self.open(graph, node, &mut tasks)?,
                Task::Make(node) => match self.know(graph, store, node) {
                    Ok(()) => {}
                    Err(fault) => return Err(fault),
                },
            }
        }
        Ok(())
    }
}
