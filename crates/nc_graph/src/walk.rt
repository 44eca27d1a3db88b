//! The walk that adds facts to a graph, backward along their parents, with stacks of its own.
ghost use Rattle.std.specs.Prelude.{◌≡◌, ◌+◌, ◌-◌, ◌<◌, ◌≤◌, ◌++◌, ◌∷◌, [], true, false, length, All, IfOk, OnOk, OnErr, IsErrOf};
ghost use Rattle.std.specs.List.{list_any};
ghost use Rattle.nc_graph.specs.Closure.{IsClosure, ReachesMoreThan};
ghost use Rattle.nc_graph.specs.Flow.{raised};
ghost use Rattle.nc_graph.specs.Nodes.{IsGraph, Mirrors, Extends, HasShape, AreNodesOf, with_node};
ghost use Rattle.nc_graph.specs.Tasks.{last_of, before_last};

use crate::fault::GraphFault;
use crate::graph::Graph;
use crate::inference::Inference;
use crate::node::NodeId;
use crate::tasks::{Inferred, Task, Tasks};
use std::alloc::{AllocError, Global};
use std::hash::Hash;

// Numbers a fact. Its parents' nodes are the last ones of the list, the first parent's last, and its
// own node comes in their place.
fn number<F: Copy + Eq + Hash>(
    graph: &mut Graph<F>,
    inferred: &Inferred<F>,
    nodes: &mut Vec<NodeId>,
) -> Result<(), AllocError>
    requires enough { inferred.now.parents ≤ length nodes.old.items }
    requires shape { HasShape inferred.now.kind (last_of inferred.now.parents nodes.old.items) }
    requires within { All (λ p. p.0 < length graph.old.facts)
        (last_of inferred.now.parents nodes.old.items) }
    requires new { list_any (F.eq inferred.now.fact) graph.old.facts ≡ false }
    requires room { length graph.old.facts < graph.old.limit }
    ensures graph { OnOk result (graph.new ≡ with_node graph.old inferred.now.fact inferred.now.kind
        (last_of inferred.now.parents nodes.old.items)) }
    ensures nodes { OnOk result (nodes.new.items ≡ before_last inferred.now.parents nodes.old.items
        ++ record { 0 = length graph.old.facts } ∷ []) }
    ensures unchanged { OnErr result (graph.new ≡ graph.old) }
{
    nodes.reserve(1)?;
    let from = nodes.len() - inferred.parents;
    nodes[from..].reverse();
    let node = graph.place(inferred.fact, inferred.kind, &nodes[from..])?;
    nodes.truncate(from);
    nodes.push(node).unwrap();
    Ok(())
}

/// Adds facts to a graph with all that they are derived from, and answers their nodes in order. At a
/// refusal it leaves those that were numbered by then.
pub(crate) fn walk<F: Copy + Eq + Hash, I: Inference<Fact = F>>(
    alloc: Global,
    graph: &mut Graph<F>,
    rules: &mut I,
    facts: &[F],
) -> Result<Vec<NodeId>, GraphFault>
    requires holds { All (λ f. (I.flow rules.old).holds f ≡ true) facts.now }
    requires mirrors { Mirrors (I.flow rules.old) graph.old }
    ensures flow { I.flow rules.new ≡ I.flow rules.old }
    ensures basis { I.basis rules.new ≡ I.basis rules.old }
    ensures extends { Extends graph.old graph.new }
    ensures graph { OnOk result (IsGraph graph.new) }
    ensures mirrors { OnOk result (Mirrors (I.flow rules.old) graph.new) }
    ensures closure { OnOk result
        (IsClosure (I.flow rules.old) (graph.old.facts ++ facts.now) graph.new.facts) }
    ensures nodes { IfOk result (λ nodes. AreNodesOf graph.new nodes.items facts.now) }
    ensures asked { OnOk result (I.asked rules.new
        ≡ raised (I.asked rules.old) (length graph.new.facts - length graph.old.facts)) }
    ensures full { IsErrOf result GraphFault.Full
        → ReachesMoreThan (I.flow rules.old) graph.old.limit (graph.old.facts ++ facts.now) }
    ensures asked_full { IsErrOf result GraphFault.Full → I.asked rules.new
        ≡ raised (I.asked rules.old) (graph.old.limit - length graph.old.facts) }
    ensures asked_least { I.asked rules.old ≤ I.asked rules.new }
    ensures asked_most { I.asked rules.new ≤ raised (I.asked rules.old) (graph.old.limit + 1) }
{
    let mut found = graph.len();
    let mut tasks = Tasks::new(alloc, facts)?;
    let mut nodes = Vec::with_capacity(alloc, facts.len())?;
    'walking: while let Some(task) = tasks.pop() {
        match task {
            Task::Visit(fact) => {
                if let Some(node) = graph.find(&fact) {
                    nodes.push(node)?;
                    continue;
                }
                if found == graph.limit() {
                    return Err(GraphFault::Full);
                }
                tasks.infer(rules, fact)?;
                found += 1;
            }
            Task::Number(inferred) => {
                number(graph, &inferred, &mut nodes)?;
            }
        }
    }
    nodes.reverse();
    nodes.shrink_to_fit();
    Ok(nodes)
}
