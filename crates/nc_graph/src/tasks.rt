//! What a walk has still to do, on two flat stacks.
ghost use Rattle.std.specs.Prelude.{◌≡◌, ◌∷◌, [], true, length, map, reverse, IfOk, OnOk, MatchOption};
ghost use Rattle.nc_graph.specs.Flow.{raised};
ghost use Rattle.nc_graph.specs.Tasks.{find, job_of, opened};

use crate::inference::Inference;
use crate::node::NodeKind;
use std::alloc::{AllocError, Global};
use std::hash::Hash;
use std::marker::Model;

/// A fact that was inferred, and has no number yet.
#[derive(Clone, Copy)]
pub(crate) struct Inferred<F: Copy> {
    pub(crate) fact: F,
    pub(crate) kind: NodeKind,
    /// How many parents it has.
    pub(crate) parents: usize,
    // Where, among the facts to be found, the parents of the fact that waited before it begin.
    before: usize,
}

/// One thing to do.
#[derive(Clone, Copy)]
pub(crate) enum Task<F: Copy> {
    /// Find the node of a fact, and infer the fact if it has none.
    Visit(F),
    /// Number a fact: its parents have numbers by now.
    Number(Inferred<F>),
}

/// The tasks of a walk: the facts to be found on one stack, and on another those that wait until
/// their parents are found.
#[derive(Drop)]
pub(crate) struct Tasks<F: Copy> {
    // The facts to be found, the next one last.
    facts: Vec<F>,
    // Where the parents of the newest fact that waits begin among them.
    from: usize,
    // The facts that wait, the newest last.
    waiting: Vec<Inferred<F>>,
}

impl<F: Copy> Model for Tasks<F> {
    ghost use Rattle.std.specs.Prelude.{List, length, reverse};
    ghost use Rattle.nc_graph.specs.Tasks.{Job, jobs, AreBegins};

    ghost Value = { List (Job F) };

    ghost view = { λ t. jobs t.facts.items t.from (reverse t.waiting.items) };

    ghost invariant = { λ t. AreBegins (length t.facts.items) t.from (reverse t.waiting.items) };
}

impl<F: Copy> Tasks<F> {
    /// Facts to be found, the last one first.
    pub(crate) fn new(alloc: Global, facts: &[F]) -> Result<Self, AllocError>
        ensures { IfOk result (λ tasks. tasks ≡ map find (reverse facts.now)) }
    {
        let facts = Vec::from_slice(alloc, facts)?;
        Ok(Tasks {
            facts,
            from: 0,
            waiting: Vec::new(alloc),
        })
    }

    /// Takes the next task.
    pub(crate) fn pop(&mut self) -> Option<Task<F>>
        ensures { MatchOption result (self.old ≡ []) (λ task. self.old ≡ job_of task ∷ self.new) }
    {
        if self.from < self.facts.len() {
            match self.facts.pop() {
                Some(fact) => Some(Task::Visit(fact)),
                None => unreachable!(),
            }
        } else {
            match self.waiting.pop() {
                Some(inferred) => {
                    self.from = inferred.before;
                    Some(Task::Number(inferred))
                }
                None => None,
            }
        }
    }
}

impl<F: Copy + Eq + Hash> Tasks<F> {
    /// Infers a fact: its parents are to be found, the last one first, and then it is to be numbered.
    pub(crate) fn infer<I: Inference<Fact = F>>(
        &mut self,
        rules: &mut I,
        fact: F,
    ) -> Result<(), AllocError>
        requires { (I.flow rules.old).holds fact ≡ true }
        ensures flow { I.flow rules.new ≡ I.flow rules.old }
        ensures basis { I.basis rules.new ≡ I.basis rules.old }
        ensures asked { I.asked rules.new ≡ raised (I.asked rules.old) 1 }
        ensures ok { OnOk result (self.new ≡ opened (I.flow rules.old) fact self.old) }
    {
        let from = self.facts.len();
        let kind = rules.infer(&fact, &mut self.facts)?;
        let parents = self.facts.len() - from;
        self.waiting.push(Inferred {
            fact,
            kind,
            parents,
            before: self.from,
        })?;
        self.from = from;
        Ok(())
    }
}
