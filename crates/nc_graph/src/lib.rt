//! Flow graphs: what a derivation of a fact is, and a graph of facts that is built backward on
//! demand.
//!
//! A flow graph gives each fact that holds a kind, its parents and a rank above theirs. Its
//! derivations, what is strong for a fact or in some derivation of it, what carries it, and what a
//! closure is, are defined for any type of facts; their laws are the contracts of the functions of
//! `laws`. `Graph` stands on `indexmap`, which numbers the facts, and knows a flow graph only
//! through `Inference`. Its contract promises that after `add` the graph has a closure of all facts
//! handed in so far, each fact inferred once and under the number that it keeps, with the kind and
//! the parents that the rules give; that it is full exactly where the closure has more facts than
//! the limit; and that a refusal leaves it as it was.
//!
//! Kept of each fact is itself, its kind and the nodes of its parents, in vectors that grow with the
//! facts, which the limit bounds, and with their parents. While facts are added, each parent is
//! looked up once. The facts still to be found, those that wait for their parents, and the nodes
//! found for them lie on three stacks: these grow with the facts handed in and with the parents of
//! those that wait at once, of which each has a lower rank than the one before. They are let go of
//! when all are added.
#![tactic(auto)]

pub mod fault;
pub mod graph;
pub mod inference;
pub mod laws;
pub mod lists;
pub mod node;
mod tasks;
mod walk;
