//! A decision diagram for each fact of a flow graph: its function is true at just the sets of
//! elements that carry the fact.
//!
//! It stands on `nc_graph`, whose nodes are the facts with their kinds and parents, and on
//! `nc_diagram`, whose store keeps the nodes of all diagrams. `Formulas` keeps the reference of each
//! fact whose diagram was asked for, so that none is made twice while one store serves. The contract
//! promises that a reference means what carries its fact, as evaluation of the graph has it; that
//! references found stay true; that each node added to the store is a part of what carries a fact
//! that is needed, or of what some of its first parents make of it; and that the store is full only
//! where there are more such parts than its limit allows.
#![tactic(auto)]

mod combine;
mod compare;
mod formulas;
mod laws;
mod session;
mod walk;

pub use formulas::Formulas;
pub use laws::{diagrams_are_of_facts, formulas_of_a_grown_store, formulas_of_an_extended_graph};
pub use session::{
    comparisons_are_of_facts, drawn_by_a_comparison, drawn_by_a_test, drawn_for_a_longer_graph,
    drawn_with_a_question, drawn_with_a_test, nothing_is_drawn, refused_for_its_parts,
    refused_for_the_parts_of_a_test,
};
