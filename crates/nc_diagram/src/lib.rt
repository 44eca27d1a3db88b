//! Ordered, reduced and shared binary decision diagrams of functions of sets of variables. The store
//! finds a node by what it is in a table of its own, which takes 4 bytes a slot. It stands on `lru` for
//! answers of recent operations and on `indexmap` for the pairs that a question went through, and on
//! nothing that knows of networks.
//!
//! Each of the two operators has a table of the pairs of references that it combined. A pair of the
//! call under way is found there for sure; one of an earlier call until its slot is wanted. An answer
//! for which 64 pairs or more would have to be done again, those below such answers left out, is kept
//! apart: of these the 16,384 used last. So a store keeps, besides its nodes, 65,536 slots for each
//! operator, those answers and 65,536 marks that tell where one may be looked for, and in a call slots
//! for its pairs, which are given back when it ends. A refusal empties them all.
//!
//! The contracts promise which function each reference means and that it keeps it, that two
//! references are equal exactly where their functions are, that `eval`, `needs`, `counter` and `split`
//! answer of that function, that `Full` comes only where more functions than the limit are asked for,
//! and that a refusal leaves the store as it was.
#![tactic(auto)]

mod apply;
mod counter;
mod fault;
mod laws;
mod node;
mod nodes;
mod parts;
mod recent;
mod store;
mod table;

pub use fault::StoreFault;
pub use laws::{law_of_all_but, law_of_fixing};
pub use node::Ref;
pub use parts::Split;
pub use store::Store;
