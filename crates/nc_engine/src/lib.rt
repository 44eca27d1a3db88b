//! The engine: a network in its state with the files of its routers, and the answers to the lines of a session.
//!
//! It stands on `nc_rules` for facts and how they are inferred, on `nc_graph` for what a derivation is, on `nc_marks` and
//! `nc_report` for the marks and their texts, on `nc_formula`, `nc_diagram` and `nc_cut` for what is asked of sets of
//! elements, on `nc_suite` for suites and dead elements, and on `nc_command` for the lines. The contract of
//! [`Engine::answer`] promises that each line gets the reply that the definitions of `specs/` give, that what is kept of
//! the session moves by one step of theirs, how many facts are inferred for it, and of which tests parts are drawn for
//! it. A reply is appended to bytes of the caller's, but for the lines of a long report, which are the most of it: the
//! engine lends them, and they are read by [`Engine::lent`], so that they are never copied. The definitions are public:
//! `Marks`, `Questions`, `Cuts`, `Suites`, `DeadElements` and `Session`, in the order to read them; `Engine` says what
//! an engine has, lends, infers and draws.
#![tactic(auto)]

mod cuts;
mod dead_elements;
mod engine;
mod forgetting;
mod forms;
pub mod laws;
mod lines;
mod questions;
mod refusals;
mod suites;
mod testing;
mod work;

pub use engine::{Engine, Flow};

/// How many tests are accepted.
pub const TEST_LIMIT: usize = 4096;

/// How many facts are asked in a session.
pub const FACT_LIMIT: u32 = 1_048_576;

/// How many parts of diagrams are kept in a session.
pub const DIAGRAM_LIMIT: u32 = 1_048_576;
