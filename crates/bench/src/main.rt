//! What is measured of the crates that carry large inputs: the graph of facts, the marks that grow with it,
//! and the decision diagrams; and tests that are left out one by one, over a small graph.
//!
//! What is counted goes to the standard output, where the gate compares it; times go to the standard error. The
//! graphs are tables of any shape, made by plain loops ([`table::Table`]), which an engine's graph reads as it
//! reads the rules of a network. It stands on `nc_graph`, `nc_marks`, `nc_diagram`, `nc_formula` and `nc_suite`, and
//! promises nothing but that each table is a lawful flow graph.
#![tactic(auto)]

mod diagrams;
mod graphs;
mod marks;
mod shapes;
mod suites;
mod table;
mod telling;

use anyhow::Result;

fn main(rt: HostRuntime) -> Result<()> {
    graphs::measure(&rt)?;
    marks::measure(&rt)?;
    diagrams::measure(&rt)?;
    suites::measure(&rt)?;
    Ok(())
}
