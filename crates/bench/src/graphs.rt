//! How long a graph takes to add facts with three parents each: once all handed in, and once reached from one
//! of them by a chain through all.
ghost use Rattle.std.specs.Prelude.{◌≡◌, true, All};
ghost use Rattle.nc_graph.specs.Nodes.{Mirrors};
ghost use Rattle.bench.specs.Table.{flow_of};

use crate::shapes::Shape;
use crate::table::{Table, TableRules};
use crate::telling::tell_time;
use anyhow::Result;
use nc_graph::graph::Graph;
use std::time::Instant;

const FACTS: u32 = 1_000_000;

// Adds these facts to a graph, and tells in how many milliseconds.
fn time_adding(
    rt: &HostRuntime,
    graph: &mut Graph<u32>,
    table: &Table,
    facts: &[u32],
) -> Result<u128>
    requires holds { All (λ f. (flow_of table.now).holds f ≡ true) facts.now }
    requires mirrors { Mirrors (flow_of table.now) graph.old }
{
    let mut rules = TableRules::new(table);
    let start = Instant::now(rt)?;
    graph.add(&mut rules, facts)?;
    Ok(start.elapsed(rt)?.as_millis())
}

// Measures how these facts are added to a graph.
fn measure_facts(rt: &HostRuntime, name: &str, table: &Table, facts: &[u32]) -> Result<()>
    requires { All (λ f. (flow_of table.now).holds f ≡ true) facts.now }
{
    let mut graph = Graph::new(rt.alloc(), FACTS);
    let millis = time_adding(rt, &mut graph, table, facts)?;
    println!(rt; "{name}: facts {}", graph.len())?;
    tell_time(rt, name, "milliseconds", millis)
}

// All facts are handed in; no derivation is deep.
fn measure_fan(rt: &HostRuntime) -> Result<()> {
    let table = Shape::Fan.table(rt.alloc(), FACTS)?;
    let facts = table.facts(rt.alloc())?;
    measure_facts(rt, "handed in", &table, &facts)
}

// The last fact is handed in, and all others but one are reached from it.
fn measure_chain(rt: &HostRuntime) -> Result<()> {
    let table = Shape::Chain.table(rt.alloc(), FACTS)?;
    let Some(last) = table.last() else {
        return Ok(());
    };
    measure_facts(rt, "by a chain", &table, &[last])
}

/// Measures both.
pub fn measure(rt: &HostRuntime) -> Result<()> {
    measure_fan(rt)?;
    measure_chain(rt)
}
