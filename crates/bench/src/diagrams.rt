//! How long `and` takes on diagrams of many nodes: two chains of variables, and two chains of clauses of two
//! variables, each over every second variable; and how long it takes to tell which of the two functions implies
//! the other. From one diagram to its ends lead more ways than could be gone one by one.
ghost use Rattle.std.specs.Prelude.{◌≡◌, ◌<◌, ◌+◌, ◌*◌, ◌^◌, IfOk, OnOk};
ghost use Rattle.nc_diagram.specs.Diagrams.{Belongs};
ghost use Rattle.bench.specs.Held.{HoldsOn};

use crate::telling::tell_time;
use anyhow::Result;
use nc_diagram::{Ref, Store, StoreFault};
use std::time::Instant;

const LIMIT: u32 = 4_000_000;

// The conjunction of `count` variables, every second from `first` on.
fn chain(store: &mut Store, first: u32, count: u32) -> Result<Ref, StoreFault>
    requires { first + 2 * count < 2 ^ 32 }
    ensures belongs { IfOk result (λ r. Belongs store.new.nodes r) }
    ensures kept { OnOk result (HoldsOn store.old store.new) }
{
    let mut all = store.constant(true);
    for step in 0..count {
        let variable = store.variable(first + 2 * (count - 1 - step))?;
        all = store.and(variable, all)?;
    }
    Ok(all)
}

// The conjunction of `count` disjunctions of two variables each, every second variable from `first` on.
fn clauses(store: &mut Store, first: u32, count: u32) -> Result<Ref, StoreFault>
    requires { first + 4 * count < 2 ^ 32 }
    ensures belongs { IfOk result (λ r. Belongs store.new.nodes r) }
    ensures kept { OnOk result (HoldsOn store.old store.new) }
{
    let mut all = store.constant(true);
    for step in 0..count {
        let lowest = first + 4 * (count - 1 - step);
        let one = store.variable(lowest)?;
        let other = store.variable(lowest + 2)?;
        let clause = store.or(one, other)?;
        all = store.and(clause, all)?;
    }
    Ok(all)
}

// Times how it is told whether one function of a store implies another.
fn measure_counter(rt: &HostRuntime, name: &str, store: &mut Store, a: Ref, b: Ref) -> Result<()>
    requires a { Belongs store.old.nodes a }
    requires b { Belongs store.old.nodes b }
    ensures unchanged { store.new ≡ store.old }
{
    let start = Instant::now(rt)?;
    let missing = store.counter(a, b)?;
    let micros = start.elapsed(rt)?.as_micros();
    match missing {
        None => println!(rt; "{name}: implied")?,
        Some(missing) => println!(rt; "{name}: not implied, variables missing: {}", missing.len())?,
    }
    tell_time(rt, name, "microseconds", micros)
}

// Times the conjunction of two functions of a store, and what implies what.
fn measure_and(rt: &HostRuntime, name: &str, store: &mut Store, a: Ref, b: Ref) -> Result<()>
    requires a { Belongs store.old.nodes a }
    requires b { Belongs store.old.nodes b }
{
    let before = store.len();
    let start = Instant::now(rt)?;
    let both = store.and(a, b)?;
    let micros = start.elapsed(rt)?.as_micros();
    println!(rt; "{name}: nodes {before} to {}", store.len())?;
    tell_time(rt, name, "microseconds", micros)?;
    measure_counter(rt, "both to one", store, both, a)?;
    measure_counter(rt, "one to both", store, a, both)
}

// The conjunction of two chains of variables, in a store with room for them.
fn measure_chains(rt: &HostRuntime, store: &mut Store) -> Result<()> {
    let even = chain(store, 0, 100_000)?;
    let odd = chain(store, 1, 100_000)?;
    measure_and(rt, "chains", store, even, odd)
}

// The conjunction of two chains of clauses, in a store with room for them.
fn measure_clauses(rt: &HostRuntime, store: &mut Store) -> Result<()> {
    let even = clauses(store, 0, 50_000)?;
    let odd = clauses(store, 1, 50_000)?;
    measure_and(rt, "clauses", store, even, odd)
}

/// Measures both, each in a store of its own.
pub fn measure(rt: &HostRuntime) -> Result<()> {
    measure_chains(rt, &mut Store::new(rt.alloc(), LIMIT))?;
    measure_clauses(rt, &mut Store::new(rt.alloc(), LIMIT))
}
