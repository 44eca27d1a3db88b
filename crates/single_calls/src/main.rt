//! Public calls that no other program makes, each with an answer worked out by hand.
//!
//! That they answer as they promise is proved; but want of memory is an answer that every call may give, so a call that
//! gave no other one would meet its contract. The program prints a line for each call and, last, how many answered as
//! expected; it ends with 1 where one did not. It promises nothing but safety, and stands on the crates whose calls it
//! makes: on `nc_read_policy` and `nc_policy` for entries and maps, on `nc_report` with `nc_marks` for texts, on
//! `nc_command` for lines, on `nc_diagram` for functions and on `nc_stable`, `nc_trace` and `nc_fact` for states; and on
//! `nc_lines`, `nc_reader`, `nc_network`, `nc_tables` and `nc_types` for what they are asked of. None of these stands on
//! the rules or the session, so it is proved beside them.
#![tactic(auto)]

mod diagrams;
mod network;
mod policies;
mod sessions;
mod states;
mod texts;

use std::io::Result;
use std::process::ExitCode;

// A call by its name, and whether it answered as expected.
type Call = (&'static str, bool);

// Makes the calls on entries and maps, and adds what came of each.
fn add_policies(rt: &HostRuntime, calls: &mut Vec<Call>) -> Result<()> {
    let alloc = rt.alloc();
    calls.push((
        "an entry of a prefix list",
        policies::reads_an_entry(alloc)?,
    ))?;
    calls.push(("a line that is no entry", policies::refuses_a_line(alloc)?))?;
    calls.push(("a map that permits", policies::permits(alloc)?))?;
    calls.push(("a map that is not there", policies::denies(alloc)?))?;
    Ok(())
}

// Makes the calls on texts, and adds what came of each.
fn add_texts(rt: &HostRuntime, calls: &mut Vec<Call>) -> Result<()> {
    let alloc = rt.alloc();
    calls.push(("a report", texts::reports(alloc)?))?;
    calls.push(("a listing", texts::lists(alloc)?))?;
    calls.push(("a tracefile", texts::traces(alloc)?))?;
    calls.push(("a line of JSON", texts::tells_json(alloc)?))?;
    Ok(())
}

// Makes the calls on lines and functions, and adds what came of each.
fn add_others(rt: &HostRuntime, calls: &mut Vec<Call>) -> Result<()> {
    let alloc = rt.alloc();
    calls.push(("bytes that end in a line", sessions::cuts(alloc)?))?;
    calls.push(("the value of a function", diagrams::evaluates(alloc)?))?;
    calls.push(("one function made twice", diagrams::are_equal(alloc)?))?;
    Ok(())
}

// Makes the calls on a network that settles, and adds what came of each.
fn add_states(rt: &HostRuntime, calls: &mut Vec<Call>) -> Result<()> {
    let alloc = rt.alloc();
    calls.push(("a state that settles", states::settles(alloc)?))?;
    calls.push(("no round is enough", states::is_unstable(alloc)?))?;
    calls.push(("the ways out of a router", states::has_two_ways(alloc)?))?;
    calls.push(("the rank of a fact", states::ranks(alloc)?))?;
    Ok(())
}

fn main(rt: HostRuntime) -> Result<ExitCode> {
    let mut calls = Vec::new(rt.alloc());
    add_policies(&rt, &mut calls)?;
    add_texts(&rt, &mut calls)?;
    add_others(&rt, &mut calls)?;
    add_states(&rt, &mut calls)?;
    let mut failed: usize = 0;
    for (name, is_right) in &calls {
        let verdict = if *is_right { "ok" } else { "FAILED" };
        println!(rt; "{name}: {verdict}")?;
        failed = failed.saturating_add(usize::from(!*is_right));
    }
    let passed = calls.len().saturating_sub(failed);
    println!(rt; "{passed} passed, {failed} failed")?;
    Ok(ExitCode::from(u8::from(failed > 0)))
}
