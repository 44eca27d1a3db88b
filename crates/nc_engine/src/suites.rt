//! Suites: of the accepted tests those that suffice.

ghost use Rattle.std.specs.Prelude.{◌≡◌, ◌++◌, ◌+◌, ◌∷◌, [], map, length, take, IfOk, OnOk};
ghost use Rattle.std.specs.Fmt.{decimal};
ghost use Rattle.std.specs.List.{flat_map};
ghost use Rattle.nc_engine.specs.Suites.{suite_of};
ghost use Rattle.nc_engine.specs.Work.{IsWork, Sufficed, nodes_each};

use crate::work::{KeptTest, Work};
use nc_fact::Fact;
use nc_graph::node::NodeId;
use nc_rules::rules_make_a_flow;
use nc_suite::laws::suite_of_nodes_is_of_facts;
use nc_suite::suite;
use std::alloc::{AllocError, Global};

// The nodes of each test, none of one that isn't live.
fn nodes_of_each<'a>(alloc: Global, tests: &'a [KeptTest]) -> Result<Vec<&'a [NodeId]>, AllocError>
    ensures { IfOk result (λ nodes. map (λ ns. ns.now) nodes.items ≡ nodes_each tests.entry.now) }
{
    let mut nodes: Vec<&'a [NodeId]> = Vec::new(alloc);
    'tests: for test in tests {
        if test.live {
            nodes.push(&test.nodes)?;
        } else {
            nodes.push(&[])?;
        }
    }
    Ok(nodes)
}

// Appends the number of a test by its place, behind a space.
fn push_number(alloc: Global, place: u32, out: &mut Vec<u8>) -> Result<(), AllocError>
    ensures { OnOk result (out.new.items ≡ out.old.items ++ (32 ∷ decimal (place + 1))) }
{
    let number = u64::from(place) + 1;
    let text = format!(in alloc; " {number}")?;
    out.extend_from_slice(text.as_bytes())
}

// Appends the numbers of tests by their places, each behind a space.
fn push_numbers(alloc: Global, places: &[u32], out: &mut Vec<u8>) -> Result<(), AllocError>
    ensures { OnOk result (out.new.items
        ≡ out.old.items ++ flat_map (λ place. 32 ∷ decimal (place + 1)) places.now) }
{
    'places: for place in places {
        push_number(alloc, *place, out)?;
    }
    Ok(())
}

// Appends the answer that these tests suffice.
fn push_suite(alloc: Global, places: &[u32], out: &mut Vec<u8>) -> Result<(), AllocError>
    ensures { OnOk result (out.new.items ≡ out.old.items ++ suite_of places.now) }
{
    out.extend_from_slice(b"suite")?;
    push_numbers(alloc, places, out)?;
    out.push(b'\n')?;
    Ok(())
}

impl Work {
    /// Answers which of the live tests suffice: from the last one to the first, a test is left out
    /// where each element has the same mark without it.
    pub(crate) fn suite(&self, alloc: Global, out: &mut Vec<u8>) -> Result<(), AllocError>
        requires { IsWork self.now }
        ensures { OnOk result (Sufficed self.now out.old.items out.new.items) }
    {
        rules_make_a_flow();
        suite_of_nodes_is_of_facts::<Fact>();
        let _facts = self.graph.len();
        let tests = nodes_of_each(alloc, &self.tests)?;
        let places = suite(alloc, &self.graph, &self.marks, &tests)?;
        push_suite(alloc, &places, out)?;
        Ok(())
    }
}
