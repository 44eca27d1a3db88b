//! Forgetting a test: its lines are marked no longer for it, and what was asked stays asked.

ghost use Rattle.std.specs.Prelude.{◌≡◌, ◌++◌, ◌<◌, [], if◌then◌else◌, length, IfOk, IfSome, OnOk};
ghost use Rattle.nc_rules.specs.Seen.{asked_of};
ghost use Rattle.nc_engine.specs.Session.{forgot_of, live_place, untested_of, without_test};
ghost use Rattle.nc_report.specs.Texts.{line_of};
ghost use Rattle.nc_engine.specs.Work.{IsWork, SameNetwork, Forgotten, kept_of, nodes_in, tests_of, with_lent};

use crate::work::{KeptTest, Work};
use nc_graph::node::NodeId;
use nc_report::push_line;
use std::alloc::{AllocError, Global};

// Appends the refusal of a number that no live test has.
pub(crate) fn push_untested(alloc: Global, out: &mut Vec<u8>, number: u32) -> Result<(), AllocError>
    ensures { OnOk result (out.new.items ≡ out.old.items ++ line_of (untested_of number)) }
{
    let text = format!(in alloc; "refused test {number}")?;
    push_line(out, text.as_bytes())
}

// Appends the first line of the reply where a test is forgotten.
fn push_forgot(alloc: Global, out: &mut Vec<u8>, number: u32) -> Result<(), AllocError>
    ensures { OnOk result (out.new.items ≡ out.old.items ++ forgot_of number) }
{
    let text = format!(in alloc; "forgot {number}")?;
    push_line(out, text.as_bytes())
}

// Puts the nodes of a test behind others, if it is live.
fn add_live(nodes: &mut Vec<NodeId>, test: &KeptTest) -> Result<(), AllocError>
    ensures { OnOk result (nodes.new.items
        ≡ nodes.old.items ++ (if test.now.live then test.now.nodes.items else [])) }
{
    if !test.live {
        return Ok(());
    }
    nodes.extend_from_slice(&test.nodes)?;
    Ok(())
}

// The nodes of the live tests.
fn live_nodes(alloc: Global, tests: &[KeptTest]) -> Result<Vec<NodeId>, AllocError>
    ensures { IfOk result (λ nodes. nodes.items ≡ nodes_in tests.now) }
{
    let mut nodes = Vec::new(alloc);
    'tests: for test in tests {
        add_live(&mut nodes, test)?;
    }
    Ok(nodes)
}

impl Work {
    /// The place of the live test of a number; tests are numbered from 1.
    pub(crate) fn live_place(&self, number: u32) -> Option<usize>
        ensures place { result ≡ live_place (tests_of self.now) number }
        ensures within { IfSome result (λ place. place < length self.now.tests.items) }
    {
        if number == 0 {
            return None;
        }
        let place = number as usize - 1;
        if place >= self.tests.len() {
            return None;
        }
        if !self.tests[place].live {
            return None;
        }
        Some(place)
    }

    // Makes the test at a place one that isn't live, and the marks those for the live tests that
    // are left.
    fn forget_at(&mut self, alloc: Global, place: usize) -> Result<(), AllocError>
        requires work { IsWork self.old }
        requires place { place < length self.old.tests.items }
        ensures work { OnOk result (IsWork self.new) }
        ensures network { SameNetwork self.old self.new }
        ensures asked { asked_of self.new.rules ≡ asked_of self.old.rules }
        ensures kept { OnOk result (kept_of self.new ≡ without_test (kept_of self.old) place) }
        ensures store { self.new.store ≡ self.old.store }
    {
        self.tests[place].live = false;
        let live = live_nodes(alloc, &self.tests)?;
        let touched = self.marks.forget(&self.graph, &live)?;
        let network = self.rules.state().network();
        self.shown.refresh(network, self.marks.marks(), &touched);
        Ok(())
    }

    /// Forgets the test of a number, if it is a live one, and says whether the lines of the report
    /// are lent.
    pub(crate) fn forget(
        &mut self,
        alloc: Global,
        number: u32,
        out: &mut Vec<u8>,
    ) -> Result<bool, AllocError>
        requires { IsWork self.old }
        ensures work { OnOk result (IsWork self.new) }
        ensures forgotten { IfOk result (λ lends. Forgotten self.old self.new number
            out.old.items (with_lent lends self.new.shown out.new.items)) }
    {
        let Some(place) = self.live_place(number) else {
            push_untested(alloc, out, number)?;
            return Ok(false);
        };
        self.forget_at(alloc, place)?;
        push_forgot(alloc, out, number)?;
        let lends = self.push_report(alloc, out)?;
        Ok(lends)
    }
}
