//! Tests of facts: what a test asks for, whether there is room for it, and its reply. Each function on
//! the way to the report says whether its lines are lent.

ghost use Rattle.std.specs.Prelude.{◌≡◌, ◌++◌, ◌<◌, ◌-◌, true, Some, length, All, IfOk, OnOk, codes};
ghost use Rattle.std.specs.Option.{option_map};
ghost use Rattle.nc_types.specs.Network.{router_named};
ghost use Rattle.nc_fact.specs.Tested.{tested_facts};
ghost use Rattle.nc_rules.specs.Rules.{flow_of};
ghost use Rattle.nc_rules.specs.Seen.{state_of, asked_of};
ghost use Rattle.nc_command.specs.Command.{text_of};
ghost use Rattle.nc_engine.specs.Limits.{most_tests};
ghost use Rattle.nc_engine.specs.Session.{accepted_of, router_of, has_line, unknown_of};
ghost use Rattle.nc_report.specs.Texts.{line_of};
ghost use Rattle.nc_engine.specs.Work.{IsWork, SameNetwork, kept_of, Replies, Counted, Told, TestedAt, Tested, with_lent};

use crate::TEST_LIMIT;
use crate::work::Work;
use nc_command::test_text;
use nc_fact::Fact;
use nc_graph::laws::closures_have_one_length;
use nc_report::push_line;
use nc_rules::rules_make_a_flow;
use nc_types::{RouterId, TestCommand, Text};
use std::alloc::{AllocError, Global};

// The name of the router that a test is of.
fn router_of(test: &TestCommand) -> &Text
    ensures { result.now ≡ router_of test.now }
{
    match test {
        TestCommand::Rib(name, _, _) => name,
        TestCommand::Bgp(name, _, _) => name,
        TestCommand::Session(name, _) => name,
        TestCommand::Reach(name, _) => name,
        TestCommand::Every(name, _) => name,
        TestCommand::Flow(name, _, _) => name,
        TestCommand::Element(name, _) => name,
    }
}

// Appends the first line of a test's reply.
fn push_accepted(
    alloc: Global,
    out: &mut Vec<u8>,
    number: usize,
    facts: u32,
) -> Result<(), AllocError>
    ensures { OnOk result (out.new.items ≡ out.old.items ++ accepted_of number facts) }
{
    let text = format!(in alloc; "test {number} facts {facts}")?;
    push_line(out, text.as_bytes())
}

/// Appends the refusal of a router that isn't there.
pub(crate) fn push_unknown(out: &mut Vec<u8>, router: &[u8]) -> Result<(), AllocError>
    ensures { OnOk result (out.new.items
        ≡ out.old.items ++ line_of (unknown_of router.now)) }
{
    out.extend_from_slice(b"refused router ")?;
    push_line(out, router)?;
    Ok(())
}

// Appends the refusal of a test that tests nothing.
fn push_absent(alloc: Global, out: &mut Vec<u8>, test: &TestCommand) -> Result<(), AllocError>
    ensures { OnOk result (out.new.items
        ≡ out.old.items ++ line_of (codes "refused absent " ++ text_of test.now)) }
{
    let text = test_text(alloc, test)?;
    out.extend_from_slice(b"refused absent ")?;
    push_line(out, &text)?;
    Ok(())
}

impl Work {
    // Appends the reply to the last test.
    fn reply(&self, alloc: Global, out: &mut Vec<u8>) -> Result<bool, AllocError>
        requires { IsWork self.now }
        ensures { IfOk result (λ lends. Replies self.now
            out.old.items (with_lent lends self.now.shown out.new.items)) }
    {
        push_accepted(alloc, out, self.tests.len(), self.graph.len())?;
        let lends = self.push_report(alloc, out)?;
        Ok(lends)
    }

    // Answers a test of facts, of which there are some.
    fn count(
        &mut self,
        alloc: Global,
        facts: Vec<Fact>,
        out: &mut Vec<u8>,
    ) -> Result<bool, AllocError>
        requires work { IsWork self.old }
        requires some { 0 < length facts.items }
        requires hold { All (λ f. (flow_of (state_of self.old.rules)).holds f ≡ true) facts.items }
        ensures work { OnOk result (IsWork self.new) }
        ensures counts { IfOk result (λ lends. Counted self.old self.new facts.items
            out.old.items (with_lent lends self.new.shown out.new.items)) }
    {
        rules_make_a_flow();
        closures_have_one_length::<Fact>();
        if self.tests.len() >= TEST_LIMIT {
            push_line(out, b"refused limit tests")?;
            return Ok(false);
        }
        if !self.accept(facts)? {
            push_line(out, b"refused limit facts")?;
            return Ok(false);
        }
        let lends = self.reply(alloc, out)?;
        Ok(lends)
    }

    // Answers a test whose router and line are there, of its facts.
    fn judge(
        &mut self,
        alloc: Global,
        test: &TestCommand,
        facts: Vec<Fact>,
        out: &mut Vec<u8>,
    ) -> Result<bool, AllocError>
        requires work { IsWork self.old }
        requires facts { facts.items ≡ tested_facts (state_of self.old.rules) test.now }
        requires hold { All (λ f. (flow_of (state_of self.old.rules)).holds f ≡ true) facts.items }
        ensures work { OnOk result (IsWork self.new) }
        ensures told { IfOk result (λ lends. Told self.old self.new test.now
            out.old.items (with_lent lends self.new.shown out.new.items)) }
    {
        if facts.is_empty() {
            push_absent(alloc, out, test)?;
            return Ok(false);
        }
        let lends = self.count(alloc, facts, out)?;
        Ok(lends)
    }

    // The facts of a test. All else stays as it is: the rules alone know more of the ways of packets.
    fn facts(&mut self, test: &TestCommand) -> Result<Vec<Fact>, AllocError>
        requires { IsWork self.old }
        ensures facts { IfOk result
            (λ facts. facts.items ≡ tested_facts (state_of self.new.rules) test.now) }
        ensures hold { IfOk result (λ facts.
            All (λ f. (flow_of (state_of self.new.rules)).holds f ≡ true) facts.items) }
        ensures work { IsWork self.new }
        ensures network { SameNetwork self.old self.new }
        ensures kept { kept_of self.new ≡ kept_of self.old }
        ensures asked { asked_of self.new.rules ≡ asked_of self.old.rules }
        ensures store { self.new.store ≡ self.old.store }
    {
        let facts = self.rules.facts_of(test)?;
        Ok(facts)
    }

    // Whether the line that a test is of belongs to an element of the router; so it is where the test is of none.
    fn has_line(&self, router: RouterId, test: &TestCommand) -> bool
        ensures { result ≡ has_line (state_of self.now.rules) router.0 test.now }
    {
        match test {
            TestCommand::Rib(_, _, _)
            | TestCommand::Bgp(_, _, _)
            | TestCommand::Session(_, _)
            | TestCommand::Reach(_, _)
            | TestCommand::Every(_, _)
            | TestCommand::Flow(_, _, _) => true,
            TestCommand::Element(_, line) => {
                self.rules.state().network().owner(router, *line).is_some()
            }
        }
    }

    // Answers a test of a router that is there.
    fn test_at(
        &mut self,
        alloc: Global,
        router: RouterId,
        test: &TestCommand,
        out: &mut Vec<u8>,
    ) -> Result<bool, AllocError>
        requires work { IsWork self.old }
        requires router { router_named (state_of self.old.rules).routers (router_of test.now)
            ≡ Some router.0 }
        ensures work { OnOk result (IsWork self.new) }
        ensures tested { IfOk result (λ lends. TestedAt self.old self.new router.0 test.now
            out.old.items (with_lent lends self.new.shown out.new.items)) }
    {
        if !self.has_line(router, test) {
            push_line(out, b"refused line")?;
            return Ok(false);
        }
        let facts = self.facts(test)?;
        let lends = self.judge(alloc, test, facts, out)?;
        Ok(lends)
    }

    /// The router of a name.
    pub(crate) fn router(&self, name: &Text) -> Option<RouterId>
        ensures { option_map (λ r. r.0) result
            ≡ router_named (state_of self.now.rules).routers name.now }
    {
        self.rules.state().network().router_named(name.bytes())
    }

    /// Answers a test.
    pub(crate) fn test(
        &mut self,
        alloc: Global,
        test: &TestCommand,
        out: &mut Vec<u8>,
    ) -> Result<bool, AllocError>
        requires { IsWork self.old }
        ensures work { OnOk result (IsWork self.new) }
        ensures tests { IfOk result (λ lends. Tested self.old self.new test.now
            out.old.items (with_lent lends self.new.shown out.new.items)) }
    {
        let name = router_of(test);
        let Some(router) = self.router(name) else {
            push_unknown(out, name.bytes())?;
            return Ok(false);
        };
        let lends = self.test_at(alloc, router, test, out)?;
        Ok(lends)
    }
}
