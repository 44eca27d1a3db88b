//! Questions about two tests: whether each set of elements that carries the one carries the other.

ghost use Rattle.std.specs.Prelude.{◌≡◌, ◌++◌, ◌∷◌, ◌<◌, [], length, slice_get, slice_index_or, IfOk, OnOk, IsErrOf, MatchOption};
ghost use Rattle.std.specs.List.{flat_map};
ghost use Rattle.std.specs.Option.{option_map_or};
ghost use Rattle.std.specs.List.Sorted.{IsStrictlyIncreasing};
ghost use Rattle.nc_diagram.specs.Sets.{all_but};
ghost use Rattle.nc_rules.specs.Rules.{flow_of};
ghost use Rattle.nc_rules.specs.Seen.{state_of, asked_of};
ghost use Rattle.nc_engine.specs.Engine.{DrawsFor};
ghost use Rattle.nc_engine.specs.Questions.{IsImplied, IsGreatestApart, element_text, question_of, yes_of, no_of};
ghost use Rattle.nc_engine.specs.Session.{IsCrowded, test_in, with_pair};
ghost use Rattle.nc_engine.specs.Work.{IsWork, IsDrawnFor, SameNetwork, Compared, Questioned, kept_of, tests_of};

use crate::forgetting::push_untested;
use crate::work::Work;
use nc_diagram::StoreFault;
use nc_fact::Fact;
use nc_formula::{
    comparisons_are_of_facts, drawn_by_a_comparison, drawn_with_a_question, refused_for_its_parts,
};
use nc_graph::laws::carrying_is_evaluation;
use nc_report::push_line;
use nc_rules::rules_make_a_flow;
use nc_types::{Element, ElementId, Network, RouterId};
use std::alloc::{AllocError, Global};

/// Appends an element behind a space: the name of its router, a colon and its first line.
pub(crate) fn push_element(
    alloc: Global,
    network: &Network,
    element: ElementId,
    out: &mut Vec<u8>,
) -> Result<(), AllocError>
    ensures { OnOk result (out.new.items ≡ out.old.items ++ element_text network.now element.0) }
{
    let Some((router, element)) = network.element(element) else {
        return Ok(());
    };
    let name = router_name(network, router);
    let line = element_line(element);
    let text = format!(in alloc; ":{line}")?;
    out.push(b' ')?;
    out.extend_from_slice(name)?;
    out.extend_from_slice(text.as_bytes())?;
    Ok(())
}

// The name of a router.
fn router_name(network: &Network, router: RouterId) -> &[u8]
    ensures { result.now ≡ option_map_or (λ c. c.name) (slice_get network.now router.0) [] }
{
    match network.routers().get(router.0 as usize) {
        Some(config) => config.name.bytes(),
        None => &[],
    }
}

// The first line of an element.
fn element_line(element: &Element) -> u32
    ensures { result ≡ slice_index_or element.now.lines 0 0 }
{
    let lines = element.lines.as_slice();
    if lines.is_empty() {
        return 0;
    }
    lines[0]
}

/// Appends elements, each behind a space.
pub(crate) fn push_elements(
    alloc: Global,
    network: &Network,
    elements: &[u32],
    out: &mut Vec<u8>,
) -> Result<(), AllocError>
    ensures { OnOk result (out.new.items
        ≡ out.old.items ++ flat_map (element_text network.now) elements.now) }
{
    'elements: for element in elements {
        push_element(alloc, network, ElementId(*element), out)?;
    }
    Ok(())
}

// Appends a question by the numbers of its tests.
fn push_question(
    alloc: Global,
    first: u32,
    second: u32,
    out: &mut Vec<u8>,
) -> Result<(), AllocError>
    ensures { OnOk result (out.new.items ≡ out.old.items ++ question_of first second) }
{
    let text = format!(in alloc; "implies {first} {second}")?;
    out.extend_from_slice(text.as_bytes())
}

// Appends the answer that the first test implies the second.
fn push_yes(alloc: Global, first: u32, second: u32, out: &mut Vec<u8>) -> Result<(), AllocError>
    ensures { OnOk result (out.new.items ≡ out.old.items ++ yes_of first second) }
{
    push_question(alloc, first, second, out)?;
    push_line(out, b" yes")
}

// Appends the answer that it doesn't, with the elements that are missing.
fn push_no(
    alloc: Global,
    network: &Network,
    first: u32,
    second: u32,
    missing: &[u32],
    out: &mut Vec<u8>,
) -> Result<(), AllocError>
    ensures { OnOk result (out.new.items
        ≡ out.old.items ++ no_of network.now first second missing.now) }
{
    push_question(alloc, first, second, out)?;
    out.extend_from_slice(b" no without")?;
    push_elements(alloc, network, missing, out)?;
    out.push(b'\n')?;
    Ok(())
}

impl Work {
    // Whether the test at a place implies another: else the elements that are missing in the
    // greatest set that carries the first and not the second. What was drawn by a refusal is kept.
    fn compare(&mut self, first: usize, second: usize) -> Result<Option<Vec<u32>>, StoreFault>
        requires work { IsWork self.old }
        requires first { first < length self.old.tests.items }
        requires second { second < length self.old.tests.items }
        ensures work { IsWork self.new }
        ensures network { SameNetwork self.old self.new }
        ensures asked { asked_of self.new.rules ≡ asked_of self.old.rules }
        ensures kept { kept_of self.new ≡ kept_of self.old }
        ensures draws { DrawsFor (state_of self.old.rules)
            ((test_in (tests_of self.old) first).facts
            ∷ (test_in (tests_of self.old) second).facts ∷ []) self.old.store self.new.store }
        ensures answers { IfOk result (λ o. MatchOption o
            (IsImplied (flow_of (state_of self.old.rules))
            (test_in (tests_of self.old) first).facts (test_in (tests_of self.old) second).facts)
            (λ missing. IsStrictlyIncreasing missing.items
            × IsGreatestApart (flow_of (state_of self.old.rules))
            (test_in (tests_of self.old) first).facts (test_in (tests_of self.old) second).facts
            (all_but missing.items))) }
        ensures full { IsErrOf result StoreFault.Full
            → IsCrowded (state_of self.old.rules) (with_pair (kept_of self.old) first second) }
        ensures crowded { IsErrOf result StoreFault.Full
            → IsCrowded (state_of self.old.rules) (kept_of self.old) }
        ensures drawn { OnOk result
            (IsDrawnFor self.new.formulas self.new.tests.items (first, second)) }
    {
        rules_make_a_flow();
        carrying_is_evaluation::<Fact>();
        comparisons_are_of_facts::<Fact>();
        drawn_by_a_comparison::<Fact>();
        refused_for_its_parts::<Fact>();
        let _facts = self.graph.len();
        self.formulas.compare(
            &self.graph,
            &mut self.store,
            &self.tests[first].nodes,
            &self.tests[second].nodes,
        )
    }

    // Notes that a question about the tests at two places was answered, by their diagrams.
    fn note(&mut self, first: usize, second: usize) -> Result<(), AllocError>
        requires work { IsWork self.old }
        requires drawn { IsDrawnFor self.old.formulas self.old.tests.items (first, second) }
        ensures work { OnOk result (IsWork self.new) }
        ensures network { SameNetwork self.old self.new }
        ensures asked { asked_of self.new.rules ≡ asked_of self.old.rules }
        ensures kept { OnOk result (kept_of self.new ≡ with_pair (kept_of self.old) first second) }
        ensures store { self.new.store ≡ self.old.store }
    {
        drawn_with_a_question::<Fact>();
        self.pairs.push((first, second))?;
        Ok(())
    }

    // Answers a question about the tests at two places, which have these numbers.
    fn weigh(
        &mut self,
        alloc: Global,
        places: (usize, usize),
        first: u32,
        second: u32,
        out: &mut Vec<u8>,
    ) -> Result<(), AllocError>
        requires work { IsWork self.old }
        requires first { places.0 < length self.old.tests.items }
        requires second { places.1 < length self.old.tests.items }
        ensures work { OnOk result (IsWork self.new) }
        ensures compared { OnOk result (Compared self.old self.new places.0 places.1 first second
            out.old.items out.new.items) }
    {
        if self.is_refused(places.0) || self.is_refused(places.1) {
            push_line(out, b"refused limit diagrams")?;
            return Ok(());
        }
        match self.compare(places.0, places.1) {
            Ok(None) => {
                self.note(places.0, places.1)?;
                push_yes(alloc, first, second, out)?;
                return Ok(());
            }
            Ok(Some(missing)) => {
                self.note(places.0, places.1)?;
                let network = self.rules.state().network();
                push_no(alloc, network, first, second, &missing, out)?;
                return Ok(());
            }
            Err(StoreFault::Full) => {
                self.refuse_undrawn(places.0)?;
                push_line(out, b"refused limit diagrams")?;
                return Ok(());
            }
            Err(StoreFault::Memory) => return Err(AllocError),
        }
    }

    /// Answers whether the test of a number implies that of another, if both are live.
    pub(crate) fn question(
        &mut self,
        alloc: Global,
        first: u32,
        second: u32,
        out: &mut Vec<u8>,
    ) -> Result<(), AllocError>
        requires { IsWork self.old }
        ensures work { OnOk result (IsWork self.new) }
        ensures questioned { OnOk result
            (Questioned self.old self.new first second out.old.items out.new.items) }
    {
        let Some(left) = self.live_place(first) else {
            push_untested(alloc, out, first)?;
            return Ok(());
        };
        let Some(right) = self.live_place(second) else {
            push_untested(alloc, out, second)?;
            return Ok(());
        };
        self.weigh(alloc, (left, right), first, second, out)?;
        Ok(())
    }
}
