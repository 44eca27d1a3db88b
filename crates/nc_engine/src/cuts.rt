//! Least cuts: the fewest elements without which what is left doesn't carry a test.

ghost use Rattle.std.specs.Prelude.{◌≡◌, ◌⊎◌, ◌++◌, ◌∷◌, [], ◌<◌, ◌||◌, ℕ, All, true, false, nat_eq, length, slice_index_or, IfOk, IfSome, OnOk, IsErrOf, MatchOption};
ghost use Rattle.std.specs.List.{flat_map};
ghost use Rattle.std.specs.Option.{option_map, option_map_or};
ghost use Rattle.nc_types.specs.Network.{element_count, router_named};
ghost use Rattle.nc_diagram.specs.Diagrams.{Means};
ghost use Rattle.nc_cut.specs.Cuts as plain;
ghost use Rattle.nc_formula.specs.Parts.{carrying_each};
ghost use Rattle.nc_marks.specs.Kept.{kept_nodes, strong_at};
ghost use Rattle.nc_rules.specs.Rules.{flow_of};
ghost use Rattle.nc_rules.specs.Seen.{state_of, asked_of};
ghost use Rattle.nc_engine.specs.Cuts.{IsLeastCut, IsUncut, is_kept, least_of, may_be_cut, none_of, unknown_among};
ghost use Rattle.nc_engine.specs.Engine.{DrawsFor, IsRefusal};
ghost use Rattle.nc_engine.specs.Session.{IsCrowded, test_in};
ghost use Rattle.nc_engine.specs.Work.{IsWork, IsDrawnAt, IsDrawnOrRefused, SameNetwork, CutAt, CutAsked, kept_of, tests_of};

use crate::forgetting::push_untested;
use crate::questions::push_elements;
use crate::testing::push_unknown;
use crate::work::Work;
use nc_command::Names;
use nc_cut::{first_free, law_of_one_variable, law_of_same_functions, least_cut};
use nc_diagram::{Ref, StoreFault};
use nc_fact::Fact;
use nc_formula::{comparisons_are_of_facts, drawn_by_a_test, refused_for_the_parts_of_a_test};
use nc_graph::laws::carrying_is_evaluation;
use nc_graph::node::NodeId;
use nc_marks::kept::KeptMarks;
use nc_report::push_line;
use nc_rules::rules_make_a_flow;
use nc_types::{Network, Text};
use std::alloc::{AllocError, Global};

// The first of these names that no router has.
fn unknown_among<'a>(network: &Network, names: &'a [Text]) -> Option<&'a Text>
    ensures { option_map (λ name. name.now) result ≡ unknown_among network.now names.entry.now }
{
    'names: for name in names {
        if network.router_named(name.bytes()).is_none() {
            return Some(name);
        }
    }
    None
}

// Marks the router of a name as kept, if one has it.
fn keep(kept: &mut [bool], network: &Network, name: &Text)
    ensures marks { (router : ℕ) → router < length kept.old
        → slice_index_or kept.new router false
        ≡ (slice_index_or kept.old router false
        || option_map_or (nat_eq router) (router_named network.now name.now) false) }
    ensures long { length kept.new ≡ length kept.old }
{
    let Some(router) = network.router_named(name.bytes()) else {
        return;
    };
    let place = router.0 as usize;
    if place < kept.len() {
        kept[place] = true;
    }
}

// Which routers are kept, in order: those that the names are of.
fn kept_routers(alloc: Global, network: &Network, names: &[Text]) -> Result<Vec<bool>, AllocError>
    ensures { IfOk result (λ kept. (length kept.items ≡ length network.now)
        × ((router : ℕ) → router < length network.now
        → slice_index_or kept.items router false ≡ is_kept network.now names.now router)) }
{
    let mut kept = Vec::new(alloc);
    kept.resize(network.routers().len(), false)?;
    'names: for name in names {
        keep(&mut kept, network, name);
    }
    Ok(kept)
}

// Of each element whether it may be cut, in order of their numbers.
fn free_elements(alloc: Global, network: &Network, names: &[Text]) -> Result<Vec<bool>, AllocError>
    ensures { IfOk result (λ free. (element : ℕ)
        → slice_index_or free.items element false ≡ may_be_cut network.now names.now element) }
{
    let kept = kept_routers(alloc, network, names)?;
    let mut free = Vec::new(alloc);
    'routers: for (router, config) in network.routers().iter().enumerate() {
        let end = free.len() + config.elements.len();
        free.resize(end, !kept[router])?;
    }
    Ok(free)
}

// The first of the elements that are strong for some of these nodes and may be cut.
fn first_strong(
    marks: &KeptMarks,
    nodes: &[NodeId],
    free: &[bool],
) -> Result<Option<u32>, AllocError>
    requires { All (λ p. p.0 < kept_nodes marks.now) nodes.now }
    ensures { IfOk result (λ first. plain.IsFirstFree free.now
        (flat_map (λ p. strong_at marks.now p.0) nodes.now) first) }
{
    let mut first = None;
    'nodes: for node in nodes {
        let strong = marks.strong_of(*node)?;
        first = first_free(free, first, &strong);
    }
    Ok(first)
}

// Appends the answer for the test of a number that it has no cut.
fn push_none(alloc: Global, number: u32, out: &mut Vec<u8>) -> Result<(), AllocError>
    ensures { OnOk result (out.new.items ≡ out.old.items ++ none_of number) }
{
    let text = format!(in alloc; "cut {number} none")?;
    push_line(out, text.as_bytes())
}

// Appends the answer that this is its least cut.
fn push_least(
    alloc: Global,
    network: &Network,
    number: u32,
    cut: &[u32],
    out: &mut Vec<u8>,
) -> Result<(), AllocError>
    ensures { OnOk result (out.new.items
        ≡ out.old.items ++ least_of network.now number cut.now) }
{
    let size = cut.len();
    let text = format!(in alloc; "cut {number} {size}")?;
    out.extend_from_slice(text.as_bytes())?;
    push_elements(alloc, network, cut, out)?;
    out.push(b'\n')?;
    Ok(())
}

impl Work {
    // The diagram of the test at a place. What was drawn by a refusal is kept.
    fn draw(&mut self, place: usize) -> Result<Ref, StoreFault>
        requires work { IsWork self.old }
        requires place { place < length self.old.tests.items }
        ensures work { IsWork self.new }
        ensures network { SameNetwork self.old self.new }
        ensures asked { asked_of self.new.rules ≡ asked_of self.old.rules }
        ensures kept { kept_of self.new ≡ kept_of self.old }
        ensures draws { DrawsFor (state_of self.old.rules)
            ((test_in (tests_of self.old) place).facts ∷ []) self.old.store self.new.store }
        ensures means { IfOk result (λ r. Means self.new.store r
            (carrying_each (flow_of (state_of self.old.rules))
            (test_in (tests_of self.old) place).facts)) }
        ensures full { IsErrOf result StoreFault.Full
            → IsCrowded (state_of self.old.rules) (kept_of self.old) }
        ensures drawn { OnOk result
            (IsDrawnAt self.new.formulas self.new.tests.items place) }
    {
        rules_make_a_flow();
        comparisons_are_of_facts::<Fact>();
        drawn_by_a_test::<Fact>();
        refused_for_the_parts_of_a_test::<Fact>();
        let _facts = self.graph.len();
        self.formulas
            .of_each(&self.graph, &mut self.store, &self.tests[place].nodes)
    }

    // The element that alone is the least cut of the test at a place, if one is: without it the test
    // isn't carried, so that it is strong for a fact of the test.
    fn single_cut(&self, place: usize, free: &[bool]) -> Result<Option<u32>, AllocError>
        requires work { IsWork self.now }
        requires place { place < length self.now.tests.items }
        requires elements { (element : ℕ) → plain.is_free free.now element ≡ true
            → element < element_count (state_of self.now.rules).routers }
        ensures { IfOk result (λ first. IfSome first (λ element. plain.IsLeastCut
            (carrying_each (flow_of (state_of self.now.rules))
            (test_in (tests_of self.now) place).facts) free.now (element ∷ []))) }
    {
        rules_make_a_flow();
        carrying_is_evaluation::<Fact>();
        law_of_one_variable();
        let _facts = self.graph.len();
        let first = first_strong(&self.marks, &self.tests[place].nodes, free)?;
        Ok(first)
    }

    // The least cut of the test at a place, of elements of routers that none of these names is of: by
    // the marks where it has one element, else by its diagram.
    fn cut_with(
        &self,
        alloc: Global,
        place: usize,
        diagram: Ref,
        names: &[Text],
    ) -> Result<Option<Vec<u32>>, AllocError>
        requires work { IsWork self.now }
        requires place { place < length self.now.tests.items }
        requires means { Means self.now.store diagram
            (carrying_each (flow_of (state_of self.now.rules))
            (test_in (tests_of self.now) place).facts) }
        ensures { IfOk result (λ answer. MatchOption answer
            (IsUncut (flow_of (state_of self.now.rules)) (state_of self.now.rules).routers
            names.now (test_in (tests_of self.now) place).facts)
            (λ cut. IsLeastCut (flow_of (state_of self.now.rules))
            (state_of self.now.rules).routers names.now
            (test_in (tests_of self.now) place).facts cut.items)) }
    {
        rules_make_a_flow();
        carrying_is_evaluation::<Fact>();
        law_of_same_functions();
        let _facts = self.graph.len();
        let network = self.rules.state().network();
        let free = free_elements(alloc, network, names)?;
        let first = self.single_cut(place, &free)?;
        if let Some(element) = first {
            let single = vec![in alloc; element]?;
            return Ok(Some(single));
        }
        let cut = least_cut(alloc, &self.store, diagram, &free)?;
        Ok(cut)
    }

    // Answers a cut of the test at a place, which has this number.
    fn cut_at(
        &mut self,
        alloc: Global,
        place: usize,
        number: u32,
        names: &[Text],
        out: &mut Vec<u8>,
    ) -> Result<(), AllocError>
        requires work { IsWork self.old }
        requires place { place < length self.old.tests.items }
        ensures work { OnOk result (IsWork self.new) }
        ensures cut { OnOk result
            (CutAt self.old self.new place number names.now out.old.items out.new.items) }
        ensures drawn { OnOk result (IsDrawnAt self.new.formulas self.new.tests.items place
            ⊎ IsRefusal out.old.items out.new.items) }
    {
        if self.is_refused(place) {
            push_line(out, b"refused limit diagrams")?;
            return Ok(());
        }
        let diagram = match self.draw(place) {
            Ok(diagram) => diagram,
            Err(StoreFault::Full) => {
                self.refuse(place)?;
                push_line(out, b"refused limit diagrams")?;
                return Ok(());
            }
            Err(StoreFault::Memory) => return Err(AllocError),
        };
        let Some(cut) = self.cut_with(alloc, place, diagram, names)? else {
            push_none(alloc, number, out)?;
            return Ok(());
        };
        push_least(alloc, self.rules.state().network(), number, &cut, out)?;
        Ok(())
    }

    /// Answers what the least cut of the test of a number is, if it is live, of elements of routers that
    /// none of these names is of.
    pub(crate) fn cut(
        &mut self,
        alloc: Global,
        number: u32,
        names: &Names,
        out: &mut Vec<u8>,
    ) -> Result<(), AllocError>
        requires { IsWork self.old }
        ensures work { OnOk result (IsWork self.new) }
        ensures cut { OnOk result
            (CutAsked self.old self.new number names.now out.old.items out.new.items) }
        ensures drawn { OnOk result
            (IsDrawnOrRefused self.new number out.old.items out.new.items) }
    {
        let network = self.rules.state().network();
        if let Some(name) = unknown_among(network, names.list()) {
            push_unknown(out, name.bytes())?;
            return Ok(());
        }
        let Some(place) = self.live_place(number) else {
            push_untested(alloc, out, number)?;
            return Ok(());
        };
        self.cut_at(alloc, place, number, names.list(), out)?;
        Ok(())
    }
}
