//! Tests for whose diagrams there was no room: nothing is let go of, so there never is.

ghost use Rattle.std.specs.Prelude.{◌≡◌, ◌<◌, ◌≤◌, OnOk, true, false, length, slice_index_or};
ghost use Rattle.nc_rules.specs.Seen.{state_of, asked_of};
ghost use Rattle.nc_engine.specs.Session.{IsCrowded};
ghost use Rattle.nc_engine.specs.Work.{IsWork, SameNetwork, kept_of};

use crate::work::Work;
use nc_formula::Formulas;
use nc_graph::node::NodeId;
use std::alloc::AllocError;

// Whether a flag is raised; past the end there is none.
fn is_raised(flags: &[bool], place: usize) -> bool
    ensures { result ≡ slice_index_or flags.now place false }
{
    place < flags.len() && flags[place]
}

// Makes room for so many flags; those that are new are lowered.
fn make_room(flags: &mut Vec<bool>, len: usize) -> Result<(), AllocError>
    ensures { OnOk result (len ≤ length flags.new.items) }
{
    if flags.len() < len {
        flags.resize(len, false)?;
    }
    Ok(())
}

// Whether the formulas of nodes are all known.
fn are_known(formulas: &Formulas, nodes: &[NodeId]) -> bool {
    'nodes: for node in nodes {
        if formulas.known(*node).is_none() {
            return false;
        }
    }
    true
}

impl Work {
    /// Whether there was no room for the diagram of the test at a place when it was asked for.
    pub(crate) fn is_refused(&self, place: usize) -> bool
        requires { IsWork self.now }
        ensures { result ≡ true → IsCrowded (state_of self.now.rules) (kept_of self.now) }
    {
        is_raised(&self.refused, place)
    }

    /// Notes that there is no room for the diagram of the test at a place.
    pub(crate) fn refuse(&mut self, place: usize) -> Result<(), AllocError>
        requires work { IsWork self.old }
        requires crowded { IsCrowded (state_of self.old.rules) (kept_of self.old) }
        requires place { place < length self.old.tests.items }
        ensures work { OnOk result (IsWork self.new) }
        ensures network { SameNetwork self.old self.new }
        ensures asked { asked_of self.new.rules ≡ asked_of self.old.rules }
        ensures kept { kept_of self.new ≡ kept_of self.old }
        ensures store { self.new.store ≡ self.old.store }
    {
        let tests = self.tests.len();
        make_room(&mut self.refused, tests)?;
        self.refused[place] = true;
        Ok(())
    }

    /// Notes it where a node of the test has no formula, so that its diagram is what found no room.
    pub(crate) fn refuse_undrawn(&mut self, place: usize) -> Result<(), AllocError>
        requires work { IsWork self.old }
        requires crowded { IsCrowded (state_of self.old.rules) (kept_of self.old) }
        requires place { place < length self.old.tests.items }
        ensures work { OnOk result (IsWork self.new) }
        ensures network { SameNetwork self.old self.new }
        ensures asked { asked_of self.new.rules ≡ asked_of self.old.rules }
        ensures kept { kept_of self.new ≡ kept_of self.old }
        ensures store { self.new.store ≡ self.old.store }
    {
        if are_known(&self.formulas, &self.tests[place].nodes) {
            return Ok(());
        }
        self.refuse(place)?;
        Ok(())
    }
}
