//! What is found of one address, from routers that are included.

ghost use Rattle.std.specs.Prelude.{◌≡◌, ◌≤◌, ℕ, OnErr, OnOk, map};
ghost use Rattle.nc_types.specs.declared.TheConstants.{HOP_LIMIT};
ghost use Rattle.nc_tables.specs.Forwarding.{alternatives, traces, all_trace, step_at};
ghost use Rattle.nc_tables.specs.State.{StateView, IsState};
ghost use Rattle.nc_trace.specs.Found.{IsFoundTo};
ghost use Rattle.nc_trace.specs.Packets.{anywhere};
ghost use Rattle.nc_trace.specs.Traced.{IncludesNone, IsIncluded, IsTracedTo};
ghost use Rattle.nc_trace.specs.Views.{alternative_view};

use crate::alternative::Alternative;
use crate::counting::count_hops;
use crate::found::Found;
use crate::hops::{is_within, leads_on, outcome_in};
use crate::levels::{Question, asked_of};
use crate::packet::{By, Packet};
use nc_tables::Stable;
use nc_types::{Addr, HOP_LIMIT, RouterId};
use std::alloc::{AllocError, Global};
use std::marker::Model;

/// The ways of routers for one address, and over how few hops a packet arrives from each: by some way, and by each.
/// They are those of the routers that were included and of all routers to which their ways lead. It doesn't hold the
/// state that it was made of; what it answers is so in any state of which it is right.
#[derive(Drop)]
pub struct TracedTo {
    alloc: Global,
    found: Found,
    some: Vec<u8>,
    each: Vec<u8>,
}

impl Model for TracedTo {
    ghost use Rattle.nc_trace.specs.Traced.{Traced};

    ghost Value = { Traced };

    ghost view = { λ t. record { found = t.found; some = t.some.items; each = t.each.items } };
}

impl TracedTo {
    /// No router is included yet; so it is right for any address, in any state whose network is valid. Takes no
    /// memory; `alloc` is for what is included.
    pub fn new(alloc: Global) -> TracedTo
        ensures traced { (s : StateView) (addr : ℕ) → IsState s → IsTracedTo s addr result }
        ensures none { IncludesNone result }
    {
        TracedTo {
            alloc,
            found: Found::new(alloc),
            some: Vec::new(alloc),
            each: Vec::new(alloc),
        }
    }

    /// Lets go of all routers; its room in memory is kept for another address.
    #[inline(never)]
    pub fn clear(&mut self)
        ensures traced { (s : StateView) (addr : ℕ) → IsState s → IsTracedTo s addr self.new }
        ensures none { IncludesNone self.new }
    {
        self.found.clear();
        self.some.clear();
        self.each.clear();
    }

    /// Includes a router and all routers to which ways lead from it. Of those that weren't included before it finds
    /// the ways once, and then goes through all that are, and no other, until no count of hops gets smaller. Where
    /// memory runs out, none is included.
    ///
    /// # Errors
    ///
    /// Memory that runs out.
    pub fn include(
        &mut self,
        state: &Stable,
        addr: Addr,
        router: RouterId,
    ) -> Result<(), AllocError>
        requires { IsTracedTo state.now addr.0 self.old }
        ensures traced { IsTracedTo state.now addr.0 self.new }
        ensures included { OnOk result (IsIncluded state.now self.new router.0) }
        ensures kept { OnOk result ((other : ℕ) → IsIncluded state.now self.old other
            → IsIncluded state.now self.new other) }
        ensures none { OnErr result (IncludesNone self.new) }
    {
        if self.found.covers(router) {
            return Ok(());
        }
        self.include_new(state, addr, router)
    }

    // The same of a router that isn't included. It stands by itself, so that the look at one that is, for which each
    // fact of a packet asks, needs no room of its own.
    #[inline(never)]
    fn include_new(
        &mut self,
        state: &Stable,
        addr: Addr,
        router: RouterId,
    ) -> Result<(), AllocError>
        requires { IsTracedTo state.now addr.0 self.old }
        ensures traced { IsTracedTo state.now addr.0 self.new }
        ensures included { OnOk result (IsIncluded state.now self.new router.0) }
        ensures kept { OnOk result ((other : ℕ) → IsIncluded state.now self.old other
            → IsIncluded state.now self.new other) }
        ensures none { OnErr result (IncludesNone self.new) }
    {
        let _state = state.network();
        match self.find(state, addr, router) {
            Ok(()) => Ok(()),
            Err(error) => {
                self.clear();
                Err(error)
            }
        }
    }

    // Finds the ways of a router and of all to which they lead, and counts the hops from all that are included.
    fn find(&mut self, state: &Stable, addr: Addr, router: RouterId) -> Result<(), AllocError>
        requires { IsTracedTo state.now addr.0 self.old }
        ensures traced { OnOk result (IsTracedTo state.now addr.0 self.new) }
        ensures included { OnOk result (IsIncluded state.now self.new router.0) }
        ensures kept { OnOk result ((other : ℕ) → IsIncluded state.now self.old other
            → IsIncluded state.now self.new other) }
    {
        let mut none = None;
        let packet = Packet {
            from: None,
            to: addr,
        };
        self.found
            .include(self.alloc, state, packet, &mut none, router)?;
        self.count(state, addr)?;
        Ok(())
    }

    // Counts the hops from all routers that are included.
    fn count(&mut self, state: &Stable, addr: Addr) -> Result<(), AllocError>
        requires { IsFoundTo state.now (anywhere addr.0) self.old.found }
        ensures traced { OnOk result (IsTracedTo state.now addr.0 self.new) }
        ensures found { self.new.found ≡ self.old.found }
    {
        let _state = state.network();
        let asked = asked_of(state, addr, By::SomeWay);
        count_hops(asked, &self.found, &mut self.some)?;
        let asked = Question {
            by: By::EachWay,
            ..asked
        };
        count_hops(asked, &self.found, &mut self.each)?;
        Ok(())
    }

    /// The ways out of a router that is included, in order; none where there is no such router.
    pub fn ways(&self, router: RouterId) -> &[Alternative]
        ensures { (s : StateView) (addr : ℕ) → IsTracedTo s addr self.now → IsIncluded s self.now router.0
            → map alternative_view result.now
            ≡ alternatives s.routers s.base s.bgp s.main router.0 addr }
    {
        self.found.ways(router)
    }

    /// Whether a packet arrives from a router that is included by some way, over at most so many hops, 0 to
    /// [`nc_types::HOP_LIMIT`]; from none where there is no such router.
    pub fn arrives(&self, router: RouterId, hops: u8) -> bool
        requires { hops ≤ HOP_LIMIT }
        ensures { (s : StateView) (addr : ℕ) → IsTracedTo s addr self.now → IsIncluded s self.now router.0
            → result ≡ traces s.routers s.base s.bgp s.main hops router.0 addr }
    {
        is_within(&self.some, router, hops)
    }

    /// The same where each way has to lead there.
    pub fn all_arrive(&self, router: RouterId, hops: u8) -> bool
        requires { hops ≤ HOP_LIMIT }
        ensures { (s : StateView) (addr : ℕ) → IsTracedTo s addr self.now → IsIncluded s self.now router.0
            → result ≡ all_trace s.routers s.base s.bgp s.main hops router.0 addr }
    {
        is_within(&self.each, router, hops)
    }

    /// Whether a packet is delivered by the alternative at a place of a router that is included, or arrives by some
    /// way from where that leads; over at most so many hops, that one counted. It doesn't where the hops are more than
    /// [`nc_types::HOP_LIMIT`], and where there is no such alternative or router.
    pub fn arrives_by(&self, router: RouterId, place: usize, hops: u8) -> bool
        ensures { (s : StateView) (addr : ℕ) → IsTracedTo s addr self.now → IsIncluded s self.now router.0
            → result ≡ step_at s.routers s.base s.bgp s.main router.0 addr place hops }
    {
        if HOP_LIMIT < hops {
            return false;
        }
        match outcome_in(self.found.ways(router), place) {
            Some(outcome) => leads_on(&self.some, outcome, hops),
            None => false,
        }
    }
}
