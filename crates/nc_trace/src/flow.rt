//! What is found of one packet that access lists may stop, from routers that are included.

ghost use Rattle.std.specs.Prelude.{◌≡◌, ◌≤◌, ℕ, IfOk, OnErr, OnOk, map};
ghost use Rattle.std.specs.Option.{ForSome};
ghost use Rattle.nc_types.specs.declared.TheConstants.{HOP_LIMIT};
ghost use Rattle.nc_tables.specs.Filters.{passing_at};
ghost use Rattle.nc_tables.specs.Flows.{flows, flow_step_at};
ghost use Rattle.nc_tables.specs.State.{StateView, IsState};
ghost use Rattle.nc_filter.specs.Tables.{AreFilters};
ghost use Rattle.nc_trace.specs.Flow.{FlowIncludesNone, IsFlowIncluded, IsFlowTo};
ghost use Rattle.nc_trace.specs.Found.{flow_ways, IsFoundTo};
ghost use Rattle.nc_trace.specs.Packets.{between};
ghost use Rattle.nc_trace.specs.Views.{alternative_view};

use crate::alternative::Alternative;
use crate::counting::count_hops;
use crate::found::Found;
use crate::hops::{is_within, leads_on, outcome_in};
use crate::levels::asked_of;
use crate::packet::{By, Packet};
use nc_filter::FilterTables;
use nc_tables::{Passing, Stable};
use nc_types::{Addr, HOP_LIMIT, IfaceId, RouterId};
use std::alloc::{AllocError, Global};

/// The ways of routers as a packet from one address to another takes them, and over how few hops it arrives from each.
/// They are those of the routers that were included and of all routers to which their ways lead. It has the tables of
/// the access lists besides, from the first router that is included on, and what each list said of the packet. It
/// doesn't hold the state that it was made of; what it answers is so in any state of which it is right.
#[derive(Drop)]
pub struct FlowTo {
    alloc: Global,
    pub(crate) found: Found,
    pub(crate) fewest: Vec<u8>,
    pub(crate) tables: Option<FilterTables>,
}

impl FlowTo {
    /// No router is included yet; so it is right for any packet, in any state whose network is valid. Takes no memory;
    /// `alloc` is for what is included.
    pub fn new(alloc: Global) -> FlowTo
        ensures flow { (s : StateView) (from to : ℕ) → IsState s → IsFlowTo s from to result }
        ensures none { FlowIncludesNone result }
    {
        FlowTo {
            alloc,
            found: Found::new(alloc),
            fewest: Vec::new(alloc),
            tables: None,
        }
    }

    /// Lets go of all routers. The tables of access lists, and its room in memory, are kept for another packet in the
    /// same state.
    #[inline(never)]
    pub fn clear(&mut self)
        ensures flow { (s : StateView) (from to : ℕ) → IsState s → ForSome self.old.tables (AreFilters s.routers)
            → IsFlowTo s from to self.new }
        ensures none { FlowIncludesNone self.new }
    {
        self.found.clear();
        self.fewest.clear();
    }

    // Makes the tables of access lists, where they weren't made.
    fn make_tables(&mut self, state: &Stable) -> Result<(), AllocError>
        requires { ForSome self.old.tables (AreFilters state.now.routers) }
        ensures tables { ForSome self.new.tables (AreFilters state.now.routers) }
        ensures found { self.new.found ≡ self.old.found }
        ensures fewest { self.new.fewest ≡ self.old.fewest }
    {
        if self.tables.is_none() {
            let tables = FilterTables::new(self.alloc, state.network())?;
            self.tables = Some(tables);
        }
        Ok(())
    }

    /// Includes a router and all routers to which ways lead from it. Of those that weren't included before it finds
    /// the ways once, each list on them is gone through once, and then it goes through all that are, and no other,
    /// until no count of hops gets smaller. Where memory runs out, none is included.
    ///
    /// # Errors
    ///
    /// Memory that runs out.
    pub fn include(
        &mut self,
        state: &Stable,
        from: Addr,
        to: Addr,
        router: RouterId,
    ) -> Result<(), AllocError>
        requires { IsFlowTo state.now from.0 to.0 self.old }
        ensures flow { IsFlowTo state.now from.0 to.0 self.new }
        ensures included { OnOk result (IsFlowIncluded state.now self.new router.0) }
        ensures kept { OnOk result ((other : ℕ) → IsFlowIncluded state.now self.old other
            → IsFlowIncluded state.now self.new other) }
        ensures none { OnErr result (FlowIncludesNone self.new) }
    {
        if self.found.covers(router) {
            return Ok(());
        }
        self.include_new(state, from, to, router)
    }

    // The same of a router that isn't included. It stands by itself, so that the look at one that is needs no room of
    // its own.
    #[inline(never)]
    fn include_new(
        &mut self,
        state: &Stable,
        from: Addr,
        to: Addr,
        router: RouterId,
    ) -> Result<(), AllocError>
        requires { IsFlowTo state.now from.0 to.0 self.old }
        ensures flow { IsFlowTo state.now from.0 to.0 self.new }
        ensures included { OnOk result (IsFlowIncluded state.now self.new router.0) }
        ensures kept { OnOk result ((other : ℕ) → IsFlowIncluded state.now self.old other
            → IsFlowIncluded state.now self.new other) }
        ensures none { OnErr result (FlowIncludesNone self.new) }
    {
        let _state = state.network();
        match self.find(state, from, to, router) {
            Ok(()) => Ok(()),
            Err(error) => {
                self.clear();
                Err(error)
            }
        }
    }

    // Finds the ways of a router and of all to which they lead, and counts the hops from all that are included.
    fn find(
        &mut self,
        state: &Stable,
        from: Addr,
        to: Addr,
        router: RouterId,
    ) -> Result<(), AllocError>
        requires { IsFlowTo state.now from.0 to.0 self.old }
        ensures flow { OnOk result (IsFlowTo state.now from.0 to.0 self.new) }
        ensures included { OnOk result (IsFlowIncluded state.now self.new router.0) }
        ensures kept { OnOk result ((other : ℕ) → IsFlowIncluded state.now self.old other
            → IsFlowIncluded state.now self.new other) }
        ensures tables { ForSome self.new.tables (AreFilters state.now.routers) }
    {
        self.make_tables(state)?;
        let packet = Packet {
            from: Some(from),
            to,
        };
        self.found
            .include(self.alloc, state, packet, &mut self.tables, router)?;
        self.count(state, from, to)?;
        Ok(())
    }

    // Counts the hops from all routers that are included.
    fn count(&mut self, state: &Stable, from: Addr, to: Addr) -> Result<(), AllocError>
        requires found { IsFoundTo state.now (between from.0 to.0) self.old.found }
        requires tables { ForSome self.old.tables (AreFilters state.now.routers) }
        ensures flow { OnOk result (IsFlowTo state.now from.0 to.0 self.new) }
        ensures found { self.new.found ≡ self.old.found }
        ensures tables { self.new.tables ≡ self.old.tables }
    {
        let _state = state.network();
        let asked = asked_of(state, to, By::Filtered(from));
        count_hops(asked, &self.found, &mut self.fewest)?;
        Ok(())
    }

    /// The ways out of a router that is included, in order, as the packet takes them: by one on which an access list
    /// stops it, it is lost; none where there is no such router.
    pub fn ways(&self, router: RouterId) -> &[Alternative]
        ensures { (s : StateView) (from to : ℕ) → IsFlowTo s from to self.now → IsFlowIncluded s self.now router.0
            → map alternative_view result.now ≡ flow_ways s from to router.0 }
    {
        self.found.ways(router)
    }

    /// Whether the packet arrives from a router that is included by some way, over at most so many hops, 0 to
    /// [`nc_types::HOP_LIMIT`]; from none where there is no such router.
    pub fn arrives(&self, router: RouterId, hops: u8) -> bool
        requires { hops ≤ HOP_LIMIT }
        ensures { (s : StateView) (from to : ℕ) → IsFlowTo s from to self.now → IsFlowIncluded s self.now router.0
            → result ≡ flows s from to hops router.0 }
    {
        is_within(&self.fewest, router, hops)
    }

    /// Whether the packet passes by the alternative at a place of a router that is included, and is delivered there, or
    /// arrives by some way from where that leads; over at most so many hops, that one counted. It doesn't where the hops
    /// are more than [`nc_types::HOP_LIMIT`], and where there is no such alternative or router.
    pub fn arrives_by(&self, router: RouterId, place: usize, hops: u8) -> bool
        ensures { (s : StateView) (from to : ℕ) → IsFlowTo s from to self.now → IsFlowIncluded s self.now router.0
            → result ≡ flow_step_at s from to router.0 place hops }
    {
        if HOP_LIMIT < hops {
            return false;
        }
        match outcome_in(self.found.ways(router), place) {
            Some(outcome) => leads_on(&self.fewest, outcome, hops),
            None => false,
        }
    }

    /// What an interface of a router says of the packet that comes in by it, or goes out; [`Passing::Free`] where there
    /// is no such interface or router. A list is gone through once for a packet.
    ///
    /// # Errors
    ///
    /// Memory that runs out.
    pub fn passing(
        &mut self,
        state: &Stable,
        router: RouterId,
        iface: IfaceId,
        inward: bool,
        from: Addr,
        to: Addr,
    ) -> Result<Passing, AllocError>
        requires { IsFlowTo state.now from.0 to.0 self.old }
        ensures flow { IsFlowTo state.now from.0 to.0 self.new }
        ensures included { (other : ℕ) → IsFlowIncluded state.now self.old other
            → IsFlowIncluded state.now self.new other }
        ensures passing { IfOk result (λ answer. answer
            ≡ passing_at from.0 to.0 state.now.routers router.0 iface.0 inward) }
    {
        self.make_tables(state)?;
        let network = state.network();
        if let Some(tables) = &mut self.tables {
            let passing = tables.passing(network, router, iface, inward, from, to)?;
            return Ok(passing);
        }
        Err(AllocError)
    }
}
