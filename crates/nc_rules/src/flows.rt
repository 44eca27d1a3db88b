//! The ways that let one packet pass, which are found once for all facts and tests of it.

ghost use Rattle.std.specs.Prelude.{◌≡◌, ◌++◌, true, IfOk, OnOk, Some, is_ok, if◌then◌else◌};
ghost use Rattle.std.specs.Option.{ForSome};
ghost use Rattle.nc_trace.specs.Flow.{IsFlowTo, IsFlowIncluded};
ghost use Rattle.nc_fact.specs.Facts.{holds};
ghost use Rattle.nc_fact.specs.Tested.{flow_packet_of};
ghost use Rattle.nc_rules_route.specs.Parents.{flow_start, kind, parents};
ghost use Rattle.nc_rules.specs.Known.{IsKnownFlow};

use nc_fact::{Fact, flow_packet_of};
use nc_graph::node::NodeKind;
use nc_rules_route::flow_parents;
use nc_tables::Stable;
use nc_trace::FlowTo;
use nc_types::{Addr, RouterId, TestCommand};
use std::alloc::{AllocError, Global};

/// The ways that let a packet pass from one address to another, from those routers from which they were asked for.
#[derive(Drop)]
pub(crate) struct KnownFlow {
    pub(crate) from: Addr,
    pub(crate) to: Addr,
    pub(crate) flowing: FlowTo,
}

impl KnownFlow {
    /// None yet. Takes no memory.
    pub(crate) fn new(alloc: Global, state: &Stable) -> KnownFlow
        ensures { IsKnownFlow state.now result }
    {
        let _state = state.network();
        KnownFlow {
            from: Addr(0),
            to: Addr(0),
            flowing: FlowTo::new(alloc),
        }
    }

    // Turns to a packet: the ways of another one are let go of.
    fn turn_to(&mut self, state: &Stable, from: Addr, to: Addr)
        requires { IsKnownFlow state.now self.old }
        ensures known { IsKnownFlow state.now self.new }
        ensures from { self.new.from ≡ from }
        ensures to { self.new.to ≡ to }
    {
        let _state = state.network();
        if self.from != from || self.to != to {
            self.flowing.clear();
            self.from = from;
            self.to = to;
        }
    }

    // Knows the ways from a router that let a packet pass; those of another packet are let go of.
    fn include(
        &mut self,
        state: &Stable,
        router: RouterId,
        from: Addr,
        to: Addr,
    ) -> Result<(), AllocError>
        requires { IsKnownFlow state.now self.old }
        ensures known { IsKnownFlow state.now self.new }
        ensures from { self.new.from ≡ from }
        ensures to { self.new.to ≡ to }
        ensures included { OnOk result (IsFlowIncluded state.now self.new.flowing router.0) }
    {
        self.turn_to(state, from, to);
        self.flowing.include(state, self.from, self.to, router)
    }

    /// Knows the ways of the packet of which a test asks whether it is let pass, if it asks of one.
    ///
    /// # Errors
    ///
    /// Memory that runs out.
    pub(crate) fn include_of(
        &mut self,
        state: &Stable,
        test: &TestCommand,
    ) -> Result<(), AllocError>
        requires { IsKnownFlow state.now self.old }
        ensures known { IsKnownFlow state.now self.new }
        ensures included { OnOk result (ForSome (flow_packet_of state.now test.now) (λ start.
            IsFlowTo state.now start.1.0 start.2.0 self.new.flowing
            × IsFlowIncluded state.now self.new.flowing start.0.0)) }
    {
        match flow_packet_of(state, test) {
            Some((router, from, to)) => self.include(state, router, from, to),
            None => Ok(()),
        }
    }

    /// Appends the parents of a fact that holds of a packet, and answers how it follows from them.
    ///
    /// # Errors
    ///
    /// Memory that runs out; `into` is then as before.
    pub(crate) fn parents(
        &mut self,
        state: &Stable,
        start: (RouterId, Addr, Addr),
        fact: &Fact,
        into: &mut Vec<Fact>,
    ) -> Result<NodeKind, AllocError>
        requires known { IsKnownFlow state.now self.old }
        requires holds { holds state.now fact.now ≡ true }
        requires start { flow_start fact.now ≡ Some start }
        ensures known { IsKnownFlow state.now self.new }
        ensures kind { IfOk result (λ k. k ≡ kind fact.now) }
        ensures parents { into.new.items
            ≡ (if is_ok result then into.old.items ++ parents state.now fact.now else into.old.items) }
    {
        let (router, from, to) = start;
        self.include(state, router, from, to)?;
        flow_parents(state, &mut self.flowing, fact, into)
    }
}
