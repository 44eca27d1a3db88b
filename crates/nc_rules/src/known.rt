//! The ways of packets for addresses, which are found once for all facts and tests of one.

ghost use Rattle.std.specs.Prelude.{◌≡◌, IfOk, OnOk};
ghost use Rattle.nc_tables.specs.State.{IsState};
ghost use Rattle.std.specs.Option.{ForSome};
ghost use Rattle.nc_trace.specs.Traced.{IsIncluded, IsTracedTo};
ghost use Rattle.nc_fact.specs.Tested.{packet_of};
ghost use Rattle.nc_rules.specs.Known.{AreTraced, IsKnown};

use nc_fact::packet_of;
use nc_tables::Stable;
use nc_trace::TracedTo;
use nc_types::{Addr, RouterId, TestCommand};
use std::alloc::{AllocError, Global};
use std::collections::HashMap;
use std::mem;

// How many other addresses' ways are kept at most, and how many ways of them together.
const KEPT_ADDRESSES: usize = 512;

const KEPT_WAYS: usize = 1 << 16;

// The ways for an address, and how many there are.
#[derive(Drop)]
pub(crate) struct Past {
    pub(crate) traced: TracedTo,
    count: usize,
}

/// The ways for the address that was asked for last, from those routers from which they were asked for, and
/// beside them those for others that were asked for before.
#[derive(Drop)]
pub(crate) struct Known {
    alloc: Global,
    pub(crate) addr: Addr,
    pub(crate) traced: TracedTo,
    // how many ways these are, unless more may have been found since they were counted
    own_count: Option<usize>,
    pub(crate) others: HashMap<Addr, Past>,
    // how many ways the others have together
    others_count: usize,
}

// How many ways were found, of all routers.
fn ways_in(state: &Stable, traced: &TracedTo) -> usize {
    let mut count: usize = 0;
    'routers: for router in 0..state.network().routers().len() {
        let ways = traced.ways(RouterId(router as u32));
        count = count.saturating_add(ways.len());
    }
    count
}

impl Known {
    /// None yet. Takes no memory.
    pub(crate) fn new(alloc: Global, state: &Stable) -> Known
        ensures { IsKnown state.now result }
    {
        let _state = state.network();
        let traced = TracedTo::new(alloc);
        let others = HashMap::new(alloc);
        Known {
            alloc,
            addr: Addr(0),
            traced,
            own_count: Some(0),
            others,
            others_count: 0,
        }
    }

    // Takes the ways for an address from beside; none where they aren't there.
    fn take(&mut self, state: &Stable, addr: Addr) -> Past
        requires { AreTraced state.now self.old.others }
        ensures traced { IsTracedTo state.now addr.0 result.traced }
        ensures others { AreTraced state.now self.new.others }
        ensures addr { self.new.addr ≡ self.old.addr }
        ensures own { self.new.traced ≡ self.old.traced }
    {
        let _state = state.network();
        match self.others.remove(&addr) {
            Some(past) => {
                self.others_count = self.others_count.saturating_sub(past.count);
                past
            }
            None => Past {
                traced: TracedTo::new(self.alloc),
                count: 0,
            },
        }
    }

    // Lets go of what is kept beside, where one more address with so many ways would be more than is kept.
    fn make_room(&mut self, state: &Stable, count: usize)
        requires { AreTraced state.now self.old.others }
        ensures others { AreTraced state.now self.new.others }
        ensures addr { self.new.addr ≡ self.old.addr }
        ensures own { self.new.traced ≡ self.old.traced }
    {
        let ways = self.others_count.saturating_add(count);
        if self.others.len() >= KEPT_ADDRESSES || ways > KEPT_WAYS {
            self.others.clear();
            self.others_count = 0;
        }
    }

    // Puts the ways for an address beside, unless they are more than are kept.
    fn put(&mut self, state: &Stable, addr: Addr, past: Past) -> Result<(), AllocError>
        requires traced { IsTracedTo state.now addr.0 past.traced }
        requires others { AreTraced state.now self.old.others }
        ensures others { AreTraced state.now self.new.others }
        ensures addr { self.new.addr ≡ self.old.addr }
        ensures own { self.new.traced ≡ self.old.traced }
    {
        let count = past.count;
        if count > KEPT_WAYS {
            return Ok(());
        }
        self.make_room(state, count);
        self.others.insert(addr, past)?;
        self.others_count = self.others_count.saturating_add(count);
        Ok(())
    }

    // How many ways there are for the address that was asked for last.
    fn count_own(&self, state: &Stable) -> usize {
        match self.own_count {
            Some(count) => count,
            None => ways_in(state, &self.traced),
        }
    }

    // How many ways there are behind a look for those from a router, if that can't find more.
    fn counted_past(&self, router: RouterId) -> Option<usize> {
        let count = self.own_count?;
        if self.traced.ways(router).is_empty() {
            return None;
        }
        Some(count)
    }

    // Turns to an address: the ways for the one before are put beside.
    fn turn_to(&mut self, state: &Stable, addr: Addr) -> Result<(), AllocError>
        requires { IsKnown state.now self.old }
        ensures known { IsKnown state.now self.new }
        ensures addr { self.new.addr ≡ addr }
    {
        if self.addr == addr {
            return Ok(());
        }
        let count = self.count_own(state);
        let found = self.take(state, addr);
        self.own_count = Some(found.count);
        let traced = mem::replace(&mut self.traced, found.traced);
        let left = mem::replace(&mut self.addr, addr);
        self.put(state, left, Past { traced, count })
    }

    /// Knows the ways from a router for an address.
    ///
    /// # Errors
    ///
    /// Memory that runs out.
    pub(crate) fn include(
        &mut self,
        state: &Stable,
        router: RouterId,
        addr: Addr,
    ) -> Result<(), AllocError>
        requires { IsKnown state.now self.old }
        ensures known { IsKnown state.now self.new }
        ensures addr { self.new.addr ≡ addr }
        ensures included { OnOk result (IsIncluded state.now self.new.traced router.0) }
    {
        self.turn_to(state, addr)?;
        self.own_count = self.counted_past(router);
        self.traced.include(state, self.addr, router)
    }

    /// Knows the ways of the packet of which a test asks whether it arrives, if it asks of one.
    ///
    /// # Errors
    ///
    /// Memory that runs out.
    pub(crate) fn include_of(
        &mut self,
        state: &Stable,
        test: &TestCommand,
    ) -> Result<(), AllocError>
        requires { IsKnown state.now self.old }
        ensures known { IsKnown state.now self.new }
        ensures included { OnOk result (ForSome (packet_of state.now test.now) (λ start.
            IsTracedTo state.now start.1.0 self.new.traced
            × IsIncluded state.now self.new.traced start.0.0)) }
    {
        match packet_of(state, test) {
            Some((router, addr)) => self.include(state, router, addr),
            None => Ok(()),
        }
    }
}
