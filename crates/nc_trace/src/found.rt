//! The ways of routers for one packet, from one router on: those of each router to which they lead are found too.

ghost use Rattle.std.specs.Prelude.{◌≡◌, ◌-◌, ◌<◌, ◌≤◌, ◌≢◌, ◌++◌, ◌⊎◌, ◌∷◌, [], ℕ, Some, None, true, is_some, length, take, drop, map, slice_get, slice_index_or, All, IfOk, OnOk};
ghost use Rattle.std.specs.Option.{unwrap_or, ForSome};
ghost use Rattle.nc_filter.specs.Tables.{AreFilters};
ghost use Rattle.nc_tables.specs.Forwarding.{alternatives};
ghost use Rattle.nc_trace.specs.Found.{AreListed, IsWithin, found_at, is_one_of, covers, GoesTo, IsListed, IsListedOrNone, IsCoveredOrNone, IsCoveredOrListed, IsFoundTo, AreWays, LeadTo, ways_out};
ghost use Rattle.nc_trace.specs.Views.{alternative_view, outcome_view};

use crate::alternative::{Alternative, Outcome};
use crate::packet::Packet;
use crate::span::Span;
use crate::taken::taken_by;
use crate::ways::Ways;
use nc_filter::FilterTables;
use nc_tables::Stable;
use nc_types::RouterId;
use std::alloc::{AllocError, Global};
use std::marker::Model;

// Lists the router to which a packet goes on, if it is one of so many.
fn list_next(count: usize, outcome: Outcome, list: &mut Vec<RouterId>) -> Result<(), AllocError>
    ensures kept { (place : ℕ) (router : RouterId) → slice_get list.old.items place ≡ Some router
        → slice_get list.new.items place ≡ Some router }
    ensures listed { OnOk result (GoesTo (IsListedOrNone count list.new.items) (outcome_view outcome)) }
{
    if let Outcome::Go(next, _) = outcome {
        if (next.0 as usize) < count {
            list.push(next)?;
        }
    }
    Ok(())
}

// Appends the ways out of a router, and lists the routers to which they lead.
fn push_ways(
    state: &Stable,
    router: RouterId,
    packet: Packet,
    tables: &mut Option<FilterTables>,
    ways: &mut Vec<Alternative>,
    list: &mut Vec<RouterId>,
) -> Result<(), AllocError>
    requires router { router.0 < length state.now.routers }
    requires tables { ForSome tables.old (AreFilters state.now.routers) }
    ensures tables { ForSome tables.new (AreFilters state.now.routers) }
    ensures before { take (length ways.old.items) ways.new.items ≡ ways.old.items }
    ensures ways { OnOk result (map alternative_view ways.new.items
        ≡ map alternative_view ways.old.items ++ ways_out state.now packet router.0) }
    ensures kept { (place : ℕ) (router : RouterId) → slice_get list.old.items place ≡ Some router
        → slice_get list.new.items place ≡ Some router }
    ensures listed { OnOk result (All
        (λ way. GoesTo (IsListedOrNone (length state.now.routers) list.new.items) way.outcome)
        (ways_out state.now packet router.0)) }
{
    let count = state.network().routers().len();
    let mut left = Ways::new(state, router, packet.to);
    'ways: while let Some(out) = left.next() {
        let way = taken_by(state, tables, router, packet, out)?;
        ways.push(way)?;
        list_next(count, way.outcome, list)?;
    }
    Ok(())
}

// The ways that stand in a span.
fn part(ways: &[Alternative], span: Span) -> &[Alternative]
    requires { IsWithin (length ways.now) span }
    ensures { result.now ≡ take (span.to - span.from) (drop span.from ways.now) }
{
    &ways[span.from..span.to]
}

// The span of a router; none where it has none.
fn span_of(spans: &[Option<Span>], router: RouterId) -> Option<Span>
    ensures { result ≡ slice_index_or spans.now router.0 None }
{
    let span = spans.get(router.0 as usize)?;
    *span
}

// Takes away the spans of these routers, which are all that have one.
fn forget(routers: &[RouterId], spans: &mut [Option<Span>])
    requires { AreListed spans.old routers.now }
    ensures none { (router : ℕ) → slice_index_or spans.new router None ≡ None }
    ensures len { length spans.new ≡ length spans.old }
{
    let mut left = routers;
    'routers: while let Some((router, before)) = left.split_last() {
        spans[router.0 as usize] = None;
        left = before;
    }
}

/// The ways of some routers for one packet.
#[derive(Drop)]
pub(crate) struct Found {
    // One for each router of the network, from the first on whose ways are asked for.
    spans: Vec<Option<Span>>,
    ways: Vec<Alternative>,
    // The routers that have a span, so that no other has to be looked at.
    routers: Vec<RouterId>,
}

impl Model for Found {
    ghost use Rattle.nc_trace.specs.Found.{FoundWays, found_view, AreKept};

    ghost Value = { FoundWays };

    ghost view = { λ f. found_view f.spans.items f.ways.items };

    ghost invariant = { λ f. AreKept f.spans.items f.ways.items f.routers.items };
}

impl Found {
    /// None were found yet. Takes no memory.
    pub(crate) fn new(alloc: Global) -> Found
        ensures { (router : ℕ) → found_at result router ≡ None }
    {
        Found {
            spans: Vec::new(alloc),
            ways: Vec::new(alloc),
            routers: Vec::new(alloc),
        }
    }

    /// Forgets all of them; its room in memory is kept.
    pub(crate) fn clear(&mut self)
        ensures { (router : ℕ) → found_at self.new router ≡ None }
    {
        forget(&self.routers, &mut self.spans);
        self.routers.clear();
        self.ways.clear();
    }

    /// For how many routers there is room: all of the network, from the first on whose ways are asked for.
    pub(crate) fn room(&self) -> usize
        ensures { result ≡ length self.now }
    {
        self.spans.len()
    }

    /// The routers whose ways were found.
    pub(crate) fn routers(&self) -> &[RouterId]
        ensures { (router : ℕ) → covers self.now router ≡ is_one_of result.now router }
    {
        &self.routers
    }

    /// Whether those of a router were found.
    pub(crate) fn covers(&self, router: RouterId) -> bool
        ensures { result ≡ covers self.now router.0 }
    {
        span_of(&self.spans, router).is_some()
    }

    /// Those of a router; none where they weren't found.
    pub(crate) fn ways(&self, router: RouterId) -> &[Alternative]
        ensures { map alternative_view result.now ≡ unwrap_or (found_at self.now router.0) [] }
    {
        match span_of(&self.spans, router) {
            Some(span) => part(&self.ways, span),
            None => &[],
        }
    }

    // Makes room for so many routers, unless there is.
    fn make_room(&mut self, count: usize) -> Result<(), AllocError>
        ensures room { OnOk result (count ≤ length self.new) }
        ensures found { (router : ℕ) → found_at self.new router ≡ found_at self.old router }
    {
        if self.spans.len() < count {
            self.spans.resize(count, None)?;
        }
        Ok(())
    }

    // Finds those of one router, and lists the routers to which they lead.
    fn find(
        &mut self,
        state: &Stable,
        router: RouterId,
        packet: Packet,
        tables: &mut Option<FilterTables>,
        list: &mut Vec<RouterId>,
    ) -> Result<(), AllocError>
        requires router { router.0 < length state.now.routers }
        requires room { length state.now.routers ≤ length self.old }
        requires tables { ForSome tables.old (AreFilters state.now.routers) }
        ensures tables { ForSome tables.new (AreFilters state.now.routers) }
        ensures room { length self.new ≡ length self.old }
        ensures found { OnOk result (found_at self.new router.0 ≡ Some (ways_out state.now packet router.0)) }
        ensures others { OnOk result ((other : ℕ) → other ≢ router.0 → found_at self.new other ≡ found_at self.old other) }
        ensures kept { (place : ℕ) (router : RouterId) → slice_get list.old.items place ≡ Some router
            → slice_get list.new.items place ≡ Some router }
        ensures listed { OnOk result (All
            (λ way. GoesTo (IsListedOrNone (length state.now.routers) list.new.items) way.outcome)
            (ways_out state.now packet router.0)) }
    {
        let from = self.ways.len();
        push_ways(state, router, packet, tables, &mut self.ways, list)?;
        let to = self.ways.len();
        self.routers.push(router)?;
        self.spans[router.0 as usize] = Some(Span { from, to });
        Ok(())
    }

    // Finds those of a listed router, unless they were found or there is no such router.
    fn find_next(
        &mut self,
        state: &Stable,
        router: RouterId,
        packet: Packet,
        tables: &mut Option<FilterTables>,
        list: &mut Vec<RouterId>,
    ) -> Result<(), AllocError>
        requires room { length state.now.routers ≤ length self.old }
        requires ways { AreWays state.now packet self.old }
        requires leads { LeadTo state.now packet
            (IsCoveredOrListed (length state.now.routers) list.old.items self.old) self.old }
        requires tables { ForSome tables.old (AreFilters state.now.routers) }
        ensures tables { ForSome tables.new (AreFilters state.now.routers) }
        ensures room { length self.new ≡ length self.old }
        ensures ways { OnOk result (AreWays state.now packet self.new) }
        ensures leads { OnOk result (LeadTo state.now packet
            (IsCoveredOrListed (length state.now.routers) list.new.items self.new) self.new) }
        ensures more { OnOk result ((other : ℕ) → covers self.old other ≡ true
            → covers self.new other ≡ true) }
        ensures done { OnOk result
            (IsCoveredOrNone (length state.now.routers) self.new router.0) }
        ensures kept { (place : ℕ) (other : RouterId) → slice_get list.old.items place ≡ Some other
            → slice_get list.new.items place ≡ Some other }
    {
        if (router.0 as usize) >= state.network().routers().len() {
            return Ok(());
        }
        if self.covers(router) {
            return Ok(());
        }
        self.find(state, router, packet, tables, list)?;
        Ok(())
    }

    // Finds those of the routers that are listed and of all to which these lead.
    fn find_all(
        &mut self,
        state: &Stable,
        packet: Packet,
        tables: &mut Option<FilterTables>,
        list: Vec<RouterId>,
    ) -> Result<(), AllocError>
        requires room { length state.now.routers ≤ length self.old }
        requires found { IsFoundTo state.now packet self.old }
        requires tables { ForSome tables.old (AreFilters state.now.routers) }
        ensures tables { ForSome tables.new (AreFilters state.now.routers) }
        ensures found { OnOk result (IsFoundTo state.now packet self.new) }
        ensures more { OnOk result ((other : ℕ) → covers self.old other ≡ true
            → covers self.new other ≡ true) }
        ensures listed { OnOk result ((router : ℕ) → IsListed list.items router
            → IsCoveredOrNone (length state.now.routers) self.new router) }
    {
        let mut list = list;
        'routers: for place in 0..usize::MAX {
            if place >= list.len() {
                return Ok(());
            }
            self.find_next(state, list[place], packet, tables, &mut list)?;
        }
        Err(AllocError)
    }

    /// Finds those of a router and of all routers to which they lead.
    ///
    /// # Errors
    ///
    /// Memory that runs out; then some may have been found.
    pub(crate) fn include(
        &mut self,
        alloc: Global,
        state: &Stable,
        packet: Packet,
        tables: &mut Option<FilterTables>,
        router: RouterId,
    ) -> Result<(), AllocError>
        requires found { IsFoundTo state.now packet self.old }
        requires tables { ForSome tables.old (AreFilters state.now.routers) }
        ensures tables { ForSome tables.new (AreFilters state.now.routers) }
        ensures found { OnOk result (IsFoundTo state.now packet self.new) }
        ensures more { OnOk result ((other : ℕ) → covers self.old other ≡ true
            → covers self.new other ≡ true) }
        ensures included { OnOk result
            (IsCoveredOrNone (length state.now.routers) self.new router.0) }
    {
        let count = state.network().routers().len();
        self.make_room(count)?;
        let mut list = Vec::new(alloc);
        list.push(router)?;
        self.find_all(state, packet, tables, list)
    }
}
