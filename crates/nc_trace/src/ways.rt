//! The ways out of a router for an address, one after the other.

ghost use Rattle.std.specs.Prelude.{◌≡◌, ◌<◌, ◌∷◌, [], IfOk, MatchOption, length, map, slice_get};
ghost use Rattle.std.specs.Option.{option_map};
ghost use Rattle.nc_tables.specs.Forwarding.{alternatives};
ghost use Rattle.nc_trace.specs.Found.{ways_out};
ghost use Rattle.nc_trace.specs.Views.{alternative_view};

use crate::alternative::Alternative;
use crate::left::{Left, first_left, next_way};
use crate::packet::Packet;
use crate::taken::taken;
use nc_tables::Stable;
use nc_types::{Addr, RouterId};
use std::alloc::{AllocError, Global};
use std::marker::Model;

/// The ways out of a router that are left for a packet: one after the other, in order. It takes no memory.
#[derive(Drop)]
pub struct Ways<'a> {
    state: &'a Stable,
    router: RouterId,
    packet: Packet,
    left: Left,
}

impl<'a> Model for Ways<'a> {
    ghost use Rattle.std.specs.Prelude.{List, ◌<◌, length};
    ghost use Rattle.nc_tables.specs.Forwarding.{Alternative};
    ghost use Rattle.nc_trace.specs.Found.{all_from};
    ghost use Rattle.nc_trace.specs.Left.{left_ways, IsLeft};

    ghost Value = { List Alternative };

    ghost view = { λ w. all_from w.state.now w.packet.from w.packet.to.0 w.router.0 (left_ways w.state.now w.router.0 w.packet.to.0 w.left) };

    ghost invariant = { λ w. (w.router.0 < length w.state.now.routers) × IsLeft w.left };
}

impl<'a> Ways<'a> {
    /// All ways out of a router, which has a number below that of the routers.
    pub fn new(state: &'a Stable, router: RouterId, addr: Addr) -> Ways<'a>
        requires { router.0 < length state.now.routers }
        ensures { result ≡ alternatives state.now.routers state.now.base state.now.bgp state.now.main router.0 addr.0 }
    {
        Ways {
            state,
            router,
            packet: Packet {
                from: None,
                to: addr,
            },
            left: first_left(state, router, addr),
        }
    }

    /// All ways out of a router as a packet takes them.
    pub(crate) fn of(state: &'a Stable, router: RouterId, packet: Packet) -> Ways<'a>
        requires { router.0 < length state.now.routers }
        ensures { result ≡ ways_out state.now packet router.0 }
    {
        Ways {
            state,
            router,
            packet,
            left: first_left(state, router, packet.to),
        }
    }

    /// The first way that is left, which is taken from the front; `None` where none is.
    pub fn next(&mut self) -> Option<Alternative>
        ensures { MatchOption result ((self.old ≡ []) × (self.new ≡ []))
            (λ way. self.old ≡ alternative_view way ∷ self.new) }
    {
        let (way, left) = next_way(self.state, self.router, self.packet.to, self.left)?;
        self.left = left;
        Some(taken(self.state, self.router, self.packet, way))
    }
}

/// The ways out of a router for an address: one for each main row of the longest prefix, and for a row of BGP one for
/// each base row that leads toward its next hop. The router has a number below that of the routers.
///
/// # Errors
///
/// Memory that runs out.
pub fn alternatives(
    alloc: Global,
    state: &Stable,
    router: RouterId,
    addr: Addr,
) -> Result<Vec<Alternative>, AllocError>
    requires { router.0 < length state.now.routers }
    ensures { IfOk result (λ made. map alternative_view made.items
        ≡ alternatives state.now.routers state.now.base state.now.bgp state.now.main router.0 addr.0) }
{
    let mut made = Vec::new(alloc);
    let mut ways = Ways::new(state, router, addr);
    'ways: while let Some(way) = ways.next() {
        made.push(way)?;
    }
    Ok(made)
}

/// The alternative at a place of that list; `None` where the list ends before it. Takes no memory.
pub fn alternative_at(
    state: &Stable,
    router: RouterId,
    addr: Addr,
    place: u32,
) -> Option<Alternative>
    requires { router.0 < length state.now.routers }
    ensures { option_map alternative_view result ≡ slice_get
        (alternatives state.now.routers state.now.base state.now.bgp state.now.main router.0 addr.0) place }
{
    let mut ways = Ways::new(state, router, addr);
    'ways: for _before in 0..place {
        if ways.next().is_none() {
            return None;
        }
    }
    ways.next()
}
