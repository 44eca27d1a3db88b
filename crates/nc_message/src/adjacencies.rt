//! What is known of the sender of each session before any message.

ghost use Rattle.std.specs.Prelude.{◌≡◌, IfOk, is_some, length};
ghost use Rattle.nc_tables.specs.Rounds.{link_at};
ghost use Rattle.nc_sessions.specs.Views.{link_view};
ghost use Rattle.nc_message.specs.Inputs.{IsBetween};
ghost use Rattle.nc_message.specs.Adjacencies.{sender_in, AreAdjacencies, AreOfSessions, AreSenders};
ghost use Rattle.nc_message.specs.Adjacencies.{HasEachSender, IsSender, IsSenderAt};

use crate::rows::is_own;
use nc_sessions::{Link, link_at, router_id, statements};
use nc_tables::{BaseTables, Sessions};
use nc_types::{Addr, Network, RouterId};
use nc_underlay::has_hit;
use std::alloc::{AllocError, Global};
use std::marker::Model;

/// What is known of the sender of a session once for all its messages.
#[derive(Clone, Copy)]
pub struct Sender {
    /// Its router id.
    pub id: Addr,
    /// Whether the address from which it starts is one of the receiver's own.
    pub is_own: bool,
    /// Whether the receiver's base table leads to that address.
    pub is_reached: bool,
}

/// Both ends of a session, and what is known of its sender, where that was asked before.
#[derive(Clone, Copy)]
pub struct Adjacency<'a> {
    pub link: Link<'a>,
    pub sender: Option<Sender>,
}

/// What is known of the senders of a network's sessions. It is made once, and by it a message from
/// another system needs no look-up but that of the session and that of the best candidate.
#[derive(Drop)]
pub struct Adjacencies {
    routers: Vec<Vec<Option<Sender>>>,
}

impl Model for Adjacencies {
    ghost use Rattle.std.specs.Prelude.{List, Option, map};
    ghost use Rattle.nc_message.specs.declared.adjacencies.Sender.{Sender};

    ghost Value = { List (List (Option Sender)) };

    ghost view = { λ l. map (λ row. row.items) l.routers.items };
}

// What is known of the sender of a session of a router.
fn sender_of(network: &Network, base: &BaseTables, router: RouterId, link: &Link) -> Sender
    requires tables { length base.now ≡ length network.now }
    requires between { IsBetween network.now router.0 (link_view link.now) }
    ensures { IsSender base.now router.0 (link_view link.now) result }
{
    Sender {
        id: router_id(link.sender.config),
        is_own: is_own(network, router, link, link.source),
        is_reached: has_hit(network, base, router, link.source),
    }
}

// What is known of the sender to the neighbor statement at a place of a router.
fn sender_at(
    network: &Network,
    base: &BaseTables,
    sessions: &Sessions,
    router: RouterId,
    place: u32,
) -> Option<Sender>
    requires tables { length base.now ≡ length network.now }
    requires sessions { length sessions.now ≡ length network.now }
    ensures sender { IsSenderAt network.now base.now sessions.now router.0 place result }
    ensures known { is_some result ≡ is_some (link_at network.now sessions.now router.0 place) }
{
    let link = link_at(network, sessions, router, place)?;
    Some(sender_of(network, base, router, &link))
}

// What is known of the senders to a router, one for each of its neighbor statements.
fn senders_to(
    alloc: Global,
    network: &Network,
    base: &BaseTables,
    sessions: &Sessions,
    router: RouterId,
) -> Result<Vec<Option<Sender>>, AllocError>
    requires tables { length base.now ≡ length network.now }
    requires sessions { length sessions.now ≡ length network.now }
    ensures senders { IfOk result
        (λ row. AreSenders network.now base.now sessions.now router.0 row.items) }
    ensures all { IfOk result
        (λ row. AreOfSessions network.now sessions.now router.0 row.items) }
{
    let count = statements(network, router).len();
    let mut row = Vec::with_capacity(alloc, count)?;
    'places: for place in 0..count {
        row.push(sender_at(network, base, sessions, router, place as u32))?;
    }
    Ok(row)
}

impl Adjacencies {
    /// What is known of the senders of the sessions of a network, which has a base table and a list
    /// of sessions for each router: of each session something.
    ///
    /// # Errors
    ///
    /// Memory that runs out.
    pub fn new(
        alloc: Global,
        network: &Network,
        base: &BaseTables,
        sessions: &Sessions,
    ) -> Result<Adjacencies, AllocError>
        requires tables { length base.now ≡ length network.now }
        requires sessions { length sessions.now ≡ length network.now }
        ensures so { IfOk result
            (λ adjacencies. AreAdjacencies network.now base.now sessions.now adjacencies) }
        ensures all { IfOk result
            (λ adjacencies. HasEachSender network.now sessions.now adjacencies) }
    {
        let count = network.routers().len();
        let mut routers = Vec::with_capacity(alloc, count)?;
        'routers: for router in 0..count {
            let router = RouterId(router as u32);
            routers.push(senders_to(alloc, network, base, sessions, router)?)?;
        }
        Ok(Adjacencies { routers })
    }

    /// What is known of the sender to the neighbor statement at a place of a router; `None` where
    /// there is no such statement or router.
    pub(crate) fn get(&self, router: RouterId, place: u32) -> Option<Sender>
        ensures { result ≡ sender_in self.now router.0 place }
    {
        let row = self.routers.get(router.0 as usize)?;
        *row.get(place as usize)?
    }
}
