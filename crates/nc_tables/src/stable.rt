ghost use Rattle.std.specs.Prelude.{◌≡◌, length};
ghost use Rattle.nc_tables.specs.State.{IsState};

use crate::base::BaseTables;
use crate::mains::MainTables;
use crate::routes::BgpTable;
use crate::sessions::Sessions;
use nc_types::Network;
use std::marker::Model;

/// The state in which a network settles: its routers with their tables, all of which are as they are
/// defined for these routers. Each table has one list a router.
#[derive(Drop)]
pub struct Stable {
    network: Network,
    base: BaseTables,
    sessions: Sessions,
    bgp: BgpTable,
    main: MainTables,
}

impl Model for Stable {
    ghost use Rattle.nc_tables.specs.State.{StateView, IsState};

    ghost Value = { StateView };

    ghost view = { λ s. record { routers = s.network; base = s.base; sessions = s.sessions; bgp = s.bgp; main = s.main } };

    ghost invariant = { λ s. IsState (record { routers = s.network; base = s.base; sessions = s.sessions; bgp = s.bgp; main = s.main }) };
}

impl Stable {
    /// The state of a network with these tables.
    pub fn new(
        network: Network,
        base: BaseTables,
        sessions: Sessions,
        bgp: BgpTable,
        main: MainTables,
    ) -> Stable
        requires { IsState
            (record { routers = network; base = base; sessions = sessions; bgp = bgp; main = main }) }
        ensures { result
            ≡ record { routers = network; base = base; sessions = sessions; bgp = bgp; main = main } }
    {
        Stable {
            network,
            base,
            sessions,
            bgp,
            main,
        }
    }

    /// The routers.
    pub fn network(&self) -> &Network
        ensures network { result.now ≡ self.now.routers }
        ensures state { IsState self.now }
    {
        &self.network
    }

    /// The base tables, one a router.
    pub fn base(&self) -> &BaseTables
        ensures base { result.now ≡ self.now.base }
        ensures count { length result.now ≡ length self.now.routers }
        ensures state { IsState self.now }
    {
        &self.base
    }

    /// The sessions, one list a router.
    pub fn sessions(&self) -> &Sessions
        ensures sessions { result.now ≡ self.now.sessions }
        ensures count { length result.now ≡ length self.now.routers }
        ensures state { IsState self.now }
    {
        &self.sessions
    }

    /// The BGP tables, one a router.
    pub fn bgp(&self) -> &BgpTable
        ensures bgp { result.now ≡ self.now.bgp }
        ensures count { length result.now ≡ length self.now.routers }
        ensures state { IsState self.now }
    {
        &self.bgp
    }

    /// The main tables, one a router.
    pub fn main(&self) -> &MainTables
        ensures main { result.now ≡ self.now.main }
        ensures count { length result.now ≡ length self.now.routers }
        ensures state { IsState self.now }
    {
        &self.main
    }
}
