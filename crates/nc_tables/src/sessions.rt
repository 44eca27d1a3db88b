ghost use Rattle.std.specs.Prelude.{◌≡◌, ◌<◌, [], All, length, map, slice_index_or};
ghost use Rattle.std.specs.Option.{option_map};
ghost use Rattle.nc_tables.specs.Sessions.{AreSessions, session_in};

use crate::bgp::SessionRow;
use crate::longest::rows_at;
use nc_types::RouterId;
use std::marker::Model;

/// The established BGP sessions of the routers of a network: of each router one for each of its neighbor
/// statements that has a session, in order of the statements.
#[derive(Drop)]
pub struct Sessions {
    rows: Vec<Vec<SessionRow>>,
}

impl Model for Sessions {
    ghost use Rattle.std.specs.Prelude.{List, All, map};
    ghost use Rattle.nc_tables.specs.declared.bgp.SessionRow.{SessionRow};
    ghost use Rattle.nc_tables.specs.Sessions.{AreSessions};

    ghost Value = { List (List SessionRow) };

    ghost view = { λ s. map (λ rows. rows.items) s.rows.items };

    ghost invariant = { λ s. All (λ rows. AreSessions rows.items) s.rows.items };
}

impl Sessions {
    /// The sessions that are these rows, a list for each router.
    pub fn from_rows(rows: Vec<Vec<SessionRow>>) -> Sessions
        requires { All (λ rows. AreSessions rows.items) rows.items }
        ensures { result ≡ map (λ rows. rows.items) rows.items }
    {
        Sessions { rows }
    }

    /// The sessions of a router, which has a number below that of the routers.
    pub fn rows(&self, router: RouterId) -> &[SessionRow]
        requires { router.0 < length self.now }
        ensures rows { result.now ≡ slice_index_or self.now router.0 [] }
        ensures ordered { AreSessions result.now }
    {
        rows_at(&self.rows, router)
    }

    /// The session of the neighbor statement at a place of a router, which has a number below that of the
    /// routers; `None` where the statement has no session, and where there is no such statement.
    pub fn get(&self, router: RouterId, neighbor: u32) -> Option<&SessionRow>
        requires { router.0 < length self.now }
        ensures { option_map (λ s. s.now) result
            ≡ session_in (slice_index_or self.now router.0 []) neighbor }
    {
        let rows = self.rows(router);
        // Where all statements have sessions, each stands at its statement's place.
        if (neighbor as usize) < rows.len() {
            let row = &rows[neighbor as usize];
            if row.neighbor == neighbor {
                return Some(row);
            }
        }
        match rows.binary_search_by_key(&neighbor, |row| row.neighbor) {
            Ok(place) => Some(&rows[place]),
            Err(_) => None,
        }
    }
}
