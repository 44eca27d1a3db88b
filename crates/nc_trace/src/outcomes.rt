//! What comes of a packet by a row.

ghost use Rattle.std.specs.Prelude.{◌≡◌, length};
ghost use Rattle.std.specs.Option.{option_map};
ghost use Rattle.nc_tables.specs.Forwarding.{going, outcome_of};
ghost use Rattle.nc_tables.specs.Reach.{leads_to};
ghost use Rattle.nc_trace.specs.Views.{outcome_view};

use crate::alternative::Outcome;
use nc_tables::{BaseFrom, Stable};
use nc_types::{Addr, IfaceId, RouterId};
use nc_underlay::{base_rows, leads_to};

// A packet that is led somewhere goes there, and any other is lost.
fn going(next: Option<(RouterId, IfaceId)>) -> Outcome
    ensures { outcome_view result ≡ going (option_map (λ o. record { router = o.0.0; place = o.1.0 }) next) }
{
    match next {
        Some((router, iface)) => Outcome::Go(router, iface),
        None => Outcome::Lost,
    }
}

/// What comes of a packet for an address by the base row at a place toward a next hop, or toward the address itself.
pub(crate) fn outcome_toward(state: &Stable, router: RouterId, addr: Addr, place: usize) -> Outcome
    ensures { outcome_view result
        ≡ going (leads_to state.now.routers state.now.base router.0 addr.0 place) }
{
    going(leads_to(state.network(), state.base(), router, addr, place))
}

/// What comes of a packet for an address by the base row at a place, as a row of the main table.
pub(crate) fn outcome_of(state: &Stable, router: RouterId, addr: Addr, place: usize) -> Outcome
    ensures { outcome_view result
        ≡ outcome_of state.now.routers state.now.base router.0 addr.0 place }
{
    let Some(row) = base_rows(state.network(), state.base(), router).get(place) else {
        return Outcome::Lost;
    };
    match row.from {
        BaseFrom::Connected(_) => {
            if state.network().owner_of(addr).is_none() {
                return Outcome::Deliver;
            }
            outcome_toward(state, router, addr, place)
        }
        BaseFrom::Static(_, _) => outcome_toward(state, router, addr, place),
        BaseFrom::Null(_) => Outcome::Lost,
    }
}
