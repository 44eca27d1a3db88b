ghost use Rattle.std.specs.Prelude.{◌≡◌, IfSome};
ghost use Rattle.std.specs.Option.{option_map};
ghost use Rattle.nc_tables.specs.Rounds.{link_at};
ghost use Rattle.nc_sessions.specs.Views.{link_view};
ghost use Rattle.nc_message.specs.Inputs.{AreRoutingInputs, IsBetween};
ghost use Rattle.nc_message.specs.Adjacencies.{IsAdjacency, IsSenderAt};

use crate::adjacencies::{Adjacencies, Adjacency, Sender};
use nc_policy::Policies;
use nc_sessions::link_at;
use nc_tables::{BaseTables, Sessions};
use nc_types::{Network, RouterId};

/// A network with its base tables, its sessions and the tables of its maps, each of which has a
/// list for each router.
#[derive(Clone, Copy)]
pub struct RoutingInputs<'a> {
    pub network: &'a Network,
    pub base: &'a BaseTables,
    pub sessions: &'a Sessions,
    pub policies: &'a Policies,
    /// What is known of the senders of the sessions, where it is asked again and again; without it
    /// the same is found anew for each message.
    pub adjacencies: Option<&'a Adjacencies>,
}

// What is known of the sender to the neighbor statement at a place of a router, if anything is.
fn known_of(inputs: &RoutingInputs, router: RouterId, place: u32) -> Option<Sender>
    requires { AreRoutingInputs inputs.now }
    ensures { IsSenderAt inputs.now.network.now inputs.now.base.now inputs.now.sessions.now router.0
        place result }
{
    match inputs.adjacencies {
        Some(adjacencies) => adjacencies.get(router, place),
        None => None,
    }
}

/// Both ends of the session of the neighbor statement at a place of a router, and what is known of
/// its sender.
pub fn adjacency_of<'a>(
    inputs: &RoutingInputs<'a>,
    router: RouterId,
    place: u32,
) -> Option<Adjacency<'a>>
    requires { AreRoutingInputs inputs.now }
    ensures link { option_map (λ h. link_view h.link) result
        ≡ link_at inputs.now.network.now inputs.now.sessions.now router.0 place }
    ensures between { IfSome result
        (λ h. IsBetween inputs.now.network.now router.0 (link_view h.link)) }
    ensures sender { IfSome result (IsAdjacency inputs.now.base.now router.0) }
{
    let link = link_at(inputs.network, inputs.sessions, router, place)?;
    let sender = known_of(inputs, router, place);
    Some(Adjacency { link, sender })
}
