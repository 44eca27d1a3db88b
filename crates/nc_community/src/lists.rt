//! Which entry of a community list decides on a route.

ghost use Rattle.std.specs.Prelude.{◌≡◌};
ghost use Rattle.nc_types.specs.Communities as sets;
ghost use Rattle.nc_types.specs.Setting.{deciding_community};

use crate::held::Held;
use nc_types::{Communities, CommunityList};

/// Whether a route has every member of a set.
pub fn holds_all(held: &Held, members: &Communities) -> bool
    ensures { result ≡ sets.holds_all held.now members.now }
{
    members.numbers().iter().all(|member| held.has(*member))
}

/// The entry of a community list that decides on a route with these communities, by its place: the
/// first whose members it has all; `None` where there is none.
pub fn decide(list: &CommunityList, held: &Held) -> Option<usize>
    ensures { result ≡ deciding_community held.now list.now.entries.items }
{
    list.entries
        .iter()
        .position(|entry| holds_all(held, &entry.members))
}
