//! The entries of a community list, each from its statement.

ghost use Rattle.std.specs.Prelude.{◌≡◌, All};
ghost use Rattle.nc_reader.specs.Gathering.{IsLine};
ghost use Rattle.nc_reader.specs.Parts.{AreCommunities};
ghost use Rattle.nc_reader.specs.Things.{communities_in};

use nc_lines::Lines;
use nc_read_policy::read_community_entry;
use nc_types::{CommunityEntry, ConfigFault};
use std::alloc::Global;

/// An entry of a community list with its line, from 1.
#[derive(Drop)]
pub(crate) struct CommunityLine {
    pub(crate) entry: CommunityEntry,
    pub(crate) line: u32,
}

/// Reads the entries of these lines, which are those of one community list.
///
/// # Errors
///
/// The first faulty line, with its cause; memory that runs out.
pub(crate) fn read_communities(
    alloc: Global,
    lines: &Lines,
    places: &[u32],
) -> Result<Vec<CommunityLine>, ConfigFault>
    requires { All (IsLine lines.now) places.now }
    ensures { AreCommunities result (communities_in lines.now places.now) }
{
    let mut parts = Vec::with_capacity(alloc, places.len())?;
    'entries: for line in places {
        let named = match read_community_entry(alloc, lines, *line) {
            Ok(named) => named,
            Err(fault) => return Err(fault),
        };
        let (_, entry) = named;
        parts.push(CommunityLine { entry, line: *line })?;
    }
    Ok(parts)
}
