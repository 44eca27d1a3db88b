//! The things of a process by address or prefix, each as its statements so far leave it.

ghost use Rattle.std.specs.Prelude.{◌≡◌, OnOk};
ghost use Rattle.nc_types.specs.Cidr.{same_prefix};
ghost use Rattle.nc_read_bgp.specs.Readings.{neighbor_view};
ghost use Rattle.nc_read_bgp.specs.Kept.{put_in};
ghost use Rattle.nc_read_bgp.specs.Steps.{no_neighbor, neighbor_with, no_prefix, prefix_with};
ghost use Rattle.nc_read_bgp.specs.Processes.{same_addr};
ghost use Rattle.nc_read_bgp.specs.Drafts.{neighbors_of, prefixes_of};

use crate::neighbor_draft::NeighborDraft;
use crate::prefix_draft::PrefixDraft;
use crate::statement::NeighborStatement;
use indexmap::IndexMap;
use nc_types::{Addr, Prefix};
use std::alloc::{AllocError, Global};

/// Notes what a statement says of a neighbor.
pub(crate) fn note_neighbor(
    alloc: Global,
    neighbors: &mut IndexMap<Addr, NeighborDraft>,
    addr: Addr,
    line: u32,
    says: &NeighborStatement<'_>,
) -> Result<(), AllocError>
    ensures { OnOk result (neighbors_of neighbors.new.entries
        ≡ put_in same_addr addr no_neighbor
        (λ f. neighbor_with f line (neighbor_view says.now))
        (neighbors_of neighbors.old.entries)) }
{
    if let Some(draft) = neighbors.get_mut(&addr) {
        draft.take(alloc, line, says)?;
        return Ok(());
    }
    let mut draft = NeighborDraft::new(alloc);
    draft.take(alloc, line, says)?;
    neighbors.insert(addr, draft)?;
    Ok(())
}

/// Notes a statement of a network or an aggregate.
pub(crate) fn note_prefix(
    alloc: Global,
    prefixes: &mut IndexMap<Prefix, PrefixDraft>,
    prefix: Prefix,
    line: u32,
    summary_only: bool,
) -> Result<(), AllocError>
    ensures { OnOk result (prefixes_of prefixes.new.entries
        ≡ put_in same_prefix prefix no_prefix
        (λ f. prefix_with summary_only line f) (prefixes_of prefixes.old.entries)) }
{
    if let Some(draft) = prefixes.get_mut(&prefix) {
        draft.take(line, summary_only)?;
        return Ok(());
    }
    let mut draft = PrefixDraft::new(alloc);
    draft.take(line, summary_only)?;
    prefixes.insert(prefix, draft)?;
    Ok(())
}
