//! A neighbor as its statements so far leave it.

ghost use Rattle.std.specs.Prelude.{◌≡◌, Some, OnOk, IfOk};
ghost use Rattle.nc_read_bgp.specs.Processes.{lack_of, neighbor_of};
ghost use Rattle.nc_read_bgp.specs.Readings.{neighbor_view};
ghost use Rattle.nc_read_bgp.specs.Steps.{no_neighbor, neighbor_with};
ghost use Rattle.nc_read_bgp.specs.Drafts.{neighbor_fields};

use crate::statement::NeighborStatement;
use nc_types::{Addr, Cause, Fault, Neighbor, Reference, Text};
use std::alloc::{AllocError, Global};

/// What the statements of a neighbor so far set.
#[derive(Drop)]
pub(crate) struct NeighborDraft {
    remote_as: Option<u32>,
    source: Option<Reference>,
    multihop: bool,
    self_hop: bool,
    send_community: bool,
    map_in: Option<Reference>,
    map_out: Option<Reference>,
    shut: bool,
    lines: Vec<u32>,
}

// Refers to a name from this line.
fn refer(alloc: Global, name: &[u8], line: u32) -> Result<Option<Reference>, AllocError>
    ensures { IfOk result (λ r. r ≡ Some (record { name = name.now; line = line })) }
{
    let name = Text::new(alloc, name)?;
    Ok(Some(Reference { name, line }))
}

impl NeighborDraft {
    /// What no statement sets.
    pub(crate) fn new(alloc: Global) -> NeighborDraft
        ensures { neighbor_fields result ≡ no_neighbor }
    {
        NeighborDraft {
            remote_as: None,
            source: None,
            multihop: false,
            self_hop: false,
            send_community: false,
            map_in: None,
            map_out: None,
            shut: false,
            lines: Vec::new(alloc),
        }
    }

    /// One more statement, in this line.
    ///
    /// # Errors
    ///
    /// Memory that runs out.
    pub(crate) fn take(
        &mut self,
        alloc: Global,
        line: u32,
        says: &NeighborStatement<'_>,
    ) -> Result<(), AllocError>
        ensures { OnOk result (neighbor_fields self.new
            ≡ neighbor_with (neighbor_fields self.old) line (neighbor_view says.now)) }
    {
        self.lines.push(line)?;
        match says {
            NeighborStatement::RemoteAs(asn) => self.remote_as = Some(*asn),
            NeighborStatement::Source(name) => self.source = refer(alloc, name, line)?,
            NeighborStatement::Multihop => self.multihop = true,
            NeighborStatement::SelfHop => self.self_hop = true,
            NeighborStatement::MapIn(name) => self.map_in = refer(alloc, name, line)?,
            NeighborStatement::MapOut(name) => self.map_out = refer(alloc, name, line)?,
            NeighborStatement::SendsCommunities => self.send_community = true,
            NeighborStatement::Shuts => self.shut = true,
            NeighborStatement::Activates => {}
        }
        Ok(())
    }

    /// What the neighbor lacks, if it has no number of an autonomous system: a fault of its first
    /// line.
    pub(crate) fn lack(&self) -> Option<Fault>
        ensures { result ≡ lack_of (neighbor_fields self.now) }
    {
        if self.remote_as.is_some() {
            return None;
        }
        let line = self.lines.first().copied().unwrap_or(0);
        Some(Fault {
            line,
            cause: Cause::Syntax,
        })
    }

    /// The neighbor of this address, and its lines.
    pub(crate) fn finish(self, addr: Addr) -> (Neighbor, Vec<u32>)
        ensures neighbor { result.0 ≡ neighbor_of (addr, neighbor_fields self) }
        ensures lines { result.1.items ≡ (neighbor_fields self).lines }
    {
        let neighbor = Neighbor {
            addr,
            remote_as: self.remote_as.unwrap_or(0),
            source: self.source,
            multihop: self.multihop,
            self_hop: self.self_hop,
            send_community: self.send_community,
            map_in: self.map_in,
            map_out: self.map_out,
            shut: self.shut,
            element: 0,
        };
        (neighbor, self.lines)
    }
}
