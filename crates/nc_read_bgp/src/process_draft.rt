//! A process as its lines so far leave it.

ghost use Rattle.std.specs.Prelude.{◌≡◌, OnOk};
ghost use Rattle.nc_read_bgp.specs.Readings.{statement_view};
ghost use Rattle.nc_read_bgp.specs.Steps.{no_process, process_with};
ghost use Rattle.nc_read_bgp.specs.Drafts.{process_fields};

use crate::neighbor_draft::NeighborDraft;
use crate::prefix_draft::PrefixDraft;
use crate::statement::BgpStatement;
use crate::things::{note_neighbor, note_prefix};
use indexmap::IndexMap;
use nc_types::{Addr, Prefix};
use std::alloc::{AllocError, Global};

/// What the lines so far make.
#[derive(Drop)]
pub(crate) struct ProcessDraft {
    pub(crate) asn: u32,
    pub(crate) router_id: Option<Addr>,
    pub(crate) max_paths: u8,
    pub(crate) relax: bool,
    /// The lines of the statements of the process itself.
    pub(crate) own: Vec<u32>,
    pub(crate) neighbors: IndexMap<Addr, NeighborDraft>,
    pub(crate) networks: IndexMap<Prefix, PrefixDraft>,
    pub(crate) aggregates: IndexMap<Prefix, PrefixDraft>,
}

impl ProcessDraft {
    /// What no line makes.
    pub(crate) fn new(alloc: Global) -> ProcessDraft
        ensures { process_fields result ≡ no_process }
    {
        ProcessDraft {
            asn: 0,
            router_id: None,
            max_paths: 1,
            relax: false,
            own: Vec::new(alloc),
            neighbors: IndexMap::new(alloc),
            networks: IndexMap::new(alloc),
            aggregates: IndexMap::new(alloc),
        }
    }

    /// One more statement, in this line.
    ///
    /// # Errors
    ///
    /// Memory that runs out.
    pub(crate) fn take(
        &mut self,
        alloc: Global,
        line: u32,
        statement: &BgpStatement<'_>,
    ) -> Result<(), AllocError>
        ensures { OnOk result (process_fields self.new
            ≡ process_with (process_fields self.old) line (statement_view statement.now)) }
    {
        match statement {
            BgpStatement::Network(prefix) => {
                note_prefix(alloc, &mut self.networks, *prefix, line, false)?
            }
            BgpStatement::Aggregate(prefix, summary_only) => {
                note_prefix(alloc, &mut self.aggregates, *prefix, line, *summary_only)?
            }
            BgpStatement::Neighbor(addr, says) => {
                note_neighbor(alloc, &mut self.neighbors, *addr, line, says)?
            }
            BgpStatement::Agrees => self.own.push(line)?,
            BgpStatement::Opens(asn) => {
                self.own.push(line)?;
                self.asn = *asn;
            }
            BgpStatement::RouterId(addr) => {
                self.own.push(line)?;
                self.router_id = Some(*addr);
            }
            BgpStatement::MaxPaths(number) => {
                self.own.push(line)?;
                self.max_paths = *number;
            }
            BgpStatement::Relax => {
                self.own.push(line)?;
                self.relax = true;
            }
        }
        Ok(())
    }
}
