//! The process that the lines of its block make.

ghost use Rattle.std.specs.Prelude.{◌≡◌, ◌<◌, ◌≤◌, ◌∷◌, [], List, All, length, map, IfOk, OnOk};
ghost use Rattle.nc_lines.specs.Outcomes.{lower_of};
ghost use Rattle.nc_lines.specs.Parts.{Numbered, numbered};
ghost use Rattle.nc_read_bgp.specs.Processes.{network_of, aggregate_of, neighbor_of};
ghost use Rattle.nc_read_bgp.specs.Processes.{lack_in, process_in};
ghost use Rattle.nc_read_bgp.specs.Steps.{finished};
ghost use Rattle.nc_read_bgp.specs.Drafts.{neighbors_of, prefixes_of, process_fields};
ghost use Rattle.nc_read_bgp.specs.Outcomes.{each_lines, IsProcess};

use crate::lines::read_bgp_statement;
use crate::neighbor_draft::NeighborDraft;
use crate::prefix_draft::PrefixDraft;
use crate::process_draft::ProcessDraft;
use indexmap::IndexMap;
use nc_lines::statement::Reading;
use nc_lines::{Block, Lines};
use nc_types::{
    Addr, AggregateStatement, ConfigFault, Fault, Neighbor, NetworkStatement, Prefix, Process,
};
use std::alloc::{AllocError, Global};

/// A process with the lines of its elements.
#[derive(Drop)]
pub struct ProcessPart {
    pub process: Process,
    /// The lines of the process itself, headers among them, ascending, from 1.
    pub own: Vec<u32>,
    /// The lines of each neighbor, in the order of the process.
    pub neighbors: Vec<Vec<u32>>,
    /// The lines of each network, in the order of the process.
    pub networks: Vec<Vec<u32>>,
    /// The lines of each aggregate, in the order of the process.
    pub aggregates: Vec<Vec<u32>>,
}

// The neighbors, and the lines of each.
fn make_neighbors(
    alloc: Global,
    drafts: IndexMap<Addr, NeighborDraft>,
) -> Result<(Vec<Neighbor>, Vec<Vec<u32>>), AllocError>
    ensures made { IfOk result (λ r. r.0.items ≡ map neighbor_of (neighbors_of drafts.entries)) }
    ensures lines { IfOk result (λ r. each_lines r.1
        ≡ map (λ e. e.1.lines) (neighbors_of drafts.entries)) }
{
    let mut neighbors = Vec::new(alloc);
    let mut lines = Vec::new(alloc);
    for (addr, draft) in drafts {
        let (neighbor, own) = draft.finish(addr);
        neighbors.push(neighbor)?;
        lines.push(own)?;
    }
    Ok((neighbors, lines))
}

// The networks, and the lines of each.
fn make_networks(
    alloc: Global,
    drafts: IndexMap<Prefix, PrefixDraft>,
) -> Result<(Vec<NetworkStatement>, Vec<Vec<u32>>), AllocError>
    ensures made { IfOk result (λ r. r.0.items ≡ map network_of (prefixes_of drafts.entries)) }
    ensures lines { IfOk result (λ r. each_lines r.1
        ≡ map (λ e. e.1.lines) (prefixes_of drafts.entries)) }
{
    let mut networks = Vec::new(alloc);
    let mut lines = Vec::new(alloc);
    for (prefix, draft) in drafts {
        networks.push(NetworkStatement { prefix, element: 0 })?;
        lines.push(draft.lines)?;
    }
    Ok((networks, lines))
}

// The aggregates, and the lines of each.
fn make_aggregates(
    alloc: Global,
    drafts: IndexMap<Prefix, PrefixDraft>,
) -> Result<(Vec<AggregateStatement>, Vec<Vec<u32>>), AllocError>
    ensures made { IfOk result (λ r. r.0.items ≡ map aggregate_of (prefixes_of drafts.entries)) }
    ensures lines { IfOk result (λ r. each_lines r.1
        ≡ map (λ e. e.1.lines) (prefixes_of drafts.entries)) }
{
    let mut aggregates = Vec::new(alloc);
    let mut lines = Vec::new(alloc);
    for (prefix, draft) in drafts {
        aggregates.push(AggregateStatement {
            prefix,
            summary_only: draft.summary_only,
            element: 0,
        })?;
        lines.push(draft.lines)?;
    }
    Ok((aggregates, lines))
}

// What the first neighbor lacks that has no number of an autonomous system.
#[tactic(auto, using(crate::proofs::Finished::lack_here, crate::proofs::Finished::lack_later))]
fn find_lack(drafts: &IndexMap<Addr, NeighborDraft>) -> Option<Fault>
    ensures { result ≡ lack_in (neighbors_of drafts.now.entries) }
{
    for (_, draft) in drafts {
        if let Some(fault) = draft.lack() {
            return Some(fault);
        }
    }
    None
}

// Of two faults, where there are any, the one with the lower line.
fn lower_of(first: Option<Fault>, second: Option<Fault>) -> Option<Fault>
    ensures { result ≡ lower_of first second }
{
    let Some(one) = first else {
        return second;
    };
    let Some(other) = second else {
        return first;
    };
    if one.line <= other.line {
        Some(one)
    } else {
        Some(other)
    }
}

// One more line, given the first faulty line before it.
fn take_line(
    alloc: Global,
    draft: &mut ProcessDraft,
    told: Option<Fault>,
    line: u32,
    text: &[u8],
) -> Result<Option<Fault>, AllocError>
    ensures { IfOk result (λ first. (block : List Numbered)
        → finished (process_fields draft.old) told (record { line = line; text = text.now } ∷ block)
        ≡ finished (process_fields draft.new) first block) }
{
    match read_bgp_statement(text) {
        Reading::Outside => Ok(told),
        Reading::Faulty(cause) => Ok(told.or(Some(Fault { line, cause }))),
        Reading::Says(statement) => {
            draft.take(alloc, line, &statement)?;
            Ok(told)
        }
    }
}

// The process where no line is left, or the lowest fault.
#[tactic(auto, unfolding(crate::specs::Steps::finished))]
fn finish(
    alloc: Global,
    draft: ProcessDraft,
    told: Option<Fault>,
) -> Result<ProcessPart, ConfigFault>
    ensures { IsProcess result (finished (process_fields draft) told []) }
{
    if let Some(fault) = lower_of(told, find_lack(&draft.neighbors)) {
        return Err(ConfigFault::Bad {
            line: fault.line,
            cause: fault.cause,
        });
    }
    let (neighbors, neighbor_lines) = make_neighbors(alloc, draft.neighbors)?;
    let (networks, network_lines) = make_networks(alloc, draft.networks)?;
    let (aggregates, aggregate_lines) = make_aggregates(alloc, draft.aggregates)?;
    let process = Process {
        asn: draft.asn,
        router_id: draft.router_id,
        max_paths: draft.max_paths,
        relax: draft.relax,
        neighbors,
        networks,
        aggregates,
        element: 0,
    };
    Ok(ProcessPart {
        process,
        own: draft.own,
        neighbors: neighbor_lines,
        networks: network_lines,
        aggregates: aggregate_lines,
    })
}

/// The process that the lines of its block make, with its neighbors, networks and aggregates and
/// the lines of each. Elements are 0, which the reader of the whole file fills in.
///
/// The things stand in order of first mention, and of each field the last statement decides. The
/// lines exist and ascend; headers among them are of one process.
///
/// # Errors
///
/// The first faulty line, with its cause, or the first line of the first neighbor that has no
/// `remote-as`, whichever is lower; memory that runs out.
#[tactic(auto, using(crate::proofs::ProcessLemmas::by_steps))]
pub fn read_process(alloc: Global, lines: &Lines, block: &Block) -> Result<ProcessPart, ConfigFault>
    requires { All (λ k. (0 < k) × (k ≤ length lines.now)) block.now.lines.items }
    ensures { IsProcess result (process_in (numbered lines.now block.now.lines.items)) }
{
    let mut draft = ProcessDraft::new(alloc);
    let mut told = None;
    for line in &block.lines {
        told = take_line(alloc, &mut draft, told, *line, lines.line(*line))?;
    }
    finish(alloc, draft, told)
}
