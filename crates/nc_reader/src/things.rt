//! What the lines that speak of one topic make.

ghost use Rattle.std.specs.Prelude.{◌≡◌, None, All};
ghost use Rattle.nc_reader.specs.declared.topic.Topic.TheVariants as topics;
ghost use Rattle.nc_reader.specs.Gathering.{IsLine};
ghost use Rattle.nc_reader.specs.Parts.{IsPart};
ghost use Rattle.nc_reader.specs.Things.{part_in, process_part};

use crate::communities::{CommunityLine, read_communities};
use crate::pieces::{ClauseLines, GroupLines, InterfaceLines, first_in};
use crate::routes::{RouteLines, read_routes};
use crate::topic::Topic;
use nc_lines::{Block, Lines};
use nc_read_bgp::{ProcessPart, read_process};
use nc_read_filter::{FilterLine, FilterLines, OddLine, read_applied, read_filters};
use nc_read_link::read_interface;
use nc_read_policy::{EntryLines, read_clause, read_list};
use nc_types::{Cause, ConfigFault, Text};
use std::alloc::Global;

/// What a topic makes: one thing, or several, each with its lines. It is moved several times, and most topics are
/// interfaces, so what is larger than one of these has memory of its own.
#[derive(Drop)]
pub(crate) enum Part {
    AnInterface(InterfaceLines),
    Routes(Vec<RouteLines>),
    /// The process with its neighbors, networks and aggregates.
    AProcess(Box<ProcessPart>),
    AClause(Box<ClauseLines>),
    /// A prefix list: its name and its entries.
    Entries(Text, Vec<EntryLines>),
    /// A community list: its name and its entries.
    Communities(Text, Vec<CommunityLine>),
    /// The entries of all access lists, and the lines that begin as one and have another rest.
    Filters(Vec<FilterLine>, Vec<OddLine>),
    AGroup(GroupLines),
}

// Reads the process of this number in a file that has this process: the lines of a second one are
// wrong from their first line on.
fn read_process_part(
    alloc: Global,
    lines: &Lines,
    process: Option<u32>,
    asn: u32,
    block: &Block,
) -> Result<Part, ConfigFault>
    requires { All (IsLine lines.now) block.now.lines.items }
    ensures { IsPart result (process_part lines.now process asn block.now.lines.items) }
{
    if process != Some(asn) {
        return Err(ConfigFault::Bad {
            line: first_in(&block.lines),
            cause: Cause::TwoProcesses,
        });
    }
    let made = read_process(alloc, lines, block)?;
    Ok(Part::AProcess(Box::new(alloc, made)?))
}

// Reads the access lists.
fn read_filters_part(alloc: Global, lines: &Lines, block: &Block) -> Result<Part, ConfigFault>
    requires { All (IsLine lines.now) block.now.lines.items }
    ensures { IsPart result (part_in lines.now None topics.Filters block.now.lines.items) }
{
    let made = read_filters(alloc, lines, block)?;
    let FilterLines { entries, odd } = made;
    Ok(Part::Filters(entries, odd))
}

// Reads what applies an access list to the interface of this name in a direction.
fn read_group_part(
    alloc: Global,
    lines: &Lines,
    name: &[u8],
    inward: bool,
    block: Block,
) -> Result<Part, ConfigFault>
    requires { All (IsLine lines.now) block.lines.items }
    ensures { IsPart result
        (part_in lines.now None (topics.Group name.now inward) block.lines.items) }
{
    let group = read_applied(alloc, lines, name, inward, &block)?;
    Ok(Part::AGroup(GroupLines {
        group,
        lines: block.lines,
    }))
}

/// Reads what the lines of a topic make, in a file that has this process. What is made takes the
/// topic's name and the memory of its lines.
///
/// # Errors
///
/// The lowest faulty line, with its cause; memory that runs out.
pub(crate) fn read_part(
    alloc: Global,
    lines: &Lines,
    process: Option<u32>,
    topic: Topic,
    block: Block,
) -> Result<Part, ConfigFault>
    requires { All (IsLine lines.now) block.lines.items }
    ensures { IsPart result (part_in lines.now process topic block.lines.items) }
{
    match topic {
        Topic::Interface(name) => {
            let (interface, lines) = read_interface(lines, name, block)?;
            Ok(Part::AnInterface(InterfaceLines { interface, lines }))
        }
        Topic::Statics => {
            let routes = read_routes(alloc, lines, &block.lines)?;
            Ok(Part::Routes(routes))
        }
        Topic::Process(asn) => {
            let part = read_process_part(alloc, lines, process, asn, &block)?;
            Ok(part)
        }
        Topic::Clause(_, _) => {
            let (clause, lines) = read_clause(alloc, lines, &block)?;
            let made = ClauseLines { clause, lines };
            Ok(Part::AClause(Box::new(alloc, made)?))
        }
        Topic::List(name) => {
            let entries = read_list(alloc, lines, &block)?;
            Ok(Part::Entries(name, entries))
        }
        Topic::Communities(name) => {
            let entries = read_communities(alloc, lines, &block.lines)?;
            Ok(Part::Communities(name, entries))
        }
        Topic::Filters => {
            let part = read_filters_part(alloc, lines, &block)?;
            Ok(part)
        }
        Topic::Group(name, inward) => {
            let part = read_group_part(alloc, lines, name.bytes(), inward, block)?;
            Ok(part)
        }
    }
}
