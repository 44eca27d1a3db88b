//! One pass over the lines of a file, which gathers those that speak of one thing.

ghost use Rattle.std.specs.Prelude.{◌≡◌, ◌<◌, ◌≤◌, Some, drop, length, slice_get, option_and_then};
ghost use Rattle.std.specs.Prelude.{OnOk, IfOk};
ghost use Rattle.std.specs.List.{position_or_len};
ghost use Rattle.std.specs.Option.{option_map};
ghost use Rattle.nc_read_filter.specs.Readings.{group_view};
ghost use Rattle.nc_reader.specs.Gathering.{Gathers, sketch};
ghost use Rattle.nc_reader.specs.Readings.{role_of_header, topic_of};
ghost use Rattle.nc_reader.specs.Steps.{Banner, Member, IsSteady, blank, with_fault};
ghost use Rattle.nc_reader.specs.Steps.{headed, stepped, kind_of, put_line, joined_to, group_at};
ghost use Rattle.nc_reader.specs.Topics.{has_block, interface_name, same_topic};
ghost use Rattle.nc_lines.specs.Lines.{line_at};

use crate::groups::{add, put};
use crate::header::Header;
use crate::role::{Role, read_role};
use crate::topic::{Subject, Topic};
use indexmap::IndexSet;
use nc_lines::{Block, Lines};
use nc_read_filter::GroupStatement;
use nc_types::{Cause, Fault, Text};
use std::alloc::{AllocError, Global};

/// What the lines of a file say, before the things that they speak of are made.
#[derive(Drop)]
pub(crate) struct Gathered {
    /// The line of the name in force, and the name.
    pub(crate) name: Option<(u32, Text)>,
    /// The topics, in order of first mention.
    pub(crate) topics: IndexSet<Topic>,
    /// The lines that speak of each topic.
    pub(crate) lines: Vec<Block>,
    /// The lowest line that is wrong by itself.
    pub(crate) fault: Option<Fault>,
}

// The lower of a known fault and that of a line, where there are any.
fn with_fault(known: Option<Fault>, line: u32, cause: Option<Cause>) -> Option<Fault>
    ensures { result ≡ with_fault line cause known }
{
    let Some(cause) = cause else {
        return known;
    };
    if let Some(fault) = known {
        if fault.line <= line {
            return Some(fault);
        }
    }
    Some(Fault { line, cause })
}

// Whether the indented lines behind a statement speak of its topic.
fn has_block(subject: Subject<'_>) -> bool
    ensures { result ≡ has_block (topic_of subject.entry) }
{
    match subject {
        Subject::Interface(_) | Subject::Process(_) | Subject::Clause(_, _) => true,
        Subject::Filters => true,
        Subject::Statics | Subject::List(_) | Subject::Communities(_) => false,
        Subject::Group(_, _) => false,
    }
}

// The name of the interface at a place.
fn interface_at(
    alloc: Global,
    topics: &IndexSet<Topic>,
    place: usize,
) -> Result<Option<Text>, AllocError>
    ensures { IfOk result (λ name. name
        ≡ option_and_then interface_name (slice_get topics.now.keys place)) }
{
    let Some(topic) = topics.as_slice().get(place) else {
        return Ok(None);
    };
    match topic.interface() {
        None => Ok(None),
        Some(name) => Ok(Some(Text::new(alloc, name.bytes())?)),
    }
}

// What the lines so far say.
#[derive(Drop)]
struct Draft {
    name: Option<(u32, Text)>,
    // The topics, and the lines that speak of each.
    topics: IndexSet<Topic>,
    blocks: Vec<Block>,
    fault: Option<Fault>,
    in_banner: bool,
    // The place of the topic in whose block an indented line would stand.
    block: Option<usize>,
    // The place of the last topic that a statement was on, 0 before the first, and where the topic
    // of the next one is likely.
    last: usize,
    likely: usize,
}

impl Draft {
    // What no line says.
    fn new(alloc: Global) -> Draft
        ensures { sketch result ≡ blank }
    {
        Draft {
            name: None,
            topics: IndexSet::new(alloc),
            blocks: Vec::new(alloc),
            fault: None,
            in_banner: false,
            block: None,
            last: 0,
            likely: 0,
        }
    }

    // A line of a banner.
    fn pass(&mut self, line: u32, in_banner: bool, cause: Option<Cause>)
        ensures { sketch self.new ≡ stepped line (Banner in_banner cause) (sketch self.old) }
    {
        self.fault = with_fault(self.fault, line, cause);
        self.in_banner = in_banner;
    }

    // One more line that speaks of a topic.
    fn put(&mut self, alloc: Global, line: u32, subject: Subject<'_>) -> Result<usize, AllocError>
        requires { IsSteady (sketch self.old) }
        ensures drawn { OnOk result (sketch self.new
            ≡ put_line line (topic_of subject.entry) (sketch self.old)) }
        ensures place { IfOk result (λ place. place
            ≡ position_or_len (same_topic (topic_of subject.entry)) (sketch self.old).topics) }
    {
        let (last, likely) = (self.last, self.likely);
        let place = put(
            alloc,
            &mut self.topics,
            &mut self.blocks,
            last,
            likely,
            subject,
            line,
        )?;
        Ok(place)
    }

    // Notes the place of the topic that a statement was on. Where it is the one behind that of the
    // statement before, the next one is likely too.
    fn note(&mut self, place: usize)
        ensures { sketch self.new ≡ sketch self.old }
    {
        let next = place.saturating_add(1);
        let follows = place == self.last.saturating_add(1);
        self.likely = if follows { next } else { place };
        self.last = place;
    }

    // An indented line in the block at a place, which would apply a list to an interface.
    fn apply(
        &mut self,
        alloc: Global,
        line: u32,
        place: usize,
        group: GroupStatement<'_>,
    ) -> Result<(), AllocError>
        requires steady { IsSteady (sketch self.old) }
        requires known { place < length (sketch self.old).blocks }
        ensures { OnOk result (sketch self.new ≡ joined_to line place
            (group_at (Some (group_view group.entry)) place (sketch self.old).topics)
            (sketch self.old)) }
    {
        let Some(name) = interface_at(alloc, &self.topics, place)? else {
            add(&mut self.blocks, place, line)?;
            return Ok(());
        };
        self.put(alloc, line, Subject::Group(name.bytes(), group.inward))?;
        Ok(())
    }

    // An indented line.
    fn join(
        &mut self,
        alloc: Global,
        line: u32,
        group: Option<GroupStatement<'_>>,
    ) -> Result<(), AllocError>
        requires { IsSteady (sketch self.old) }
        ensures { OnOk result (sketch self.new
            ≡ stepped line (Member (option_map group_view group.entry)) (sketch self.old)) }
    {
        let Some(place) = self.block else {
            return Ok(());
        };
        match group {
            None => add(&mut self.blocks, place, line)?,
            Some(group) => self.apply(alloc, line, place, group)?,
        }
        Ok(())
    }

    // An unindented statement.
    fn head(&mut self, alloc: Global, line: u32, header: Header<'_>) -> Result<(), AllocError>
        requires { IsSteady (sketch self.old) }
        ensures { OnOk result (sketch self.new
            ≡ headed line (role_of_header header.entry) (sketch self.old)) }
    {
        match header {
            Header::Passed => self.block = None,
            Header::Wrong(cause) => {
                self.fault = with_fault(self.fault, line, Some(cause));
                self.block = None;
            }
            Header::Names(name) => {
                self.name = Some((line, Text::new(alloc, name)?));
                self.block = None;
            }
            Header::Speaks(subject) => {
                let place = self.put(alloc, line, subject)?;
                self.note(place);
                self.block = if has_block(subject) {
                    Some(place)
                } else {
                    None
                };
            }
        }
        Ok(())
    }

    // The line of a number.
    fn take(&mut self, alloc: Global, lines: &Lines, number: u32) -> Result<(), AllocError>
        requires steady { IsSteady (sketch self.old) }
        requires first { 0 < number }
        requires last { number ≤ length lines.now }
        ensures { OnOk result (sketch self.new ≡ stepped number
            (kind_of self.old.in_banner (line_at number lines.now) (drop number lines.now))
            (sketch self.old)) }
    {
        match read_role(lines, number, self.in_banner) {
            Role::Banner(in_banner, cause) => {
                self.pass(number, in_banner, cause);
                Ok(())
            }
            Role::Idle => Ok(()),
            Role::Member(group) => self.join(alloc, number, group),
            Role::Heads(header) => self.head(alloc, number, header),
        }
    }
}

/// Gathers the lines of a file.
pub(crate) fn gather(alloc: Global, lines: &Lines) -> Result<Gathered, AllocError>
    ensures { IfOk result (Gathers lines.now) }
{
    let mut draft = Draft::new(alloc);
    for above in 0..lines.count() {
        draft.take(alloc, lines, above + 1)?;
    }
    Ok(Gathered {
        name: draft.name,
        topics: draft.topics,
        lines: draft.blocks,
        fault: draft.fault,
    })
}
