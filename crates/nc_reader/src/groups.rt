//! The lines that speak of each topic.

ghost use Rattle.std.specs.Prelude.{◌≡◌, ◌<◌, ◌∷◌, ◌++◌, [], true, not, length, vec_len};
ghost use Rattle.std.specs.Prelude.{OnOk, IfOk, IfSome};
ghost use Rattle.std.specs.List.{list_any, position_or_len};
ghost use Rattle.nc_lines.specs.Groups.{with_key};
ghost use Rattle.nc_reader.specs.Readings.{lines_in, topic_of};
ghost use Rattle.nc_reader.specs.Steps.{with_value, with_line};
ghost use Rattle.nc_reader.specs.Topics.{same_topic, IsAt};

use crate::topic::{Subject, Topic};
use indexmap::IndexSet;
use nc_lines::Block;
use std::alloc::{AllocError, Global};

// For how many lines a new block has room: a header and the usual statements. Six numbers take no
// more of the memory than four do.
const BLOCK_ROOM: usize = 6;

// A block of one line.
fn make_block(alloc: Global, line: u32) -> Result<Block, AllocError>
    ensures { IfOk result (λ block. block.lines.items ≡ line ∷ []) }
{
    let mut lines = Vec::with_capacity(alloc, BLOCK_ROOM)?;
    lines.push(line)?;
    Ok(Block { lines })
}

/// Adds a line to the block at a place.
pub(crate) fn add(blocks: &mut Vec<Block>, place: usize, line: u32) -> Result<(), AllocError>
    requires { place < vec_len blocks.old }
    ensures { OnOk result (lines_in blocks.new.items
        ≡ with_value line place (lines_in blocks.old.items)) }
{
    let block = &mut blocks[place];
    block.lines.push(line)?;
    Ok(())
}

// Adds a block of one line.
fn begin(alloc: Global, blocks: &mut Vec<Block>, line: u32) -> Result<(), AllocError>
    ensures { OnOk result (lines_in blocks.new.items
        ≡ lines_in blocks.old.items ++ (line ∷ []) ∷ []) }
{
    blocks.push(make_block(alloc, line)?)?;
    Ok(())
}

// Whether the topic at a place is that of a statement.
fn is_at(topics: &IndexSet<Topic>, place: usize, subject: Subject<'_>) -> bool
    ensures { result ≡ true → IsAt (topic_of subject.entry) topics.now.keys place }
{
    match topics.as_slice().get(place) {
        None => false,
        Some(topic) => topic.is(subject),
    }
}

// Whether a topic has statements of which each names it. Of another one a single statement does, as
// the header of a block, which is mostly the first: there is nothing to look for then.
fn recurs(subject: Subject<'_>) -> bool {
    match subject {
        Subject::Statics | Subject::Process(_) | Subject::Filters => true,
        Subject::List(_) | Subject::Communities(_) => true,
        Subject::Interface(_) | Subject::Clause(_, _) | Subject::Group(_, _) => false,
    }
}

// The place of a list, looked up by the words of its statement.
fn looked_up(topics: &IndexSet<Topic>, subject: Subject<'_>) -> Option<usize>
    ensures { IfSome result (IsAt (topic_of subject.entry) topics.now.keys) }
{
    match subject {
        Subject::List(_) => topics.get_index_of(subject),
        Subject::Communities(_) => topics.get_index_of(subject),
        _ => None,
    }
}

// The place of a topic. The likely place is looked at first, then the other one of the place that
// was told last and the one behind it: statements on one thing mostly stand together, and things
// whose statements take turns stand one behind another.
fn known_place(
    topics: &IndexSet<Topic>,
    last: usize,
    likely: usize,
    subject: Subject<'_>,
) -> Option<usize>
    ensures { IfSome result (IsAt (topic_of subject.entry) topics.now.keys) }
{
    if !recurs(subject) {
        return None;
    }
    if is_at(topics, likely, subject) {
        return Some(likely);
    }
    let other = if likely == last {
        last.saturating_add(1)
    } else {
        last
    };
    if is_at(topics, other, subject) {
        return Some(other);
    }
    looked_up(topics, subject)
}

// Adds a topic where it is new, and tells its place and whether it is.
fn enter(
    alloc: Global,
    topics: &mut IndexSet<Topic>,
    last: usize,
    likely: usize,
    subject: Subject<'_>,
) -> Result<(usize, bool), AllocError>
    ensures topics { OnOk result (topics.new.keys
        ≡ with_key same_topic topics.old.keys (topic_of subject.entry)) }
    ensures place { IfOk result (λ r. r.0
        ≡ position_or_len (same_topic (topic_of subject.entry)) topics.old.keys) }
    ensures new { IfOk result (λ r. r.1
        ≡ not (list_any (same_topic (topic_of subject.entry)) topics.old.keys)) }
{
    if let Some(place) = known_place(topics, last, likely, subject) {
        return Ok((place, false));
    }
    let topic = Topic::new(alloc, subject)?;
    let entered = topics.insert_full(topic)?;
    Ok(entered)
}

/// Adds a line to the block of a topic, which is made where the topic has none, and tells the
/// topic's place. The place that was told last and a likely one make it faster where they are the
/// topic's.
pub(crate) fn put(
    alloc: Global,
    topics: &mut IndexSet<Topic>,
    blocks: &mut Vec<Block>,
    last: usize,
    likely: usize,
    subject: Subject<'_>,
    line: u32,
) -> Result<usize, AllocError>
    requires { vec_len blocks.old ≡ length topics.old.keys }
    ensures topics { OnOk result (topics.new.keys
        ≡ with_key same_topic topics.old.keys (topic_of subject.entry)) }
    ensures blocks { OnOk result (lines_in blocks.new.items
        ≡ with_line (topic_of subject.entry) line topics.old.keys (lines_in blocks.old.items)) }
    ensures place { IfOk result (λ place. place
        ≡ position_or_len (same_topic (topic_of subject.entry)) topics.old.keys) }
{
    let (place, is_new) = enter(alloc, topics, last, likely, subject)?;
    if is_new {
        begin(alloc, blocks, line)?;
    } else {
        add(blocks, place, line)?;
    }
    Ok(place)
}
