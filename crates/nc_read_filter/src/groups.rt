//! The statements that apply an access list to an interface.

ghost use Rattle.std.specs.Prelude.{◌≡◌, ◌<◌, ◌≤◌, false, [], None, All, length, IfOk};
ghost use Rattle.std.specs.Option.{option_map, option_map_or};
ghost use Rattle.nc_lines.specs.Lines.{words_of};
ghost use Rattle.nc_lines.specs.Parts.{numbered};
ghost use Rattle.nc_read_filter.specs.Groups.{direction_of, behind_group, group_says, applied_in};
ghost use Rattle.nc_read_filter.specs.Groups.{is_end, last_says};
ghost use Rattle.nc_read_filter.specs.Readings.{group_view};

use nc_lines::cut::cut_word;
use nc_lines::statement::{after_two, is_word};
use nc_lines::{Block, Lines};
use nc_types::{Group, Text};
use std::alloc::{AllocError, Global};

// How many bytes the word `access-group` has.
const LEAST_LEN: usize = 12;

/// A list that is applied in a direction.
#[derive(Clone, Copy)]
pub struct GroupStatement<'a> {
    /// The name of the list.
    pub list: &'a [u8],
    /// Whether it filters what comes in.
    pub inward: bool,
}

// Whether the word is `in`, or else `out`; `None` where it is neither.
fn direction(word: &[u8]) -> Option<bool>
    ensures { result ≡ direction_of word.now }
{
    if is_word(word, "in") {
        return Some(true);
    }
    if is_word(word, "out") {
        return Some(false);
    }
    None
}

// What is behind `ip access-group`: the name of a list and a direction.
fn applied(rest: &[u8]) -> Option<GroupStatement<'_>>
    ensures { option_map group_view result ≡ behind_group (words_of rest.now) }
{
    let (list, rest) = cut_word(rest)?;
    let (word, rest) = cut_word(rest)?;
    if cut_word(rest).is_some() {
        return None;
    }
    let inward = direction(word)?;
    Some(GroupStatement { list, inward })
}

// Whether a byte ends a direction, or is a gap behind it.
fn is_end(byte: u8) -> bool
    ensures { result ≡ is_end byte }
{
    byte == b'n' || byte == b't' || byte == b' ' || byte == b'\t'
}

// Whether a line may apply a list, by its length and its last byte.
fn may_end_in_direction(line: &[u8]) -> bool
    ensures { result ≡ false → group_says (words_of line.now) ≡ None }
{
    if line.len() < LEAST_LEN {
        return false;
    }
    match line.last() {
        None => false,
        Some(last) => is_end(*last),
    }
}

/// What a line says if it is `ip access-group W in` or `ip access-group W out`; `None` for all
/// others, most of which are told by their length and last byte.
#[tactic(auto, unfolding(crate::specs::Groups::group_says))]
pub fn read_group(line: &[u8]) -> Option<GroupStatement<'_>>
    ensures { option_map group_view result ≡ group_says (words_of line.now) }
{
    if !may_end_in_direction(line) {
        return None;
    }
    let rest = after_two(line, "ip", "access-group")?;
    applied(rest)
}

// What the last of some lines says.
fn last_statement<'a>(lines: &'a Lines, block: &Block) -> Option<GroupStatement<'a>>
    requires { All (λ k. (0 < k) × (k ≤ length lines.now)) block.now.lines.items }
    ensures { option_map group_view result
        ≡ last_says (numbered lines.now block.now.lines.items) }
{
    let last = block.lines.last()?;
    read_group(lines.line(*last))
}

// The name of the list that a statement applies.
fn list_name(alloc: Global, statement: Option<GroupStatement<'_>>) -> Result<Text, AllocError>
    ensures { IfOk result (λ name. name
        ≡ option_map_or (λ s. s.list) (option_map group_view statement.entry) []) }
{
    match statement {
        None => Text::new(alloc, b""),
        Some(applied) => Text::new(alloc, applied.list),
    }
}

/// What applies a list to the interface of this name in a direction, from the lines that do, of
/// which the last decides. Its element is 0, which the reader of the whole file fills in. The lines
/// exist.
///
/// # Errors
///
/// Memory that runs out.
#[tactic(auto, unfolding(crate::specs::Groups::applied_in))]
pub fn read_applied(
    alloc: Global,
    lines: &Lines,
    iface: &[u8],
    inward: bool,
    block: &Block,
) -> Result<Group, AllocError>
    requires { All (λ k. (0 < k) × (k ≤ length lines.now)) block.now.lines.items }
    ensures { IfOk result (λ group. group
        ≡ applied_in iface.now inward (numbered lines.now block.now.lines.items)) }
{
    let statement = last_statement(lines, block);
    Ok(Group {
        iface: Text::new(alloc, iface)?,
        inward,
        list: list_name(alloc, statement)?,
        element: 0,
    })
}
