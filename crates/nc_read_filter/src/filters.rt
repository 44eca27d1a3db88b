//! The entries of access lists, from all lines that speak of them.

ghost use Rattle.std.specs.Prelude.{◌≡◌, ◌<◌, ◌≤◌, ◌∷◌, [], ◌++◌, ℕ, List, All, length, OnOk, IfOk};
ghost use Rattle.std.specs.List.{filter_map, cons_option};
ghost use Rattle.std.specs.Option.{option_map};
ghost use Rattle.nc_lines.specs.Lines.{words_of};
ghost use Rattle.nc_lines.specs.Parts.{Numbered, numbered};
ghost use Rattle.nc_read_filter.specs.Filters.{of_list, numbered_says, line_says, open_behind};
ghost use Rattle.nc_read_filter.specs.Filters.{entry_at, odd_at, statements_from, filters_in};
ghost use Rattle.nc_read_filter.specs.Readings.{head_view, statement_view};

use crate::entries::{Rule, Said, read_action, read_entry};
use crate::lists::{ListHead, read_numbered, read_opening};
use nc_lines::cut::is_indented;
use nc_lines::{Block, Lines};
use nc_types::{FilterEntry, Text};
use std::alloc::{AllocError, Global};

/// An entry of an access list with its line, from 1.
#[derive(Drop)]
pub struct FilterLine {
    pub entry: FilterEntry,
    pub line: u32,
}

/// A line, from 1, that begins as an entry of a list and has another rest.
#[derive(Drop)]
pub struct OddLine {
    /// The name of the list.
    pub list: Text,
    pub line: u32,
}

/// What the lines that speak of access lists make, in order of lines.
#[derive(Drop)]
pub struct FilterLines {
    pub entries: Vec<FilterLine>,
    pub odd: Vec<OddLine>,
}

/// What a line says as a statement of a list.
#[derive(Clone, Copy)]
pub(crate) struct Statement<'a> {
    pub(crate) list: &'a [u8],
    /// `None` where it is odd.
    pub(crate) rule: Option<Rule>,
}

// What is said in a list.
fn of_list(list: &[u8], said: Said) -> Option<Statement<'_>>
    ensures { option_map statement_view result ≡ of_list list.now said }
{
    match said {
        Said::Outside => None,
        Said::Odd => Some(Statement { list, rule: None }),
        Said::Says(rule) => Some(Statement {
            list,
            rule: Some(rule),
        }),
    }
}

// What an unindented line says.
fn numbered(text: &[u8]) -> Option<Statement<'_>>
    ensures { option_map statement_view result ≡ numbered_says (words_of text.now) }
{
    let (list, rest) = read_numbered(text)?;
    of_list(list.name, read_action(list.standard, rest))
}

// What a line says where an indented one would stand in this list.
fn line_says<'a>(list: Option<ListHead<'a>>, text: &'a [u8]) -> Option<Statement<'a>>
    ensures { option_map statement_view result ≡ line_says (option_map head_view list.entry) text.now }
{
    if !is_indented(text) {
        return numbered(text);
    }
    let list = list?;
    of_list(list.name, read_entry(list.standard, text))
}

// The list in which an indented line stands behind this line.
fn open_behind<'a>(list: Option<ListHead<'a>>, text: &'a [u8]) -> Option<ListHead<'a>>
    ensures { option_map head_view result ≡ open_behind (option_map head_view list.entry) text.now }
{
    if is_indented(text) {
        list
    } else {
        read_opening(text)
    }
}

impl FilterLines {
    // What no line says.
    fn new(alloc: Global) -> FilterLines
        ensures entries { result.entries.items ≡ [] }
        ensures odd { result.odd.items ≡ [] }
    {
        FilterLines {
            entries: Vec::new(alloc),
            odd: Vec::new(alloc),
        }
    }

    // One more statement.
    fn add(&mut self, alloc: Global, line: u32, statement: Statement<'_>) -> Result<(), AllocError>
        ensures entries { OnOk result (self.new.entries.items ≡ self.old.entries.items
            ++ cons_option (entry_at (record { line = line; setting = statement_view statement.entry })) []) }
        ensures odd { OnOk result (self.new.odd.items ≡ self.old.odd.items
            ++ cons_option (odd_at (record { line = line; setting = statement_view statement.entry })) []) }
    {
        let list = Text::new(alloc, statement.list)?;
        match statement.rule {
            None => self.odd.push(OddLine { list, line })?,
            Some(rule) => {
                let entry = FilterEntry {
                    list,
                    permit: rule.permit,
                    ip: rule.ip,
                    from: rule.from,
                    to: rule.to,
                    element: 0,
                };
                self.entries.push(FilterLine { entry, line })?;
            }
        }
        Ok(())
    }

    // One more line, where an indented one would stand in this list.
    fn take(
        &mut self,
        alloc: Global,
        list: Option<ListHead<'_>>,
        line: u32,
        text: &[u8],
    ) -> Result<(), AllocError>
        ensures entries { OnOk result ((block : List Numbered) → self.new.entries.items
            ++ filter_map entry_at (statements_from (open_behind (option_map head_view list.entry) text.now) block)
            ≡ self.old.entries.items ++ filter_map entry_at
            (statements_from (option_map head_view list.entry) (record { line = line; text = text.now } ∷ block))) }
        ensures odd { OnOk result ((block : List Numbered) → self.new.odd.items
            ++ filter_map odd_at (statements_from (open_behind (option_map head_view list.entry) text.now) block)
            ≡ self.old.odd.items ++ filter_map odd_at
            (statements_from (option_map head_view list.entry) (record { line = line; text = text.now } ∷ block))) }
    {
        let Some(statement) = line_says(list, text) else {
            return Ok(());
        };
        self.add(alloc, line, statement)?;
        Ok(())
    }
}

/// The entries of all access lists, and the odd lines, from the lines of a file that speak of
/// access lists, in order: headers, the indented lines behind them, and statements that name their
/// list by its number, behind which no list is open. The elements of the entries are 0, which the
/// reader of the whole file fills in. The lines exist.
///
/// # Errors
///
/// Memory that runs out.
#[tactic(auto, unfolding(crate::specs::Filters::filters_in))]
pub fn read_filters(alloc: Global, lines: &Lines, block: &Block) -> Result<FilterLines, AllocError>
    requires { All (λ k. (0 < k) × (k ≤ length lines.now)) block.now.lines.items }
    ensures { IfOk result (λ made. record { entries = made.entries.items; odd = made.odd.items }
        ≡ filters_in (numbered lines.now block.now.lines.items)) }
{
    let mut made = FilterLines::new(alloc);
    let mut list = None;
    'lines: for line in &block.lines {
        let text = lines.line(*line);
        made.take(alloc, list, *line, text)?;
        list = open_behind(list, text);
    }
    Ok(made)
}
