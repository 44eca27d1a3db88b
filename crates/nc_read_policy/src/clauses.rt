//! The statements of a clause's block.

ghost use Rattle.std.specs.Prelude.{◌≡◌, ◌<◌, ◌≤◌, All, length, option_and_then};
ghost use Rattle.std.specs.Option.{option_map};
ghost use Rattle.nc_lines.specs.Statements.{said_of};
ghost use Rattle.nc_lines.specs.Parts.{numbered};
ghost use Rattle.nc_read_policy.specs.Clauses.{head_by, text_says, head_in, name_in, number_in};
ghost use Rattle.nc_read_policy.specs.Clauses.{clause_in};
ghost use Rattle.nc_read_policy.specs.Readings.{header_view, statement_view};
ghost use Rattle.nc_read_policy.specs.Outcomes.{IsClause};

use crate::draft::Draft;
use crate::header::ClauseHeader;
use crate::setting::{Setting, read_setting};
use nc_lines::statement::Reading;
use nc_lines::{Block, Lines};
use nc_types::{Clause, ConfigFault, Text};
use std::alloc::Global;

// The header that a statement is.
fn head_by(setting: Setting<'_>) -> Option<ClauseHeader<'_>>
    ensures { option_map header_view result ≡ head_by (statement_view setting.entry) }
{
    match setting {
        Setting::Opens(header) => Some(header),
        _ => None,
    }
}

// The header that a line is.
fn head_of(text: &[u8]) -> Option<ClauseHeader<'_>>
    ensures { option_map header_view result
        ≡ option_and_then head_by (said_of (text_says text.now)) }
{
    match read_setting(text) {
        Reading::Says(setting) => head_by(setting),
        Reading::Outside | Reading::Faulty(_) => None,
    }
}

// The header in the first line of a block.
fn head_in<'a>(lines: &'a Lines, block: &Block) -> Option<ClauseHeader<'a>>
    requires { All (λ k. (0 < k) × (k ≤ length lines.now)) block.now.lines.items }
    ensures { option_map header_view result ≡ head_in (numbered lines.now block.now.lines.items) }
{
    match block.lines.first() {
        None => None,
        Some(first) => head_of(lines.line(*first)),
    }
}

// The name and the number in the first line of a block; nothing and 0 where it is no header.
fn name_and_number<'a>(lines: &'a Lines, block: &Block) -> (&'a [u8], u16)
    requires { All (λ k. (0 < k) × (k ≤ length lines.now)) block.now.lines.items }
    ensures name { result.0.now ≡ name_in (numbered lines.now block.now.lines.items) }
    ensures number { result.1 ≡ number_in (numbered lines.now block.now.lines.items) }
{
    match head_in(lines, block) {
        None => (&[], 0),
        Some(header) => (header.map, header.number),
    }
}

/// The clause that the lines of its block make, with the lines of its statements, headers among
/// them. Its element is 0, which the reader of the whole file fills in.
///
/// The first line of the block is a header, `route-map W permit N` or `route-map W deny N`, which
/// gives the name and the number; the last header gives the action. Each `match ip address
/// prefix-list` and each `match community` adds its lists, and of what is set the last statement
/// decides. The lines exist.
///
/// # Errors
///
/// The first faulty line, with its cause; memory that runs out.
pub fn read_clause(
    alloc: Global,
    lines: &Lines,
    block: &Block,
) -> Result<(Clause, Vec<u32>), ConfigFault>
    requires { All (λ k. (0 < k) × (k ≤ length lines.now)) block.now.lines.items }
    ensures { IsClause result (clause_in (numbered lines.now block.now.lines.items)) }
{
    let (name, number) = name_and_number(lines, block);
    let mut draft = Draft::new(alloc, Text::new(alloc, name)?, number);
    for line in &block.lines {
        draft.take(alloc, *line, lines.line(*line))?;
    }
    Ok(draft.finish())
}
