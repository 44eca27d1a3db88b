//! The statements of an interface's block.

ghost use Rattle.std.specs.Prelude.{◌≡◌, ℕ, ◌<◌, ◌≤◌, ◌+◌, All, length, take, drop, vec_len};
ghost use Rattle.nc_lines.specs.Parts.{numbered};
ghost use Rattle.nc_read_link.specs.Drafts.{with_counted};
ghost use Rattle.nc_read_link.specs.Interfaces.{interface_in};
ghost use Rattle.nc_read_link.specs.Outcomes.{IsInterface};

use crate::draft::Draft;
use nc_lines::{Block, Lines};
use nc_types::{ConfigFault, Interface, Text};

// Puts a line behind those kept so far where it counts, and tells how many are kept then.
fn keep(own: &mut Vec<u32>, kept: usize, line: u32, counts: bool) -> usize
    requires { kept < vec_len own.old }
    ensures kept { take result own.new.items ≡ with_counted (take kept own.old.items) counts line }
    ensures behind { (at : ℕ) → kept < at → drop at own.new.items ≡ drop at own.old.items }
    ensures len { vec_len own.new ≡ vec_len own.old }
    ensures most { result ≤ kept + 1 }
{
    if !counts {
        return kept;
    }
    own[kept] = line;
    kept + 1
}

/// The interface of this name that the lines of its block make, with the lines of its statements. Its element is
/// 0, which the reader of the whole file fills in.
///
/// The first line of the block is a header, `interface W`, of this name; a block whose interface is opened several
/// times has all the lines of all its headers. The lines exist. The block's memory becomes that of the statements'
/// lines.
///
/// # Errors
///
/// The first faulty line, with its cause.
pub fn read_interface(
    lines: &Lines,
    name: Text,
    block: Block,
) -> Result<(Interface, Vec<u32>), ConfigFault>
    requires { All (λ k. (0 < k) × (k ≤ length lines.now)) block.lines.items }
    ensures { IsInterface result (interface_in name (numbered lines.now block.lines.items)) }
{
    let mut own = block.lines;
    let mut draft = Draft::new();
    let mut kept = 0;
    'lines: for index in 0..own.len() {
        let line = own[index];
        let counts = draft.take(line, lines.line(line))?;
        kept = keep(&mut own, kept, line, counts);
    }
    own.truncate(kept);
    Ok((draft.finish(name), own))
}
