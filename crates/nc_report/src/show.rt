//! A listing of a file.

ghost use Rattle.std.specs.Prelude.{◌≡◌, ◌+◌, ◌<◌, ◌^◌, ◌++◌, OnOk};
ghost use Rattle.nc_report.specs.Counters.{IsFront};
ghost use Rattle.nc_report.specs.Texts.{letter_in, shown_line, show_of};

use crate::counter::Counter;
use nc_lines::Lines;
use std::alloc::{AllocError, Global};

// Appends a line behind its letter and its number.
#[tactic(auto, unfolding(crate::specs::Texts::shown_line))]
fn push_shown(
    out: &mut Vec<u8>,
    front: &mut Counter,
    letter: u8,
    line: &[u8],
) -> Result<(), AllocError>
    requires is { IsFront front.old }
    ensures out { OnOk result (out.new.items
        ≡ out.old.items ++ shown_line letter front.old.number line.now) }
    ensures is { IsFront front.new }
    ensures number { front.new.number ≡ front.old.number }
{
    front.put_before(0, letter);
    out.extend_from_slice(front.text())?;
    out.extend_from_slice(line)?;
    out.push(b'\n')?;
    Ok(())
}

// The letter of the line at a place.
fn letter_in(letters: &[u8], place: u32) -> u8
    ensures { result ≡ letter_in letters.now place }
{
    letters.get(place as usize).copied().unwrap_or(b'.')
}

/// Appends the lines of a file, each behind its letter, its number and a space each.
pub(crate) fn push_listing(
    alloc: Global,
    out: &mut Vec<u8>,
    letters: &[u8],
    lines: &Lines,
) -> Result<(), AllocError>
    ensures { OnOk result (out.new.items ≡ out.old.items ++ show_of letters.now lines.now) }
{
    let mut front = Counter::new(alloc, b". ", b" ")?;
    'lines: for place in 0..lines.count() {
        push_shown(
            out,
            &mut front,
            letter_in(letters, place),
            lines.line(place + 1),
        )?;
        front.count_up()?;
    }
    Ok(())
}
