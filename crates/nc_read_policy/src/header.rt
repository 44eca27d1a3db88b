//! The header of a clause.

ghost use Rattle.std.specs.Prelude.{◌≡◌};
ghost use Rattle.std.specs.Option.{option_map};
ghost use Rattle.nc_lines.specs.Lines.{words_of};
ghost use Rattle.nc_read_policy.specs.Clauses.{header_of, header_says};
ghost use Rattle.nc_read_policy.specs.Readings.{header_view, header_reading};

use crate::action::action;
use nc_lines::cut::cut_word;
use nc_lines::numbers::read_number;
use nc_lines::statement::{Reading, after_one};
use nc_types::Cause;

/// The header of a clause: `route-map W permit N` or `route-map W deny N`.
#[derive(Clone, Copy, PartialEq, Eq)]
pub struct ClauseHeader<'a> {
    /// The name of the map.
    pub map: &'a [u8],
    /// The clauses of a map are looked at in order of this number.
    pub number: u16,
    pub permit: bool,
}

// What follows `route-map`: a name, an action and a number.
fn header(line: &[u8]) -> Option<ClauseHeader<'_>>
    ensures { option_map header_view result ≡ header_of (words_of line.now) }
{
    let (map, rest) = cut_word(line)?;
    let (word, rest) = cut_word(rest)?;
    let (number, rest) = cut_word(rest)?;
    if cut_word(rest).is_some() {
        return None;
    }
    let permit = action(word)?;
    let number = read_number(number, 65_535)?;
    Some(ClauseHeader {
        map,
        number: number as u16,
        permit,
    })
}

/// The header that a line is; outside where it doesn't begin with `route-map`. The number is 0 to
/// 65,535.
pub fn read_clause_header(line: &[u8]) -> Reading<ClauseHeader<'_>>
    ensures { header_reading result ≡ header_says (words_of line.now) }
{
    let Some(rest) = after_one(line, "route-map") else {
        return Reading::Outside;
    };
    match header(rest) {
        None => Reading::Faulty(Cause::Syntax),
        Some(header) => Reading::Says(header),
    }
}
