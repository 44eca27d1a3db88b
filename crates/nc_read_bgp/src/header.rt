//! The header of a BGP process.

ghost use Rattle.std.specs.Prelude.{◌≡◌};
ghost use Rattle.nc_lines.specs.Lines.{words_of};
ghost use Rattle.nc_lines.specs.Readings.{reading_of};
ghost use Rattle.nc_read_bgp.specs.Statements.{header_says};

use crate::numbers::only_asn;
use nc_lines::statement::{Reading, after_two};
use nc_types::Cause;

/// The number of the autonomous system in a header, `router bgp N`, from 1; outside where the line
/// doesn't begin with `router bgp`.
pub fn read_process_header(line: &[u8]) -> Reading<u32>
    ensures { reading_of result ≡ header_says (words_of line.now) }
{
    let Some(rest) = after_two(line, "router", "bgp") else {
        return Reading::Outside;
    };
    match only_asn(rest) {
        None => Reading::Faulty(Cause::Syntax),
        Some(asn) => Reading::Says(asn),
    }
}
