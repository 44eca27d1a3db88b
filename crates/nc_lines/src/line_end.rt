//! Where a line ends.

ghost use Rattle.std.specs.Prelude.{◌≡◌, take, length};
ghost use Rattle.nc_lines.specs.Lines.{without_return};

use crate::cut::trim_return;

/// How many bytes a line has without the one carriage return at its end.
pub fn line_len(line: &[u8]) -> usize
    ensures front { take result line.now ≡ without_return line.now }
    ensures len { result ≡ length (without_return line.now) }
{
    trim_return(line).len()
}
