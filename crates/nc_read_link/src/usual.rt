//! Lines of an interface's block as devices print them, told without cutting them into words.

ghost use Rattle.std.specs.Prelude.{◌≡◌, true, IfSome};
ghost use Rattle.nc_lines.specs.Lines.{words_of};
ghost use Rattle.nc_lines.specs.Statements.{Outside, Says};
ghost use Rattle.nc_read_link.specs.Firsts.{may_begin};
ghost use Rattle.nc_read_link.specs.Interfaces.{setting_says};

use crate::setting::Setting;
use nc_lines::cut::is_indented;
use nc_lines::statement::is_word;

// Whether a byte is a gap, or one with which a statement begins that is read or refused.
fn may_begin(byte: u8) -> bool
    ensures { result ≡ may_begin byte }
{
    byte == b'i' || byte == b'n' || byte == b's' || byte == b'v' || byte == b' ' || byte == b'\t'
}

/// Whether the second byte of a line tells that it says nothing which is read.
pub(crate) fn is_outside(line: &[u8]) -> bool
    ensures { result ≡ true → setting_says (words_of line.now) ≡ Outside }
{
    let Some(byte) = line.get(1) else {
        return false;
    };
    if may_begin(*byte) {
        return false;
    }
    is_indented(line)
}

/// What a line says that is ` shutdown`, ` no shutdown` or ` no ip address`, byte for byte.
pub(crate) fn read_usual(line: &[u8]) -> Option<Setting>
    ensures { IfSome result (λ s. setting_says (words_of line.now) ≡ Says s) }
{
    if is_word(line, " shutdown") {
        return Some(Setting::Shut(true));
    }
    if is_word(line, " no ip address") {
        return Some(Setting::NoAddress);
    }
    if is_word(line, " no shutdown") {
        return Some(Setting::Shut(false));
    }
    None
}
