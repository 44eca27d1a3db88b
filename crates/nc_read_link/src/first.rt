//! The first word of a line in an interface's block.

ghost use Rattle.nc_read_link.specs.Firsts.{IsFirst};

use nc_lines::statement::is_word;

/// What the first word of an indented line is.
#[derive(Clone, Copy)]
pub(crate) enum First {
    Ip,
    No,
    Shutdown,
    Vrf,
    /// A word with which no statement begins that is read or refused.
    Other,
}

/// What this word is as a line's first.
#[tactic(auto, unfolding(crate::specs::Interfaces::is_unsupported, crate::specs::Interfaces::read_says))]
pub(crate) fn read_first(word: &[u8]) -> First
    ensures { IsFirst result word.now }
{
    if is_word(word, "ip") {
        First::Ip
    } else if is_word(word, "no") {
        First::No
    } else if is_word(word, "shutdown") {
        First::Shutdown
    } else if is_word(word, "vrf") {
        First::Vrf
    } else {
        First::Other
    }
}
