//! The first word of an unindented statement.

ghost use Rattle.nc_reader.specs.Firsts.{IsFirst};

use nc_lines::statement::is_word;

/// What the first word of an unindented statement is.
#[derive(Clone, Copy)]
pub(crate) enum First {
    Interface,
    Ip,
    Hostname,
    Router,
    RouteMap,
    No,
    AccessList,
    /// A word with which no statement begins that is read or refused.
    Other,
}

/// What this word is as a statement's first.
#[tactic(auto, unfolding(crate::specs::Roles::is_unsupported, crate::specs::Roles::read_role))]
pub(crate) fn read_first(word: &[u8]) -> First
    ensures { IsFirst result word.now }
{
    if is_word(word, "interface") {
        First::Interface
    } else if is_word(word, "ip") {
        First::Ip
    } else if is_word(word, "hostname") {
        First::Hostname
    } else if is_word(word, "router") {
        First::Router
    } else if is_word(word, "route-map") {
        First::RouteMap
    } else if is_word(word, "no") {
        First::No
    } else if is_word(word, "access-list") {
        First::AccessList
    } else {
        First::Other
    }
}
