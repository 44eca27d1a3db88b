//! What an entry of an access list says.

ghost use Rattle.std.specs.Prelude.{◌≡◌};
ghost use Rattle.nc_lines.specs.Lines.{words_of};
ghost use Rattle.nc_read_filter.specs.Entries.{standard_end, extended_end, standard_rule, ip_rule};
ghost use Rattle.nc_read_filter.specs.Entries.{extended_rule, rule_of, action_says, entry_says};

use crate::action::{action, behind_number};
use crate::places::{all_addresses, place, standard_place};
use nc_lines::cut::cut_word;
use nc_lines::statement::is_word;
use nc_types::AddrMatch;

/// What an entry says, whatever its list.
#[derive(Clone, Copy, PartialEq, Eq)]
pub(crate) struct Rule {
    pub(crate) permit: bool,
    /// Whether it is of every protocol.
    pub(crate) ip: bool,
    pub(crate) from: AddrMatch,
    pub(crate) to: AddrMatch,
}

/// What a statement of a list says.
#[derive(Clone, Copy, PartialEq, Eq)]
pub(crate) enum Said {
    /// It doesn't begin as an entry.
    Outside,
    /// It begins as an entry and has another rest.
    Odd,
    Says(Rule),
}

// Whether nothing stands behind an entry of a standard list, or `log`.
fn standard_end(text: &[u8]) -> bool
    ensures { result ≡ standard_end (words_of text.now) }
{
    let Some((word, rest)) = cut_word(text) else {
        return true;
    };
    if cut_word(rest).is_some() {
        return false;
    }
    is_word(word, "log")
}

// Whether nothing stands behind an entry of an extended list, `log` or `log-input`.
fn extended_end(text: &[u8]) -> bool
    ensures { result ≡ extended_end (words_of text.now) }
{
    let Some((word, rest)) = cut_word(text) else {
        return true;
    };
    if cut_word(rest).is_some() {
        return false;
    }
    is_word(word, "log") || is_word(word, "log-input")
}

// What is behind the action in a standard list.
fn standard_rule(permit: bool, text: &[u8]) -> Option<Rule>
    ensures { result ≡ standard_rule permit (words_of text.now) }
{
    let (from, rest) = standard_place(text)?;
    if !standard_end(rest) {
        return None;
    }
    Some(Rule {
        permit,
        ip: true,
        from,
        to: all_addresses(),
    })
}

// What is behind `ip` in an extended list.
fn ip_rule(permit: bool, text: &[u8]) -> Option<Rule>
    ensures { result ≡ ip_rule permit (words_of text.now) }
{
    let (from, rest) = place(text)?;
    let (to, rest) = place(rest)?;
    if !extended_end(rest) {
        return None;
    }
    Some(Rule {
        permit,
        ip: true,
        from,
        to,
    })
}

// What is behind the action in an extended list: `ip`, or another protocol with whatever follows.
fn extended_rule(permit: bool, text: &[u8]) -> Option<Rule>
    ensures { result ≡ extended_rule permit (words_of text.now) }
{
    let (protocol, rest) = cut_word(text)?;
    if is_word(protocol, "ip") {
        return ip_rule(permit, rest);
    }
    Some(Rule {
        permit,
        ip: false,
        from: all_addresses(),
        to: all_addresses(),
    })
}

// What is behind the action.
fn any_rule(standard: bool, permit: bool, text: &[u8]) -> Option<Rule>
    ensures { result ≡ rule_of standard permit (words_of text.now) }
{
    if standard {
        standard_rule(permit, text)
    } else {
        extended_rule(permit, text)
    }
}

/// What a statement says that has no number in front.
pub(crate) fn read_action(standard: bool, text: &[u8]) -> Said
    ensures { result ≡ action_says standard (words_of text.now) }
{
    let Some((word, rest)) = cut_word(text) else {
        return Said::Outside;
    };
    let Some(permit) = action(word) else {
        return Said::Outside;
    };
    match any_rule(standard, permit, rest) {
        None => Said::Odd,
        Some(rule) => Said::Says(rule),
    }
}

/// What a statement of a list's block says.
pub(crate) fn read_entry(standard: bool, text: &[u8]) -> Said
    ensures { result ≡ entry_says standard (words_of text.now) }
{
    read_action(standard, behind_number(text))
}
