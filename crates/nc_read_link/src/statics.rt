//! The `ip route` statement.

ghost use Rattle.std.specs.Prelude.{◌≡◌, ◌<◌, ◌≤◌, length};
ghost use Rattle.nc_lines.specs.Lines.{words_of, line_at};
ghost use Rattle.nc_lines.specs.Outcomes.{at_line};
ghost use Rattle.nc_read_link.specs.Statics.{options_say, alone_says, target_says, route_says, static_at};
ghost use Rattle.nc_read_link.specs.Outcomes.{IsStatic};

use crate::next_hop::next_hop;
use crate::options::{are_options, distance, is_conditional};
use nc_lines::Lines;
use nc_lines::cut::cut_word;
use nc_lines::numbers::read_masked_prefix;
use nc_lines::statement::{after_two, is_word};
use nc_types::{Cause, ConfigFault, Prefix, StaticRoute, Via};
use std::alloc::Global;

// What is behind a next hop: its options.
fn options(prefix: Prefix, via: Via, text: &[u8]) -> Result<StaticRoute, Cause>
    ensures { result ≡ options_say prefix via (words_of text.now) }
{
    let (distance, rest) = distance(text);
    if is_conditional(rest) {
        return Err(Cause::Unsupported);
    }
    if !are_options(rest) {
        return Err(Cause::Syntax);
    }
    Ok(StaticRoute {
        prefix,
        via,
        distance,
        element: 0,
    })
}

// What is wrong where there is no next hop: nothing is behind the prefix, or an interface alone.
fn without_hop(text: &[u8]) -> Cause
    ensures { Err result ≡ alone_says (words_of text.now) }
{
    match cut_word(text) {
        None => Cause::Syntax,
        Some(_) => Cause::Unsupported,
    }
}

// A cause with its line.
fn told(line: u32, read: Result<StaticRoute, Cause>) -> Result<StaticRoute, ConfigFault>
    ensures { IsStatic result (at_line line read) }
{
    match read {
        Ok(route) => Ok(route),
        Err(cause) => Err(ConfigFault::Bad { line, cause }),
    }
}

// What is behind a prefix.
fn target(alloc: Global, line: u32, prefix: Prefix, text: &[u8]) -> Result<StaticRoute, ConfigFault>
    ensures { IsStatic result (at_line line (target_says line prefix (words_of text.now))) }
{
    match next_hop(alloc, line, text)? {
        None => told(line, Err(without_hop(text))),
        Some((via, rest)) => told(line, options(prefix, via, rest)),
    }
}

// What is behind `ip route`.
#[tactic(auto, unfolding(crate::specs::Statics::route_says))]
fn route(alloc: Global, line: u32, text: &[u8]) -> Result<StaticRoute, ConfigFault>
    ensures { IsStatic result (at_line line (route_says line (words_of text.now))) }
{
    let Some((address, rest)) = cut_word(text) else {
        return told(line, Err(Cause::Syntax));
    };
    if is_word(address, "vrf") {
        return told(line, Err(Cause::Unsupported));
    }
    let Some((mask, rest)) = cut_word(rest) else {
        return told(line, Err(Cause::Syntax));
    };
    match read_masked_prefix(address, mask) {
        None => told(line, Err(Cause::Syntax)),
        Some(prefix) => target(alloc, line, prefix, rest),
    }
}

/// The static route of a line, which begins with `ip route`. Its element is 0, which the reader of the whole
/// file fills in. Lines count from 1.
///
/// # Errors
///
/// The line, with its cause; memory that runs out.
#[tactic(auto, unfolding(crate::specs::Statics::route_says))]
pub fn read_static(alloc: Global, lines: &Lines, line: u32) -> Result<StaticRoute, ConfigFault>
    requires first { 0 < line }
    requires last { line ≤ length lines.now }
    ensures { IsStatic result (static_at line (line_at line lines.now)) }
{
    match after_two(lines.line(line), "ip", "route") {
        None => told(line, Err(Cause::Syntax)),
        Some(rest) => route(alloc, line, rest),
    }
}
