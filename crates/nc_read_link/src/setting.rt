//! What one line of an interface's block says: its first word is told once, then what is behind it.

ghost use Rattle.std.specs.Prelude.{◌≡◌, ◌∷◌, codes};
ghost use Rattle.nc_lines.specs.Lines.{words_of};
ghost use Rattle.nc_lines.specs.Readings.{reading_of};
ghost use Rattle.nc_read_link.specs.Interfaces.{setting_says};

use crate::first::{First, read_first};
use crate::masks::iface_addr;
use crate::usual::{is_outside, read_usual};
use nc_lines::cut::cut_word;
use nc_lines::numbers::read_masked;
use nc_lines::statement::{Reading, after_one, alone, begins_one, is_word};
use nc_types::{Cause, IfaceAddr};

/// What a statement of an interface's block sets.
#[derive(Clone, Copy, PartialEq, Eq)]
pub enum Setting {
    /// `ip address A M`
    Address(IfaceAddr),
    /// `no ip address`
    NoAddress,
    /// `shutdown` or `no shutdown`
    Shut(bool),
}

// What is behind `ip address`: an address and its mask; a further `secondary` isn't supported.
#[tactic(auto, unfolding(crate::specs::Interfaces::is_unsupported, crate::specs::Interfaces::read_says))]
fn behind_address(rest: &[u8]) -> Reading<Setting>
    ensures { reading_of result ≡ setting_says (codes "ip" ∷ codes "address" ∷ words_of rest.now) }
{
    let Some((address, rest)) = cut_word(rest) else {
        return Reading::Faulty(Cause::Syntax);
    };
    if is_word(address, "dhcp") || is_word(address, "negotiated") || is_word(address, "pool") {
        return Reading::Faulty(Cause::Unsupported);
    }
    let Some((mask, rest)) = cut_word(rest) else {
        return Reading::Faulty(Cause::Syntax);
    };
    if let Some((word, _)) = cut_word(rest) {
        if is_word(word, "secondary") && read_masked(address, mask).is_some() {
            return Reading::Faulty(Cause::Unsupported);
        }
        return Reading::Faulty(Cause::Syntax);
    }
    match iface_addr(address, mask) {
        None => Reading::Faulty(Cause::Syntax),
        Some(addr) => Reading::Says(Setting::Address(addr)),
    }
}

// What is behind `ip`.
#[tactic(auto, unfolding(crate::specs::Interfaces::is_unsupported, crate::specs::Interfaces::read_says))]
fn behind_ip(rest: &[u8]) -> Reading<Setting>
    ensures { reading_of result ≡ setting_says (codes "ip" ∷ words_of rest.now) }
{
    let Some((word, rest)) = cut_word(rest) else {
        return Reading::Outside;
    };
    if is_word(word, "address") {
        return behind_address(rest);
    }
    if is_word(word, "unnumbered") || is_word(word, "policy") || is_word(word, "nat") {
        return Reading::Faulty(Cause::Unsupported);
    }
    if is_word(word, "vrf") && begins_one(rest, "forwarding") {
        return Reading::Faulty(Cause::Unsupported);
    }
    Reading::Outside
}

// What is behind `no`.
#[tactic(auto, unfolding(crate::specs::Interfaces::is_unsupported, crate::specs::Interfaces::read_says))]
fn behind_no(rest: &[u8]) -> Reading<Setting>
    ensures { reading_of result ≡ setting_says (codes "no" ∷ words_of rest.now) }
{
    let Some((word, rest)) = cut_word(rest) else {
        return Reading::Outside;
    };
    if is_word(word, "shutdown") {
        return alone(Setting::Shut(false), rest);
    }
    if !is_word(word, "ip") {
        return Reading::Outside;
    }
    match after_one(rest, "address") {
        None => Reading::Outside,
        Some(rest) => alone(Setting::NoAddress, rest),
    }
}

// What is behind `shutdown`.
#[tactic(auto, unfolding(crate::specs::Interfaces::is_unsupported, crate::specs::Interfaces::read_says))]
fn behind_shutdown(rest: &[u8]) -> Reading<Setting>
    ensures { reading_of result ≡ setting_says (codes "shutdown" ∷ words_of rest.now) }
{
    alone(Setting::Shut(true), rest)
}

// What is behind `vrf`.
#[tactic(auto, unfolding(crate::specs::Interfaces::is_unsupported, crate::specs::Interfaces::read_says))]
fn behind_vrf(rest: &[u8]) -> Reading<Setting>
    ensures { reading_of result ≡ setting_says (codes "vrf" ∷ words_of rest.now) }
{
    if begins_one(rest, "forwarding") {
        Reading::Faulty(Cause::Unsupported)
    } else {
        Reading::Outside
    }
}

/// What an indented line in an interface's block says: what isn't supported is looked at first. Most
/// lines are told by their second byte or as they stand.
#[tactic(auto, unfolding(crate::specs::Interfaces::is_unsupported, crate::specs::Interfaces::read_says))]
pub(crate) fn read_setting(line: &[u8]) -> Reading<Setting>
    ensures { reading_of result ≡ setting_says (words_of line.now) }
{
    if is_outside(line) {
        return Reading::Outside;
    }
    if let Some(setting) = read_usual(line) {
        return Reading::Says(setting);
    }
    let Some((word, rest)) = cut_word(line) else {
        return Reading::Outside;
    };
    match read_first(word) {
        First::Ip => behind_ip(rest),
        First::No => behind_no(rest),
        First::Shutdown => behind_shutdown(rest),
        First::Vrf => behind_vrf(rest),
        First::Other => Reading::Outside,
    }
}
