//! The next hop of a static route.

ghost use Rattle.std.specs.Prelude.{◌≡◌, ℕ, IfOk};
ghost use Rattle.std.specs.Option.{option_map};
ghost use Rattle.nc_types.specs.declared.config.Via.TheVariants.{Through};
ghost use Rattle.nc_lines.specs.Lines.{words_of};
ghost use Rattle.nc_read_link.specs.Statics.{through, direct, via_of};

use nc_lines::cut::cut_word;
use nc_lines::numbers::read_address;
use nc_lines::statement::is_word;
use nc_types::{Addr, Reference, Text, Via};
use std::alloc::{AllocError, Global};

// An interface's name and an address behind it, and what follows.
fn through(text: &[u8]) -> Option<(&[u8], Addr, &[u8])>
    ensures { (line : ℕ) → option_map (λ v. (Through (record { name = v.0.now; line = line }) v.1, words_of v.2.now)) result ≡ through line (words_of text.now) }
{
    let (name, rest) = cut_word(text)?;
    let (word, rest) = cut_word(rest)?;
    let addr = read_address(word)?;
    Some((name, addr, rest))
}

// `Null0` or an address, and what follows.
fn direct(text: &[u8]) -> Option<(Via, &[u8])>
    ensures { option_map (λ v. (v.0, words_of v.1.now)) result ≡ direct (words_of text.now) }
{
    let (word, rest) = cut_word(text)?;
    if is_word(word, "Null0") {
        return Some((Via::Null, rest));
    }
    let addr = read_address(word)?;
    Some((Via::Hop(addr), rest))
}

/// The next hop, and the options behind it; `None` where there is none. The line is that of the statement.
///
/// # Errors
///
/// Memory that runs out.
pub(crate) fn next_hop(
    alloc: Global,
    line: u32,
    text: &[u8],
) -> Result<Option<(Via, &[u8])>, AllocError>
    ensures { IfOk result (λ found. option_map (λ v. (v.0, words_of v.1.now)) found ≡ via_of line (words_of text.now)) }
{
    let Some((name, addr, rest)) = through(text) else {
        return Ok(direct(text));
    };
    let name = Text::new(alloc, name)?;
    Ok(Some((Via::Through(Reference { name, line }, addr), rest)))
}
