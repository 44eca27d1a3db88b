//! The addresses from which packets come on which an entry decides, and those to which they go.

ghost use Rattle.std.specs.Prelude.{◌≡◌};
ghost use Rattle.std.specs.Option.{option_map};
ghost use Rattle.nc_lines.specs.Lines.{words_of};
ghost use Rattle.nc_read_filter.specs.Entries.{one_address, all_addresses, host_of, wild_of};
ghost use Rattle.nc_read_filter.specs.Entries.{place_of, standard_place};

use nc_lines::cut::cut_word;
use nc_lines::numbers::read_address;
use nc_lines::statement::is_word;
use nc_types::{Addr, AddrMatch};

// One address.
fn one_address(addr: Addr) -> AddrMatch
    ensures { result ≡ one_address addr.0 }
{
    AddrMatch {
        addr,
        wild: Addr(0),
    }
}

/// Every address.
pub(crate) fn all_addresses() -> AddrMatch
    ensures { result ≡ all_addresses }
{
    AddrMatch {
        addr: Addr(0),
        wild: Addr(u32::MAX),
    }
}

// An address, and what is behind it.
fn host(text: &[u8]) -> Option<(AddrMatch, &[u8])>
    ensures { option_map (λ p. (p.0, words_of p.1.now)) result ≡ host_of (words_of text.now) }
{
    let (word, rest) = cut_word(text)?;
    let addr = read_address(word)?;
    Some((one_address(addr), rest))
}

// An address and its wildcard, and what is behind them.
fn wild(text: &[u8]) -> Option<(AddrMatch, &[u8])>
    ensures { option_map (λ p. (p.0, words_of p.1.now)) result ≡ wild_of (words_of text.now) }
{
    let (address, rest) = cut_word(text)?;
    let (wildcard, rest) = cut_word(rest)?;
    let addr = read_address(address)?;
    let wild = read_address(wildcard)?;
    Some((AddrMatch { addr, wild }, rest))
}

/// `any`, a host, or an address and its wildcard, and what is behind it.
pub(crate) fn place(text: &[u8]) -> Option<(AddrMatch, &[u8])>
    ensures { option_map (λ p. (p.0, words_of p.1.now)) result ≡ place_of (words_of text.now) }
{
    let (word, rest) = cut_word(text)?;
    if is_word(word, "any") {
        return Some((all_addresses(), rest));
    }
    if is_word(word, "host") {
        return host(rest);
    }
    wild(text)
}

/// The same in a standard list, where an address may stand alone.
pub(crate) fn standard_place(text: &[u8]) -> Option<(AddrMatch, &[u8])>
    ensures { option_map (λ p. (p.0, words_of p.1.now)) result
        ≡ standard_place (words_of text.now) }
{
    match place(text) {
        Some(found) => Some(found),
        None => host(text),
    }
}
