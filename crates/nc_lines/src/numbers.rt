//! Decimal numbers, addresses and prefixes, each written as one word, or as an address and a mask.

ghost use Rattle.std.specs.Prelude.{◌≡◌, ◌≤◌, ◌==◌, List, ℕ, [], ◌∷◌, MatchOption, IfSome};
ghost use Rattle.std.specs.Option.{option_map};
ghost use Rattle.std.specs.List.{slice_split};
ghost use Rattle.nc_lines.specs.Numbers.{number_of, address_of, prefix_of, around_of, address_of_parts};
ghost use Rattle.nc_lines.specs.Numbers.{masked_of, masked_prefix};

use crate::cut::cut_at;
use nc_types::{Addr, Prefix, mask_len};

/// The number that a word writes in decimal digits, without a sign or a leading zero; `None` where the
/// word writes none or it is more than `most`.
pub fn read_number(word: &[u8], most: u32) -> Option<u32>
    ensures number { result ≡ number_of most word.now }
    ensures within { IfSome result (λ n. n ≤ most) }
{
    if word.is_empty() {
        return None;
    }
    if word.len() > 1 && word[0] == b'0' {
        return None;
    }
    let mut value: u64 = 0;
    for digit in word {
        if !digit.is_ascii_digit() {
            return None;
        }
        value = value * 10 + u64::from(*digit - b'0');
        if value > u64::from(most) {
            return None;
        }
    }
    Some(value as u32)
}

// The two parts of a word around the only such byte in it.
fn cut_once(word: &[u8], byte: u8) -> Option<(&[u8], &[u8])>
    ensures { MatchOption result ((a b : List ℕ) → slice_split (λ b. b == byte) word.now ≡ a ∷ b ∷ [] → ⊥)
        (λ cut. slice_split (λ b. b == byte) word.now ≡ cut.0.now ∷ cut.1.now ∷ []) }
{
    let (before, behind) = cut_at(word, byte)?;
    match cut_at(behind, byte) {
        Some(_) => None,
        None => Some((before, behind)),
    }
}

// The four parts of a word around three dots.
fn cut_octets(word: &[u8]) -> Option<(&[u8], &[u8], &[u8], &[u8])>
    ensures { MatchOption result (address_of word.now ≡ None)
        (λ cut. address_of word.now ≡ address_of_parts (cut.0.now ∷ cut.1.now ∷ cut.2.now ∷ cut.3.now ∷ [])) }
{
    let (first, rest) = cut_at(word, b'.')?;
    let (second, rest) = cut_at(rest, b'.')?;
    let (third, fourth) = cut_once(rest, b'.')?;
    Some((first, second, third, fourth))
}

/// The address that a word writes as four numbers up to 255 with dots between them.
pub fn read_address(word: &[u8]) -> Option<Addr>
    ensures { option_map (λ a. a.0) result ≡ address_of word.now }
{
    let (first, second, third, fourth) = cut_octets(word)?;
    let first = read_number(first, 255)?;
    let second = read_number(second, 255)?;
    let third = read_number(third, 255)?;
    let fourth = read_number(fourth, 255)?;
    Some(Addr(((first * 256 + second) * 256 + third) * 256 + fourth))
}

/// The prefix that a word writes as an address, a slash and a length up to 32; `None` where a host bit
/// is set.
pub fn read_prefix(word: &[u8]) -> Option<Prefix>
    ensures { result ≡ prefix_of word.now }
{
    let (address, len) = cut_once(word, b'/')?;
    let address = read_address(address)?;
    let len = read_number(len, 32)?;
    Prefix::new(address, len as u8)
}

/// The prefix in which an address lies, of the address, a slash and a length up to 32 that a word writes: its
/// host bits are cleared.
pub fn read_around(word: &[u8]) -> Option<Prefix>
    ensures { result ≡ around_of word.now }
{
    let (address, len) = cut_once(word, b'/')?;
    let address = read_address(address)?;
    let len = read_number(len, 32)?;
    Some(Prefix::around(address, len as u8))
}

/// The address that one word writes, and the length from 0 to 32 of the mask that another writes; `None`
/// where the mask isn't of ones followed by zeros.
pub fn read_masked(address: &[u8], mask: &[u8]) -> Option<(Addr, u8)>
    ensures read { option_map (λ p. (p.0.0, p.1)) result ≡ masked_of address.now mask.now }
    ensures within { IfSome result (λ p. p.1 ≤ 32) }
{
    let address = read_address(address)?;
    let mask = read_address(mask)?;
    let len = mask_len(mask)?;
    Some((address, len))
}

/// The prefix that an address and a mask write; `None` where a host bit is set.
pub fn read_masked_prefix(address: &[u8], mask: &[u8]) -> Option<Prefix>
    ensures { result ≡ masked_prefix address.now mask.now }
{
    let (address, len) = read_masked(address, mask)?;
    Prefix::new(address, len)
}
