//! The prefix that a statement writes as an address alone, with the length of its class.

ghost use Rattle.std.specs.Prelude.{◌≡◌, ◌≤◌, IfSome};
ghost use Rattle.nc_read_bgp.specs.Prefixes.{octet_len, class_len, class_prefix};

use nc_lines::numbers::read_address;
use nc_types::{Addr, Prefix};

// The length of an address of a class: A, B and C are told by the first octet (RFC 791), and 0 and
// 127 are of none.
fn octet_len(octet: u32) -> Option<u8>
    ensures len { result ≡ octet_len octet }
    ensures within { IfSome result (λ len. len ≤ 32) }
{
    match octet {
        1..=126 => Some(8),
        128..=191 => Some(16),
        192..=223 => Some(24),
        _ => None,
    }
}

// The length that an address has by its class, and 0 for the address of zeros alone (profile).
fn class_len(addr: Addr) -> Option<u8>
    ensures len { result ≡ class_len addr.0 }
    ensures within { IfSome result (λ len. len ≤ 32) }
{
    if addr.0 == 0 {
        return Some(0);
    }
    octet_len(addr.0 >> 24)
}

/// The prefix of an address and the length of its class, where no host bit is set.
pub(crate) fn class_prefix(address: &[u8]) -> Option<Prefix>
    ensures { result ≡ class_prefix address.now }
{
    let addr = read_address(address)?;
    let len = class_len(addr)?;
    Prefix::new(addr, len)
}
