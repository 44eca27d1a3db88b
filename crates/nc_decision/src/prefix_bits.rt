//! Bits of prefixes.

ghost use Rattle.std.specs.Prelude.{◌≡◌, ◌==◌, ◌||◌, ◌<◌, false};
ghost use Rattle.nc_types.specs.Cidr.{Cidr};
ghost use Rattle.nc_decision.specs.PrefixBits.{has_alike, has_bit, number_of};

use nc_types::{NetworkStatement, Prefix};

/// A bit for each remainder modulo 64 of the numbers of prefixes, each counted among those of its length.
/// A prefix whose bit isn't set is none of those whose bits were set; one whose bit is set may be another.
#[derive(Clone, Copy)]
pub(crate) struct PrefixBits {
    word: u64,
}

// The number of a prefix among those of its length, modulo 64.
fn number_of(prefix: Prefix) -> u64
    ensures number { result ≡ number_of prefix }
    ensures few { result < 64 }
{
    let number = u64::from(prefix.addr().0) >> (32 - prefix.len());
    number % 64
}

impl PrefixBits {
    // Those of no prefix.
    fn none() -> PrefixBits
        ensures { (p : Cidr) → has_bit result p ≡ false }
    {
        PrefixBits { word: 0 }
    }

    // These, and that of a prefix.
    fn with(self, prefix: Prefix) -> PrefixBits
        ensures { (p : Cidr) → has_bit result p ≡ (number_of prefix == number_of p || has_bit self p) }
    {
        let bit = 1 << number_of(prefix);
        PrefixBits {
            word: self.word | bit,
        }
    }

    /// Those of the prefixes of networks.
    pub(crate) fn of(networks: &[NetworkStatement]) -> PrefixBits
        ensures { (p : Cidr) → has_bit result p ≡ has_alike p networks.now }
    {
        let mut bits = PrefixBits::none();
        'networks: for network in networks {
            bits = bits.with(network.prefix);
        }
        bits
    }

    /// Whether the bit of a prefix is set.
    pub(crate) fn has(self, prefix: Prefix) -> bool
        ensures { result ≡ has_bit self prefix }
    {
        (self.word >> number_of(prefix)) & 1 == 1
    }
}
