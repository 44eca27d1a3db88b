ghost use Rattle.std.specs.Prelude.{◌≡◌, ◌≢◌, ℕ, ◌≤◌, IfSome, IfNone, IfOk, string_bytes};
ghost use Rattle.nc_types.specs.Dotted.{dotted};
ghost use Rattle.nc_types.specs.Masks.{mask_of, mask_len_of};

use std::alloc::{AllocError, Global};

/// An IPv4 address as one number: 10.0.0.1 is `0x0a00_0001`.
#[derive(Clone, Copy, PartialEq, Eq, PartialOrd, Ord, Hash)]
pub struct Addr(pub u32);

impl Addr {
    /// Its text: four numbers with dots between them.
    ///
    /// # Errors
    ///
    /// Memory that runs out.
    pub fn dotted(self, alloc: Global) -> Result<String, AllocError>
        ensures { IfOk result (λ text. string_bytes text ≡ dotted self.0) }
    {
        let first = self.0 / 16_777_216;
        let second = self.0 / 65_536 % 256;
        let third = self.0 / 256 % 256;
        let fourth = self.0 % 256;
        format!(in alloc; "{first}.{second}.{third}.{fourth}")
    }
}

// The mask of a length: so many ones, then zeros.
fn mask_with(len: u8) -> u32
    requires { len ≤ 32 }
    ensures { result ≡ mask_of len }
{
    ((1u64 << 32) - (1u64 << (32 - len))) as u32
}

/// How many ones a mask begins with, or `None` where a one follows a zero.
pub fn mask_len(mask: Addr) -> Option<u8>
    ensures length { result ≡ mask_len_of mask.0 }
    ensures found { IfSome result (λ len. (len ≤ 32) × (mask.0 ≡ mask_of len)) }
    ensures none { IfNone result ((len : ℕ) → len ≤ 32 → mask.0 ≢ mask_of len) }
{
    let mut len = 33;
    'lengths: while len > 0 {
        len -= 1;
        if mask_with(len) == mask.0 {
            return Some(len);
        }
    }
    None
}
