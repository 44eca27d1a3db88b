ghost use Rattle.std.specs.Prelude.{◌≡◌, ◌↔◌, ◌≤◌, ◌<◌, IsTrue, MatchOption};
ghost use Rattle.nc_types.specs.Masks.{size_of, network_of};
ghost use Rattle.nc_types.specs.Cidr.{Covers, IsInside, IsCidr};

use crate::addr::Addr;
use std::marker::Model;

/// A classless prefix: a network address whose host bits are zero, and a length of at most 32 bits.
#[derive(Clone, Copy, PartialEq, Eq, PartialOrd, Ord, Hash)]
pub struct Prefix {
    addr: Addr,
    len: u8,
}

impl Model for Prefix {
    ghost use Rattle.nc_types.specs.Cidr.{Cidr, IsCidr};

    ghost Value = { Cidr };

    ghost view = { λ p. record { base = p.addr.0; len = p.len } };

    ghost invariant = { λ p. IsCidr p.addr.0 p.len };

    ghost inverse = { λ v. record { addr = record { 0 = v.base }; len = v.len } };
}

// How many addresses a prefix of this length has.
fn size_with(len: u8) -> u64
    requires { len ≤ 32 }
    ensures size { result ≡ size_of len }
    ensures some { 0 < result }
{
    1u64 << (32 - len)
}

// The address with its host bits cleared.
fn network_with(addr: u32, len: u8) -> u32
    requires { len ≤ 32 }
    ensures network { result ≡ network_of addr len }
    ensures again { network_of result len ≡ result }
{
    let size = size_with(len);
    (u64::from(addr) / size * size) as u32
}

impl Prefix {
    /// The prefix of this network address and length; `None` where the length is more than 32 or a
    /// host bit is set.
    pub fn new(addr: Addr, len: u8) -> Option<Prefix>
        ensures { MatchOption result (¬ IsCidr addr.0 len) (λ p. IsCidr addr.0 len × (p ≡ record { base = addr.0; len = len })) }
    {
        if len <= 32 && network_with(addr.0, len) == addr.0 {
            Some(Prefix { addr, len })
        } else {
            None
        }
    }

    /// The prefix of this length in which an address lies.
    pub fn around(addr: Addr, len: u8) -> Prefix
        requires { len ≤ 32 }
        ensures { result ≡ record { base = network_of addr.0 len; len = len } }
    {
        let network = network_with(addr.0, len);
        Prefix {
            addr: Addr(network),
            len,
        }
    }

    /// The network address.
    pub fn addr(self) -> Addr
        ensures base { result.0 ≡ self.base }
        ensures valid { IsCidr self.base self.len }
    {
        self.addr
    }

    /// How many leading bits are fixed, 0 to 32.
    pub fn len(self) -> u8
        ensures len { result ≡ self.len }
        ensures valid { IsCidr self.base self.len }
    {
        self.len
    }

    /// Whether the first `len` bits of an address are those of the prefix.
    pub fn covers(self, addr: Addr) -> bool
        ensures { IsTrue result ↔ Covers self addr.0 }
    {
        let size = size_with(self.len);
        u64::from(addr.0) / size == u64::from(self.addr.0) / size
    }

    /// Whether this is the outer prefix or a part of it.
    pub fn inside(self, outer: Prefix) -> bool
        ensures { IsTrue result ↔ IsInside self outer }
    {
        outer.len <= self.len && outer.covers(self.addr)
    }
}
