//! What follows from the definitions alone.

ghost use Rattle.std.specs.Prelude.{◌≡◌, ℕ, ◌↔◌, ◌≤◌};
ghost use Rattle.nc_types.specs.Masks.{network_of};
ghost use Rattle.nc_types.specs.declared.TheConstants.{ROUTER_LIMIT, LINE_LIMIT, NAME_LIMIT, MULTIPATH_LIMIT, PATH_LIMIT, COMMUNITY_LIMIT, HOP_LIMIT, UNUSED_DISTANCE, DEFAULT_PREFERENCE};
ghost use Rattle.nc_types.specs.Cidr.{Cidr, IsCidr, Covers, IsInside, IsInRange};

/// The laws of prefixes: each covers one unbroken range, from its network address on, as many addresses as
/// its length leaves; an address lies in the prefix around it; and one prefix is inside another exactly
/// where all that it covers the other covers too.
pub fn prefixes_are_ranges()
    ensures range { (p : Cidr) → IsCidr p.base p.len → (addr : ℕ) → Covers p addr ↔ IsInRange p addr }
    ensures around { (addr len : ℕ) → len ≤ 32 → Covers (record { base = network_of addr len; len = len }) addr }
    ensures inside { (p outer : Cidr) → IsCidr p.base p.len → IsCidr outer.base outer.len → IsInside p outer ↔ ((addr : ℕ) → Covers p addr → Covers outer addr) }
{}

/// The law of the limits: each number of the definitions that stands in the code under a name is the one that is meant. It
/// does nothing.
pub fn limits_are_numbers()
    ensures routers { ROUTER_LIMIT ≡ 256 }
    ensures lines { LINE_LIMIT ≡ 65535 }
    ensures name { NAME_LIMIT ≡ 63 }
    ensures multipath { MULTIPATH_LIMIT ≡ 16 }
    ensures path { PATH_LIMIT ≡ 250 }
    ensures communities { COMMUNITY_LIMIT ≡ 64 }
    ensures hops { HOP_LIMIT ≡ 30 }
    ensures unused_distance { UNUSED_DISTANCE ≡ 255 }
    ensures preference { DEFAULT_PREFERENCE ≡ 100 }
{}
