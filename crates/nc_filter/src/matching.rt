//! Whether an address, and a packet, is one of an entry's.

ghost use Rattle.std.specs.Prelude.{◌≡◌};
ghost use Rattle.nc_tables.specs.Filters.{matches, decides};

use nc_types::{Addr, AddrMatch, FilterEntry};

/// Whether an address agrees with that of an entry in every bit that is 0 in the wildcard (Cisco IOS command
/// reference, `access-list`).
pub fn matches(entry: AddrMatch, addr: Addr) -> bool
    ensures { result ≡ matches entry addr.0 }
{
    addr.0 | entry.wild.0 == entry.addr.0 | entry.wild.0
}

/// Whether an entry decides on a packet from one address to another.
pub(crate) fn decides(entry: &FilterEntry, from: Addr, to: Addr) -> bool
    ensures { result ≡ decides from.0 to.0 entry.now }
{
    entry.ip && matches(entry.from, from) && matches(entry.to, to)
}
