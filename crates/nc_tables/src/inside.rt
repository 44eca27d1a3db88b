//! Longer prefixes inside another.

ghost use Rattle.std.specs.Prelude.{◌≡◌};
ghost use Rattle.nc_types.specs.Cidr.{IsCidr};
ghost use Rattle.nc_tables.specs.Rounds.{is_longer_in};

use nc_types::Prefix;

/// Whether a prefix is a longer one inside another.
pub fn is_longer_in(prefix: Prefix, outer: Prefix) -> bool
    ensures longer { result ≡ is_longer_in prefix outer }
    ensures valid { IsCidr prefix.base prefix.len }
{
    outer.len() < prefix.len() && outer.covers(prefix.addr())
}
