//! The numbers of the limits.

ghost use Rattle.std.specs.Prelude.{◌≡◌};
ghost use Rattle.nc_network.specs.declared.TheConstants.{PREFIX_LIMIT, NEIGHBOR_LIMIT};

/// The law of the limits: each number of the definitions that stands in the code under a name is the one that is meant. It
/// does nothing.
pub fn limits_are_numbers()
    ensures prefixes { PREFIX_LIMIT ≡ 1024 }
    ensures neighbors { NEIGHBOR_LIMIT ≡ 1024 }
{}
