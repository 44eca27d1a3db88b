//! The number of the default.

ghost use Rattle.std.specs.Prelude.{◌≡◌};
ghost use Rattle.nc_read_link.specs.declared.TheConstants.{DEFAULT_DISTANCE};

/// The law of the limits: each number of the definitions that stands in the code under a name is the one that is meant. It
/// does nothing.
pub fn limits_are_numbers()
    ensures distance { DEFAULT_DISTANCE ≡ 1 }
{}
