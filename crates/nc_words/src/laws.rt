//! The numbers of the limits.

ghost use Rattle.std.specs.Prelude.{◌≡◌};
ghost use Rattle.nc_words.specs.declared.TheConstants.{DEFAULT_ROUNDS, MOST_ROUNDS, MOST_PODS};

/// The law of the limits: each number of the definitions that stands in the code under a name is the one that is meant. It
/// does nothing.
pub fn limits_are_numbers()
    ensures rounds { DEFAULT_ROUNDS ≡ 256 }
    ensures most_rounds { MOST_ROUNDS ≡ 10000 }
    ensures pods { MOST_PODS ≡ 8 }
{}
