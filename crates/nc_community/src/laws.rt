//! What follows from the definitions of sets of communities alone: the contracts of functions that
//! do nothing.

ghost use Rattle.std.specs.Prelude.{◌≡◌, ℕ, List, []};
ghost use Rattle.std.specs.List.Sorted.{IsStrictlyIncreasing};
ghost use Rattle.nc_types.specs.Communities.{put_all, IsSetOf, IsUnionOf};

/// The numbers of a list, put into a set one behind the other, are the one ascending list that has
/// exactly them.
pub fn sets_are_single()
    ensures is { (values : List ℕ) → IsSetOf values (put_all [] values) }
    ensures only { (values set : List ℕ) → IsSetOf values set → set ≡ put_all [] values }
{}

/// The union of two sets is the one ascending list that has exactly the members of both.
pub fn unions_are_single()
    ensures is { (a b : List ℕ) → IsStrictlyIncreasing a → IsUnionOf a b (put_all a b) }
    ensures only { (a b set : List ℕ) → IsStrictlyIncreasing a → IsUnionOf a b set
        → set ≡ put_all a b }
{}
