// Laws of the definitions, as contracts of functions that do nothing.

ghost use Rattle.std.specs.Prelude.{◌≡◌, ℕ, ◌<◌, ◌≤◌, ◌↔◌, Bool, false, List, Contains, length, slice_index_or};
ghost use Rattle.std.specs.List.Sorted.{IsStrictlyIncreasing};
ghost use Rattle.nc_diagram.specs.Sets.{Members, has, all_but, fixing};

/// The set of all variables but some lacks exactly these.
pub fn law_of_all_but()
    ensures { (missing : List ℕ) (v : ℕ) → IsStrictlyIncreasing missing
        → (has (all_but missing) v ≡ false) ↔ Contains missing v }
{}

/// Fixing the lowest variables of a set changes no other variable.
pub fn law_of_fixing()
    ensures fixed { (lowest : List Bool) (s : Members) (v : ℕ) → v < length lowest
        → has (fixing lowest s) v ≡ slice_index_or lowest v false }
    ensures others { (lowest : List Bool) (s : Members) (v : ℕ) → length lowest ≤ v
        → has (fixing lowest s) v ≡ has s v }
{}
