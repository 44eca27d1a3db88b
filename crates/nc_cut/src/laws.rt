// The laws of least cuts. Each is the contract of a function that does nothing.

ghost use Rattle.std.specs.Prelude.{◌≡◌, ◌⊎◌, ◌<◌, ◌∷◌, ℕ, Bool, true, false, List, [], length, All};
ghost use Rattle.nc_diagram.specs.Sets.{Members, Same, all_but, among};
ghost use Rattle.nc_cut.specs.Cuts.{IsBelow, IsLeastCut, HasNoCut, is_free};

/// A function has at most one least cut.
pub fn law_of_one_least_cut()
    ensures { (f : Members → Bool) (free : List Bool) (one other : List ℕ)
        → IsLeastCut f free one → IsLeastCut f free other → one ≡ other }
{}

/// A function that is false at the empty set and depends on free variables alone has a cut.
pub fn law_of_no_variable_kept()
    ensures { (f : Members → Bool) (free : List Bool) → IsBelow (length free) f
        → All (λ b. b ≡ true) free → f (among []) ≡ false → HasNoCut f free → ⊥ }
{}

/// Functions that are the same have the same cuts.
pub fn law_of_same_functions()
    ensures none { (f g : Members → Bool) → Same f g
        → (free : List Bool) → HasNoCut f free → HasNoCut g free }
    ensures least { (f g : Members → Bool) → Same f g
        → (free : List Bool) (cut : List ℕ) → IsLeastCut f free cut → IsLeastCut g free cut }
{}

/// A function that depends on variables below some number alone has a least cut, or no cut.
pub fn law_of_cuts_or_none()
    ensures { (n : ℕ) (f : Members → Bool) → IsBelow n f → (free : List Bool)
        → HasNoCut f free ⊎ ((cut : List ℕ) × IsLeastCut f free cut) }
{}

/// A function that is true at the set of all variables: the first free variable without which alone it
/// is false is its least cut.
pub fn law_of_one_variable()
    ensures { (f : Members → Bool) (free : List Bool) (v : ℕ) → f (all_but []) ≡ true
        → is_free free v ≡ true → f (all_but (v ∷ [])) ≡ false
        → ((w : ℕ) → w < v → is_free free w ≡ true → f (all_but (w ∷ [])) ≡ true)
        → IsLeastCut f free (v ∷ []) }
{}
