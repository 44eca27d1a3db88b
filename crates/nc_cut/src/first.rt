// The first free variable that is listed.

ghost use Rattle.std.specs.Prelude.{ℕ, List, ◌++◌, ◌∷◌, []};
ghost use Rattle.nc_cut.specs.Cuts.{IsFirstFree};

use crate::sizes::is_free;

// The first free variable, with one more listed.
fn lower(free: &[bool], first: Option<u32>, variable: u32) -> Option<u32>
    ensures { (listed : List ℕ) → IsFirstFree free.now listed first
        → IsFirstFree free.now (listed ++ variable ∷ []) result }
{
    if !is_free(free, variable) {
        return first;
    }
    let Some(known) = first else {
        return Some(variable);
    };
    if known <= variable {
        return Some(known);
    }
    Some(variable)
}

/// The first of the variables that are free, with these listed behind others, of which the first free
/// one is known. It takes time for these alone.
pub fn first_free(free: &[bool], first: Option<u32>, variables: &[u32]) -> Option<u32>
    ensures { (listed : List ℕ) → IsFirstFree free.now listed first
        → IsFirstFree free.now (listed ++ variables.now) result }
{
    let mut lowest = first;
    'variables: for variable in variables {
        lowest = lower(free, lowest, *variable);
    }
    lowest
}
