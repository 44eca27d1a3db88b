// The least cut, by a walk from the top down.

ghost use Rattle.std.specs.Prelude.{◌≡◌, ℕ, IfOk, MatchOption};
ghost use Rattle.nc_diagram.specs.Diagrams.{Belongs, meaning};
ghost use Rattle.nc_cut.specs.Cuts.{IsLeastCut, HasNoCut};
ghost use Rattle.nc_cut.specs.Known.{known_in};
ghost use Rattle.nc_cut.specs.Sizes.{AreSizes};

use crate::pages::Sizes;
use crate::sizes::{begins, is_free, size_at, sizes_from};
use nc_diagram::{Ref, Store};
use std::alloc::{AllocError, Global};

// The least cut of a reference that has one: at each node its variable and what is cut of the low
// end, or what is cut of the high end.
fn walk(
    alloc: Global,
    store: &Store,
    r: Ref,
    free: &[bool],
    sizes: &Sizes,
) -> Result<Vec<u32>, AllocError>
    requires belongs { Belongs store.now.nodes r }
    requires sizes { AreSizes store.now.nodes free.now (known_in sizes.now) }
    requires some { (size : ℕ) × (known_in sizes.now r ≡ Some (Some size)) }
    ensures { IfOk result (λ cut. IsLeastCut (meaning store.now.nodes r) free.now cut.items) }
{
    let mut cut = Vec::new(alloc);
    let mut at = r;
    'walk: while let Some(parts) = store.split(at) {
        let low = size_at(store, parts.low, sizes);
        let high = size_at(store, parts.high, sizes);
        if begins(is_free(free, parts.variable), low, high) {
            cut.push(parts.variable)?;
            at = parts.low;
        } else {
            at = parts.high;
        }
    }
    Ok(cut)
}

/// The least cut of a function, ascending: the fewest variables of those that are free (a variable
/// past the slice is not) such that the function is false at the set of all the others; of cuts with
/// as few the first, the lists compared place by place. None just where no cut exists. It takes time
/// and memory for the nodes that are reached from the reference, no more than a page of 256 places for
/// each, and for a number for each 256 places up to it.
pub fn least_cut(
    alloc: Global,
    store: &Store,
    r: Ref,
    free: &[bool],
) -> Result<Option<Vec<u32>>, AllocError>
    requires { Belongs store.now.nodes r }
    ensures { IfOk result (λ answer. MatchOption answer
        (HasNoCut (meaning store.now.nodes r) free.now)
        (λ cut. IsLeastCut (meaning store.now.nodes r) free.now cut.items)) }
{
    let sizes = sizes_from(alloc, store, r, free)?;
    if size_at(store, r, &sizes).is_none() {
        return Ok(None);
    }
    let cut = walk(alloc, store, r, free, &sizes)?;
    Ok(Some(cut))
}
