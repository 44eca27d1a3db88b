// How many variables the least cut of a reference has, for each reference that is reached from one.

ghost use Rattle.std.specs.Prelude.{◌≡◌, ◌<◌, ◌-◌, ◌^◌, IfOk, IfSome};
ghost use Rattle.nc_diagram.specs.Diagrams.{Belongs};
ghost use Rattle.nc_cut.specs.Cuts.{is_free};
ghost use Rattle.nc_cut.specs.Known.{known_in};
ghost use Rattle.nc_cut.specs.Sizes.{AreSizes, IsKnown, Looks, begins, entry, joined};

use crate::pages::Sizes;
use nc_diagram::{Ref, Store};
use std::alloc::{AllocError, Global};

/// What is seen of a reference: an end whose size has to be known before, or its own size.
#[derive(Clone, Copy)]
pub(crate) enum Sight {
    Waits(Ref),
    Sized(Option<u32>),
}

// Whether a variable may be in a cut. One past the slice may not.
pub(crate) fn is_free(free: &[bool], variable: u32) -> bool
    ensures { result ≡ is_free free.now variable }
{
    let index = variable as usize;
    index < free.len() && free[index]
}

// Whether the least cut of a node begins with its variable, by whether that is free and by the sizes
// of its ends.
pub(crate) fn begins(free: bool, low: Option<u32>, high: Option<u32>) -> bool
    ensures { result ≡ begins free low high }
{
    match (low, high) {
        (Some(low), Some(high)) => free && low < high,
        (low, _) => free && low.is_some(),
    }
}

// The size of a node, by whether its variable is free and by the sizes of its ends.
fn joined(free: bool, low: Option<u32>, high: Option<u32>) -> Option<u32>
    requires { IfSome low (λ n. n < 2 ^ 32 - 1) }
    ensures { result ≡ joined free low high }
{
    if begins(free, low, high) {
        low.map(|n| n + 1)
    } else {
        high
    }
}

// The size of a reference, where it is known.
pub(crate) fn size_at(store: &Store, r: Ref, sizes: &Sizes) -> Option<u32>
    requires { Belongs store.now.nodes r }
    ensures { result ≡ entry (known_in sizes.now) r }
{
    sizes.get(store.place(r)).unwrap_or(None)
}

// Looks at a reference: at the size of the one end and of the other, and by both at its own.
fn look(store: &Store, r: Ref, free: &[bool], sizes: &Sizes) -> Sight
    requires belongs { Belongs store.now.nodes r }
    requires sizes { AreSizes store.now.nodes free.now (known_in sizes.now) }
    ensures { Looks store.now.nodes free.now (known_in sizes.now) r result }
{
    let place = store.place(r);
    let Some(parts) = store.split(r) else {
        return Sight::Sized((place == 0).then_some(0));
    };
    let Some(low) = sizes.get(store.place(parts.low)) else {
        return Sight::Waits(parts.low);
    };
    let Some(high) = sizes.get(store.place(parts.high)) else {
        return Sight::Waits(parts.high);
    };
    Sight::Sized(joined(is_free(free, parts.variable), low, high))
}

// The sizes of a reference and of all that are reached from it. Each is looked at as often as it
// waits for an end, and once more.
pub(crate) fn sizes_from(
    alloc: Global,
    store: &Store,
    r: Ref,
    free: &[bool],
) -> Result<Sizes, AllocError>
    requires { Belongs store.now.nodes r }
    ensures sizes { IfOk result (λ sizes. AreSizes store.now.nodes free.now (known_in sizes)) }
    ensures known { IfOk result (λ sizes. IsKnown (known_in sizes) r) }
{
    let last = store.place(r);
    let mut sizes = Sizes::new(alloc, last)?;
    let mut waiting = Vec::new(alloc);
    let mut at = r;
    'walk: loop {
        match look(store, at, free, &sizes) {
            Sight::Waits(end) => {
                waiting.push(at)?;
                at = end;
            }
            Sight::Sized(size) => {
                sizes.insert(store.place(at), size)?;
                let Some(next) = waiting.pop() else {
                    return Ok(sizes);
                };
                at = next;
            }
        }
    }
}
