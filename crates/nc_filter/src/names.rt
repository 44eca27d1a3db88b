//! The place of the first item of each name: of the entries by their lists, and of the filters by their interfaces.

ghost use Rattle.std.specs.Prelude.{◌≡◌, ◌<◌, ◌-◌, ℕ, true, List, Some, None, if◌then◌else◌, length, not, slice_get};
ghost use Rattle.std.specs.Prelude.{IfOk, OnOk};
ghost use Rattle.std.specs.Option.{option_or};
ghost use Rattle.std.specs.Str.{bytes_eq};
ghost use Rattle.nc_types.specs.declared.filters.FilterEntry.{FilterEntry};
ghost use Rattle.nc_filter.specs.Names.{place_named, AreLists, AreSides};

use crate::said::is_inward;
use nc_types::{FilterEntry, Group};
use std::alloc::{AllocError, Global};
use std::collections::HashMap;

// Keeps a place for a name, unless one is kept.
fn put_first(
    alloc: Global,
    first: &mut HashMap<Vec<u8>, usize>,
    name: &[u8],
    place: usize,
) -> Result<(), AllocError>
    ensures { OnOk result ((q : List ℕ) → place_named first.new q
        ≡ option_or (place_named first.old q) (if bytes_eq q name.now then Some place else None)) }
{
    if !first.contains_key(name) {
        first.insert(Vec::from_slice(alloc, name)?, place)?;
    }
    Ok(())
}

// Whether an entry is of the list of the one before it.
fn goes_on(entries: &[FilterEntry], place: usize) -> bool
    requires { place < length entries.now }
    ensures { (e d : FilterEntry) → slice_get entries.now place ≡ Some e → slice_get entries.now (place - 1) ≡ Some d
        → result ≡ true → (0 < place) × (bytes_eq d.list e.list ≡ true) }
{
    place > 0 && entries[place - 1].list == entries[place].list
}

/// Of each list the place of its first entry. Where entries of one list stand together, its name is looked up once.
///
/// # Errors
///
/// Memory that runs out.
pub(crate) fn lists_of(
    alloc: Global,
    entries: &[FilterEntry],
) -> Result<HashMap<Vec<u8>, usize>, AllocError>
    ensures { IfOk result (AreLists entries.now) }
{
    let mut first = HashMap::new(alloc);
    'entries: for place in 0..entries.len() {
        if !goes_on(entries, place) {
            put_first(alloc, &mut first, entries[place].list.bytes(), place)?;
        }
    }
    Ok(first)
}

/// Of each interface the place of its first filter in a direction.
///
/// # Errors
///
/// Memory that runs out.
pub(crate) fn sides_of(
    alloc: Global,
    groups: &[Group],
    inward: bool,
) -> Result<HashMap<Vec<u8>, usize>, AllocError>
    ensures { IfOk result (AreSides groups.now inward) }
{
    let mut first = HashMap::new(alloc);
    'groups: for place in 0..groups.len() {
        let group = &groups[place];
        if is_inward(group, inward) {
            put_first(alloc, &mut first, group.iface.bytes(), place)?;
        }
    }
    Ok(first)
}
