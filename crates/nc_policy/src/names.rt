//! Where the first of each name stands, by a table.

ghost use Rattle.std.specs.Prelude.{◌≡◌, ◌+◌, ℕ, List, Some, if◌then◌else◌, map, slice_get};
ghost use Rattle.std.specs.Prelude.{IfOk, OnOk};
ghost use Rattle.std.specs.Str.{bytes_eq};
ghost use Rattle.nc_policy.specs.Indexes.{named_in, place_from};
ghost use Rattle.nc_policy.specs.Seen.{name_table, place_named, IsNameIndex};

use nc_types::{Clause, CommunityList, PrefixList};
use std::alloc::{AllocError, Global};
use std::collections::HashMap;

/// What has a name.
pub(crate) trait Named {
    ghost name_of: { Self → List ℕ };

    fn name(&self) -> &[u8]
        ensures { result.now ≡ name_of self.now };
}

impl Named for PrefixList {
    ghost name_of = { λ list. list.name };

    fn name(&self) -> &[u8] {
        self.name.bytes()
    }
}

impl Named for CommunityList {
    ghost name_of = { λ list. list.name };

    fn name(&self) -> &[u8] {
        self.name.bytes()
    }
}

impl Named for Clause {
    ghost name_of = { λ clause. clause.map };

    fn name(&self) -> &[u8] {
        self.map.bytes()
    }
}

/// A table of names, by which those of one name are found one behind the other.
#[derive(Drop)]
pub(crate) struct NameIndex {
    /// The place of the first that has a name.
    pub(crate) first: HashMap<Vec<u8>, usize>,
    /// Of each, the place of the next one that has its name.
    pub(crate) next: Vec<Option<usize>>,
}

// Puts a place to a name, and hands out the later one that the name had.
fn put(
    alloc: Global,
    first: &mut HashMap<Vec<u8>, usize>,
    name: &[u8],
    place: usize,
) -> Result<Option<usize>, AllocError>
    ensures later { IfOk result (λ later. later ≡ place_named first.old name.now) }
    ensures put { OnOk result ((q : List ℕ) → place_named first.new q
        ≡ (if bytes_eq q name.now then Some place else place_named first.old q)) }
{
    let later = first.insert(Vec::from_slice(alloc, name)?, place)?;
    Ok(later)
}

impl NameIndex {
    /// The table of the names of these, made from the last to the first, so that the first stays.
    pub(crate) fn new<T: Named>(alloc: Global, items: &[T]) -> Result<NameIndex, AllocError>
        ensures { IfOk result (IsNameIndex (map T.name_of items.now)) }
    {
        let mut first = HashMap::new(alloc);
        let mut next = vec![in alloc; None; items.len()]?;
        let mut place = items.len();
        'items: while place > 0 {
            place -= 1;
            next[place] = put(alloc, &mut first, items[place].name(), place)?;
        }
        Ok(NameIndex { first, next })
    }

    /// The place of the first that has a name. Takes no memory.
    pub(crate) fn place(&self, name: &[u8]) -> Option<usize>
        ensures { result ≡ named_in (name_table self.now) name.now }
    {
        self.first.get(name).copied()
    }

    /// The place of the next one that has the name of the one at a place. Takes no memory.
    pub(crate) fn behind(&self, place: usize) -> Option<usize>
        ensures { (names : List (List ℕ)) (name : List ℕ) → IsNameIndex names self.now
            → slice_get names place ≡ Some name → result ≡ place_from name (place + 1) names }
    {
        let next = self.next.get(place)?;
        *next
    }
}
