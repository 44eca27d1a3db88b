//! A table of sets of elements, in which nodes share the sets that are equal, and a set what it has of an earlier
//! one.
ghost use Rattle.std.specs.Prelude.{◌≡◌, ◌+◌, ◌<◌, ◌≤◌, ◌^◌, ◌++◌, ◌∷◌, ◌||◌, ℕ, [], length, false, nat_eq, slice_index_or, take, if◌then◌else◌, IfOk, IfSome, OnOk, OnErr};
ghost use Rattle.nc_marks.specs.Sets.{flag, followed, has, has_at, Grows, IsAt};

use crate::flags::flag_set;
use nc_graph::lists::Lists;
use std::alloc::{AllocError, Global};
use std::collections::HashMap;
use std::hash::{FoldHasher, Hash, Hasher};
use std::marker::Model;

// Sets by their places, of which the elements below `width` count. The set at the place 0 is empty. A set is its own
// elements, followed by those of an earlier one, whose number is counted from 1, or by none.
// Of each hash it is kept where a set of this hash was added last. What stands there is compared
// before it is used, so that neither a hash of several sets nor one of a set that is gone does harm.
#[derive(Drop)]
pub(crate) struct Sets {
    owns: Lists<u32>,
    tails: Vec<u32>,
    // how many elements each lists, one in several of its parts as often
    sizes: Vec<u32>,
    last: HashMap<u64, u32>,
    width: u32,
    alloc: Global,
}

impl Model for Sets {
    ghost use Rattle.std.specs.Prelude.{[]};
    ghost use Rattle.nc_marks.specs.Sets.{Table, sets_from, AreParts};

    ghost Value = { Table };

    ghost view = { λ s. record { sets = sets_from [] s.tails.items s.owns; width = s.width } };

    ghost invariant = { λ s. AreParts s.tails.items s.owns };
}

// The hash of a set, by its own elements in the order in which they are listed.
fn hash_of(tail: u32, own: &[u32]) -> u64 {
    let mut hasher = FoldHasher::default();
    tail.hash(&mut hasher);
    own.hash(&mut hasher);
    hasher.finish()
}

impl Sets {
    // A table that has the empty set alone.
    pub(crate) fn new(alloc: Global, width: u32) -> Result<Sets, AllocError>
        ensures { IfOk result (λ t. t ≡ record { sets = [] ∷ []; width = width }) }
    {
        let mut owns = Lists::new(alloc);
        owns.push(&[])?;
        let tails = vec![in alloc; 0]?;
        let sizes = vec![in alloc; 0]?;
        Ok(Sets {
            owns,
            tails,
            sizes,
            last: HashMap::new(alloc),
            width,
            alloc,
        })
    }

    // The elements below this number count.
    pub(crate) fn width(&self) -> u32
        ensures { result ≡ self.now.width }
    {
        self.width
    }

    // How many sets there are.
    pub(crate) fn len(&self) -> usize
        ensures { result ≡ length self.now.sets }
    {
        self.tails.len()
    }

    // Keeps the sets at the places below `len`.
    pub(crate) fn truncate(&mut self, len: usize)
        ensures { self.new ≡ record self.old { sets = take len self.old.sets } }
    {
        self.owns.truncate(len);
        self.tails.truncate(len);
        self.sizes.truncate(len);
    }

    // How many elements a set lists; 0 where there is none.
    pub(crate) fn size(&self, place: u32) -> u32 {
        match self.sizes.get(place as usize) {
            Some(size) => *size,
            None => 0,
        }
    }

    // The number of the set that follows the own elements of one, 0 for none.
    pub(crate) fn tail(&self, place: usize) -> usize
        requires { place < length self.now.sets }
        ensures { result ≤ place }
    {
        self.tails[place] as usize
    }

    // The own elements of a set, and the number of the set that follows them, 0 for none.
    pub(crate) fn parts(&self, place: usize) -> (&[u32], usize)
        requires { place < length self.now.sets }
        ensures tail { result.1 ≤ place }
        ensures parts { slice_index_or self.now.sets place [] ≡ followed self.now.sets result.1 result.0.now }
    {
        (self.owns.get(place), self.tails[place] as usize)
    }

    // A list to which the elements of one set after another can be written.
    pub(crate) fn new_list(&self) -> Vec<u32> {
        Vec::new(self.alloc)
    }

    // Writes to a list, in place of what it has, the elements of a set up to those of the set of a number, or up to the
    // next that is earlier. Answers the number at which it ends.
    pub(crate) fn list_front(
        &self,
        place: u32,
        stop: usize,
        list: &mut Vec<u32>,
    ) -> Result<usize, AllocError>
        requires { place < length self.now.sets }
        ensures stop { IfOk result (λ tail. tail ≤ stop) }
        ensures parts { IfOk result (λ tail. slice_index_or self.now.sets place []
            ≡ followed self.now.sets tail list.new.items) }
    {
        list.clear();
        let mut tail = place as usize + 1;
        'parts: while tail > stop {
            let (own, next) = self.parts(tail - 1);
            list.extend_from_slice(own)?;
            tail = next;
        }
        Ok(tail)
    }

    // Writes the elements of a set to a list, in place of what it has.
    pub(crate) fn list(&self, place: u32, list: &mut Vec<u32>) -> Result<(), AllocError>
        requires { place < length self.now.sets }
        ensures { OnOk result (list.new.items ≡ slice_index_or self.now.sets place []) }
    {
        let _none = self.list_front(place, 0, list)?;
        Ok(())
    }

    // The elements of a set.
    pub(crate) fn copy(&self, place: u32) -> Result<Vec<u32>, AllocError>
        requires { place < length self.now.sets }
        ensures { IfOk result (λ set. set.items ≡ slice_index_or self.now.sets place []) }
    {
        let mut list = self.new_list();
        self.list(place, &mut list)?;
        Ok(list)
    }

    // Gives the flags of a set's elements a value. Elements that have no flag are passed over.
    pub(crate) fn flag(&self, place: u32, flags: &mut [bool], value: bool)
        requires { place < length self.now.sets }
        ensures len { length flags.new ≡ length flags.old }
        ensures flags { (e : ℕ) → e < length flags.old → flag flags.new e
            ≡ (if has_at self.now place e then value else flag flags.old e) }
    {
        let mut tail = place as usize + 1;
        'parts: while tail > 0 {
            let (own, next) = self.parts(tail - 1);
            flag_set(flags, own, value);
            tail = next;
        }
    }

    // The place of a set that was added before, with its own elements in the same order.
    fn find(&self, hash: u64, tail: usize, own: &[u32]) -> Option<u32>
        ensures { IfSome result (λ place. (place < length self.now.sets)
            × (slice_index_or self.now.sets place [] ≡ followed self.now.sets tail own.now)) }
    {
        let place = *self.last.get(&hash)?;
        if (place as usize) >= self.len() {
            return None;
        }
        let (found, follows) = self.parts(place as usize);
        if follows == tail && found == own {
            Some(place)
        } else {
            None
        }
    }

    // Adds a set behind the others, by its own elements and the number of the one that follows.
    fn push(&mut self, tail: u32, own: &[u32]) -> Result<(), AllocError>
        requires { tail ≤ length self.old.sets }
        ensures ok { OnOk result (self.new ≡ record self.old {
          sets = self.old.sets ++ followed self.old.sets tail own.now ∷ [];
        }) }
        ensures err { OnErr result (self.new ≡ self.old) }
    {
        let size = match tail {
            0 => 0,
            tail => self.size(tail - 1),
        };
        self.tails.reserve(1)?;
        self.sizes.reserve(1)?;
        self.owns.push(own)?;
        self.tails.push(tail).unwrap();
        let own = u32::try_from(own.len()).unwrap_or(u32::MAX);
        self.sizes.push(size.saturating_add(own)).unwrap();
        Ok(())
    }

    // Adds the set of these elements and those of the set at a place, unless it finds it in the table, and answers its
    // place. A caller adds at most one for each node, so that a place is left.
    pub(crate) fn add(&mut self, base: u32, own: &[u32]) -> Result<u32, AllocError>
        requires empty { IsAt self.old 0 (λ _. false) }
        requires base { base < length self.old.sets }
        requires room { length self.old.sets < 2 ^ 32 }
        ensures grows { Grows self.old self.new }
        ensures most { length self.new.sets ≤ length self.old.sets + 1 }
        ensures added { IfOk result (λ place. IsAt self.new place
            (λ e. has own.now e || has_at self.old base e)) }
    {
        if own.is_empty() {
            return Ok(base);
        }
        let tail = if base == 0 { 0 } else { base + 1 };
        let hash = hash_of(tail, own);
        if let Some(place) = self.find(hash, tail as usize, own) {
            return Ok(place);
        }
        let place = self.len() as u32;
        self.push(tail, own)?;
        self.last.insert(hash, place)?;
        Ok(place)
    }

    // The place of the set of one element, or of none where the element doesn't count.
    pub(crate) fn single(&mut self, element: u32) -> Result<u32, AllocError>
        requires empty { IsAt self.old 0 (λ _. false) }
        requires room { length self.old.sets < 2 ^ 32 }
        ensures grows { Grows self.old self.new }
        ensures most { length self.new.sets ≤ length self.old.sets + 1 }
        ensures single { IfOk result (λ place. IsAt self.new place (λ e. nat_eq e element)) }
    {
        if element >= self.width {
            return Ok(0);
        }
        let place = self.add(0, &[element])?;
        Ok(place)
    }
}
