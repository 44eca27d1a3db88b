// The sizes of least cuts that are known, by the place of a reference.

ghost use Rattle.std.specs.Prelude.{◌≡◌, ◌^◌, ◌<◌, length, slice_index};
ghost use Rattle.nc_cut.specs.Pages.{IsPaged, size_in};

use std::alloc::{AllocError, Global};

/// How many places have one page.
const PAGE: usize = 256;

/// What is known of a place: nothing yet, that no cut is there, or how many variables the least one
/// has.
#[derive(Clone, Copy)]
pub(crate) enum Slot {
    Unknown,
    Uncut,
    Least(u32),
}

/// The sizes that are known, by place, in pages of slots. A page is made for the first size that one of
/// its places gets; those that aren't made start where the first one does, in which nothing is known.
#[derive(Drop)]
pub(crate) struct Sizes {
    pub starts: Vec<usize>,
    pub slots: Vec<Slot>,
    ghost paged: { IsPaged starts.items slots.items },
}

// The slot of a size.
fn slot_with(size: Option<u32>) -> Slot
    ensures { size_in result ≡ Some size }
{
    match size {
        Some(size) => Slot::Least(size),
        None => Slot::Uncut,
    }
}

// The size in a slot, where one is known.
fn size_of(slot: Slot) -> Option<Option<u32>>
    ensures { result ≡ size_in slot }
{
    match slot {
        Slot::Unknown => None,
        Slot::Uncut => Some(None),
        Slot::Least(size) => Some(Some(size)),
    }
}

// Where a page starts; one past those that are listed starts where the first one does.
fn start_of(starts: &[usize], page: usize) -> usize
    ensures { result ≡ slice_index starts.now page }
{
    if page < starts.len() { starts[page] } else { 0 }
}

impl Sizes {
    ghost use Rattle.std.specs.Prelude.{ℕ, ◌/◌, IfOk, OnOk, Some, None};
    ghost use Rattle.nc_cut.specs.Known.{known_in};

    // No sizes, with room for the starts of all pages up to the one of this place.
    pub(crate) fn new(alloc: Global, last: u32) -> Result<Sizes, AllocError>
        ensures { IfOk result (λ sizes. (p : ℕ) → known_in sizes p ≡ None) }
    {
        let starts = Vec::with_capacity(alloc, last as usize / PAGE + 1)?;
        let mut slots = Vec::new(alloc);
        slots.resize(PAGE, Slot::Unknown)?;
        Ok(Sizes { starts, slots })
    }

    // The size at a place, where it is known.
    pub(crate) fn get(&self, place: u32) -> Option<Option<u32>>
        ensures { result ≡ known_in self.now place }
    {
        let place = place as usize;
        let start = start_of(&self.starts, place / PAGE);
        size_of(self.slots[start + place % PAGE])
    }

    // Lists where a page starts.
    fn list(&mut self, page: usize) -> Result<(), AllocError>
        requires { page < 2 ^ 32 }
        ensures listed { OnOk result (page < length self.new.starts.items) }
        ensures same { (p : ℕ) → known_in self.new p ≡ known_in self.old p }
    {
        if page < self.starts.len() {
            return Ok(());
        }
        self.starts.resize(page + 1, 0)?;
        Ok(())
    }

    // Makes a page, which is listed and wasn't made.
    fn make(&mut self, page: usize) -> Result<usize, AllocError>
        requires listed { page < length self.old.starts.items }
        requires missing { slice_index self.old.starts.items page ≡ 0 }
        ensures start { IfOk result (λ start. (0 < start)
            × (slice_index self.new.starts.items page ≡ start)) }
        ensures same { OnOk result ((p : ℕ) → known_in self.new p ≡ known_in self.old p) }
    {
        let start = self.slots.len();
        self.slots.resize(start + PAGE, Slot::Unknown)?;
        self.starts[page] = start;
        Ok(start)
    }

    // Where a page starts, which is made where it wasn't.
    fn page(&mut self, page: usize) -> Result<usize, AllocError>
        requires { page < 2 ^ 32 }
        ensures start { IfOk result (λ start. (0 < start)
            × (slice_index self.new.starts.items page ≡ start)) }
        ensures same { OnOk result ((p : ℕ) → known_in self.new p ≡ known_in self.old p) }
    {
        self.list(page)?;
        let start = self.starts[page];
        if start > 0 {
            return Ok(start);
        }
        let start = self.make(page)?;
        Ok(start)
    }

    // Puts the size at a place in.
    pub(crate) fn insert(&mut self, place: u32, size: Option<u32>) -> Result<(), AllocError>
        ensures put { OnOk result (known_in self.new place ≡ Some size) }
        ensures others { OnOk result
            ((q : ℕ) → (q ≡ place → ⊥) → known_in self.new q ≡ known_in self.old q) }
    {
        let place = place as usize;
        let start = self.page(place / PAGE)?;
        self.slots[start + place % PAGE] = slot_with(size);
        Ok(())
    }
}
