//! A set of elements that is being worked out.
ghost use Rattle.std.specs.Prelude.{◌≡◌, ◌||◌, ◌&&◌, ◌<◌, ℕ, [], length, true, nat_eq, IfOk, OnOk};
ghost use Rattle.nc_marks.specs.Sets.{has, has_at};

use crate::flags::{flag_set, keep_common, keep_flagged};
use crate::sets::Sets;
use std::alloc::{AllocError, Global};
use std::marker::Model;

// The elements that were gathered, each once, and a flag for each element that counts: whether it
// was.
#[derive(Drop)]
pub(crate) struct Gathered {
    elements: Vec<u32>,
    flags: Vec<bool>,
}

impl Model for Gathered {
    ghost use Rattle.std.specs.Prelude.{◌≡◌, ◌<◌, ℕ, length};
    ghost use Rattle.nc_marks.specs.Sets.{Gathering, flag, has};

    ghost Value = { Gathering };

    ghost view = { λ g. record { elements = g.elements.items; width = length g.flags.items } };

    ghost invariant = { λ g. (e : ℕ) → e < length g.flags.items
        → flag g.flags.items e ≡ has g.elements.items e };
}

impl Gathered {
    // No elements, of those below `width`.
    pub(crate) fn new(alloc: Global, width: u32) -> Result<Gathered, AllocError>
        ensures { IfOk result (λ g. g ≡ record { elements = []; width = width }) }
    {
        let flags = vec![in alloc; false; width as usize]?;
        let elements = Vec::new(alloc);
        Ok(Gathered { elements, flags })
    }

    // The elements that were gathered.
    pub(crate) fn elements(&self) -> &[u32]
        ensures { result.now ≡ self.now.elements }
    {
        self.elements.as_slice()
    }

    // Leaves no elements.
    pub(crate) fn clear(&mut self)
        ensures { self.new ≡ record { elements = []; width = self.old.width } }
    {
        flag_set(&mut self.flags, &self.elements, false);
        self.elements.clear();
    }

    // Adds an element, if it counts and isn't among them.
    fn add(&mut self, element: u32) -> Result<(), AllocError>
        ensures width { self.new.width ≡ self.old.width }
        ensures added { OnOk result ((e : ℕ) → e < self.old.width
            → has self.new.elements e ≡ (has self.old.elements e || nat_eq e element)) }
    {
        let place = element as usize;
        if place < self.flags.len() && !self.flags[place] {
            self.elements.push(element)?;
            self.flags[place] = true;
        }
        Ok(())
    }

    // Adds the elements of a set.
    pub(crate) fn add_all(&mut self, set: &[u32]) -> Result<(), AllocError>
        ensures width { self.new.width ≡ self.old.width }
        ensures union { OnOk result ((e : ℕ) → e < self.old.width
            → has self.new.elements e ≡ (has self.old.elements e || has set.now e)) }
    {
        'elements: for element in set {
            self.add(*element)?;
        }
        Ok(())
    }

    // Adds the elements of the set at a place.
    pub(crate) fn add_at(&mut self, sets: &Sets, place: u32) -> Result<(), AllocError>
        requires { place < length sets.now.sets }
        ensures width { self.new.width ≡ self.old.width }
        ensures union { OnOk result ((e : ℕ) → e < self.old.width
            → has self.new.elements e ≡ (has self.old.elements e || has_at sets.now place e)) }
    {
        let mut tail = place as usize + 1;
        'parts: while tail > 0 {
            let (own, next) = sets.parts(tail - 1);
            self.add_all(own)?;
            tail = next;
        }
        Ok(())
    }

    // Leaves out the elements of the set at a place.
    pub(crate) fn leave_out(&mut self, sets: &Sets, place: u32)
        requires { place < length sets.now.sets }
        ensures width { self.new.width ≡ self.old.width }
        ensures others { (e : ℕ) → e < self.old.width → (has self.new.elements e || has_at sets.now place e)
            ≡ (has self.old.elements e || has_at sets.now place e) }
    {
        sets.flag(place, &mut self.flags, false);
        keep_flagged(&self.flags, &mut self.elements);
    }

    // Keeps the elements that a set has too.
    pub(crate) fn keep(&mut self, set: &[u32])
        ensures width { self.new.width ≡ self.old.width }
        ensures intersection { (e : ℕ) → e < self.old.width
            → has self.new.elements e ≡ (has self.old.elements e && has set.now e) }
    {
        keep_common(&mut self.flags, &mut self.elements, set);
    }
}
