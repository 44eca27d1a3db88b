//! Lists that lie one behind the other in one vector.
ghost use Rattle.std.specs.Prelude.{◌≡◌, ◌+◌, ◌<◌, ◌≤◌, ◌++◌, ◌∷◌, [], length, take, slice_get, OnOk, OnErr};
ghost use Rattle.nc_graph.specs.Lists.{start_of, AreEnds};

use std::alloc::{AllocError, Global};
use std::marker::Model;

/// Lists, numbered from 0, whose items lie one behind the other in one vector. A list takes what
/// its items take and eight bytes, where a vector of its own would take 24 and a block of memory.
#[derive(Drop)]
pub struct Lists<T: Copy> {
    items: Vec<T>,
    ends: Vec<usize>,
}

impl<T: Copy> Model for Lists<T> {
    ghost use Rattle.std.specs.Prelude.{List, length};
    ghost use Rattle.nc_graph.specs.Lists.{lists_by, AreEnds};

    ghost Value = { List (List T) };

    ghost view = { λ l. lists_by l.items.items 0 l.ends.items };

    ghost invariant = { λ l. AreEnds 0 l.ends.items (length l.items.items) };
}

// Where the list of a number begins: where the one before it ends.
fn start_of(ends: &[usize], number: usize) -> usize
    requires { number ≤ length ends.now }
    ensures { result ≡ start_of 0 ends.now number }
{
    if number == 0 { 0 } else { ends[number - 1] }
}

// Where the list of a number begins and ends, of as many items.
fn bounds_of(ends: &[usize], number: usize, count: usize) -> (usize, usize)
    requires number { number < length ends.now }
    requires ends { AreEnds 0 ends.now count }
    ensures from { result.0 ≡ start_of 0 ends.now number }
    ensures to { result.1 ≡ start_of 0 ends.now (number + 1) }
    ensures order { result.0 ≤ result.1 }
    ensures within { result.1 ≤ count }
{
    (start_of(ends, number), ends[number])
}

impl<T: Copy> Lists<T> {
    /// No lists. They take no memory.
    pub fn new(alloc: Global) -> Self
        ensures { result ≡ [] }
    {
        Lists {
            items: Vec::new(alloc),
            ends: Vec::new(alloc),
        }
    }

    /// How many lists there are.
    pub fn len(&self) -> usize
        ensures { result ≡ length self.now }
    {
        self.ends.len()
    }

    /// The list of a number.
    pub fn get(&self, number: usize) -> &[T]
        requires { number < length self.now }
        ensures { slice_get self.now number ≡ Some result.now }
    {
        let (from, to) = bounds_of(&self.ends, number, self.items.len());
        &self.items[from..to]
    }

    /// Adds a copy of a list behind the others.
    ///
    /// # Errors
    ///
    /// That memory is refused. The lists are then as before.
    pub fn push(&mut self, list: &[T]) -> Result<(), AllocError>
        ensures pushed { OnOk result (self.new ≡ self.old ++ list.now ∷ []) }
        ensures unchanged { OnErr result (self.new ≡ self.old) }
    {
        self.ends.reserve(1)?;
        self.items.extend_from_slice(list)?;
        self.ends.push(self.items.len()).unwrap();
        Ok(())
    }

    /// Keeps the lists with numbers below `len`.
    pub fn truncate(&mut self, len: usize)
        ensures { self.new ≡ take len self.old }
    {
        if len < self.ends.len() {
            let end = start_of(&self.ends, len);
            self.items.truncate(end);
            self.ends.truncate(len);
        }
    }
}
