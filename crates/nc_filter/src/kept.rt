//! Which entry of a list decides on a packet, kept while the packet stays the same.

ghost use Rattle.std.specs.Prelude.{◌≡◌, ◌&&◌, ℕ, List, Some, nat_eq, if◌then◌else◌, OnOk, OnErr};
ghost use Rattle.nc_types.specs.Config.{ConfigView};
ghost use Rattle.nc_filter.specs.Tables.{kept_at, AreKept};

use nc_types::{Addr, RouterId};
use std::alloc::{AllocError, Global};
use std::collections::HashMap;

/// A list, by its router and the place of its first entry.
#[derive(Clone, Copy, PartialEq, Eq, Hash)]
pub(crate) struct ListPlace {
    pub(crate) router: RouterId,
    pub(crate) first: usize,
}

/// Of the lists that were gone through for a packet, the place of the entry that decides; `None` where none does.
#[derive(Drop)]
pub(crate) struct Kept {
    pub(crate) from: Addr,
    pub(crate) to: Addr,
    pub(crate) deciding: HashMap<ListPlace, Option<usize>>,
}

impl Kept {
    /// No list was gone through. Takes no memory.
    pub(crate) fn new(alloc: Global) -> Kept
        ensures { (routers : List ConfigView) → AreKept routers result }
    {
        Kept {
            from: Addr(0),
            to: Addr(0),
            deciding: HashMap::new(alloc),
        }
    }

    /// Turns to a packet: what is kept of another one is let go of.
    pub(crate) fn turn_to(&mut self, from: Addr, to: Addr)
        ensures kept { (routers : List ConfigView) → AreKept routers self.old → AreKept routers self.new }
        ensures from { self.new.from ≡ from }
        ensures to { self.new.to ≡ to }
    {
        if self.from != from || self.to != to {
            self.deciding.clear();
            self.from = from;
            self.to = to;
        }
    }

    /// What is kept of a list; `None` where it wasn't gone through. Takes no memory.
    pub(crate) fn get(&self, router: RouterId, first: usize) -> Option<Option<usize>>
        ensures { result ≡ kept_at self.now router.0 first }
    {
        self.deciding.get(&ListPlace { router, first }).copied()
    }

    /// Keeps which entry of a list decides. At an error nothing changed.
    ///
    /// # Errors
    ///
    /// Memory that runs out.
    pub(crate) fn put(
        &mut self,
        router: RouterId,
        first: usize,
        entry: Option<usize>,
    ) -> Result<(), AllocError>
        ensures put { OnOk result ((r : ℕ) (f : ℕ) → kept_at self.new r f
            ≡ (if nat_eq router.0 r && nat_eq first f then Some entry else kept_at self.old r f)) }
        ensures same { OnErr result ((r : ℕ) (f : ℕ) → kept_at self.new r f ≡ kept_at self.old r f) }
        ensures from { self.new.from ≡ self.old.from }
        ensures to { self.new.to ≡ self.old.to }
    {
        self.deciding.insert(ListPlace { router, first }, entry)?;
        Ok(())
    }
}
