//! The things of a process, each with the place of its element.

ghost use Rattle.std.specs.Prelude.{◌≡◌};
ghost use Rattle.nc_reader.specs.Configuration.{with_places};

use nc_types::{AggregateStatement, Neighbor, NetworkStatement};

/// A thing that has the place of its element.
pub(crate) trait Placed: Drop {
    ghost use Rattle.std.specs.Prelude.{ℕ};

    ghost placed: { ℕ → Self → Self };

    /// Gives it this place.
    fn set_place(&mut self, place: u32)
        ensures { self.new ≡ placed place self.old };
}

impl Placed for Neighbor {
    ghost use Rattle.nc_reader.specs.Configuration.{neighbor_with_place};

    ghost placed = { neighbor_with_place };

    fn set_place(&mut self, place: u32) {
        self.element = place;
    }
}

impl Placed for NetworkStatement {
    ghost use Rattle.nc_reader.specs.Configuration.{network_with_place};

    ghost placed = { network_with_place };

    fn set_place(&mut self, place: u32) {
        self.element = place;
    }
}

impl Placed for AggregateStatement {
    ghost use Rattle.nc_reader.specs.Configuration.{aggregate_with_place};

    ghost placed = { aggregate_with_place };

    fn set_place(&mut self, place: u32) {
        self.element = place;
    }
}

/// Gives things these places, one by one.
pub(crate) fn set_places<T: Placed>(things: &mut Vec<T>, places: &[u32])
    ensures { things.new.items ≡ with_places T.placed places.now things.old.items }
{
    'places: for (index, place) in places.iter().enumerate() {
        if index < things.len() {
            let thing = &mut things[index];
            thing.set_place(*place);
        }
    }
}
