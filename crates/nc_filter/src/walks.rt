//! Which entry of a list decides on a packet, by the index of the entries.

ghost use Rattle.std.specs.Prelude.{◌≡◌, ◌&&◌, ◌+◌, ◌==◌, ℕ, List, Some, if◌then◌else◌, length, min, position};
ghost use Rattle.nc_types.specs.declared.filters.FilterEntry.{FilterEntry};
ghost use Rattle.nc_tables.specs.Filters.{decides, is_of};
ghost use Rattle.nc_filter.specs.Spots.{IsIndexed};
ghost use Rattle.nc_filter.specs.Walks.{AreAhead};

use crate::index::Index;
use crate::matching::decides;
use crate::spots::{Class, Spot};
use nc_types::{Addr, FilterEntry};

/// Where the next entries of the three spots stand that may decide on a packet.
#[derive(Clone, Copy)]
pub(crate) struct Ahead {
    pub(crate) source: usize,
    pub(crate) target: usize,
    pub(crate) other: usize,
}

impl Ahead {
    // The first ones of a list for a packet.
    fn new(index: &Index, count: usize, list: usize, from: Addr, to: Addr) -> Ahead
        ensures { (entries : List FilterEntry) → IsIndexed entries index.now → count ≡ length entries
            → AreAhead entries list from to 0 result }
    {
        let source = Class::Source(from);
        let target = Class::Target(to);
        Ahead {
            source: index.first(
                Spot {
                    list,
                    class: source,
                },
                count,
            ),
            target: index.first(
                Spot {
                    list,
                    class: target,
                },
                count,
            ),
            other: index.first(
                Spot {
                    list,
                    class: Class::Other,
                },
                count,
            ),
        }
    }

    // The first of the three.
    fn least(self) -> usize
        ensures { result ≡ min self.source (min self.target self.other) }
    {
        self.source.min(self.target.min(self.other))
    }

    // Goes on from a place to the one behind it, where one of the three stands there.
    fn pass(self, place: usize, next: usize) -> Ahead
        ensures source { result.source ≡ (if self.source == place then next else self.source) }
        ensures target { result.target ≡ (if self.target == place then next else self.target) }
        ensures other { result.other ≡ (if self.other == place then next else self.other) }
    {
        Ahead {
            source: if self.source == place {
                next
            } else {
                self.source
            },
            target: if self.target == place {
                next
            } else {
                self.target
            },
            other: if self.other == place {
                next
            } else {
                self.other
            },
        }
    }
}

/// The entry of a list that decides on a packet, by its place; the list goes by the place of its first entry. Of its
/// entries only those are gone through, in their order, whose one source or destination is the packet's, or that have
/// several of both.
pub(crate) fn deciding_in(
    entries: &[FilterEntry],
    index: &Index,
    list: usize,
    from: Addr,
    to: Addr,
) -> Option<usize>
    requires { IsIndexed entries.now index.now }
    ensures { (q : List ℕ) → position (is_of q) entries.now ≡ Some list
        → result ≡ position (λ e. is_of q e && decides from.0 to.0 e) entries.now }
{
    let count = entries.len();
    let mut ahead = Ahead::new(index, count, list, from, to);
    let mut place = ahead.least();
    'entries: while place < count {
        if decides(&entries[place], from, to) {
            return Some(place);
        }
        ahead = ahead.pass(place, index.behind(place, count));
        place = ahead.least();
    }
    None
}
