//! By what the entries of access lists are found.

ghost use Rattle.std.specs.Prelude.{◌≡◌};
ghost use Rattle.nc_filter.specs.Spots.{class_of};

use nc_types::{Addr, FilterEntry};

/// The packets on which an entry may decide, by the one address that all of them have.
#[derive(Clone, Copy, PartialEq, Eq, Hash)]
pub(crate) enum Class {
    /// They come from one address.
    Source(Addr),
    /// They come from several, and go to one.
    Target(Addr),
    /// They come from several, and go to several.
    Other,
    /// There are none.
    Never,
}

/// A list, by the place of its first entry, and a class: an entry has one spot.
#[derive(Clone, Copy, PartialEq, Eq, Hash)]
pub(crate) struct Spot {
    pub(crate) list: usize,
    pub(crate) class: Class,
}

/// The class of an entry.
pub(crate) fn class_of(entry: &FilterEntry) -> Class
    ensures { result ≡ class_of entry.now }
{
    if !entry.ip {
        return Class::Never;
    }
    if entry.from.wild.0 == 0 {
        return Class::Source(entry.from.addr);
    }
    if entry.to.wild.0 == 0 {
        return Class::Target(entry.to.addr);
    }
    Class::Other
}
