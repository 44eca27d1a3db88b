//! A candidate that is compared with others: one that stands chosen, or a feasible route.

ghost use Rattle.std.specs.Prelude.{◌≡◌};
ghost use Rattle.nc_decision.specs.Compared.{compared_view};

use crate::feasible::{FeasibleRoute, have_same_numbers};
use crate::learnt::Walk;
use nc_select::Candidate;
use nc_tables::{BgpFrom, RibEntry};
use nc_types::{Addr, OriginCode};

/// A candidate that stands chosen in a table, or a feasible route that isn't in memory.
#[derive(Clone, Copy)]
pub(crate) enum Compared<'a> {
    Standing(&'a RibEntry),
    New(&'a FeasibleRoute<'a>),
}

impl<'a> Compared<'a> {
    // Along its path.
    fn walk(&self) -> Walk<'a>
        ensures { result ≡ (compared_view self.now).route.path }
    {
        match self {
            Compared::Standing(chosen) => Walk::over(chosen.path()),
            Compared::New(feasible) => feasible.walk(),
        }
    }
}

impl<'a> Candidate for Compared<'a> {
    ghost candidate_of = { compared_view };

    fn from(&self) -> BgpFrom {
        match self {
            Compared::Standing(chosen) => chosen.from(),
            Compared::New(feasible) => feasible.from(),
        }
    }

    fn preference(&self) -> u32 {
        match self {
            Compared::Standing(chosen) => chosen.preference(),
            Compared::New(feasible) => feasible.preference(),
        }
    }

    fn path_length(&self) -> usize {
        match self {
            Compared::Standing(chosen) => chosen.path_length(),
            Compared::New(feasible) => feasible.path_length(),
        }
    }

    fn origin(&self) -> OriginCode {
        match self {
            Compared::Standing(chosen) => chosen.origin(),
            Compared::New(feasible) => feasible.origin(),
        }
    }

    fn metric(&self) -> u32 {
        match self {
            Compared::Standing(chosen) => chosen.metric(),
            Compared::New(feasible) => feasible.metric(),
        }
    }

    fn is_internal(&self) -> bool {
        match self {
            Compared::Standing(chosen) => chosen.is_internal(),
            Compared::New(feasible) => feasible.is_internal(),
        }
    }

    fn sender_id(&self) -> Addr {
        match self {
            Compared::Standing(chosen) => chosen.sender_id(),
            Compared::New(feasible) => feasible.sender_id(),
        }
    }

    fn sender(&self) -> Addr {
        match self {
            Compared::Standing(chosen) => chosen.sender(),
            Compared::New(feasible) => feasible.sender(),
        }
    }

    fn has_same_path(&self, other: &Self) -> bool {
        self.path_length() == other.path_length() && have_same_numbers(self.walk(), other.walk())
    }
}
