// Why several configurations make no network.

ghost use Rattle.nc_network.specs.declared.fault.JoinFault.TheVariants.{Memory as OutOfMemory};
ghost use Rattle.std.specs.Prelude.{◌≡◌};

use nc_types::RouterId;
use std::alloc::{AllocError, AllocFailed};
use thiserror::Error;

/// What there may be only so many of, over all files.
#[derive(Clone, Copy, Debug, PartialEq, Eq)]
pub enum LimitWord {
    /// Distinct prefixes: of interfaces that have an address, of static routes, of networks and of
    /// aggregates; at most [`crate::PREFIX_LIMIT`].
    Prefixes,
    /// Neighbors of BGP processes; at most [`crate::NEIGHBOR_LIMIT`].
    Neighbours,
}

/// Why several configurations make no network. Routers are told by the places of their files, from
/// 0.
#[derive(Clone, Copy, Debug, PartialEq, Eq, Error)]
pub enum JoinFault {
    /// Two routers have one name, by the line that gives it to the second of them.
    #[error("line {line} gives a name that another router has")]
    SameName {
        first: RouterId,
        second: RouterId,
        line: u32,
    },
    /// Two interfaces of one router that are up, whose prefixes overlap, by the lines of their
    /// addresses.
    #[error("the prefixes of lines {first} and {second} overlap")]
    Overlap {
        router: RouterId,
        first: u32,
        second: u32,
    },
    /// Interfaces of two routers that are up and have one address, by the lines of their addresses.
    #[error("lines {first_line} and {second_line} of two routers have one address")]
    SameAddress {
        first: RouterId,
        first_line: u32,
        second: RouterId,
        second_line: u32,
    },
    /// A statement that refers to an interface, a route map, a prefix list or a community list
    /// which its router doesn't define.
    #[error("line {line} refers to what isn't defined")]
    Undefined {
        router: RouterId,
        line: u32,
    },
    /// More prefixes or neighbors than there may be.
    #[error("too many prefixes or neighbors")]
    Limit {
        which: LimitWord,
    },
    /// No memory was found.
    #[error("out of memory")]
    Memory,
}

impl From<AllocError> for JoinFault {
    ghost from_gives = { λ _ e. e ≡ OutOfMemory };

    fn from(_error: AllocError) -> JoinFault {
        JoinFault::Memory
    }
}

impl<T: Drop> From<AllocFailed<T>> for JoinFault {
    ghost from_gives = { λ _ e. e ≡ OutOfMemory };

    fn from(_failed: AllocFailed<T>) -> JoinFault {
        JoinFault::Memory
    }
}
