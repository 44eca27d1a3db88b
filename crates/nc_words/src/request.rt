//! What words ask for, and why they may ask for nothing.

ghost use Rattle.std.specs.Prelude.{◌≡◌};
ghost use Rattle.nc_words.specs.declared.request.WordsFault.TheVariants.{Memory};

use std::alloc::{AllocError, AllocFailed};
use thiserror::Error;

/// The network that is looked at.
#[derive(Drop)]
pub enum Input {
    /// That of the files of these names, at least one, in order.
    Files(Vec<String>),
    /// A generated fat tree of so many pods: 2, 4, 6 or 8.
    FatTree(u32),
}

/// What words ask for.
#[derive(Drop)]
pub struct Request {
    /// How many rounds of the routing are made at most, 1 to 10,000.
    pub rounds: u32,
    /// The network that is looked at.
    pub input: Input,
}

/// Why words give nothing to do.
#[derive(Clone, Copy, Debug, PartialEq, Eq, Error)]
pub enum WordsFault {
    /// The words aren't those that the program takes.
    #[error("the words aren't those that the program takes")]
    Usage,
    /// There wasn't enough memory.
    #[error("out of memory")]
    Memory,
}

impl From<AllocError> for WordsFault {
    ghost from_gives = { λ _ e. e ≡ Memory };

    fn from(_error: AllocError) -> WordsFault {
        WordsFault::Memory
    }
}

impl<T: Drop> From<AllocFailed<T>> for WordsFault {
    ghost from_gives = { λ _ e. e ≡ Memory };

    fn from(_error: AllocFailed<T>) -> WordsFault {
        WordsFault::Memory
    }
}
