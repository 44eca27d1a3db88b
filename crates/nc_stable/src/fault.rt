//! Why a network has no stable state.
ghost use Rattle.std.specs.Prelude.{◌≡◌};
ghost use Rattle.nc_stable.specs.declared.fault.SettleFault.TheVariants.{Memory};

use std::alloc::AllocError;
use thiserror::Error;

/// Why a network didn't settle.
#[derive(Clone, Copy, Debug, PartialEq, Eq, Error)]
pub enum SettleFault {
    /// Each of the rounds that are allowed changed something.
    #[error("the routes don't settle")]
    Unstable,
    /// There was not enough memory.
    #[error("out of memory")]
    Memory,
}

impl From<AllocError> for SettleFault {
    ghost from_gives = { λ _ e. e ≡ Memory };

    fn from(_error: AllocError) -> SettleFault {
        SettleFault::Memory
    }
}
