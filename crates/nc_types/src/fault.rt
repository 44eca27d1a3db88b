ghost use Rattle.std.specs.Prelude.{◌≡◌};
ghost use Rattle.nc_types.specs.declared.fault.ConfigFault.TheVariants.{Memory};

use std::alloc::{AllocError, AllocFailed};
use thiserror::Error;

/// What is wrong with a line, or with a file as a whole.
#[derive(Clone, Copy, Debug, PartialEq, Eq)]
pub enum Cause {
    /// A statement that is read, but not in this form.
    Syntax,
    /// A statement that isn't read and that would change what is routed.
    Unsupported,
    /// No line names the router; told of line 0.
    NoName,
    /// A second BGP process.
    TwoProcesses,
}

/// What is wrong with a file.
#[derive(Clone, Copy, PartialEq, Eq)]
pub struct Fault {
    /// The line, from 1, or 0 where the fault is of the whole file.
    pub line: u32,
    pub cause: Cause,
}

/// Why a file, or a part of it, gives no configuration.
#[derive(Clone, Copy, Debug, PartialEq, Eq, Error)]
pub enum ConfigFault {
    /// The lowest faulty line, from 1, or 0 where the fault is of the whole file.
    #[error("a fault in line {line}")]
    Bad { line: u32, cause: Cause },
    #[error("out of memory")]
    Memory,
}

impl From<AllocError> for ConfigFault {
    ghost from_gives = { λ _ e. e ≡ Memory };

    fn from(_error: AllocError) -> ConfigFault {
        ConfigFault::Memory
    }
}

impl<T: Drop> From<AllocFailed<T>> for ConfigFault {
    ghost from_gives = { λ _ e. e ≡ Memory };

    fn from(_error: AllocFailed<T>) -> ConfigFault {
        ConfigFault::Memory
    }
}
