//! Why files give no network.

ghost use Rattle.std.specs.Prelude.{◌≡◌};
ghost use Rattle.nc_load.specs.Load.{reason_of, quantity_of};
ghost use Rattle.nc_load.specs.Reasons.{quantity_text, reason_text};
ghost use Rattle.nc_load.specs.Loading.{load_stop};
ghost use Rattle.nc_load.specs.declared.refusal.LoadFault.TheVariants as LoadFault;

use crate::reading::Stop;
use nc_network::LimitWord;
use nc_types::Cause;
use std::alloc::{AllocError, AllocFailed};

/// What is counted before the session, and may be too many.
#[derive(Clone, Copy, PartialEq, Eq)]
pub enum Quantity {
    /// The files that the words name.
    Routers,
    /// The bytes of a file.
    Bytes,
    /// The lines of a file.
    Lines,
    /// The distinct prefixes of all files.
    Prefixes,
    /// The neighbors of all files.
    Neighbors,
}

impl Quantity {
    /// Its word in a refusal.
    pub fn text(self) -> &'static [u8]
        ensures { result.now ≡ quantity_text self }
    {
        match self {
            Quantity::Routers => b"routers",
            Quantity::Bytes => b"bytes",
            Quantity::Lines => b"lines",
            Quantity::Prefixes => b"prefixes",
            Quantity::Neighbors => b"neighbours",
        }
    }
}

impl From<LimitWord> for Quantity {
    ghost from_gives = { λ which e. e ≡ quantity_of which };

    fn from(which: LimitWord) -> Quantity {
        match which {
            LimitWord::Prefixes => Quantity::Prefixes,
            LimitWord::Neighbours => Quantity::Neighbors,
        }
    }
}

/// Why a line of a file is refused.
#[derive(Clone, Copy, PartialEq, Eq)]
pub enum Reason {
    /// A statement that is read, but not in this form.
    Syntax,
    /// A statement that isn't read and that would change what is routed.
    Unsupported,
    /// No line names the router; told of line 0.
    NoName,
    /// A second BGP process.
    TwoProcesses,
    /// An earlier router has the name.
    SameName,
    /// Another interface of the router has a prefix that overlaps.
    Overlap,
    /// An interface of an earlier router has the address.
    SameAddress,
    /// It refers to what its router doesn't define.
    Undefined,
}

impl Reason {
    /// Its word in a refusal.
    pub fn text(self) -> &'static [u8]
        ensures { result.now ≡ reason_text self }
    {
        match self {
            Reason::Syntax => b"syntax",
            Reason::Unsupported => b"unsupported",
            Reason::NoName => b"no-name",
            Reason::TwoProcesses => b"two-processes",
            Reason::SameName => b"same-name",
            Reason::Overlap => b"overlap",
            Reason::SameAddress => b"same-address",
            Reason::Undefined => b"undefined",
        }
    }
}

impl From<Cause> for Reason {
    ghost from_gives = { λ cause e. e ≡ reason_of cause };

    fn from(cause: Cause) -> Reason {
        match cause {
            Cause::Syntax => Reason::Syntax,
            Cause::Unsupported => Reason::Unsupported,
            Cause::NoName => Reason::NoName,
            Cause::TwoProcesses => Reason::TwoProcesses,
        }
    }
}

/// Why the files give no network.
#[derive(Clone, Copy, PartialEq, Eq)]
pub enum LoadFault {
    /// A file couldn't be entered or read.
    Outside,
    /// A quantity passes its limit.
    Over(Quantity),
    /// A line of a file is refused.
    Bad {
        /// The file's place among the names.
        file: usize,
        /// The line, from 1 on, or 0 where it is the whole file.
        line: u32,
        /// Why.
        reason: Reason,
    },
    /// The routing doesn't settle within so many rounds.
    Unsettled(u32),
    /// Memory ran out.
    Memory,
}

impl From<Stop> for LoadFault {
    ghost from_gives = { λ stop e. e ≡ load_stop stop };

    fn from(stop: Stop) -> LoadFault {
        match stop {
            Stop::Outside => LoadFault::Outside,
            Stop::Memory => LoadFault::Memory,
        }
    }
}

impl From<AllocError> for LoadFault {
    ghost from_gives = { λ _ e. e ≡ LoadFault.Memory };

    fn from(_error: AllocError) -> LoadFault {
        LoadFault::Memory
    }
}

impl<T: Drop> From<AllocFailed<T>> for LoadFault {
    ghost from_gives = { λ _ e. e ≡ LoadFault.Memory };

    fn from(_error: AllocFailed<T>) -> LoadFault {
        LoadFault::Memory
    }
}
