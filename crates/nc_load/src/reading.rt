//! Reading files, each up to one byte past its limit, and why work stops.

ghost use Rattle.std.specs.Prelude.{◌≡◌, ◌≢◌, ◌≤◌, ◌+◌, ◌-◌, false, length, IfOk};
ghost use Rattle.nc_load.specs.Limits.{most_file_bytes};
ghost use Rattle.nc_load.specs.Reading.{IsPiece, IsRead, TakesAtMost, StaysInTime, HasStopCause};
ghost use Rattle.nc_load.specs.declared.reading.Stop.TheVariants.{Outside, Memory};

use crate::FILE_LIMIT;
use nc_outside::{Failed, Files};
use std::alloc::{AllocError, AllocFailed, Global};

/// How many bytes a read asks for at most.
pub(crate) const PIECE: usize = 8192;

/// Why work stopped before its end.
#[derive(Clone, Copy, PartialEq, Eq)]
pub enum Stop {
    /// The outside failed.
    Outside,
    /// Memory ran out.
    Memory,
}

impl From<Failed> for Stop {
    ghost from_gives = { λ _ e. e ≡ Outside };

    fn from(_failed: Failed) -> Stop {
        Stop::Outside
    }
}

impl From<AllocError> for Stop {
    ghost from_gives = { λ _ e. e ≡ Memory };

    fn from(_error: AllocError) -> Stop {
        Stop::Memory
    }
}

impl<T: Drop> From<AllocFailed<T>> for Stop {
    ghost from_gives = { λ _ e. e ≡ Memory };

    fn from(_error: AllocFailed<T>) -> Stop {
        Stop::Memory
    }
}

// One read from the entered file, through a buffer whose bytes before say nothing.
fn read_piece<F: Files>(
    files: &mut F,
    buffer: &mut [u8; PIECE],
    bytes: &mut Vec<u8>,
) -> Result<usize, Stop>
    requires { length bytes.old.items ≤ most_file_bytes }
    ensures files { F.files files.new ≡ F.files files.old }
    ensures entered { F.entered files.new ≡ F.entered files.old }
    ensures entries { F.entries files.new ≡ F.entries files.old }
    ensures piece { IfOk result (IsPiece most_file_bytes (F.left files.old) (F.left files.new)
        bytes.old.items bytes.new.items) }
    ensures takes { TakesAtMost (most_file_bytes + 1 - length bytes.old.items)
        (F.left files.old) (F.left files.new) }
    ensures in_time { StaysInTime (F.end files.old) (F.end files.new) }
    ensures goes_on { (F.end files.old).is_told ≡ false
        → IfOk result (λ count. count ≢ 0 → (F.end files.new).is_told ≡ false) }
    ensures cause { HasStopCause (F.faults files.old) (F.faults files.new) result }
{
    let room = PIECE.min(FILE_LIMIT + 1 - bytes.len());
    let count = files.read(&mut buffer[..room])?;
    bytes.extend_from_slice(&buffer[..count])?;
    Ok(count)
}

/// The bytes of the entered file, or one byte more than the limit. No read comes behind its end. They
/// come through a buffer that serves all files, whose bytes before say nothing.
pub(crate) fn read_file<F: Files>(
    alloc: Global,
    files: &mut F,
    buffer: &mut [u8; PIECE],
) -> Result<Vec<u8>, Stop>
    ensures files { F.files files.new ≡ F.files files.old }
    ensures entered { F.entered files.new ≡ F.entered files.old }
    ensures entries { F.entries files.new ≡ F.entries files.old }
    ensures read { IfOk result (λ bytes.
        IsRead most_file_bytes (F.left files.old) (F.left files.new) bytes.items) }
    ensures takes { TakesAtMost (most_file_bytes + 1) (F.left files.old) (F.left files.new) }
    ensures in_time { StaysInTime (F.end files.old) (F.end files.new) }
    ensures cause { HasStopCause (F.faults files.old) (F.faults files.new) result }
{
    let mut bytes = Vec::new(alloc);
    'reading: while bytes.len() <= FILE_LIMIT {
        if read_piece(files, buffer, &mut bytes)? == 0 {
            // a file is kept to the end of the run, but not the room that reading has left over
            bytes.shrink_to_fit();
            return Ok(bytes);
        }
    }
    Ok(bytes)
}
