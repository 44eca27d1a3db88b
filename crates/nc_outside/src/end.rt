ghost use Rattle.std.specs.Prelude.{◌≡◌, length, false};
ghost use Rattle.nc_outside.specs.Ends.{end_after, end_entered};

use crate::Failed;

/// What an object keeps of the end of what it gives: whether it told it, and how many reads came behind.
#[derive(Clone, Copy, PartialEq, Eq)]
pub struct End {
    /// Whether a read of some room answered 0 since the object was made, or since a file was entered.
    pub is_told: bool,
    /// How many reads came after the end was told. It stays at 2^64 - 1.
    pub late: u64,
}

impl End {
    /// Before the first read.
    pub(crate) fn new() -> End
        ensures { result ≡ record { is_told = false; late = 0 } }
    {
        End {
            is_told: false,
            late: 0,
        }
    }

    /// The end after a call of `enter`.
    pub(crate) fn entered(self) -> End
        ensures { result ≡ end_entered self }
    {
        End {
            is_told: false,
            late: self.late,
        }
    }

    /// The end after a read into so much room, given what it answered.
    pub(crate) fn after(self, room: usize, answer: Result<usize, Failed>) -> End
        ensures { result ≡ end_after room answer self }
    {
        let late = if self.is_told {
            self.late.saturating_add(1)
        } else {
            self.late
        };
        End {
            is_told: self.is_told || room > 0 && answer == Ok(0),
            late,
        }
    }
}
