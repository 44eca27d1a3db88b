ghost use Rattle.std.specs.Prelude.{◌≡◌};
ghost use Rattle.nc_session.specs.Refusals.{number_of};

/// How a run ended, with the number that the program ends with.
#[derive(Clone, Copy, PartialEq, Eq)]
pub enum Status {
    /// 0: the session was read to its end.
    Done,
    /// 1: a configuration has a fault.
    Config,
    /// 2: the words are none that the program takes.
    Usage,
    /// 3: the routing doesn't settle.
    Unstable,
    /// 4: the session couldn't be read.
    InputFault,
    /// 5: a reply couldn't be written.
    OutputFault,
    /// 6: a file couldn't be entered or read.
    FileFault,
    /// 7: there wasn't enough memory.
    Memory,
    /// 8: a limit was passed.
    Limit,
}

impl Status {
    /// The number that the program ends with, 0 to 8.
    pub fn number(self) -> u8
        ensures { result ≡ number_of self }
    {
        match self {
            Status::Done => 0,
            Status::Config => 1,
            Status::Usage => 2,
            Status::Unstable => 3,
            Status::InputFault => 4,
            Status::OutputFault => 5,
            Status::FileFault => 6,
            Status::Memory => 7,
            Status::Limit => 8,
        }
    }
}
