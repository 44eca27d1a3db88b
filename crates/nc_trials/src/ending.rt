ghost use Rattle.std.specs.Prelude.{◌≡◌};
ghost use Rattle.nc_trials.specs.Ending.{number_of};

/// How a run ends.
#[derive(Clone, Copy, PartialEq, Eq)]
pub enum Ending {
    /// 0: the session was read to its end.
    Done,
    /// 1: a configuration has a fault.
    Config,
    /// 2: the words are none that the program takes.
    Usage,
    /// 3: the routing doesn't settle.
    Unstable,
    /// 4: the session couldn't be read.
    InputFault,
    /// 5: a reply couldn't be written.
    OutputFault,
    /// 6: a file couldn't be entered or read.
    FileFault,
    /// 7: there wasn't enough memory.
    Memory,
    /// 8: a limit was passed.
    Limit,
}

impl Ending {
    /// The number that the program ends with, 0 to 8.
    pub fn number(self) -> u8
        ensures { result ≡ number_of self }
    {
        match self {
            Ending::Done => 0,
            Ending::Config => 1,
            Ending::Usage => 2,
            Ending::Unstable => 3,
            Ending::InputFault => 4,
            Ending::OutputFault => 5,
            Ending::FileFault => 6,
            Ending::Memory => 7,
            Ending::Limit => 8,
        }
    }
}
