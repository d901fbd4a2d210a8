//! The statuses that `trade` ends with.
ghost use Rattle.std.specs.Prelude.{◌≡◌};
ghost use Rattle.gq_command.specs.Status.{code_of};

/// How a command ended.
#[derive(Clone, Copy, Debug, PartialEq, Eq)]
pub enum Status {
    /// It did what it was asked for; help was asked for and shown.
    Done,
    /// The scenario, the turns or the leaf's name was refused.
    Refused,
    /// The words name no command.
    BadCommandLine,
    /// The host had no memory left.
    HostMemory,
    /// A file could not be opened or read, was too long, or the output could not be written.
    FileFault,
}

impl Status {
    /// The exit status of the process, from 0 to 4.
    pub fn code(self) -> u8
        ensures { result ≡ code_of self }
    {
        match self {
            Status::Done => 0,
            Status::Refused => 1,
            Status::BadCommandLine => 2,
            Status::HostMemory => 3,
            Status::FileFault => 4,
        }
    }
}
