//! How the top call ends.
ghost use Rattle.std.specs.Prelude.{◌≡◌};
ghost use Rattle.lsc_cli.specs.Status.{number_of};

/// How the top call ended. Its number is the exit status of the program.
#[derive(Clone, Copy, Debug, PartialEq, Eq)]
pub enum Status {
    /// The command is done.
    Done,
    /// The file is not accepted, or the node cannot run.
    Refused,
    /// The words are of no form.
    Usage,
    /// A line of the input is not spelled as the node's inputs are.
    BadLine,
    /// An instant has a division by zero.
    Alarm,
    /// The file could not be loaded.
    Unloaded,
    /// A read of the input failed.
    ReadFault,
    /// A write failed.
    WriteFault,
    /// A block of memory was refused, before any byte was written or taken.
    NoMemory,
    /// A limit was passed.
    TooLarge,
}

impl Status {
    /// The exit status of the program.
    pub fn number(self) -> u8
        ensures { result ≡ number_of self }
    {
        match self {
            Status::Done => 0,
            Status::Refused => 1,
            Status::Usage => 2,
            Status::BadLine => 3,
            Status::Alarm => 4,
            Status::Unloaded => 5,
            Status::ReadFault => 6,
            Status::WriteFault => 7,
            Status::NoMemory => 8,
            Status::TooLarge => 9,
        }
    }
}
