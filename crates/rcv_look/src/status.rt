// How a call of the program ends.

ghost use Rattle.std.specs.Prelude.{◌≡◌};
ghost use Rattle.rcv_look.specs.Outcome.{number_of};

/// How a call ended. The numbers are those of `rcv`, with one more; what 3 says there never comes here.
#[derive(Clone, Copy, Debug, PartialEq, Eq)]
pub enum Status {
    /// The picture or the text was written; or the journal is legal, and that was.
    Drawn,
    /// The words are no command, and the usage line was written.
    Usage,
    /// The input is refused, or what the command names isn't there, and a line that says so was written.
    Refused,
    /// The source failed, and nothing was written.
    ReadFault,
    /// The sink failed, and not all was written.
    WriteFault,
    /// No memory was left, and nothing was written.
    Memory,
    /// The input, or the bundle in it, is too long, and nothing was written.
    TooLong,
    /// The journal is of the form but not legal, and its first wrong line was written, or a diagnosis of it.
    Illegal,
}

impl Status {
    /// The number with which the process ends, from 0 to 8.
    pub fn number(self) -> u8
        ensures { result ≡ number_of self }
    {
        match self {
            Status::Drawn => 0,
            Status::Usage => 1,
            Status::Refused => 2,
            Status::ReadFault => 4,
            Status::WriteFault => 5,
            Status::Memory => 6,
            Status::TooLong => 7,
            Status::Illegal => 8,
        }
    }
}
