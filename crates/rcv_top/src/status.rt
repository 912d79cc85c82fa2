// How a call of the program ends.

ghost use Rattle.std.specs.Prelude.{◌≡◌};
ghost use Rattle.rcv_top.specs.Outcome.{number_of};

/// How a call ended.
#[derive(Clone, Copy, Debug, PartialEq, Eq)]
pub enum Status {
    /// The session ran until all roles were done, and its journal was written; or the text of another command was
    /// written.
    Completed,
    /// The words are no command, and the usage line was written.
    Usage,
    /// The input is refused, and the refusal was written.
    Refused,
    /// The session ran until no role could go on, some role that isn't done is at the limit, and the journal was
    /// written.
    Limited,
    /// The source failed, and nothing was written.
    ReadFault,
    /// The sink failed, and not all was written.
    WriteFault,
    /// Memory ran out, and nothing was written.
    Memory,
    /// More than 1,048,576 bytes were taken from the source, and nothing was written.
    TooLong,
    /// The journal after the bundle isn't legal and whole, and a line was written that says what is wrong with it.
    Wrong,
}

impl Status {
    /// The number with which the process ends, from 0 to 8.
    pub fn number(self) -> u8
        ensures { result ≡ number_of self }
    {
        match self {
            Status::Completed => 0,
            Status::Usage => 1,
            Status::Refused => 2,
            Status::Limited => 3,
            Status::ReadFault => 4,
            Status::WriteFault => 5,
            Status::Memory => 6,
            Status::TooLong => 7,
            Status::Wrong => 8,
        }
    }
}
