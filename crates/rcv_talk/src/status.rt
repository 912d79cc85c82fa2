// How a call of the program ends.

ghost use Rattle.std.specs.Prelude.{◌≡◌};
ghost use Rattle.rcv_talk.specs.Calls.{number_of};

/// How a call ended. The numbers are those of `rcv`, with one more; what 3 says there never comes here.
#[derive(Clone, Copy, Debug, PartialEq, Eq)]
pub enum Status {
    /// The dialogue ended, by the line `end` or with the source after a whole line.
    Done,
    /// The words are none of the program's, and the usage line was written.
    Usage,
    /// The text is refused, and a line that says so was written.
    Refused,
    /// The source failed. What was told before is answered.
    ReadFault,
    /// The sink failed, and not all was written.
    WriteFault,
    /// No memory was left.
    Memory,
    /// The text is too long, and nothing was written.
    TooLong,
    /// The source ended within a line. That line isn't answered; all before it are.
    HalfLine,
}

impl Status {
    /// The number with which the process ends, from 0 to 9.
    pub fn number(self) -> u8
        ensures { result ≡ number_of self }
    {
        match self {
            Status::Done => 0,
            Status::Usage => 1,
            Status::Refused => 2,
            Status::ReadFault => 4,
            Status::WriteFault => 5,
            Status::Memory => 6,
            Status::TooLong => 7,
            Status::HalfLine => 9,
        }
    }
}
