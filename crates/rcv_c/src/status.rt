// How a call ended.

ghost use Rattle.std.specs.Prelude.{◌≡◌};
ghost use Rattle.rcv_c.specs.Status.{number_of};

/// How a call ended. `rcv.h` has the numbers.
#[derive(Clone, Copy)]
pub enum Status {
    /// It did what it says.
    Done,
    /// The text is refused.
    Refused,
    /// The event may not come.
    Illegal,
    /// The session is closed.
    Closed,
    /// The session is open already.
    Opened,
    /// There is no such role or point.
    Range,
    /// A list of C's is too short.
    Short,
    /// The text is too long.
    Long,
    /// No memory was left.
    Memory,
    /// The event is old news.
    Stale,
}

impl Status {
    /// Its number. 9 is none of these: it is the answer if a pointer is null, before a call comes here.
    pub fn number(self) -> u8
        ensures { result ≡ number_of self }
    {
        match self {
            Status::Done => 0,
            Status::Refused => 1,
            Status::Illegal => 2,
            Status::Closed => 3,
            Status::Opened => 4,
            Status::Range => 5,
            Status::Short => 6,
            Status::Long => 7,
            Status::Memory => 8,
            Status::Stale => 10,
        }
    }
}
