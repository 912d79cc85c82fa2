// What is counted of a role.

ghost use Rattle.rcv_tree.specs.Numbers.{fresh};
ghost use Rattle.std.specs.Prelude.{◌≡◌};

/// A role's raw count of events, how often it has crashed and whether it is crashed, the number of its attempt, and its
/// clock.
#[derive(Clone, Copy, Debug, PartialEq, Eq)]
pub struct Numbers {
    pub raw: u32,
    pub crashes: u32,
    pub crashed: bool,
    pub attempt: u32,
    pub clock: u64,
}

impl Numbers {
    /// Before the first entry: all are zero, and the role isn't crashed.
    pub fn new() -> Numbers
        ensures { result ≡ fresh }
    {
        Numbers {
            raw: 0,
            crashes: 0,
            crashed: false,
            attempt: 0,
            clock: 0,
        }
    }
}
