// Why no protocol was read.

ghost use Rattle.std.specs.Prelude.{◌≡◌};
ghost use Rattle.rcv_reader.specs.declared.stop.Stop.TheVariants.{Memory};

use rcv_syntax::Fault;
use std::alloc::AllocError;

/// Why the descent stopped.
#[derive(Clone, Copy)]
pub enum Stop {
    /// The fault is at the token that is next, or at the end.
    Refused(Fault),
    Memory,
}

impl From<AllocError> for Stop {
    ghost from_gives = { λ _ e. e ≡ Memory };

    fn from(_e: AllocError) -> Stop {
        Stop::Memory
    }
}
