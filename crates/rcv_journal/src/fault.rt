// Why a journal's text wasn't written.

ghost use Rattle.std.specs.Prelude.{◌≡◌};
ghost use Rattle.rcv_journal.specs.declared.fault.WriteError.TheVariants as errors;

use rcv_io::WriteFault;
use std::alloc::AllocError;

/// Why the text of a journal wasn't written whole.
#[derive(Clone, Copy, Debug, PartialEq, Eq)]
pub enum WriteError {
    /// A call of the sink failed, and its count of faults rose.
    WriteFault,
    /// No memory was left, and nothing was written.
    Memory,
}

impl From<WriteFault> for WriteError {
    ghost from_gives = { λ _ e. e ≡ errors.WriteFault };

    fn from(_: WriteFault) -> WriteError {
        WriteError::WriteFault
    }
}

impl From<AllocError> for WriteError {
    ghost from_gives = { λ _ e. e ≡ errors.Memory };

    fn from(_: AllocError) -> WriteError {
        WriteError::Memory
    }
}
