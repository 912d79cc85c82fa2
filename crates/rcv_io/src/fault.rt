// The errors of reading and writing.
ghost use Rattle.std.specs.Prelude.{◌≡◌};
ghost use Rattle.rcv_io.specs.declared.fault.ReadError.TheVariants.{ReadFault, Memory};

use std::alloc::AllocError;
use thiserror::Error;

/// A single call of a source or a sink failed, and was counted there.
#[derive(Clone, Copy, Debug, PartialEq, Eq, Error)]
#[error("the call failed")]
pub struct Failed;

/// Why the whole of a source wasn't read.
#[derive(Clone, Copy, Debug, PartialEq, Eq, Error)]
pub enum ReadError {
    /// A call of the source failed, and its count of faults rose.
    #[error("reading failed")]
    ReadFault,
    /// The source gave more bytes than the caller takes.
    #[error("too long")]
    TooLong,
    /// No memory was left for the bytes.
    #[error("out of memory")]
    Memory,
}

/// A call of the sink failed, and its count of faults rose.
#[derive(Clone, Copy, Debug, PartialEq, Eq, Error)]
#[error("writing failed")]
pub struct WriteFault;

impl From<Failed> for ReadError {
    ghost from_gives = { λ _ e. e ≡ ReadFault };

    fn from(_: Failed) -> ReadError {
        ReadError::ReadFault
    }
}

impl From<AllocError> for ReadError {
    ghost from_gives = { λ _ e. e ≡ Memory };

    fn from(_: AllocError) -> ReadError {
        ReadError::Memory
    }
}

impl From<Failed> for WriteFault {
    fn from(_: Failed) -> WriteFault {
        WriteFault
    }
}
