// Why no journal was read.

ghost use Rattle.std.specs.Prelude.{◌≡◌};
ghost use Rattle.serde_json.specs.Errors.{IsMemory};
ghost use Rattle.rcv_json_reader.specs.declared.error.JsonError.TheVariants.{Memory, Shape};

use std::alloc::{AllocError, AllocFailed};
use thiserror::Error;

/// Why no journal was read of a JSON text.
#[derive(Clone, Copy, Debug, PartialEq, Eq, Error)]
pub enum JsonError {
    /// The text isn't JSON, or its value says no journal of the form.
    #[error("the text isn't of the form")]
    Shape,
    /// No memory was left.
    #[error("no memory is left")]
    Memory,
}

impl From<AllocError> for JsonError {
    ghost from_gives = { λ _ e. e ≡ Memory };

    fn from(_e: AllocError) -> JsonError {
        JsonError::Memory
    }
}

impl<T: Drop> From<AllocFailed<T>> for JsonError {
    ghost from_gives = { λ _ e. e ≡ Memory };

    fn from(_e: AllocFailed<T>) -> JsonError {
        JsonError::Memory
    }
}

impl From<serde_json::Error> for JsonError {
    ghost from_gives = { λ e error. error ≡ Shape → IsMemory e → ⊥ };

    fn from(e: serde_json::Error) -> JsonError {
        if e.is_memory() {
            JsonError::Memory
        } else {
            JsonError::Shape
        }
    }
}
