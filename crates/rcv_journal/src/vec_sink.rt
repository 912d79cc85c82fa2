// A sink into memory that grows.

ghost use Rattle.std.specs.Prelude.{◌≡◌, ◌<◌, Some, [], length, IfOk, OnOk, OnErr};

use rcv_io::{Failed, Sink};
use std::alloc::{AllocError, Global};
use std::marker::Model;

/// A sink that keeps all that is written. A call fails if memory runs out.
#[derive(Drop)]
pub struct VecSink {
    bytes: Vec<u8>,
    faults: u64,
}

impl Model for VecSink {
    ghost use Rattle.rcv_journal.specs.Growing.{Grown};

    ghost Value = { Grown };

    ghost view = { λ s. record { bytes = s.bytes.items; faults = s.faults } };
}

impl VecSink {
    /// An empty sink, with room for so many bytes at once; it takes more as it grows.
    ///
    /// The error comes if no memory was left for them.
    pub fn with_room(alloc: Global, room: usize) -> Result<VecSink, AllocError>
        ensures { IfOk result (λ sink. sink ≡ record { bytes = []; faults = 0 }) }
    {
        Ok(VecSink {
            bytes: Vec::with_capacity(alloc, room)?,
            faults: 0,
        })
    }

    /// All that was written.
    pub fn into_bytes(self) -> Vec<u8>
        ensures { result.items ≡ self.bytes }
    {
        self.bytes
    }
}

impl Sink for VecSink {
    ghost written = { λ s. Some s.bytes };

    ghost faults = { λ s. s.faults };

    fn write(&mut self, piece: &[u8]) -> Result<usize, Failed> {
        if self.bytes.extend_from_slice(piece).is_err() {
            self.faults = self.faults.saturating_add(1);
            return Err(Failed);
        }
        Ok(piece.len())
    }
}
