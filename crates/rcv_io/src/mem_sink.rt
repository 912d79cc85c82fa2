// A sink into memory with a fixed room, which may take bytes in small pieces and fail at chosen calls.
ghost use Rattle.std.specs.Prelude.{◌≡◌, ◌↔◌, ◌<◌, ◌≤◌, Some, [], min, length, IsErr, IfOk, OnOk, OnErr};
ghost use Rattle.rcv_io.specs.Causes.{HasCause};
ghost use Rattle.rcv_io.specs.Memory.{SinkFails, after_write, after_failed_write};

use crate::{Failed, Memory, Sink};
use std::alloc::Global;
use std::marker::Model;

/// A sink that keeps what is written, at most `piece` bytes a call, as long as there is room.
#[derive(Drop)]
pub struct MemSink {
    bytes: Vec<u8>,
    room: usize,
    piece: usize,
    failing: Vec<u64>,
    calls: u64,
    faults: u64,
}

impl Model for MemSink {
    ghost use Rattle.std.specs.Prelude.{◌+◌, ◌≤◌, vec_len, vec_capacity};
    ghost use Rattle.rcv_io.specs.Memory.{SinkState};

    ghost Value = { SinkState };

    ghost view = { λ s. record {
      written = s.bytes.items;
      room = s.room;
      piece = s.piece;
      failing = s.failing.items;
      calls = s.calls;
      faults = s.faults;
    } };

    ghost invariant = { λ s. (vec_len s.bytes + s.room ≤ vec_capacity s.bytes) × (1 ≤ s.piece) };
}

impl MemSink {
    /// A sink with room for `room` bytes, all of it reserved here, so that no write takes memory. A call takes at
    /// most `piece` bytes. The calls whose numbers, from 1, stand in `failing` fail.
    ///
    /// `Memory` comes if memory runs out when it reserves the room.
    pub fn new(
        alloc: Global,
        piece: usize,
        failing: Vec<u64>,
        room: usize,
    ) -> Result<MemSink, Memory>
        requires { 1 ≤ piece }
        ensures { IfOk result (λ sink. sink ≡ record {
          written = [];
          room = room;
          piece = piece;
          failing = failing.items;
          calls = 0;
          faults = 0;
        }) }
    {
        Ok(MemSink {
            bytes: Vec::with_capacity(alloc, room)?,
            room,
            piece,
            failing,
            calls: 0,
            faults: 0,
        })
    }

    /// What was written.
    pub fn written(&self) -> &[u8]
        ensures { result.now ≡ self.now.written }
    {
        &self.bytes
    }
}

impl Sink for MemSink {
    ghost written = { λ s. Some s.written };

    ghost faults = { λ s. s.faults };

    fn write(&mut self, piece: &[u8]) -> Result<usize, Failed>
        ensures fails { IsErr result ↔ SinkFails self.old piece.now }
        ensures failed { OnErr result (self.new ≡ after_failed_write self.old) }

        ensures count { IfOk result
            (λ n. n ≡ min (min self.old.piece (length piece.now)) self.old.room) }
        ensures done { IfOk result (λ n. self.new ≡ after_write self.old piece.now n) }

        // as every sink
        ensures some { IfOk result (λ n. 0 < length piece.now → 0 < n) }
        ensures fine { OnOk result (self.new.faults ≡ self.old.faults) }
        ensures cause { HasCause self.old.faults self.new.faults result }
    {
        self.calls = self.calls.saturating_add(1);
        let is_full = self.room == 0 && !piece.is_empty();
        if is_full || self.failing.contains(&self.calls) {
            self.faults = self.faults.saturating_add(1);
            return Err(Failed);
        }
        let count = self.piece.min(piece.len()).min(self.room);
        self.bytes.extend_from_slice(&piece[..count]).unwrap();
        self.room -= count;
        Ok(count)
    }
}
