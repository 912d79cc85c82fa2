// A source over bytes in memory, which may give them in small pieces and fail at chosen calls.
ghost use Rattle.std.specs.Prelude.{◌≡◌, ◌↔◌, ◌<◌, ◌≤◌, ◌++◌, [], Some, min, length, take, drop, IsErr, IfOk, OnOk};
ghost use Rattle.std.specs.Prelude.{OnErr};
ghost use Rattle.rcv_io.specs.Causes.{HasCause};
ghost use Rattle.rcv_io.specs.Memory.{SourceFails, after_read, after_failed_read};

use crate::{Failed, Source};
use std::marker::Model;

/// A source that gives these bytes, at most `piece` of them a call.
#[derive(Drop)]
pub struct MemSource {
    bytes: Vec<u8>,
    at: usize,
    piece: usize,
    failing: Vec<u64>,
    calls: u64,
    faults: u64,
}

impl Model for MemSource {
    ghost use Rattle.std.specs.Prelude.{◌≤◌, length, drop};
    ghost use Rattle.rcv_io.specs.Memory.{SourceState};

    ghost Value = { SourceState };

    ghost view = { λ s. record {
      rest = drop s.at s.bytes.items;
      given = s.at;
      piece = s.piece;
      failing = s.failing.items;
      calls = s.calls;
      faults = s.faults;
    } };

    ghost invariant = { λ s. (s.at ≤ length s.bytes.items) × (1 ≤ s.piece) };
}

impl MemSource {
    /// A source that gives `bytes`, at most `piece` of them a call. The calls whose numbers, from 1, stand in
    /// `failing` fail.
    pub fn new(bytes: Vec<u8>, piece: usize, failing: Vec<u64>) -> MemSource
        requires { 1 ≤ piece }
        ensures { result ≡ record {
          rest = bytes.items;
          given = 0;
          piece = piece;
          failing = failing.items;
          calls = 0;
          faults = 0;
        } }
    {
        MemSource {
            bytes,
            at: 0,
            piece,
            failing,
            calls: 0,
            faults: 0,
        }
    }
}

impl Source for MemSource {
    ghost rest = { λ s. Some s.rest };

    ghost given = { λ s. s.given };

    ghost faults = { λ s. s.faults };

    fn read(&mut self, buf: &mut [u8]) -> Result<usize, Failed>
        ensures fails { IsErr result ↔ SourceFails self.old }
        ensures failed { OnErr result (self.new ≡ after_failed_read self.old) }
        ensures buffer_kept { OnErr result (buf.new ≡ buf.old) }

        ensures count { IfOk result
            (λ n. n ≡ min (min self.old.piece (length buf.new)) (length self.old.rest)) }
        ensures copied { IfOk result (λ n. buf.new ≡ take n self.old.rest ++ drop n buf.old) }
        ensures done { IfOk result (λ n. self.new ≡ after_read self.old n) }

        // as every source
        ensures end { IfOk result (λ n. n ≡ 0 → 0 < length buf.new → self.new.rest ≡ []) }
        ensures fine { OnOk result (self.new.faults ≡ self.old.faults) }
        ensures cause { HasCause self.old.faults self.new.faults result }
    {
        self.calls = self.calls.saturating_add(1);
        if self.failing.contains(&self.calls) {
            self.faults = self.faults.saturating_add(1);
            return Err(Failed);
        }
        let rest = &self.bytes[self.at..];
        let count = self.piece.min(buf.len()).min(rest.len());
        buf[..count].copy_from_slice(&rest[..count]);
        self.at += count;
        Ok(count)
    }
}
