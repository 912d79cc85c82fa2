// Where bytes go.
ghost use Rattle.std.specs.Prelude.{◌≡◌, ◌<◌, ℕ, List, length, take, is_some, IfOk, OnOk, OnErr};
ghost use Rattle.std.specs.declared.option.Option.{Option};
ghost use Rattle.std.specs.Io.{WritesAtMost};
ghost use Rattle.std.specs.Io.KnownBytes.{append_known};
ghost use Rattle.rcv_io.specs.Causes.{HasCause};

use crate::Failed;

/// A sink for bytes that counts its faults.
///
/// Over memory it tells what was written. Over a real stream it tells nothing of that, and the clauses on content
/// say nothing either.
pub trait Sink {
    /// The bytes that were written, if that is told.
    ghost written: { Self → Option (List ℕ) };

    /// How often a call has failed. This count never falls and stops at the last `u64`.
    ghost faults: { Self → ℕ };

    /// Writes some bytes from the front of `piece`, and answers how many: 0 only if `piece` is empty.
    ///
    /// `Failed` comes only if the count of faults rose, and nothing was written then. `Ok` leaves the count as it
    /// was.
    fn write(&mut self, piece: &[u8]) -> Result<usize, Failed>
        ensures bound { WritesAtMost result piece.now }
        ensures some { IfOk result (λ n. 0 < length piece.now → 0 < n) }
        ensures bytes { IfOk result
            (λ n. written self.new ≡ append_known (written self.old) (take n piece.now)) }

        ensures kept { OnErr result (written self.new ≡ written self.old) }
        ensures fine { OnOk result (faults self.new ≡ faults self.old) }
        ensures cause { HasCause (faults self.old) (faults self.new) result }

        // Whether what was written is told never changes.
        ensures told { is_some (written self.new) ≡ is_some (written self.old) };
}
