// Where bytes come from.
ghost use Rattle.std.specs.Prelude.{◌≡◌, ◌<◌, ℕ, List, length, take, is_some, IfOk, OnOk, OnErr};
ghost use Rattle.std.specs.declared.option.Option.{Option};
ghost use Rattle.std.specs.Io.{ReadsAtMost};
ghost use Rattle.std.specs.Io.KnownBytes.{IsAtEnd, prepend_known};
ghost use Rattle.rcv_io.specs.Causes.{counted, HasCause};

use crate::Failed;

/// A source of bytes that counts its faults.
///
/// Over memory it tells what is left. Over a real stream it tells nothing of that, and the clauses on content say
/// nothing either.
pub trait Source {
    /// The bytes that are left, if that is told.
    ghost rest: { Self → Option (List ℕ) };

    /// How many bytes its calls have given. This count stops at the last `u64`.
    ghost given: { Self → ℕ };

    /// How often a call has failed. This count never falls and stops at the last `u64`.
    ghost faults: { Self → ℕ };

    /// Reads some bytes into the front of `buf`, and answers how many: 0 only at the end, or if `buf` is empty.
    /// It says nothing of `buf` after these bytes.
    ///
    /// `Failed` comes only if the count of faults rose, and nothing was taken then. `Ok` leaves the count as it was.
    fn read(&mut self, buf: &mut [u8]) -> Result<usize, Failed>
        ensures bound { ReadsAtMost result buf.new }
        ensures bytes { IfOk result
            (λ n. rest self.old ≡ prepend_known (take n buf.new) (rest self.new)) }
        ensures end { IfOk result (λ n. n ≡ 0 → 0 < length buf.new → IsAtEnd (rest self.new)) }
        ensures number { IfOk result (λ n. given self.new ≡ counted (given self.old) n) }

        ensures kept { OnErr result (rest self.new ≡ rest self.old) }
        ensures none_given { OnErr result (given self.new ≡ given self.old) }
        ensures fine { OnOk result (faults self.new ≡ faults self.old) }
        ensures cause { HasCause (faults self.old) (faults self.new) result }

        // Whether what is left is told never changes.
        ensures told { is_some (rest self.new) ≡ is_some (rest self.old) };
}
