// How bytes are written whole.

ghost use Rattle.std.specs.Prelude.{◌≤◌};
ghost use Rattle.rcv_talk.specs.Calls.{Wrote};

use crate::status::Status;
use rcv_io::{Sink, write_all_of};

/// Writes bytes whole, and answers this status, or that the sink failed.
pub fn write<K: Sink>(sink: &mut K, bytes: &[u8], status: Status) -> Status
    ensures later { K.faults sink.old ≤ K.faults sink.new }
    ensures wrote { Wrote (K.written sink.old) (K.written sink.new) (K.faults sink.old)
        (K.faults sink.new) bytes.now status result }
{
    match write_all_of(sink, bytes) {
        Ok(()) => status,
        Err(_) => Status::WriteFault,
    }
}
