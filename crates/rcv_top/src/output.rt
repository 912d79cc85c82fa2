// What a command answers, and how that is written.

ghost use Rattle.std.specs.Prelude.{◌≤◌};
ghost use Rattle.rcv_top.specs.Writing.{Put, Wrote};

use crate::status::Status;
use rcv_io::{Sink, write_all_of};
use std::alloc::AllocError;

/// A status, and the bytes that are written with it.
#[derive(Drop)]
pub struct Output {
    pub status: Status,
    pub bytes: Vec<u8>,
}

/// Writes bytes whole, and answers this status, or that the sink failed.
pub fn write<K: Sink>(sink: &mut K, bytes: &[u8], status: Status) -> Status
    ensures later { K.faults sink.old ≤ K.faults sink.new }
    ensures wrote { Wrote (K.written sink.old) (K.written sink.new) (K.faults sink.old)
        (K.faults sink.new) bytes.now status result }
{
    match write_all_of(sink, bytes) {
        Ok(()) => status,
        Err(_) => Status::WriteFault,
    }
}

/// Writes what was made. The error comes if memory ran out before it was made.
pub fn put<K: Sink>(sink: &mut K, made: Result<Output, AllocError>) -> Result<Status, AllocError>
    ensures later { K.faults sink.old ≤ K.faults sink.new }
    ensures put { Put made (K.written sink.old) (K.written sink.new) (K.faults sink.old) (K.faults sink.new) result }
{
    match made {
        Ok(output) => Ok(write(sink, output.bytes.as_slice(), output.status)),
        Err(error) => Err(error),
    }
}
