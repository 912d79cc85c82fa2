// Reading a source to its end, and writing all of some bytes.
ghost use Rattle.std.specs.Prelude.{◌≡◌, ◌+◌, ◌<◌, ◌≤◌, length, IfOk, OnOk, OnErr, IfSome, IsErrOf, is_some};
ghost use Rattle.std.specs.Io.KnownBytes.{IsAtEnd, append_known};
ghost use Rattle.rcv_io.specs.Causes.{counted, Rose, HasCause};
ghost use Rattle.rcv_io.specs.Source.{ReadsWhole};
ghost use Rattle.rcv_io.specs.Sink.{WroteBeginning};

use crate::{ReadError, Sink, Source, WriteFault};
use std::alloc::Global;

// How many bytes it asks a call of a source for.
const BUFFER: usize = 4096;

/// Every byte of the source to its end, at most `most` of them.
///
/// `most` is at most 1,048,576. `ReadFault` comes only if the source's count of faults rose in this call, and always
/// if it is greater than before. `TooLong` comes exactly if more than `most` bytes were taken from the source.
/// What was taken before an error is gone from it.
pub fn read_all<S: Source>(alloc: Global, source: &mut S, most: usize) -> Result<Vec<u8>, ReadError>
    requires { most ≤ 1048576 }

    ensures bytes { IfOk result (λ bytes. IfSome (S.rest source.old) (λ told. bytes.items ≡ told)) }
    ensures short { IfOk result (λ bytes. length bytes.items ≤ most) }
    ensures end { OnOk result (IsAtEnd (S.rest source.new)) }

    ensures fault { IsErrOf result ReadError.ReadFault
        → Rose (S.faults source.old) (S.faults source.new) }
    ensures fault_always { S.faults source.old < S.faults source.new
        → IsErrOf result ReadError.ReadFault }
    ensures too_long { IsErrOf result ReadError.TooLong
        → IfSome (S.rest source.old) (λ told. most < length told) }
    ensures too_many { IsErrOf result ReadError.TooLong
        → counted (S.given source.old) (most + 1) ≤ S.given source.new }

    // What was taken, at each answer.
    ensures taken { ReadsWhole (S.rest source.old) (S.rest source.new)
        (S.given source.old) (S.given source.new) most result }
    ensures later { S.faults source.old ≤ S.faults source.new }
    ensures told { is_some (S.rest source.new) ≡ is_some (S.rest source.old) }
{
    let mut bytes = Vec::new(alloc);
    let mut buf = [0; BUFFER];
    loop {
        let count = source.read(&mut buf)?;
        if count == 0 {
            return Ok(bytes);
        }
        if count > most - bytes.len() {
            return Err(ReadError::TooLong);
        }
        bytes.extend_from_slice(&buf[..count])?;
    }
}

/// Writes all of `bytes`.
///
/// `WriteFault` comes only if the sink's count of faults rose in this call, and `Ok` leaves the count as it was.
/// After `WriteFault` a beginning of `bytes` was written, and not all of them.
pub fn write_all_of<K: Sink>(sink: &mut K, bytes: &[u8]) -> Result<(), WriteFault>
    ensures all { OnOk result (K.written sink.new ≡ append_known (K.written sink.old) bytes.now) }
    ensures beginning { OnErr result
        (WroteBeginning (K.written sink.old) (K.written sink.new) bytes.now) }
    ensures fine { OnOk result (K.faults sink.new ≡ K.faults sink.old) }
    ensures cause { HasCause (K.faults sink.old) (K.faults sink.new) result }
    ensures told { is_some (K.written sink.new) ≡ is_some (K.written sink.old) }
{
    let mut done = 0;
    while done < bytes.len() {
        done += sink.write(&bytes[done..])?;
    }
    Ok(())
}
