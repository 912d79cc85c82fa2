// Reading a source to its end. rcv_io's own call takes at most a bundle; a journal is longer.

ghost use Rattle.std.specs.Prelude.{◌<◌, ◌≤◌, length, IfOk, OnOk, IsErrOf};
ghost use Rattle.std.specs.Io.KnownBytes.{IsAtEnd};
ghost use Rattle.rcv_io.specs.Causes.{Rose};
ghost use Rattle.rcv_io.specs.Source.{ReadsWhole};

use rcv_io::{ReadError, Source};
use std::alloc::Global;

// How many bytes a call of the source is asked for.
const BUFFER: usize = 4096;

/// Every byte of the source to its end, at most `most` of them, which is at most 134,217,728.
///
/// `ReadFault` comes only if the source's count of faults rose in this call, and always if it is greater than
/// before. `TooLong` comes exactly if more than `most` bytes were taken from the source. `Memory` says that no
/// memory was left.
pub fn read_whole<S: Source>(
    alloc: Global,
    source: &mut S,
    most: usize,
) -> Result<Vec<u8>, ReadError>
    requires { most ≤ 134217728 }
    ensures short { IfOk result (λ bytes. length bytes.items ≤ most) }
    ensures end { OnOk result (IsAtEnd (S.rest source.new)) }
    ensures fault { IsErrOf result ReadError.ReadFault → Rose (S.faults source.old) (S.faults source.new) }
    ensures fault_always { S.faults source.old < S.faults source.new → IsErrOf result ReadError.ReadFault }
    ensures taken { ReadsWhole (S.rest source.old) (S.rest source.new) (S.given source.old)
        (S.given source.new) most result }
    ensures later { S.faults source.old ≤ S.faults source.new }
{
    let mut bytes = Vec::new(alloc);
    let mut buf = [0; BUFFER];
    loop {
        let count = source.read(&mut buf)?;
        if count == 0 {
            return Ok(bytes);
        }
        if count > most - bytes.len() {
            return Err(ReadError::TooLong);
        }
        bytes.extend_from_slice(&buf[..count])?;
    }
}
