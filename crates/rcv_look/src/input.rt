// The input of a command.

ghost use Rattle.std.specs.Prelude.{◌≡◌, ◌<◌, ◌≤◌, length, IfOk, IsErrOf};
ghost use Rattle.rcv_io.specs.Causes.{Rose};
ghost use Rattle.rcv_look.specs.Asking.{most_for};
ghost use Rattle.rcv_look.specs.Commands.{view_of};
ghost use Rattle.rcv_look.specs.Inputs.{HasGot, reading_of};

use crate::command::Command;
use crate::whole::read_whole;
use rcv_io::{ReadError, Source};
use std::alloc::Global;

/// How many bytes a bundle may have.
pub const MOST_OF_BUNDLE: usize = 1_048_576;

/// How many bytes a bundle may have together with the journal after it.
const MOST_WITH_JOURNAL: usize = 134_217_728;

// How many bytes the input of a command may have.
fn most_for(command: &Command) -> usize
    ensures value { result ≡ most_for (view_of command.now) }
    ensures most { result ≤ 134217728 }
{
    match command {
        Command::Journal | Command::Session { .. } | Command::Told | Command::Replay => {
            MOST_WITH_JOURNAL
        }
        _ => MOST_OF_BUNDLE,
    }
}

/// What the source gives to its end; `explain` reads nothing, and its input is empty.
///
/// `ReadFault` comes only if the source's count of faults rose, and always if it is greater than before.
/// `TooLong` comes exactly if more bytes were taken from the source than the command's input may have. `Memory` says
/// that no memory was left.
pub fn input_of<S: Source>(
    alloc: Global,
    command: &Command,
    source: &mut S,
) -> Result<Vec<u8>, ReadError>
    ensures short { IfOk result (λ input. length input.items ≤ most_for (view_of command.now)) }
    ensures fault { IsErrOf result ReadError.ReadFault → Rose (S.faults source.old) (S.faults source.new) }
    ensures fault_always { S.faults source.old < S.faults source.new → IsErrOf result ReadError.ReadFault }
    ensures later { S.faults source.old ≤ S.faults source.new }
    ensures got { HasGot (view_of command.now) (reading_of S.rest S.given S.faults source.old source.new) result }
{
    match command {
        Command::Explain { .. } => Ok(Vec::new(alloc)),
        _ => read_whole(alloc, source, most_for(command)),
    }
}
