// The text that a command works on.

ghost use Rattle.std.specs.Prelude.{◌≡◌, ◌<◌, ◌≤◌, length, IfOk, IfSome, IfNone, IsErrOf};
ghost use Rattle.rcv_io.specs.Causes.{Rose};
ghost use Rattle.rcv_words.specs.Commands.{Gen, IsWithin, view_of};
ghost use Rattle.rcv_gen.specs.Generated.{generated};
ghost use Rattle.rcv_top.specs.Commands.{WorksOnSource};
ghost use Rattle.rcv_top.specs.Inputs.{HasGot, reading_of};

use rcv_gen::generate::generate;
use rcv_io::{ReadError, Source, read_all};
use rcv_words::command::Command;
use std::alloc::Global;

/// How many bytes an input may have.
const MOST: usize = 1_048_576;

// The number of the text that a command generates; none for a command that works on the source.
fn generated_number(command: &Command) -> Option<u32>
    ensures some { IfSome result (λ number. view_of command.now ≡ Gen number) }
    ensures none { IfNone result (WorksOnSource (view_of command.now)) }
{
    match command {
        Command::Gen { number } => Some(*number),
        _ => None,
    }
}

/// The text that a command works on. `gen` works on the generated one, and nothing is read. Any other command works on
/// what the source gives to its end.
///
/// `ReadFault` comes only if the source's count of faults rose, and always if it is greater than before. `TooLong`
/// comes exactly if more than 1,048,576 bytes were taken from the source. `Memory` says that memory ran out.
pub fn input_of<S: Source>(
    alloc: Global,
    command: &Command,
    source: &mut S,
) -> Result<Vec<u8>, ReadError>
    requires { IsWithin (view_of command.now) }
    ensures short { IfOk result (λ text. length text.items ≤ 1048576) }
    ensures fault { IsErrOf result ReadError.ReadFault → Rose (S.faults source.old) (S.faults source.new) }
    ensures fault_always { S.faults source.old < S.faults source.new → IsErrOf result ReadError.ReadFault }
    ensures later { S.faults source.old ≤ S.faults source.new }
    ensures got { HasGot (view_of command.now) (reading_of S.rest S.given S.faults source.old source.new) result }
{
    match generated_number(command) {
        Some(number) => Ok(generate(alloc, number)?),
        None => read_all(alloc, source, MOST),
    }
}
