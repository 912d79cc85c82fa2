// The top call.

ghost use Rattle.rcv_look.specs.Commands.{texts_of};
ghost use Rattle.rcv_look.specs.Inputs.{reading_of};
ghost use Rattle.rcv_look.specs.Calls.{around, Says, TellsFault};

use crate::answer::answer;
use crate::input::input_of;
use crate::output::write;
use crate::status::Status;
use crate::words::read_words;
use rcv_io::{ReadError, Sink, Source};
use rcv_words::error::WordsError;
use std::alloc::Global;

/// What is written if the words are no command.
const USAGE: &[u8] =
    b"usage: rcv-show journal|told|replay|table|role|protocol|points|failures|explain [--session I] [--role R] [--code N] [--text] [--json]\n";

/// Does what the program does: reads the words, then the whole source unless the command is `explain`, and writes the
/// answer.
///
/// `words` are those after the program's name, as `clap` takes them: one of the words `journal`, `told`, `replay`,
/// `table`, `role`, `protocol`, `points` and `explain`, with the option `--session I` of `journal`, from 1 to 64,
/// `--role R` of `role`, and `--code N` of `explain`, from 0 to 255, before or after it. With `--session I` the text
/// after the line `%% journal` is that of several sessions, and the journal is what stands between its line `session I`
/// and the next line that begins `session `, or the end; its session has the bundle's plan, with crash counts that are
/// I - 1 more.
/// The answer says how the call ended:
/// - `Drawn`: under `journal` the input is a bundle, the line `%% journal` and a legal journal of the bundle's session,
///   and a picture of that was written; under `told` the same of a journal that a guide was told; under `replay` how
///   many entries it has and how it ended; under `table`, `role` and `protocol` a picture of the input's protocol;
///   under `points` the points of a protocol that no rule refuses; under `explain` what the code says.
/// - `Usage`: the words are no command; nothing was read, and the usage line was written.
/// - `Refused`: the bundle is refused, and the line of its first refusal was written; or the text after it is no
///   journal of the form, and the first line of the input at which it isn't was written. Under `journal`, `told` and
///   `replay` there may be no line `%% journal`, or after it no line of the session that is asked for: then the line
///   at which the input ends was written. Under `role` the protocol may not declare the role; under `points` a rule
///   may refuse the protocol, and then its points were written with what the rule says; under `explain` there may be
///   no rule with this code.
/// - `Illegal`: under `told` the text isn't that of a told journal, and its first wrong line was written. Else the
///   journal is of the form but not legal: the line of its first wrong entry was written, or of its first closing line
///   that isn't what the entries leave. Nothing was drawn. Under `replay` the answer says what of the journal is
///   wrong, and what could have stood there.
/// - `ReadFault`: the source's count of faults rose, and nothing was written. It always comes if that count is greater
///   than before.
/// - `WriteFault`: the sink's count of faults rose, and a beginning of what should be written was, not all of it. It
///   always comes if that count is greater than before.
/// - `Memory`: memory ran out, or a picture would be longer than pictures of so many entries may be; nothing was
///   written.
/// - `TooLong`: more than 1,048,576 bytes were taken from the source, under `journal`, `told` and `replay` more than
///   134,217,728, or the bundle before the line `%% journal` has more than 1,048,576; nothing was written.
pub fn look<S: Source, K: Sink>(
    alloc: Global,
    words: &[String],
    source: &mut S,
    sink: &mut K,
) -> Status
    ensures says { Says (texts_of words.now)
        (around (reading_of S.rest S.given S.faults source.old source.new) K.written K.faults sink.old sink.new) result }
    ensures source_faults { TellsFault (S.faults source.old) (S.faults source.new) Status.ReadFault result }
    ensures sink_faults { TellsFault (K.faults sink.old) (K.faults sink.new) Status.WriteFault result }
{
    let command = match read_words(alloc, words) {
        Ok(command) => command,
        Err(WordsError::Usage) => return write(sink, USAGE, Status::Usage),
        Err(WordsError::Memory) => return Status::Memory,
    };
    let input = match input_of(alloc, &command, source) {
        Ok(input) => input,
        Err(ReadError::ReadFault) => return Status::ReadFault,
        Err(ReadError::TooLong) => return Status::TooLong,
        Err(ReadError::Memory) => return Status::Memory,
    };
    match answer(alloc, &command, input.as_slice()) {
        Ok(output) => write(sink, output.bytes.as_slice(), output.status),
        Err(_) => Status::Memory,
    }
}
