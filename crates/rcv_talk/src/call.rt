// The top call.

ghost use Rattle.std.specs.Prelude.{◌≡◌, ◌≤◌, false, length};
ghost use Rattle.rcv_talk.specs.Around.{around};
ghost use Rattle.rcv_talk.specs.Openings.{texts_of};
ghost use Rattle.rcv_talk.specs.Calls.{Says, TellsFault};
ghost use Rattle.rcv_talk.specs.Conversing.{Converses, ComesOfText};

use crate::begin::{BeginError, begin, ready};
use crate::dialogue::dialogue;
use crate::output::write;
use crate::status::Status;
use crate::words::saving_of;
use rcv_guided::saving::Saving;
use rcv_guided::session::GuidedSession;
use rcv_io::{Sink, Source};
use rcv_pipe::{OpeningError, Pipe, read_text};
use std::alloc::Global;

/// What is written if the words are none of the program's.
const USAGE: &[u8] = b"usage: rcv-guide [--told]\n";

/// What is written if the source ends without the line after the text.
const NO_EVENTS: &[u8] = b"refused 57 NoEvents\n";

/// Does what the program does: reads the words, then the text of the source up to its first line `%% events`, writes
/// the first line, and then answers each line after that.
///
/// `words` are those after the program's name: none, or the word `--told`. The answer says how the call ended:
/// - `Done`: the dialogue ended, by the line `end` or with the source after a whole line; all lines were answered.
/// - `Usage`: the words are others; nothing was read, and the usage line was written.
/// - `Refused`: the source ended without a line `%% events`, and the line for that was written; or the text is
///   refused, and the line of its first refusal was written.
/// - `ReadFault`: the source's count of faults rose. It rose before the text ended, and nothing was written; or after
///   that, and all whole lines before are answered. It always comes if that count is greater than before.
/// - `WriteFault`: the sink's count of faults rose, and only a beginning of the output was written, not all of it. It
///   always comes if that count is greater than before.
/// - `Memory`: memory ran out for the text or the session, and nothing was written; or for an answer, and those
///   before are written.
/// - `TooLong`: the text has more than 1,048,576 bytes, and nothing was written.
/// - `HalfLine`: the source ended within a line. That line isn't answered; all before it are.
///
/// What a session is told is a history of it from its start on, if no line of a snapshot restores another one's. Each
/// line is answered as it stands after those before.
pub fn talk<S: Source, K: Sink>(
    alloc: Global,
    words: &[String],
    source: &mut S,
    sink: &mut K,
) -> Status
    ensures says { Says (texts_of words.now)
        (around S.rest S.given S.faults source.old source.new K.written K.faults sink.old sink.new) result }
    ensures source_faults { TellsFault (S.faults source.old) (S.faults source.new) Status.ReadFault result }
    ensures sink_faults { TellsFault (K.faults sink.old) (K.faults sink.new) Status.WriteFault result }
{
    let Some(saving) = saving_of(words) else {
        return write(sink, USAGE, Status::Usage);
    };
    let Ok(mut pipe) = Pipe::new(alloc) else {
        return Status::Memory;
    };
    match read_text(alloc, &mut pipe, source) {
        Ok(text) => behind_text(alloc, saving, text.as_slice(), &mut pipe, source, sink),
        Err(OpeningError::NoEvents) => write(sink, NO_EVENTS, Status::Refused),
        Err(OpeningError::ReadFault) => Status::ReadFault,
        Err(OpeningError::TooLong) => Status::TooLong,
        Err(OpeningError::Memory) => Status::Memory,
    }
}

// What is done after the text.
fn behind_text<S: Source, K: Sink>(
    alloc: Global,
    saving: Saving,
    text: &[u8],
    pipe: &mut Pipe,
    source: &mut S,
    sink: &mut K,
) -> Status
    requires few { length text.now ≤ 1048576 }
    requires short { pipe.old.long ≡ false }
    ensures { ComesOfText text.now saving pipe.old.held
        (around S.rest S.given S.faults source.old source.new K.written K.faults sink.old sink.new) result }
{
    match begin(alloc, text, saving) {
        Ok(mut session) => converse(alloc, &mut session, pipe, source, sink),
        Err(BeginError::Refused(line)) => write(sink, line.as_slice(), Status::Refused),
        Err(BeginError::Memory) => Status::Memory,
    }
}

// The first line, and the dialogue after it.
fn converse<S: Source, K: Sink>(
    alloc: Global,
    session: &mut GuidedSession,
    pipe: &mut Pipe,
    source: &mut S,
    sink: &mut K,
) -> Status
    requires { pipe.old.long ≡ false }
    ensures { Converses session.old pipe.old.held
        (around S.rest S.given S.faults source.old source.new K.written K.faults sink.old sink.new) result }
{
    match ready(alloc, session) {
        Ok(line) => match write(sink, line.as_slice(), Status::Done) {
            Status::Done => dialogue(alloc, session, pipe, source, sink),
            status => status,
        },
        Err(_) => Status::Memory,
    }
}
