// The top call.

ghost use Rattle.rcv_words.specs.Commands.{texts_of};
ghost use Rattle.rcv_top.specs.Calls.{around, Says, TellsFault};

use crate::answer::answer;
use crate::input::input_of;
use crate::output::write;
use crate::status::Status;
use rcv_gate::Gate;
use rcv_io::{ReadError, Sink, Source};
use rcv_words::error::WordsError;
use rcv_words::read_words;
use std::alloc::Global;
use std::thread::Threads;

/// What is written if the words are no command.
const USAGE: &[u8] = b"usage: rcv run|check|project|table|gen|replay|line \
    [--workers N] [--json] [--sessions K] [--role R] [--number N]\n";

/// Does what the program does: reads the words, then the whole source unless the command is `gen`, and writes the
/// answer.
///
/// `words` are those after the program's name, as `clap` takes them: one of the words `run`, `check`, `project`,
/// `table`, `gen`, `replay` and `line`, with the options `--workers N`, `--json` and `--sessions K` of `run`,
/// `--role R` of `project` and `--number N` of `gen` before or after it. The answer says how the call ended:
/// - `Completed`: under `run` the session of the input completed, and its journal was written; or all of several
///   sessions completed, and their journals were written. Under `check` the input's protocol was written as its
///   canonical text. Under `table` its recovery table was written. Under `project` what the role does was written.
///   Under `gen` the summary of the generated session was written. Under `replay` the journal after the bundle is legal
///   and whole, and a line was written that says how many entries it has and how it ended. Under `line` the stable line
///   was written that holds at the end of the journal that one thread makes of the session, limited or not.
/// - `Limited`: under `run` the session's journal was written, or those of several sessions. At its end, or at the end
///   of one of them, some role that isn't done has come to the limit.
/// - `Usage`: the words are no command; nothing was read, and the usage line was written.
/// - `Refused`: the input is refused, and the line of its first refusal was written. Or under `project` the protocol
///   doesn't declare the role, and the line for that was written. Or under `run` several sessions may make more than
///   3,200,000 events in all, by roles, limit and sessions, and the line for that was written.
/// - `ReadFault`: the source's count of faults rose, and nothing was written. It always comes if that count is greater
///   than before.
/// - `WriteFault`: the sink's count of faults rose, and a beginning of what should be written was, not all of it. It
///   always comes if that count is greater than before.
/// - `Memory`: memory ran out, and nothing was written.
/// - `TooLong`: more than 1,048,576 bytes were taken from the source, and nothing was written.
/// - `Wrong`: under `replay` the journal isn't legal and whole, and a line was written that says what is wrong with it.
///
/// `gen` reads nothing from the source, however the call ends.
///
/// `run` without `--workers` asks for one worker. One worker writes the one journal of the session that one thread
/// makes. Several workers run the roles on at most as many threads. Which journal of the session they write may differ
/// from call to call. After the first turns one thread may make the rest, if it is as fast alone and `gate` is open.
/// Under `run`, `gate` is called before each step that a role attempts, and with a failed role before its recovery. The
/// other commands don't call it.
///
/// `run --sessions K`, with K from 2 to 64, runs K sessions of the input, each by one thread at a time, and shares them
/// among the workers. The first session has the plan as it was read. In each later one each crash line has a count that
/// is one more than in the session before. When the last session has ended, their journals are written in that order,
/// each after a line `session I`, or with `--json` each as a line of its own. Each is the journal that one thread makes
/// of its session, so neither the workers nor when each of them works decide a byte. K of 1 is `run` without the
/// option.
///
/// Each journal that is written, whole or in part, is as the headline says (`IsHeadline`). If a session completed and no
/// script reads the attempt, its crashes leave no trace: what each role kept and each
/// channel carried is, except for stamps, what one thread makes of the session without its crash lines. That session
/// completes, too. So all of several sessions that complete keep the same.
pub fn recover<R: Threads + Sync, S: Source, K: Sink, G: Gate + Sync>(
    rt: &R,
    alloc: Global,
    words: &[String],
    source: &mut S,
    sink: &mut K,
    gate: &G,
) -> Status
    ensures says { Says (texts_of words.now)
        (around S.rest S.given S.faults source.old source.new K.written K.faults sink.old sink.new) result }
    ensures source_faults { TellsFault (S.faults source.old) (S.faults source.new) Status.ReadFault result }
    ensures sink_faults { TellsFault (K.faults sink.old) (K.faults sink.new) Status.WriteFault result }
{
    let command = match read_words(alloc, words) {
        Ok(command) => command,
        Err(WordsError::Usage) => return write(sink, USAGE, Status::Usage),
        Err(WordsError::Memory) => return Status::Memory,
    };
    let input = match input_of(alloc, &command, source) {
        Ok(input) => input,
        Err(ReadError::ReadFault) => return Status::ReadFault,
        Err(ReadError::TooLong) => return Status::TooLong,
        Err(ReadError::Memory) => return Status::Memory,
    };
    match answer(rt, alloc, &command, input.as_slice(), sink, gate) {
        Ok(status) => status,
        Err(_) => Status::Memory,
    }
}
