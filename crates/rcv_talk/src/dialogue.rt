// The dialogue after the first line.

ghost use Rattle.std.specs.Prelude.{◌≤◌, ℕ, List};
ghost use Rattle.rcv_pipe.specs.Feeds.{HasNoFeed};
ghost use Rattle.rcv_pipe.specs.Pipe.{Waits};
ghost use Rattle.rcv_talk.specs.Around.{around};
ghost use Rattle.rcv_talk.specs.Talking.{Ends, AnswersSome, WaitsForMore, IsExchange, Talks};

use crate::answers::{Next, answer_held};
use crate::status::Status;
use rcv_guided::session::GuidedSession;
use rcv_io::{Sink, Source, write_all_of};
use rcv_pipe::Pipe;
use rcv_text::writer::Writer;
use std::alloc::Global;

// Writes the answers to lines that are held, and answers whether these were all of them.
fn answer<K: Sink>(
    alloc: Global,
    session: &mut GuidedSession,
    pipe: &mut Pipe,
    sink: &mut K,
) -> Result<bool, Status>
    ensures says { (bytes : List ℕ) → Waits pipe.old bytes
        → AnswersSome session.old bytes (K.written sink.old) (K.written sink.new) (K.faults sink.old) (K.faults sink.new)
        session.new pipe.new result }
    ensures later { K.faults sink.old ≤ K.faults sink.new }
{
    let mut text = Writer::new(alloc);
    let Ok(next) = answer_held(alloc, session, pipe, &mut text) else {
        return Err(Status::Memory);
    };
    if write_all_of(sink, text.finish().as_slice()).is_err() {
        return Err(Status::WriteFault);
    }
    match next {
        Next::More => Ok(true),
        Next::Written => Ok(false),
        Next::Ended => Err(Status::Done),
    }
}

// How the dialogue ends at the end of the source.
fn end_of(pipe: &Pipe) -> Status
    ensures { (bytes : List ℕ) → Waits pipe.now bytes → Ends bytes result }
{
    if pipe.is_long() || !pipe.held().is_empty() {
        Status::HalfLine
    } else {
        Status::Done
    }
}

// Reads more if no whole line is held.
fn wait<S: Source>(pipe: &mut Pipe, source: &mut S) -> Result<(), Status>
    ensures says { (bytes : List ℕ) → Waits pipe.old bytes → HasNoFeed pipe.old.held
        → WaitsForMore bytes (S.rest source.old) (S.rest source.new) (S.given source.old) (S.given source.new)
        (S.faults source.old) (S.faults source.new) pipe.new result }
    ensures later { S.faults source.old ≤ S.faults source.new }
{
    match pipe.fill(source) {
        Ok(0) => Err(end_of(pipe)),
        Ok(_) => Ok(()),
        Err(_) => Err(Status::ReadFault),
    }
}

// Answers lines that are held, and then reads more, if these were all of them.
fn round<S: Source, K: Sink>(
    alloc: Global,
    session: &mut GuidedSession,
    pipe: &mut Pipe,
    source: &mut S,
    sink: &mut K,
) -> Result<(), Status>
    ensures says { (bytes : List ℕ) → Waits pipe.old bytes
        → IsExchange session.old bytes
        (around S.rest S.given S.faults source.old source.new K.written K.faults sink.old sink.new)
        session.new pipe.new result }
{
    if answer(alloc, session, pipe, sink)? {
        wait(pipe, source)
    } else {
        Ok(())
    }
}

/// Answers each line of the source, up to the line `end` or to the end. Before it reads more, it answers all whole
/// lines that were read, and writes the answers.
pub fn dialogue<S: Source, K: Sink>(
    alloc: Global,
    session: &mut GuidedSession,
    pipe: &mut Pipe,
    source: &mut S,
    sink: &mut K,
) -> Status
    ensures { (behind : List ℕ) → Waits pipe.old behind
        → Talks session.old behind
        (around S.rest S.given S.faults source.old source.new K.written K.faults sink.old sink.new) result }
{
    for _ in 0..u64::MAX {
        if let Err(status) = round(alloc, session, pipe, source, sink) {
            return status;
        }
    }
    // No run comes here: it has taken so many rounds that a count of 64 bits has run out.
    Status::Memory
}
