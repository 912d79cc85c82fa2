// What `run` answers: the journal of the session that workers ran to its end.

ghost use Rattle.std.specs.Prelude.{◌≤◌, true, false, length};
ghost use Rattle.rcv_session.specs.Session.{rules_of};
ghost use Rattle.rcv_script.specs.Scripts.{AreScriptsFor};
ghost use Rattle.rcv_plan.specs.Lines.{IsPlanned};
ghost use Rattle.rcv_core.specs.Book.{state_of, IsAtEnd};
ghost use Rattle.rcv_model.specs.Journal.{IsLegal};
ghost use Rattle.rcv_top.specs.Finishing.{EndsSo, FinishesAs};
ghost use Rattle.rcv_top.specs.Running.{CanRun, EndsAs, IsSessionRun};
ghost use Rattle.rcv_top.specs.Writing.{Writes};

use crate::output::write;
use crate::status::Status;
use rcv_core::book::Book;
use rcv_core::setup::Setup;
use rcv_gate::Gate;
use rcv_input::Input;
use rcv_io::Sink;
use rcv_journal::WriteError;
use rcv_journal::text::write_text;
use rcv_json::json_of;
use rcv_super::session::Session;
use std::alloc::{AllocError, Global};
use std::thread::Threads;

/// Runs a session to its end with so many workers, from 1 to 8, and writes its journal, as JSON or as lines. Says how
/// the session ended, or that the sink failed.
///
/// The error comes if memory runs out; then nothing was written.
pub fn run<R: Threads + Sync, K: Sink, G: Gate + Sync>(
    rt: &R,
    alloc: Global,
    taken: Input,
    workers: u32,
    json: bool,
    sink: &mut K,
    gate: &G,
) -> Result<Status, AllocError>
    requires least { 1 ≤ workers }
    requires most { workers ≤ 8 }
    requires belong { AreScriptsFor taken.accepted.protocol taken.scripts }
    requires planned { IsPlanned (length taken.accepted.protocol.roles) taken.plan }
    requires can_run { CanRun
        (record { protocol = taken.accepted.protocol; scripts = taken.scripts.lines; plan = taken.plan }) }
    ensures later { K.faults sink.old ≤ K.faults sink.new }
    ensures runs { Writes (IsSessionRun workers json
        (record { protocol = taken.accepted.protocol; scripts = taken.scripts.lines; plan = taken.plan }))
        (K.written sink.old) (K.written sink.new) (K.faults sink.old) (K.faults sink.new) result }
{
    let setup = Setup::new(alloc, taken.accepted, taken.scripts, taken.plan)?;
    run_setup(rt, alloc, &setup, workers, json, sink, gate)
}

// Runs the session of a setup. The caller keeps the setup, and frees it at one place. The code frees a large value
// field by field at each place where its owner may return.
fn run_setup<R: Threads + Sync, K: Sink, G: Gate + Sync>(
    rt: &R,
    alloc: Global,
    setup: &Setup,
    workers: u32,
    json: bool,
    sink: &mut K,
    gate: &G,
) -> Result<Status, AllocError>
    requires least { 1 ≤ workers }
    requires most { workers ≤ 8 }
    requires can_run { CanRun setup.now }
    ensures later { K.faults sink.old ≤ K.faults sink.new }
    ensures runs { Writes (IsSessionRun workers json setup.now)
        (K.written sink.old) (K.written sink.new) (K.faults sink.old) (K.faults sink.new) result }
{
    let mut session = Session::new(alloc, setup)?;
    finish(rt, alloc, &mut session, workers, json, sink, gate)
}

// Brings a session to its end with so many workers, and writes its journal. The caller keeps the session, as it keeps
// the setup.
fn finish<R: Threads + Sync, K: Sink, G: Gate + Sync>(
    rt: &R,
    alloc: Global,
    session: &mut Session<'_>,
    workers: u32,
    json: bool,
    sink: &mut K,
    gate: &G,
) -> Result<Status, AllocError>
    requires least { 1 ≤ workers }
    requires most { workers ≤ 8 }
    ensures later { K.faults sink.old ≤ K.faults sink.new }
    ensures finishes { Writes (FinishesAs workers json session.old.book)
        (K.written sink.old) (K.written sink.new) (K.faults sink.old) (K.faults sink.new) result }
{
    match session.finish(rt, alloc, workers, gate) {
        Ok(()) => write_journal(alloc, session.book(), json, sink),
        Err(_) => Err(AllocError),
    }
}

// How a book at its end ended.
fn status_of(book: &Book<'_>) -> Status
    requires { IsAtEnd book.now }
    ensures { EndsAs (rules_of book.now.setup) (state_of book.now) result }
{
    if book.all_done() {
        Status::Completed
    } else {
        Status::Limited
    }
}

// Writes the journal of a book at its end, as JSON or as lines.
fn write_journal<K: Sink>(
    alloc: Global,
    book: &Book<'_>,
    json: bool,
    sink: &mut K,
) -> Result<Status, AllocError>
    requires { IsAtEnd book.now }
    ensures later { K.faults sink.old ≤ K.faults sink.new }
    ensures writes { Writes (EndsSo json book.now.setup book.now.entries)
        (K.written sink.old) (K.written sink.new) (K.faults sink.old) (K.faults sink.new) result }
{
    // Tells the proof that the journal is legal.
    let _entries = book.entries();
    if json {
        write_json(alloc, book, sink)
    } else {
        write_lines(alloc, book, sink)
    }
}

// Writes it as JSON.
fn write_json<K: Sink>(alloc: Global, book: &Book<'_>, sink: &mut K) -> Result<Status, AllocError>
    requires end { IsAtEnd book.now }
    requires legal { IsLegal (rules_of book.now.setup) book.now.entries }
    ensures later { K.faults sink.old ≤ K.faults sink.new }
    ensures writes { Writes (EndsSo true book.now.setup book.now.entries)
        (K.written sink.old) (K.written sink.new) (K.faults sink.old) (K.faults sink.new) result }
{
    let bytes = json_of(alloc, book)?;
    Ok(write(sink, bytes.as_slice(), status_of(book)))
}

// Writes it as lines, page by page.
fn write_lines<K: Sink>(alloc: Global, book: &Book<'_>, sink: &mut K) -> Result<Status, AllocError>
    requires end { IsAtEnd book.now }
    requires legal { IsLegal (rules_of book.now.setup) book.now.entries }
    ensures later { K.faults sink.old ≤ K.faults sink.new }
    ensures writes { Writes (EndsSo false book.now.setup book.now.entries)
        (K.written sink.old) (K.written sink.new) (K.faults sink.old) (K.faults sink.new) result }
{
    let status = status_of(book);
    match write_text(alloc, book, sink) {
        Ok(()) => Ok(status),
        Err(WriteError::WriteFault) => Ok(Status::WriteFault),
        Err(WriteError::Memory) => Err(AllocError),
    }
}
