// The text of a book.

ghost use Rattle.std.specs.Prelude.{◌≡◌, ◌≤◌, IfOk, OnOk, IsErrOf};
ghost use Rattle.rcv_model.specs.Final.{IsFinal};
ghost use Rattle.rcv_session.specs.Session.{rules_of};
ghost use Rattle.rcv_core.specs.Book.{state_of};
ghost use Rattle.rcv_journal.specs.JournalText.{HaveRoles, IsDeclared, entry_line, last_line, closing_text};
ghost use Rattle.rcv_journal.specs.Lines.{IsTextOf};
ghost use Rattle.rcv_journal.specs.Writing.{WroteText, BrokeText, IsUntouched};

use crate::entries::write_alone;
use crate::fault::WriteError;
use crate::head::{Line, heads};
use crate::journal::write_journal;
use crate::line::RoleLine;
use crate::role_lines::lines_of;
use crate::roles::{write_last, write_roles};
use crate::vec_sink::VecSink;
use rcv_core::book::Book;
use rcv_core::setup::Setup;
use rcv_io::Sink;
use rcv_page::Page;
use rcv_tree::entry::Entry;
use std::alloc::{AllocError, Global};

// The line of an entry has about so many bytes at most, if names are short.
const LINE: usize = 48;

// The last line has about so many bytes at most, if names are short.
const LAST: usize = 64;

/// Writes the text of a final journal, page by page: a line for each entry, a line for each role, and a last one that
/// says whether the session is completed.
///
/// `WriteFault` comes exactly if a call of the sink failed: a beginning of the text was written then, and not all of
/// it. `Memory` comes only before the first call of the sink, so what is told of it is as before.
pub fn write_text<K: Sink>(alloc: Global, book: &Book<'_>, sink: &mut K) -> Result<(), WriteError>
    requires { IsFinal (rules_of book.now.setup) (state_of book.now) }
    ensures whole { OnOk result (WroteText book.now.setup book.now.entries
        (K.written sink.old) (K.written sink.new) (K.faults sink.old) (K.faults sink.new)) }
    ensures fault { IsErrOf result WriteError.WriteFault → BrokeText book.now.setup book.now.entries
        (K.written sink.old) (K.written sink.new) (K.faults sink.old) (K.faults sink.new) }
    ensures memory { IsErrOf result WriteError.Memory
        → IsUntouched (K.written sink.old) (K.written sink.new) (K.faults sink.old) (K.faults sink.new) }
    ensures later { K.faults sink.old ≤ K.faults sink.new }
{
    let setup = book.setup();
    // Tells the proof that the protocol is accepted, and so what a legal journal names is declared.
    let _protocol = setup.protocol();
    let lines = lines_of(alloc, book)?;
    let heads = heads::<Line>(alloc, setup)?;
    let page = Page::new(alloc)?;
    write_journal(
        page,
        sink,
        setup,
        heads.as_slice(),
        book.entries(),
        lines.as_slice(),
    )?;
    Ok(())
}

/// The text of a final journal: a line for each entry, a line for each role, and a last one that says whether the
/// session is completed. It fails if memory runs out.
pub fn text_of(alloc: Global, book: &Book<'_>) -> Result<Vec<u8>, AllocError>
    requires { IsFinal (rules_of book.now.setup) (state_of book.now) }
    ensures { IfOk result (λ text. IsTextOf book.now.setup book.now.entries text.items) }
{
    let mut sink = VecSink::with_room(alloc, book.entries().len().saturating_mul(LINE))?;
    match write_text(alloc, book, &mut sink) {
        Ok(()) => Ok(sink.into_bytes()),
        Err(_) => Err(AllocError),
    }
}

/// The last line of a journal's text alone, from what is said of the roles. It fails if memory runs out.
pub fn last_line_of(alloc: Global, setup: &Setup, lines: &[RoleLine]) -> Result<Vec<u8>, AllocError>
    requires { HaveRoles setup.now lines.now }
    ensures { IfOk result (λ line. line.items ≡ last_line setup.now lines.now) }
{
    let mut sink = VecSink::with_room(alloc, LAST)?;
    let mut page = Page::new(alloc)?;
    write_last(&mut page, &mut sink, setup, lines);
    match page.finish(&mut sink) {
        Ok(()) => Ok(sink.into_bytes()),
        Err(_) => Err(AllocError),
    }
}

/// The line of an entry alone, whose role and point are declared. It fails if memory runs out.
pub fn entry_line_of(alloc: Global, setup: &Setup, entry: &Entry) -> Result<Vec<u8>, AllocError>
    requires { IsDeclared setup.now entry.now }
    ensures { IfOk result (λ line. line.items ≡ entry_line setup.now entry.now) }
{
    let mut sink = VecSink::with_room(alloc, LINE)?;
    let mut page = Page::new(alloc)?;
    write_alone(&mut page, &mut sink, setup, entry);
    match page.finish(&mut sink) {
        Ok(()) => Ok(sink.into_bytes()),
        Err(_) => Err(AllocError),
    }
}

/// The lines after a journal's entries alone, from what is said of the roles. It fails if memory runs out.
pub fn closing_of(alloc: Global, setup: &Setup, lines: &[RoleLine]) -> Result<Vec<u8>, AllocError>
    requires { HaveRoles setup.now lines.now }
    ensures { IfOk result (λ text. text.items ≡ closing_text setup.now lines.now) }
{
    let mut sink = VecSink::with_room(alloc, LAST)?;
    let mut page = Page::new(alloc)?;
    write_roles(&mut page, &mut sink, setup, lines);
    write_last(&mut page, &mut sink, setup, lines);
    match page.finish(&mut sink) {
        Ok(()) => Ok(sink.into_bytes()),
        Err(_) => Err(AllocError),
    }
}
