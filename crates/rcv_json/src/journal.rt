// The JSON of a book.

ghost use Rattle.std.specs.Prelude.{◌≡◌, IfOk};
ghost use Rattle.rcv_model.specs.Final.{IsFinal};
ghost use Rattle.rcv_session.specs.Session.{rules_of};
ghost use Rattle.rcv_core.specs.Book.{state_of};
ghost use Rattle.rcv_journal.specs.JournalText.{AreNamed, HaveRoles};
ghost use Rattle.rcv_journal.specs.Json.{IsJsonOf};
ghost use Rattle.rcv_json.specs.Pieces.{pieces};

use crate::entries::write_entries;
use crate::roles::{limited_value, lines_value};
use crate::values::write_value;
use rcv_core::book::Book;
use rcv_core::setup::Setup;
use rcv_journal::line::RoleLine;
use rcv_journal::role_lines::lines_of;
use rcv_text::writer::Writer;
use rcv_tree::entry::Entry;
use std::alloc::{AllocError, Global};

// An entry has about so many bytes at most, if names are short.
const ENTRY: usize = 56;

// The JSON of entries and of what is said of the roles at the end, written piece by piece.
fn write_journal(
    alloc: Global,
    setup: &Setup,
    entries: &[Entry],
    lines: &[RoleLine],
) -> Result<Vec<u8>, AllocError>
    requires entries { AreNamed setup.now entries.now }
    requires lines { HaveRoles setup.now lines.now }
    ensures { IfOk result (λ text. text.items ≡ pieces setup.now entries.now lines.now) }
{
    let mut text = Writer::with_room(alloc, entries.len().saturating_mul(ENTRY))?;
    text.word(b"{\"entries\":[")?;
    write_entries(alloc, &mut text, setup, entries)?;
    text.word(b"],\"limited\":")?;
    write_value(alloc, &mut text, &limited_value(alloc, setup, lines)?)?;
    text.word(b",\"roles\":")?;
    write_value(alloc, &mut text, &lines_value(alloc, setup, lines)?)?;
    text.word(b"}\n")?;
    Ok(text.finish())
}

/// The JSON of a final journal, on one line: an object without spaces with a list for each entry, the names of the
/// roles at the limit, and a list for each role. It is written entry by entry, and holds no value of the whole. It
/// fails if memory runs out.
pub fn json_of(alloc: Global, book: &Book<'_>) -> Result<Vec<u8>, AllocError>
    requires { IsFinal (rules_of book.now.setup) (state_of book.now) }
    ensures { IfOk result (λ text. IsJsonOf book.now.setup book.now.entries text.items) }
{
    let setup = book.setup();
    // Tells the proof that the protocol is accepted, and so what a legal journal names is declared.
    let _protocol = setup.protocol();
    let lines = lines_of(alloc, book)?;
    write_journal(alloc, setup, book.entries(), lines.as_slice())
}
