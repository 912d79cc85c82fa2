// The picture of a journal.

ghost use Rattle.std.specs.Prelude.{◌≡◌, ◌≤◌, List, length, IfOk};
ghost use Rattle.rcv_tree.specs.declared.event.Event.{Event};
ghost use Rattle.rcv_fates.specs.Record.{HasKept};
ghost use Rattle.rcv_look.specs.Drawing.{IsDrawing, IsJournalDrawing, most_drawn};

use rcv_core::book::Book;
use rcv_fates::Record;
use rcv_journal::line::RoleLine;
use rcv_picture::picture_text;
use rcv_rows::tell;
use rcv_scene::ends::{RoleEnd, ends_of};
use rcv_scene::journal_picture::journal_picture;
use rcv_story::shown::shown_entries;
use rcv_story::story::story_of;
use std::alloc::{AllocError, Global};

// How many bytes a picture of so many entries may have.
fn most_drawn(entries: usize) -> usize
    ensures { result ≡ most_drawn entries }
{
    let counted = if entries < 450 { entries } else { 450 };
    131_072 + 4_096 * counted
}

// The text of a picture of so many entries, if it isn't longer than it may be. No picture is known to be longer, since
// what isn't shown is folded; a longer one counts as if memory ran out.
fn short(text: Vec<u8>, entries: usize) -> Result<Vec<u8>, AllocError>
    ensures { IfOk result (λ kept. (kept.items ≡ text.items) × (length kept.items ≤ most_drawn entries)) }
{
    if text.len() > most_drawn(entries) {
        return Err(AllocError);
    }
    Ok(text)
}

/// The text of a picture of a journal, whose roles ended so. Fails if memory runs out.
pub fn draw(alloc: Global, record: &Record<'_>, ends: &[RoleEnd]) -> Result<Vec<u8>, AllocError>
    ensures { IfOk result (λ text. (kept : List Event) → HasKept record.now kept
        → IsDrawing record.now.setup record.now.entries kept ends.now text.items) }
{
    let story = story_of(alloc, record)?;
    let shown = shown_entries(alloc, record, &story)?;
    let told = tell(alloc, record, shown.as_slice())?;
    let picture = journal_picture(
        alloc,
        record,
        ends,
        &story,
        told.wires.as_slice(),
        told.rows.as_slice(),
    )?;
    let text = picture_text(alloc, &picture)?;
    short(text, record.entries().len())
}

/// The text of a picture of a book's journal, whose roles ended as these lines say. Fails if memory runs out.
pub fn draw_book(alloc: Global, book: &Book<'_>, lines: &[RoleLine]) -> Result<Vec<u8>, AllocError>
    ensures { IfOk result (λ text. IsJournalDrawing book.now.setup book.now.entries lines.now text.items) }
{
    let record = Record::of_book(alloc, book)?;
    let ends = ends_of(alloc, lines)?;
    draw(alloc, &record, ends.as_slice())
}
