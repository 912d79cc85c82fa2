// Whether an entry's event is undone.

ghost use Rattle.std.specs.Prelude.{◌≡◌, ◌↔◌, None, Some, slice_get, IsTrue, IfNone, IfSome};
ghost use Rattle.rcv_model.specs.Journal.{IsLegal};
ghost use Rattle.rcv_session.specs.Session.{rules_of};
ghost use Rattle.rcv_core.specs.Book.{state_of};
ghost use Rattle.rcv_fates.specs.Fates.{IsUndoneAt};

use crate::kept::is_kept;
use rcv_core::book::Book;
use rcv_tree::entry::Entry;

// The entry at a place of the book's journal, if there is one.
fn entry_at<'b>(book: &'b Book<'_>, place: usize) -> Option<&'b Entry>
    ensures none { IfNone result (slice_get book.now.entries place ≡ None) }
    ensures some { IfSome result (λ entry. slice_get book.now.entries place ≡ Some entry.now) }
    ensures legal { IsLegal (rules_of book.now.setup) book.now.entries }
{
    book.entries().get(place)
}

/// Whether the entry at a place of the book's journal is an event that isn't kept at the end.
pub fn is_undone(book: &Book<'_>, place: usize) -> bool
    ensures { IsTrue result ↔ IsUndoneAt (state_of book.now).kept book.now.entries place }
{
    let Some(entry) = entry_at(book, place) else {
        return false;
    };
    match entry {
        Entry::Send(event) => !is_kept(book, event),
        Entry::Recv(event) => !is_kept(book, event),
        Entry::Crash(_) => false,
        Entry::Recover { .. } => false,
    }
}
