// Whether an entry may come after others. A channel may hold more than its room.

ghost use Rattle.std.specs.Prelude.{◌≡◌, ◌↔◌, IsTrue};
ghost use Rattle.rcv_tree.specs.declared.entry.Entry.TheVariants.{Send};
ghost use Rattle.rcv_model.specs.Journal.{May, MaySend};
ghost use Rattle.rcv_session.specs.Session.{rules_of};
ghost use Rattle.rcv_core.specs.Book.{state_of};

use crate::same::is_same;
use crate::sending::may_send;
use crate::steps::{can_crash, is_recovery, is_step};
use rcv_core::book::Book;
use rcv_tree::entry::Entry;
use rcv_tree::event::Event;

// Whether a Send, whose role needn't be declared, may come. If it isn't the role's step, it may come all the same if
// its channel has no room.
#[inline(always)]
fn may_be_sent(book: &Book<'_>, entry: &Entry, event: &Event) -> bool
    requires { entry.now ≡ Send event.now }
    ensures { IsTrue result ↔ MaySend (rules_of book.now.setup) (state_of book.now) event.now }
{
    if event.role.0 >= book.setup().roles() {
        return false;
    }
    match book.step(event.role) {
        Some(step) => is_same(&step, entry),
        None => may_send(book, event),
    }
}

/// Whether an entry may come after those of a book.
#[inline(always)]
pub fn may_come(book: &Book<'_>, entry: &Entry) -> bool
    ensures { IsTrue result ↔ May (rules_of book.now.setup) (state_of book.now) entry.now }
{
    match entry {
        Entry::Send(event) => may_be_sent(book, entry, event),
        Entry::Recv(event) => is_step(book, event.role, entry),
        Entry::Crash(role) => can_crash(book, *role),
        Entry::Recover { role, .. } => is_recovery(book, *role, entry),
    }
}
