// Entries that may come one after another go into a book.

ghost use Rattle.std.specs.Prelude.{◌≡◌, IfSome};
ghost use Rattle.rcv_model.specs.Journal.{May, IsLegalFrom};
ghost use Rattle.rcv_session.specs.Session.{rules_of};
ghost use Rattle.rcv_ledger.specs.Logs.{entry_of};
ghost use Rattle.rcv_core.specs.Book.{state_of, with_entry, with_more};
ghost use Rattle.rcv_core.specs.Behind.{vars_behind_in};
ghost use Rattle.rcv_cells.specs.Ahead.{BringHome, IsNextOfCell, IsNextOfCells};

use rcv_core::book::Book;
use rcv_role::cell::Cell;
use rcv_tree::entry::Entry;
use rcv_tree::event::Event;
use rcv_tree::variables::Vars;

/// Adds these entries, which bring the cells home. The book has room for all that may come. If scripts are dear, it
/// takes the variables after an event from the cell of the event's role, if that holds them, instead of computing them
/// again.
pub fn push_all(book: &mut Book, entries: &[Entry], lanes: &[Cell], dear: bool)
    requires legal { IsLegalFrom (rules_of book.old.setup) (state_of book.old) entries.now }
    requires home { BringHome book.old entries.now lanes.now }
    ensures { book.new ≡ with_more book.old entries.now }
{
    for entry in entries {
        if dear {
            push_by_cell(book, entry, lanes);
        } else {
            push_entry(book, *entry);
        }
    }
}

// Adds an entry that may come, for which there is room.
fn push_entry(book: &mut Book, entry: Entry)
    requires { May (rules_of book.old.setup) (state_of book.old) entry }
    ensures { book.new ≡ with_entry book.old entry }
{
    let _reserved = book.push(entry);
}

// The same, an event with what the cell of its role has computed.
fn push_by_cell(book: &mut Book, entry: &Entry, lanes: &[Cell])
    requires may { May (rules_of book.old.setup) (state_of book.old) entry.now }
    requires next { IsNextOfCells book.old lanes.now entry.now }
    ensures { book.new ≡ with_entry book.old entry.now }
{
    match entry {
        Entry::Send(event) => push_event(book, event, *entry, lanes),
        Entry::Recv(event) => push_event(book, event, *entry, lanes),
        Entry::Crash(_) | Entry::Recover { .. } => push_entry(book, *entry),
    }
}

// Adds the entry of an event.
fn push_event(book: &mut Book, event: &Event, entry: Entry, lanes: &[Cell])
    requires of { entry ≡ entry_of event.now.dir event.now }
    requires may { May (rules_of book.old.setup) (state_of book.old) entry }
    requires next { IsNextOfCell book.old lanes.now event.now }
    ensures { book.new ≡ with_entry book.old entry }
{
    let Some(vars) = vars_behind(book, event, lanes) else {
        push_entry(book, entry);
        return;
    };
    let _reserved = book.push_event(event, &vars);
}

// The variables after an event, if the cell of its role holds them.
fn vars_behind(book: &Book, event: &Event, lanes: &[Cell]) -> Option<Vars>
    requires { IsNextOfCell book.now lanes.now event.now }
    ensures { IfSome result (λ vars. vars ≡ vars_behind_in book.now event.now) }
{
    // Tells the proof that few events are kept.
    let _entries = book.entries();
    let _limit = book.setup().limit();
    let kept = book.kept(event.role);
    lanes[event.role.0 as usize].vars_behind(kept + 1)
}
