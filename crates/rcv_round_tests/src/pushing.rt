// A book of events that were added with the variables after them is the book of their entries.

ghost use Rattle.rcv_model.specs.Journal.{May};
ghost use Rattle.rcv_session.specs.Session.{rules_of};
ghost use Rattle.rcv_ledger.specs.Logs.{entry_of};
ghost use Rattle.rcv_core.specs.Book.{state_of};

use crate::given::{PING, TWO_BUYER, setup_of};
use rcv_core::book::Book;
use rcv_core::setup::Setup;
use rcv_tree::entry::Entry;
use rcv_tree::event::Event;
use std::alloc::{AllocError, Global};
use std::test::Fail;

// More entries than the sessions have.
const MOST: usize = 100;

// Adds an entry that may come next, a Send or Recv with the variables after it.
fn add(book: &mut Book<'_>, entry: Entry) -> Result<(), AllocError>
    requires { May (rules_of book.old.setup) (state_of book.old) entry }
{
    match &entry {
        Entry::Send(event) => add_event(book, event),
        Entry::Recv(event) => add_event(book, event),
        Entry::Crash(_) => book.push(entry),
        Entry::Recover { .. } => book.push(entry),
    }
}

fn add_event(book: &mut Book<'_>, event: &Event) -> Result<(), AllocError>
    requires { May (rules_of book.old.setup) (state_of book.old) (entry_of event.now.dir event.now) }
{
    let setup = book.setup();
    // Tells the proof that the protocol is accepted.
    let _protocol = setup.protocol();
    let mut vars = *book.vars(event.role);
    let _changed = setup.receive(event, &mut vars);
    book.push_event(event, &vars)
}

// The books of a session of one thread: by its events, and by its entries.
fn by_events<'a>(alloc: Global, setup: &'a Setup) -> Result<Book<'a>, AllocError> {
    let mut book = Book::new(alloc, setup)?;
    for _ in 0..MOST {
        let Some(entry) = book.one_thread_step() else {
            break;
        };
        add(&mut book, entry)?;
    }
    Ok(book)
}

fn by_entries<'a>(alloc: Global, setup: &'a Setup) -> Result<Book<'a>, AllocError> {
    let mut book = Book::new(alloc, setup)?;
    book.run_alone();
    Ok(book)
}

// Whether two books answer alike.
fn are_alike(one: &Book<'_>, other: &Book<'_>) -> bool {
    one.entries() == other.entries() && one.final_state() == other.final_state()
}

// Whether the two books of an input's session do.
fn is_made_by_events(alloc: Global, input: &[u8]) -> Result<bool, AllocError> {
    match setup_of(alloc, input)? {
        Some(setup) => has_one_book(alloc, &setup),
        None => Ok(false),
    }
}

fn has_one_book(alloc: Global, setup: &Setup) -> Result<bool, AllocError> {
    let events = by_events(alloc, setup)?;
    let entries = by_entries(alloc, setup)?;
    Ok(are_alike(&events, &entries))
}

#[test]
fn events_make_the_book_of_their_entries(rt: HostRuntime) -> Result<(), Fail> {
    assert!(rt; is_made_by_events(rt.alloc(), TWO_BUYER)?);
    assert!(rt; is_made_by_events(rt.alloc(), PING)?);
    Ok(())
}
