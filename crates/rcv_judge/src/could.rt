// What a role can do next, or why it can do nothing.

ghost use Rattle.std.specs.Prelude.{◌≡◌, ◌≢◌, ◌<◌};
ghost use Rattle.rcv_model.specs.Journal.{IsDue, IsFree};
ghost use Rattle.rcv_model.specs.Final.{IsCrashed};
ghost use Rattle.rcv_session.specs.Session.{roles_of, rules_of};
ghost use Rattle.rcv_core.specs.Book.{state_of};
ghost use Rattle.rcv_judge.specs.Could.{HasSender, IsCould};

use crate::sending::{chosen, next_sender};
use crate::steps::recovery_of;
use rcv_core::book::Book;
use rcv_tree::entry::Entry;
use rcv_tree::role::RoleId;

/// What a role can do next.
#[derive(Clone, Copy, Debug, PartialEq, Eq)]
pub enum Could {
    /// It can make this entry, and no other.
    Make(Entry),
    /// It waits for a message from this role, which hasn't sent it.
    Awaits(RoleId),
    /// Nothing is next for it.
    Done,
    /// It has made as many events as a role may make.
    AtLimit,
}

/// What a declared role can do next after the entries of a book: a crashed one makes its Recover, a due one its Crash,
/// and any other makes its step. A Send can come whether or not its channel has room.
pub fn could_do(book: &Book<'_>, role: RoleId) -> Could
    requires { role < roles_of book.now.setup }
    ensures { IsCould book.now role result }
{
    // Tells the proof that the protocol is accepted.
    let _protocol = book.setup().protocol();
    if book.crashed(role) {
        return Could::Make(recovery_of(book, role));
    }
    if book.due(role) {
        return Could::Make(Entry::Crash(role));
    }
    match next_sender(book, role) {
        Some(sender) => running(book, role, sender),
        None => Could::Done,
    }
}

// The same of a role that is neither crashed nor due. This role sends at its next points.
fn running(book: &Book<'_>, role: RoleId, sender: RoleId) -> Could
    requires declared { role < roles_of book.now.setup }
    requires calm { IsCrashed (state_of book.now) role → ⊥ }
    requires idle { IsDue (rules_of book.now.setup) (state_of book.now) role → ⊥ }
    requires next { HasSender book.now role sender }
    ensures { IsCould book.now role result }
{
    // Tells the proof that the journal is legal, and the protocol accepted.
    let _entries = book.entries();
    let setup = book.setup();
    let _protocol = setup.protocol();
    if book.raw(role) == setup.limit() {
        return Could::AtLimit;
    }
    if sender == role {
        Could::Make(Entry::Send(chosen(book, role)))
    } else {
        receiving(book, role, sender)
    }
}

// The same of a role that may make a step, and receives from another one next.
fn receiving(book: &Book<'_>, role: RoleId, sender: RoleId) -> Could
    requires free { IsFree (rules_of book.now.setup) (state_of book.now) role }
    requires next { HasSender book.now role sender }
    requires other { sender ≢ role }
    ensures { IsCould book.now role result }
{
    // Tells the proof that the journal is legal, and the protocol accepted.
    let _entries = book.entries();
    let _protocol = book.setup().protocol();
    match book.step(role) {
        Some(entry) => Could::Make(entry),
        None => Could::Awaits(sender),
    }
}
