// Sends that may come, whether or not their channels have room: a role's script is asked for its choice, with the
// variables that the book has after what the role did.

ghost use Rattle.std.specs.Prelude.{◌≡◌, ◌<◌, ◌↔◌, IsTrue};
ghost use Rattle.rcv_model.specs.Next.{AreNext};
ghost use Rattle.rcv_model.specs.Journal.{place, IsFree, MaySend};
ghost use Rattle.rcv_session.specs.Session.{roles_of, net_for, rules_of};
ghost use Rattle.rcv_core.specs.Book.{state_of};
ghost use Rattle.rcv_judge.specs.Could.{HasSender, IsNextSender, IsSendOf};

use crate::same::is_same_event;
use rcv_core::book::Book;
use rcv_tree::event::Event;
use rcv_tree::point::Point;
use rcv_tree::role::RoleId;

// Whether a declared role may make a step: it is neither crashed nor due, and below the limit.
fn is_free(book: &Book<'_>, role: RoleId) -> bool
    requires { role < roles_of book.now.setup }
    ensures { IsTrue result ↔ IsFree (rules_of book.now.setup) (state_of book.now) role }
{
    // Tells the proof that the journal is legal, and the protocol accepted.
    let _entries = book.entries();
    let setup = book.setup();
    let _protocol = setup.protocol();
    if book.crashed(role) {
        return false;
    }
    if book.due(role) {
        return false;
    }
    book.raw(role) < setup.limit()
}

// The place of a declared role: the point of its last kept event, or 0.
fn place(book: &Book<'_>, role: RoleId) -> u16
    requires { role < roles_of book.now.setup }
    ensures { result ≡ place (state_of book.now) role }
{
    let count = book.kept(role);
    if count == 0 {
        return 0;
    }
    let last = *book.event(role, count - 1);
    last.point.0
}

// The next points of a declared role.
fn next_points<'a>(book: &Book<'a>, role: RoleId) -> &'a [Point]
    requires { role < roles_of book.now.setup }
    ensures { AreNext (net_for book.now.setup) role (place (state_of book.now) role) result.now }
{
    // Tells the proof that the journal is legal, and the protocol accepted.
    let _entries = book.entries();
    let setup = book.setup();
    let _protocol = setup.protocol();
    setup.next(role, place(book, role))
}

/// The one role that sends at the next points of a declared role; none if nothing is next for it.
pub fn next_sender(book: &Book<'_>, role: RoleId) -> Option<RoleId>
    requires { role < roles_of book.now.setup }
    ensures { IsNextSender book.now role result }
{
    // Tells the proof that the journal is legal, and the protocol accepted.
    let _entries = book.entries();
    let setup = book.setup();
    let _protocol = setup.protocol();
    let [first, ..] = next_points(book, role) else {
        return None;
    };
    Some(setup.sender(*first))
}

/// The Send that a role's script chooses. The role may make a step, and sends at its next points.
pub fn chosen(book: &Book<'_>, role: RoleId) -> Event
    requires free { IsFree (rules_of book.now.setup) (state_of book.now) role }
    requires next { HasSender book.now role role }
    ensures { IsSendOf book.now role result }
{
    // Tells the proof that the journal is legal and short, and the protocol accepted.
    let _entries = book.entries();
    let setup = book.setup();
    let _roles = setup.roles();
    let offered = next_points(book, role);
    let vars = book.vars(role);
    let attempt = book.attempt(role);
    let point = setup.choose(role, vars, attempt, offered);
    let value = setup.value(role, vars, attempt, point);
    let stamp = book.clock(role) + 1;
    Event::send(role, point, value, stamp)
}

// Whether an event is the Send that its role's script chooses. The role may make a step, and this role sends at its
// next points.
fn is_chosen(book: &Book<'_>, sender: RoleId, event: &Event) -> bool
    requires free { IsFree (rules_of book.now.setup) (state_of book.now) event.now.role }
    requires next { HasSender book.now event.now.role sender }
    ensures { IsTrue result ↔ MaySend (rules_of book.now.setup) (state_of book.now) event.now }
{
    if sender != event.role {
        return false;
    }
    is_same_event(&chosen(book, event.role), event)
}

/// Whether an event of a declared role is a Send that may come, whether or not its channel has room.
pub fn may_send(book: &Book<'_>, event: &Event) -> bool
    requires { event.now.role < roles_of book.now.setup }
    ensures { IsTrue result ↔ MaySend (rules_of book.now.setup) (state_of book.now) event.now }
{
    if !is_free(book, event.role) {
        return false;
    }
    match next_sender(book, event.role) {
        Some(sender) => is_chosen(book, sender, event),
        None => false,
    }
}
