// Which events are kept: they are found by their stamps, which grow.

ghost use Rattle.std.specs.Prelude.{◌≡◌, ◌<◌, ◌↔◌, IsTrue};
ghost use Rattle.rcv_model.specs.Journal.{events_of};
ghost use Rattle.rcv_session.specs.Session.{roles_of, rules_of};
ghost use Rattle.rcv_core.specs.Book.{state_of};
ghost use Rattle.rcv_fates.specs.Fates.{IsKeptIn};
ghost use Rattle.rcv_fates.specs.Sends.{IsNumberOf};

use rcv_core::book::Book;
use rcv_tree::event::{Dir, Event};
use rcv_tree::role::RoleId;

/// Whether an event of a declared role is kept at the end of the journal. It takes no memory, and time that grows with
/// the logarithm of how many events the role has kept.
pub fn is_kept(book: &Book<'_>, event: &Event) -> bool
    requires { event.now.role < roles_of book.now.setup }
    ensures { IsTrue result ↔ IsKeptIn (rules_of book.now.setup) book.now.entries event.now }
{
    let number = number_of(book, event.role, event.stamp);
    if number >= book.kept(event.role) {
        return false;
    }
    is_same(book.event(event.role, number), event)
}

// Whether two events are the same.
fn is_same(one: &Event, other: &Event) -> bool
    ensures { IsTrue result ↔ (one.now ≡ other.now) }
{
    is_same_dir(one.dir, other.dir)
        && one.role == other.role
        && one.point == other.point
        && one.value == other.value
        && one.stamp == other.stamp
        && one.sent == other.sent
}

// Whether two directions are the same.
fn is_same_dir(one: Dir, other: Dir) -> bool
    ensures { IsTrue result ↔ (one ≡ other) }
{
    match one {
        Dir::Sent => matches!(other, Dir::Sent),
        Dir::Got => matches!(other, Dir::Got),
    }
}

// The number of the kept event of a declared role that has this stamp, if there is one.
fn number_of(book: &Book<'_>, role: RoleId, stamp: u64) -> u32
    requires { role < roles_of book.now.setup }
    ensures { IsNumberOf (events_of role (state_of book.now).kept) stamp result }
{
    // Tells the proof that the journal is legal.
    let _entries = book.entries();
    let mut low = 0;
    let mut high = book.kept(role);
    while low < high {
        let middle = low + (high - low) / 2;
        if book.event(role, middle).stamp < stamp {
            low = middle + 1;
        } else {
            high = middle;
        }
    }
    low
}
