// What the roles keep in two books of one setup.

ghost use Rattle.std.specs.Prelude.{◌<◌};
ghost use Rattle.rcv_session.specs.Session.{roles_of};

use rcv_core::book::Book;
use rcv_core::outcome::Outcome;
use rcv_tree::entry::Entry;
use rcv_tree::role::RoleId;

// Whether a role keeps the same in two books: the same sends and receives, of the same points, with the same numbers.
fn keeps_the_same(book: &Book<'_>, other: &Book<'_>, role: RoleId) -> bool
    requires here { role < roles_of book.now.setup }
    requires there { role < roles_of other.now.setup }
{
    let kept = book.kept(role);
    if other.kept(role) != kept {
        return false;
    }
    for number in 0..kept {
        let (event, twin) = (book.event(role, number), other.event(role, number));
        if event.dir != twin.dir || event.point != twin.point || event.value != twin.value {
            return false;
        }
    }
    true
}

// Whether each role keeps the same in two books.
fn keep_the_same(book: &Book<'_>, other: &Book<'_>) -> bool {
    let roles = book.setup().roles();
    if other.setup().roles() != roles {
        return false;
    }
    for role in 0..roles {
        if !keeps_the_same(book, other, RoleId(role)) {
            return false;
        }
    }
    true
}

/// Whether two books are complete, and each role keeps the same in both.
pub fn complete_alike(book: &Book<'_>, other: &Book<'_>) -> bool {
    is_complete(book) && is_complete(other) && keep_the_same(book, other)
}

/// Whether a book is complete.
pub fn is_complete(book: &Book<'_>) -> bool {
    matches!(book.final_state(), Outcome::Completed)
}

/// How many recoveries a book has.
pub fn recoveries(book: &Book<'_>) -> usize {
    book.entries()
        .iter()
        .filter(|entry| matches!(entry, Entry::Recover { .. }))
        .count()
}
