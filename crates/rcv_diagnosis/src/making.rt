// Which entry comes next.

ghost use Rattle.std.specs.Prelude.{◌<◌};
ghost use Rattle.rcv_session.specs.Session.{roles_of};
ghost use Rattle.rcv_diagnosis.specs.Making.{IsMadeBy, IsFirstMade};

use rcv_core::book::Book;
use rcv_judge::could::{Could, could_do};
use rcv_tree::entry::Entry;
use rcv_tree::role::RoleId;

// The entry that a declared role can make.
fn made_by(book: &Book<'_>, role: RoleId) -> Option<Entry>
    requires { role < roles_of book.now.setup }
    ensures { IsMadeBy book.now role result }
{
    match could_do(book, role) {
        Could::Make(entry) => Some(entry),
        Could::Awaits(_) => None,
        Could::Done => None,
        Could::AtLimit => None,
    }
}

/// The entry of the first role that can make one.
pub fn first_made(book: &Book<'_>) -> Option<Entry>
    ensures { IsFirstMade book.now result }
{
    for role in 0..book.setup().roles() {
        if let Some(entry) = made_by(book, RoleId(role)) {
            return Some(entry);
        }
    }
    None
}
