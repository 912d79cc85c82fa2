// What comes next of a role, to compare an entry with: it is one entry.

ghost use Rattle.std.specs.Prelude.{◌↔◌, IsTrue};
ghost use Rattle.rcv_tree.specs.declared.entry.Entry.TheVariants.{Crash};
ghost use Rattle.rcv_model.specs.Journal.{May};
ghost use Rattle.rcv_model.specs.Final.{IsActOf, IsCrashed};
ghost use Rattle.rcv_session.specs.Session.{rules_of};
ghost use Rattle.rcv_core.specs.Book.{state_of, IsRecoveryOf};

use crate::same::is_same;
use rcv_core::book::Book;
use rcv_tree::entry::Entry;
use rcv_tree::role::RoleId;

/// Whether an entry is the step of a role, which needn't be declared.
#[inline(always)]
pub fn is_step(book: &Book<'_>, role: RoleId, entry: &Entry) -> bool
    ensures { IsTrue result ↔ IsActOf (rules_of book.now.setup) (state_of book.now) role entry.now }
{
    if role.0 >= book.setup().roles() {
        return false;
    }
    match book.step(role) {
        Some(step) => is_same(&step, entry),
        None => false,
    }
}

/// Whether a role, which needn't be declared, can crash.
pub fn can_crash(book: &Book<'_>, role: RoleId) -> bool
    ensures { IsTrue result ↔ May (rules_of book.now.setup) (state_of book.now) (Crash role) }
{
    role.0 < book.setup().roles() && book.due(role)
}

/// The recovery of a crashed role.
pub fn recovery_of(book: &Book<'_>, role: RoleId) -> Entry
    requires { IsCrashed (state_of book.now) role }
    ensures { IsRecoveryOf book.now role result }
{
    match book.recovery(role) {
        Ok(recovery) => recovery,
        Err(_) => unreachable!(),
    }
}

/// Whether an entry is the recovery of a role, which needn't be declared.
pub fn is_recovery(book: &Book<'_>, role: RoleId, entry: &Entry) -> bool
    ensures { IsTrue result ↔ IsRecoveryOf book.now role entry.now }
{
    // Tells the proof that the journal is legal, and so crashed roles are declared.
    let _entries = book.entries();
    if role.0 >= book.setup().roles() {
        return false;
    }
    if !book.crashed(role) {
        return false;
    }
    is_same(&recovery_of(book, role), entry)
}
