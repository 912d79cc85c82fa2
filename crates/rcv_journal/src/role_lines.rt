// What a book says of its roles.

ghost use Rattle.std.specs.Prelude.{◌≡◌, ◌<◌, ◌≤◌, ◌==◌, if◌then◌else◌, IfOk};
ghost use Rattle.rcv_session.specs.Session.{roles_of, rules_of};
ghost use Rattle.rcv_core.specs.Book.{state_of};
ghost use Rattle.rcv_journal.specs.declared.line.RoleWord.TheVariants.{Done, Limit, Waits};
ghost use Rattle.rcv_journal.specs.JournalText.{HaveRoles};
ghost use Rattle.rcv_journal.specs.Lines.{IsLineOf, AreLinesOf};

use crate::line::{RoleLine, RoleWord};
use rcv_core::book::Book;
use rcv_tree::role::RoleId;
use std::alloc::{AllocError, Global};

// How a role ended: by whether it is done, and how many events it made of those that it may make.
fn word_of(done: bool, raw: u32, limit: u32) -> RoleWord
    ensures { result ≡ (if done then Done else (if raw == limit then Limit else Waits)) }
{
    if done {
        RoleWord::Done
    } else if raw == limit {
        RoleWord::Limit
    } else {
        RoleWord::Waits
    }
}

/// What is said of a declared role: how many of its events are kept, how many it made, and how it ended.
pub fn line_of(book: &Book<'_>, role: RoleId) -> RoleLine
    requires { role < roles_of book.now.setup }
    ensures { IsLineOf (rules_of book.now.setup) (state_of book.now) role result }
{
    let raw = book.raw(role);
    RoleLine {
        role,
        kept: book.kept(role),
        raw,
        word: word_of(book.done(role), raw, book.setup().limit()),
    }
}

// What is said of each of so many roles, in order.
fn lines_to(alloc: Global, book: &Book<'_>, roles: usize) -> Result<Vec<RoleLine>, AllocError>
    requires all { roles ≡ roles_of book.now.setup }
    requires few { roles ≤ 8 }
    ensures { IfOk result (λ lines. AreLinesOf (rules_of book.now.setup) (state_of book.now) lines.items) }
{
    let mut lines = Vec::new(alloc);
    for role in 0..roles {
        lines.push(line_of(book, RoleId(role as u8)))?;
    }
    Ok(lines)
}

/// What is said of each role, in order.
///
/// The error comes if no memory was left.
pub fn lines_of(alloc: Global, book: &Book<'_>) -> Result<Vec<RoleLine>, AllocError>
    ensures lines { IfOk result (λ lines. AreLinesOf (rules_of book.now.setup) (state_of book.now) lines.items) }
    ensures declared { IfOk result (λ lines. HaveRoles book.now.setup lines.items) }
{
    lines_to(alloc, book, book.setup().protocol().roles.as_slice().len())
}
