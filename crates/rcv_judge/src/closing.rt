// The lines after the entries of a journal: what its roles did, and how the session ended.

ghost use Rattle.std.specs.Prelude.{◌≡◌, ◌<◌, ◌^◌, ◌↔◌, ℕ, false, length, slice_get, IsTrue, [], ◌∷◌, ◌++◌, IfOk, OnOk};
ghost use Rattle.std.specs.Prelude.{IfSome, IfNone};
ghost use Rattle.rcv_session.specs.Session.{rules_of};
ghost use Rattle.rcv_core.specs.Book.{state_of, HasMore};
ghost use Rattle.rcv_journal.specs.Lines.{AreLinesOf, limited_in};
ghost use Rattle.rcv_judge.specs.Closing.{Closes, ClosesRight, IsFirstWrongClosing, IsFound, HasEnded};

use crate::same::{are_same_roles, is_same_line};
use rcv_core::book::Book;
use rcv_core::outcome::Outcome;
use rcv_journal::line::{RoleLine, RoleWord};
use rcv_journal::recorded::Journal;
use rcv_journal::role_lines::lines_of;
use rcv_tree::role::RoleId;
use std::alloc::{AllocError, Global};

// Whether this line is found in a place.
fn is_at(found: &[RoleLine], number: usize, line: &RoleLine) -> bool
    ensures { IsTrue result ↔ slice_get found.now number ≡ Some line.now }
{
    match found.get(number) {
        Some(other) => is_same_line(other, line),
        None => false,
    }
}

// The number of the first of these lines that isn't found in its place; none if all are.
fn first_other(lines: &[RoleLine], found: &[RoleLine]) -> Option<u32>
    requires { length lines.now < 2 ^ 32 }
    ensures { IsFound lines.now found.now result }
{
    for (number, line) in lines.iter().enumerate() {
        if !is_at(found, number, line) {
            return Some(number as u32);
        }
    }
    None
}

// Adds the role of a line that says that the role is at the limit. Fails if memory runs out.
fn add_limited(limited: &mut Vec<RoleId>, line: &RoleLine) -> Result<(), AllocError>
    ensures { OnOk result (limited.new.items ≡ limited.old.items ++ limited_in (line.now ∷ [])) }
{
    match line.word {
        RoleWord::Limit => limited.push(line.role)?,
        RoleWord::Done => {}
        RoleWord::Waits => {}
    }
    Ok(())
}

// The roles whose lines say that they are at the limit. Fails if memory runs out.
fn limited_of(alloc: Global, lines: &[RoleLine]) -> Result<Vec<RoleId>, AllocError>
    ensures { IfOk result (λ roles. roles.items ≡ limited_in lines.now) }
{
    let mut limited = Vec::new(alloc);
    for line in lines {
        add_limited(&mut limited, line)?;
    }
    Ok(limited)
}

// Whether a session is at its end.
fn is_ended(book: &Book<'_>) -> bool
    ensures more { result ≡ false → HasMore book.now }
    ensures end { IsTrue result → HasEnded book.now }
{
    match book.final_state() {
        Outcome::More => false,
        Outcome::Completed => true,
        Outcome::Limited => true,
    }
}

// Whether the last line of a journal says how the session ended. The lines of the roles are found there, and these
// roles are at the limit.
fn closes(book: &Book<'_>, journal: &Journal, lines: &[RoleLine], limited: &[RoleId]) -> bool
    requires lines { AreLinesOf (rules_of book.now.setup) (state_of book.now) lines.now }
    requires found { (r : ℕ) → r < length lines.now → slice_get journal.now.roles r ≡ slice_get lines.now r }
    requires limited { limited.now ≡ limited_in lines.now }
    ensures { IsTrue result ↔ Closes (rules_of book.now.setup)
        (state_of book.now) journal.now.roles journal.now.limited }
{
    if journal.roles.len() != lines.len() {
        return false;
    }
    if !are_same_roles(journal.limited.as_slice(), limited) {
        return false;
    }
    is_ended(book)
}

/// The first closing line that isn't what the entries of a book leave: the lines of the roles have the numbers from 0
/// on, and the last line has the number after them. None if all are right and the session is at its end.
///
/// The error comes if no memory was left.
pub fn wrong_closing(
    alloc: Global,
    book: &Book<'_>,
    journal: &Journal,
) -> Result<Option<u32>, AllocError>
    ensures right { IfOk result (λ wrong. IfNone wrong
        (ClosesRight book.now.setup book.now.entries journal.now.roles journal.now.limited)) }
    ensures wrong { IfOk result (λ wrong. IfSome wrong
        (IsFirstWrongClosing (rules_of book.now.setup) (state_of book.now) journal.now.roles journal.now.limited)) }
{
    // Tells the proof that there are few roles.
    let roles = book.setup().roles();
    let lines = lines_of(alloc, book)?;
    if let Some(number) = first_other(lines.as_slice(), journal.roles.as_slice()) {
        return Ok(Some(number));
    }
    let limited = limited_of(alloc, lines.as_slice())?;
    if closes(book, journal, lines.as_slice(), limited.as_slice()) {
        return Ok(None);
    }
    Ok(Some(roles as u32))
}
