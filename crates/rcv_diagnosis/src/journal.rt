// What is found in a journal of the form.

ghost use Rattle.std.specs.Prelude.{◌≡◌, ◌≢◌, ◌<◌, ◌+◌, ◌^◌, ◌↔◌, IsTrue, [], length, take, slice_get, Some, IfOk};
ghost use Rattle.rcv_model.specs.Journal.{IsLegal};
ghost use Rattle.rcv_session.specs.Session.{rules_of};
ghost use Rattle.rcv_core.specs.Book.{HasMore, IsAtEnd};
ghost use Rattle.rcv_journal.specs.Recorded.{bare};
ghost use Rattle.rcv_journal.specs.Form.{IsFormed, IsFormedEntry};
ghost use Rattle.rcv_judge.specs.Judged.{IsFirstWrong};
ghost use Rattle.rcv_diagnosis.specs.Diagnosing.{Says, IsOfJournal, IsWrongEntry, IsWrongEnd};

use crate::diagnosis::Diagnosis;
use crate::making::first_made;
use crate::telling::{legal, over, role_of, unfinished, wrong_entry};
use crate::written::Written;
use rcv_core::book::Book;
use rcv_core::outcome::Outcome;
use rcv_core::setup::Setup;
use rcv_journal::recorded::Journal;
use rcv_journal::role_lines::lines_of;
use rcv_judge::closing::wrong_closing;
use rcv_judge::could::could_do;
use rcv_judge::judge::{JudgeError, judge};
use rcv_tree::entry::Entry;
use std::alloc::{AllocError, Global};

/// What is found in a journal of the form that is written so.
pub fn of_journal(
    alloc: Global,
    setup: &Setup,
    journal: &Journal,
    written: Written,
) -> Result<Diagnosis, AllocError>
    requires formed { IsFormed (bare setup.now.protocol) journal.now }
    requires few { length journal.now.entries < 2 ^ 32 }
    ensures { IfOk result (λ answer. Says (IsOfJournal setup.now journal.now written)
        answer.finding answer.bytes.items) }
{
    match judge(alloc, setup, journal.entries.as_slice()) {
        Ok(book) => of_legal(alloc, &book, journal, written),
        Err(JudgeError::Entry(number)) => of_wrong(alloc, setup, journal, written, number),
        Err(JudgeError::Memory) => Err(AllocError),
    }
}

// The same if entry `number`, counted from 0, is the first that may not come.
fn of_wrong(
    alloc: Global,
    setup: &Setup,
    journal: &Journal,
    written: Written,
    number: u32,
) -> Result<Diagnosis, AllocError>
    requires formed { IsFormed (bare setup.now.protocol) journal.now }
    requires few { length journal.now.entries < 2 ^ 32 }
    requires wrong { IsFirstWrong (rules_of setup.now) journal.now.entries number }
    ensures { IfOk result (λ answer. Says (IsOfJournal setup.now journal.now written)
        answer.finding answer.bytes.items) }
{
    let entries = journal.entries.as_slice();
    let entry = entries[number as usize];
    match judge(alloc, setup, &entries[..number as usize]) {
        Ok(book) => of_entry(alloc, &book, written, number + 1, &entry),
        Err(JudgeError::Memory) => Err(AllocError),
        // Those before the first wrong one are legal.
        Err(JudgeError::Entry(_)) => unreachable!(),
    }
}

// What is told of an entry with this number, counted from 1, after those of a book.
fn of_entry(
    alloc: Global,
    book: &Book<'_>,
    written: Written,
    number: u32,
    entry: &Entry,
) -> Result<Diagnosis, AllocError>
    requires { IsFormedEntry (bare book.now.setup.protocol) entry.now }
    ensures { IfOk result (λ answer. Says (IsWrongEntry book.now written number entry.now)
        answer.finding answer.bytes.items) }
{
    // Tells the proof that the journal is legal, and the protocol accepted.
    let _entries = book.entries();
    let setup = book.setup();
    let _protocol = setup.protocol();
    let could = could_do(book, role_of(entry));
    wrong_entry(alloc, setup, written, number, entry, &could)
}

// Whether the last line of a journal names a role.
fn is_limited(journal: &Journal) -> bool
    ensures { IsTrue result ↔ journal.now.limited ≢ [] }
{
    !journal.limited.as_slice().is_empty()
}

// What is found in a journal with these entries, each of which may come.
fn of_legal(
    alloc: Global,
    book: &Book<'_>,
    journal: &Journal,
    written: Written,
) -> Result<Diagnosis, AllocError>
    requires entries { book.now.entries ≡ journal.now.entries }
    requires few { length journal.now.entries < 2 ^ 32 }
    requires legal { IsLegal (rules_of book.now.setup) book.now.entries }
    ensures { IfOk result (λ answer. Says (IsOfJournal book.now.setup journal.now written)
        answer.finding answer.bytes.items) }
{
    let wrong = wrong_closing(alloc, book, journal)?;
    match wrong {
        Some(_) => of_end(alloc, book),
        None => legal(alloc, book.len() as u32, is_limited(journal)),
    }
}

// What is told if the closing lines aren't right.
fn of_end(alloc: Global, book: &Book<'_>) -> Result<Diagnosis, AllocError>
    ensures { IfOk result (λ answer. Says (IsWrongEnd book.now) answer.finding answer.bytes.items) }
{
    match book.final_state() {
        Outcome::More => of_unfinished(alloc, book),
        Outcome::Completed => of_over(alloc, book),
        Outcome::Limited => of_over(alloc, book),
    }
}

// The same if the session isn't over.
fn of_unfinished(alloc: Global, book: &Book<'_>) -> Result<Diagnosis, AllocError>
    requires { HasMore book.now }
    ensures { IfOk result (λ answer. Says (IsWrongEnd book.now) answer.finding answer.bytes.items) }
{
    // Tells the proof that the journal is legal, and the protocol accepted.
    let _entries = book.entries();
    let setup = book.setup();
    let _protocol = setup.protocol();
    match first_made(book) {
        Some(entry) => unfinished(alloc, setup, &entry),
        None => unreachable!(),
    }
}

// The same if it is.
fn of_over(alloc: Global, book: &Book<'_>) -> Result<Diagnosis, AllocError>
    requires { IsAtEnd book.now }
    ensures { IfOk result (λ answer. Says (IsWrongEnd book.now) answer.finding answer.bytes.items) }
{
    let lines = lines_of(alloc, book)?;
    over(alloc, book.setup(), lines.as_slice())
}
