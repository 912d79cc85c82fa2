// A book to which one thread adds entries, to its end.

ghost use Rattle.std.specs.Prelude.{◌≡◌, ◌<◌, [], IfOk};
ghost use Rattle.rcv_model.specs.Final.{IsStep};
ghost use Rattle.rcv_session.specs.Session.{roles_of, rules_of};
ghost use Rattle.rcv_core.specs.Book.{state_of, IsAtEnd, IsOneThreadStep};
ghost use Rattle.rcv_alone.specs.Steps.{HasStepped};
ghost use Rattle.rcv_jobs.specs.Texts.{IsWritten, IsAloneText};
ghost use Rattle.rcv_jobs.specs.Left.{left_behind};

use rcv_core::book::Book;
use rcv_core::setup::Setup;
use rcv_core::skip::Skip;
use rcv_journal::text::text_of;
use rcv_json::json_of;
use rcv_tree::entry::Entry;
use rcv_tree::role::RoleId;
use std::alloc::{AllocError, Global};
use std::marker::Model;

/// What a gate is told before an entry is made.
#[derive(Clone, Copy, Debug)]
pub enum Telling {
    /// This role attempts a step, and made so many events in all, undone ones included.
    Step { role: RoleId, count: u32 },
    /// The recovery of this failed role moves something.
    Recovery { role: RoleId },
}

/// A book to which one thread adds entries, and what is known of the next one. Contracts see the book.
#[derive(Drop)]
pub struct Running<'a> {
    book: Book<'a>,
    skip: Skip,
}

impl<'a> Model for Running<'a> {
    ghost use Rattle.rcv_core.specs.Book.{BookView};
    ghost use Rattle.rcv_jobs.specs.Running.{IsRunning};
    ghost use Rattle.rcv_tree.specs.contracts.statement.Stmt as e;
    ghost use Rattle.rcv_formula.specs.Codes.{expr_code};
    ghost use Rattle.std.specs.Coded.{codes};

    ghost Value = { BookView };

    ghost coded = { Prim.hlevel (codes, e.the_row.coded, expr_code) };

    ghost view = { λ r. r.book };

    ghost invariant = { λ r. IsRunning r.book r.skip };
}

impl<'a> Running<'a> {
    /// The session before its first entry, with all room that its entries may need. It fails if memory runs out.
    pub fn new(alloc: Global, setup: &'a Setup) -> Result<Running<'a>, AllocError>
        ensures { IfOk result (λ running. running ≡ record { setup = setup.now; entries = [] }) }
    {
        let book = Book::new(alloc, setup)?;
        Ok(Running {
            book,
            skip: Skip::nothing(),
        })
    }

    /// The entry that one thread makes next, or None at the end of the session. It takes no memory.
    #[inline(always)]
    pub fn next(&self) -> Option<Entry>
        ensures { IsOneThreadStep self.now result }
    {
        self.book.next_entry(self.skip)
    }

    /// What a gate is told before that entry is made.
    #[inline(always)]
    pub fn telling(&self, entry: &Entry) -> Telling
        requires { IsStep (rules_of self.now.setup) (state_of self.now) entry.now }
    {
        match entry {
            Entry::Send(event) => self.step_of(event.role),
            Entry::Recv(event) => self.step_of(event.role),
            Entry::Crash(role) => self.step_of(*role),
            Entry::Recover { role, .. } => Telling::Recovery { role: *role },
        }
    }

    // The same of a step of this role.
    #[inline(always)]
    fn step_of(&self, role: RoleId) -> Telling
        requires { role < roles_of self.now.setup }
    {
        Telling::Step {
            role,
            count: self.book.raw(role),
        }
    }

    /// Adds that entry. It takes no memory.
    #[inline(always)]
    pub fn add(&mut self, entry: Entry)
        requires { IsStep (rules_of self.old.setup) (state_of self.old) entry }
        ensures stepped { HasStepped self.old self.new }
        ensures fewer { left_behind self.new < left_behind self.old }
    {
        // Tells the proof that there are few entries.
        let _few = self.book.len();
        // The room is there, so it succeeds.
        let _added = self.book.push(entry);
        self.skip = self.book.skip_behind(&entry);
    }

    /// Whether a session at its end completed, and its journal, as JSON or as lines. It fails if memory runs out.
    pub fn write(&self, alloc: Global, json: bool) -> Result<(bool, Vec<u8>), AllocError>
        requires { IsAtEnd self.now }
        ensures text { IfOk result (λ written. IsAloneText self.now.setup json written.0 written.1.items) }
        ensures left { 0 < left_behind self.now }
    {
        // Tells the proof that the journal is legal, and that there are few entries.
        let _entries = self.book.entries();
        let _few = self.book.len();
        let completed = self.book.all_done();
        let text = bytes_of(alloc, &self.book, json)?;
        Ok((completed, text))
    }
}

// The journal of a book at its end, as JSON or as lines. It fails if memory runs out.
fn bytes_of(alloc: Global, book: &Book<'_>, json: bool) -> Result<Vec<u8>, AllocError>
    requires { IsAtEnd book.now }
    ensures { IfOk result (λ bytes. IsWritten json book.now.setup book.now.entries bytes.items) }
{
    if json {
        json_of(alloc, book)
    } else {
        text_of(alloc, book)
    }
}
