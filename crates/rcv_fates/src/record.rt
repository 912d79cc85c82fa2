// A journal that is drawn: its entries, and which of their events are undone at its end.

ghost use Rattle.std.specs.Prelude.{◌≡◌, ◌↔◌, ◌<◌, ◌^◌, List, length, IsTrue, IfOk};
ghost use Rattle.rcv_tree.specs.declared.event.Event.{Event as TheEvent};
ghost use Rattle.rcv_core.specs.Book.{state_of};
ghost use Rattle.rcv_fates.specs.Fates.{IsUndoneAt};
ghost use Rattle.rcv_fates.specs.Record.{IsRecord, HasKept};

use crate::undone::is_undone;
use rcv_core::book::Book;
use rcv_core::setup::Setup;
use rcv_tree::entry::Entry;
use std::alloc::{AllocError, Global};
use std::marker::Model;

/// A journal that is drawn. Contracts see its session, its entries, and which of them are undone.
#[derive(Drop)]
pub struct Record<'a> {
    setup: &'a Setup,
    entries: &'a [Entry],
    // For each entry whether its event is undone at the end.
    undone: Vec<bool>,
}

impl<'a> Model for Record<'a> {
    ghost use Rattle.rcv_fates.specs.Record.{RecordView, IsRecord};
    ghost use Rattle.rcv_tree.specs.contracts.statement.Stmt as e;
    ghost use Rattle.rcv_formula.specs.Codes.{expr_code};
    ghost use Rattle.std.specs.Coded.{codes};

    ghost Value = { RecordView };

    ghost coded = { Prim.hlevel (codes, e.the_row.coded, expr_code) };

    ghost view = { λ a. record { setup = a.setup.now; entries = a.entries.now; undone = a.undone.items } };

    ghost invariant = { λ a. IsRecord (record { setup = a.setup.now; entries = a.entries.now; undone = a.undone.items }) };
}

impl<'a> Record<'a> {
    /// The record of these entries of a session, with a mark for each whose event is undone at the end.
    pub fn new(setup: &'a Setup, entries: &'a [Entry], undone: Vec<bool>) -> Record<'a>
        requires { IsRecord (record { setup = setup.now; entries = entries.now; undone = undone.items }) }
        ensures { result ≡ record { setup = setup.now; entries = entries.now; undone = undone.items } }
    {
        Record {
            setup,
            entries,
            undone,
        }
    }

    /// The record of a book's journal: what it doesn't keep is undone. Fails if memory runs out.
    pub fn of_book(alloc: Global, book: &'a Book<'_>) -> Result<Record<'a>, AllocError>
        ensures setup { IfOk result (λ made. made.setup ≡ book.now.setup) }
        ensures entries { IfOk result (λ made. made.entries ≡ book.now.entries) }
        ensures kept { IfOk result (λ made. HasKept made (state_of book.now).kept) }
    {
        let undone = undone_of(alloc, book)?;
        // Tells the proof that the protocol is accepted.
        let _roles = book.setup().roles();
        Ok(Record::new(book.setup(), book.entries(), undone))
    }

    /// The setup of its session. The setup's scripts and plan needn't have a part in the journal.
    pub fn setup(&self) -> &'a Setup
        ensures { result.now ≡ self.now.setup }
    {
        self.setup
    }

    /// The entries.
    pub fn entries(&self) -> &'a [Entry]
        ensures value { result.now ≡ self.now.entries }
        ensures is { IsRecord self.now }
        ensures few { length self.now.entries < 2 ^ 32 }
    {
        self.entries
    }

    /// Whether the entry at a place, from 0, is an event that isn't kept at the end.
    pub fn is_undone(&self, place: usize) -> bool
        ensures { (kept : List TheEvent) → HasKept self.now kept → IsTrue result ↔ IsUndoneAt kept self.now.entries place }
    {
        match self.undone.get(place) {
            Some(undone) => *undone,
            None => false,
        }
    }
}

// For each entry of a book whether its event is undone at the end.
fn undone_of(alloc: Global, book: &Book<'_>) -> Result<Vec<bool>, AllocError>
    ensures { IfOk result (λ undone. HasKept
        (record { setup = book.now.setup; entries = book.now.entries; undone = undone.items }) (state_of book.now).kept) }
{
    let mut undone = Vec::new(alloc);
    for place in 0..book.entries().len() {
        undone.push(is_undone(book, place))?;
    }
    Ok(undone)
}
