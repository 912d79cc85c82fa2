// One step of the one-thread order, made by the cell of its role.

ghost use Rattle.std.specs.Prelude.{◌≡◌, ◌<◌, ℕ, length, OnOk, OnErr};
ghost use Rattle.rcv_tree.specs.declared.entry.Entry.TheVariants.{Crash};
ghost use Rattle.rcv_model.specs.Final.{IsCrashed, IsLeastOf, IsStep};
ghost use Rattle.rcv_session.specs.Session.{rules_of};
ghost use Rattle.rcv_core.specs.Book.{state_of, HasMore};
ghost use Rattle.rcv_role.specs.Cell.{CellView};
ghost use Rattle.rcv_cells.specs.Home.{cell_at, AreHome, SameBases};
ghost use Rattle.rcv_super.specs.Bases.{AreBased};
ghost use Rattle.rcv_super.specs.OneStep.{IsNextEvent, CanPoll, WasPolled, AreOutWith};
ghost use Rattle.rcv_alone.specs.Steps.{HasStepped};

use crate::recovery::recover_alone;
use rcv_cells::lanes::clear_logs;
use rcv_cells::meet::meet_pair;
use rcv_core::book::Book;
use rcv_gate::Gate;
use rcv_role::cell::Cell;
use rcv_tree::entry::Entry;
use rcv_tree::event::Event;
use rcv_tree::role::RoleId;
use std::alloc::{AllocError, Global};

/// The next step of the one-thread order. The book says which it is, its role's cell makes it, and it goes into the
/// book. Fails if memory runs out; then the book is as it was.
pub fn make_step<'a, G: Gate>(
    alloc: Global,
    book: &mut Book<'a>,
    lanes: &mut Vec<Cell<'a>>,
    gate: &G,
) -> Result<(), AllocError>
    requires home { AreHome book.old lanes.old.items }
    requires based { AreBased book.old lanes.old.items }
    requires more { HasMore book.old }
    ensures home { OnOk result (AreHome book.new lanes.new.items) }
    ensures bases { OnOk result (SameBases lanes.old.items lanes.new.items) }
    ensures stepped { OnOk result (HasStepped book.old book.new) }
    ensures same { OnErr result (book.new ≡ book.old) }
{
    match book.one_thread_step() {
        Some(entry) => make_entry(alloc, book, lanes, gate, &entry),
        None => unreachable!(),
    }
}

// The same, if this is the step.
fn make_entry<'a, G: Gate>(
    alloc: Global,
    book: &mut Book<'a>,
    lanes: &mut Vec<Cell<'a>>,
    gate: &G,
    entry: &Entry,
) -> Result<(), AllocError>
    requires home { AreHome book.old lanes.old.items }
    requires based { AreBased book.old lanes.old.items }
    requires step { IsStep (rules_of book.old.setup) (state_of book.old) entry.now }
    ensures home { OnOk result (AreHome book.new lanes.new.items) }
    ensures bases { OnOk result (SameBases lanes.old.items lanes.new.items) }
    ensures stepped { OnOk result (HasStepped book.old book.new) }
    ensures same { OnErr result (book.new ≡ book.old) }
{
    match entry {
        Entry::Send(event) => {
            make_event(book, lanes.as_mut_slice(), gate, entry, event);
            Ok(())
        }
        Entry::Recv(event) => {
            make_event(book, lanes.as_mut_slice(), gate, entry, event);
            Ok(())
        }
        Entry::Crash(role) => {
            make_crash(book, lanes.as_mut_slice(), gate, *role);
            Ok(())
        }
        Entry::Recover { role, .. } => make_recovery(alloc, book, lanes, gate, *role),
    }
}

// The Recover of the least crashed role.
fn make_recovery<'a, G: Gate>(
    alloc: Global,
    book: &mut Book<'a>,
    lanes: &mut Vec<Cell<'a>>,
    gate: &G,
    role: RoleId,
) -> Result<(), AllocError>
    requires home { AreHome book.old lanes.old.items }
    requires based { AreBased book.old lanes.old.items }
    requires least { IsLeastOf (IsCrashed (state_of book.old)) role }
    ensures home { OnOk result (AreHome book.new lanes.new.items) }
    ensures bases { OnOk result (SameBases lanes.old.items lanes.new.items) }
    ensures stepped { OnOk result (HasStepped book.old book.new) }
    ensures same { OnErr result (book.new ≡ book.old) }
{
    gate.recovering(role);
    recover_alone(alloc, book, lanes, role)
}

// The Crash of a role.
fn make_crash<'a, G: Gate>(book: &mut Book<'a>, lanes: &mut [Cell<'a>], gate: &G, role: RoleId)
    requires home { AreHome book.old lanes.old }
    requires step { IsStep (rules_of book.old.setup) (state_of book.old) (Crash role) }
    ensures home { AreHome book.new lanes.new }
    ensures bases { SameBases lanes.old lanes.new }
    ensures stepped { HasStepped book.old book.new }
{
    poll_at(lanes, role, gate);
    add_entry(book, lanes, Entry::Crash(role));
}

// The Send or Recv of an event. Before it the cells at the ends of its channel meet, so that the role's cell finds the
// message or the room that the book knows of. After it they meet again, so that both know of it.
fn make_event<'a, G: Gate>(
    book: &mut Book<'a>,
    lanes: &mut [Cell<'a>],
    gate: &G,
    entry: &Entry,
    event: &Event,
)
    requires home { AreHome book.old lanes.old }
    requires next { IsNextEvent book.old entry.now event.now }
    ensures home { AreHome book.new lanes.new }
    ensures bases { SameBases lanes.old lanes.new }
    ensures stepped { HasStepped book.old book.new }
{
    // Tells the proof that the journal is legal, and the protocol accepted and planned.
    let _entries = book.entries();
    let _roles = book.setup().roles();
    let from = book.setup().sender(event.point).0 as usize;
    let to = book.setup().receiver(event.point).0 as usize;
    meet_pair(lanes, from, to);
    poll_at(lanes, event.role, gate);
    meet_pair(lanes, from, to);
    add_entry(book, lanes, *entry);
}

// The entry with which the cells are out goes into the book, and they come home.
fn add_entry<'a>(book: &mut Book<'a>, lanes: &mut [Cell<'a>], entry: Entry)
    requires { AreOutWith book.old lanes.old entry }
    ensures home { AreHome book.new lanes.new }
    ensures bases { SameBases lanes.old lanes.new }
    ensures stepped { HasStepped book.old book.new }
{
    // Tells the proof that the journal is legal, and the protocol accepted.
    let _entries = book.entries();
    let _protocol = book.setup().protocol();
    // The room is there, so it succeeds.
    let _reserved = book.push(entry);
    clear_logs(lanes);
}

// The cell of a role is polled once.
fn poll_at<'a, G: Gate>(lanes: &mut [Cell<'a>], role: RoleId, gate: &G)
    requires role { role < length lanes.old }
    requires ready { (d : CellView) → CanPoll (cell_at lanes.old role d) }
    ensures count { length lanes.new ≡ length lanes.old }
    ensures others { (k : ℕ) (d : CellView) → (k ≡ role → ⊥)
        → cell_at lanes.new k d ≡ cell_at lanes.old k d }
    ensures polled { (d : CellView) → WasPolled (cell_at lanes.old role d) (cell_at lanes.new role d) }
{
    let cell = &mut lanes[role.0 as usize];
    poll_cell(cell, gate);
}

fn poll_cell<'a, G: Gate>(cell: &mut Cell<'a>, gate: &G)
    requires { CanPoll cell.old }
    ensures { WasPolled cell.old cell.new }
{
    gate.enter(cell.role(), cell.raw());
    let _poll = cell.poll();
    // Tells the proof that the cell has its ends.
    cell.known();
}
