// One worker on its own: the book makes the entries. The cells follow once several workers are asked for.

ghost use Rattle.std.specs.Prelude.{◌≡◌, [], IfOk, OnOk};
ghost use Rattle.rcv_model.specs.Journal.{start};
ghost use Rattle.rcv_session.specs.Session.{roles_of, rules_of};
ghost use Rattle.rcv_core.specs.Book.{IsAtEnd};
ghost use Rattle.rcv_core.specs.Skips.{IsSkip};
ghost use Rattle.rcv_cells.specs.Home.{AreHome, HaveBases};
ghost use Rattle.rcv_super.specs.Bases.{IsStableIn};
ghost use Rattle.rcv_alone.specs.Steps.{AreSteps};
ghost use Rattle.rcv_super.specs.Super.{IsAlone, Stands};
ghost use Rattle.rcv_super.specs.Finish.{HasFinished};
ghost use Rattle.rcv_super.specs.Turn.{IsEndOf};

use crate::forgetting::forget_before;
use crate::session::Turn;
use crate::step::make_step;
use crate::whereabouts::Whereabouts;
use rcv_alone::step_alone;
use rcv_core::book::Book;
use rcv_core::skip::Skip;
use rcv_gate::{Gate, NoGate};
use rcv_role::cell::Cell;
use std::alloc::{AllocError, Global};

/// Adds the entries that one thread makes, to the end of the session. It takes no memory.
pub fn finish_alone<G: Gate>(book: &mut Book, skip: Skip, gate: &G)
    requires { IsSkip book.old skip }
    ensures { HasFinished 1 book.old book.new }
{
    let mut skip = skip;
    loop {
        // Tells the proof that there are few entries.
        let _few = book.len();
        let Some(behind) = step_alone(book, skip, gate) else {
            return;
        };
        skip = behind;
    }
}

/// How a session ends that has nothing left to do.
pub fn end_of(book: &Book) -> Turn
    requires { IsAtEnd book.now }
    ensures { IsEndOf book.now result }
{
    if book.all_done() {
        Turn::Completed
    } else {
        Turn::Limited
    }
}

/// Brings the cells to where the book stands, if it has gone on alone. From then on they choose, and have forgotten the
/// states before the line. Fails if memory runs out; then the cells are at home nowhere.
pub fn bring_home<'a>(
    alloc: Global,
    book: &mut Book<'a>,
    lanes: &mut Vec<Cell<'a>>,
    at: Whereabouts,
    line: &[u32; 8],
) -> Result<(), AllocError>
    requires stands { Stands at book.old line.now lanes.old.items }
    requires left { IsAtEnd book.old → ⊥ }
    requires stable { IsStableIn book.old line.now }
    ensures same { book.new ≡ book.old }
    ensures home { OnOk result (AreHome book.new lanes.new.items) }
    ensures bases { OnOk result (HaveBases (roles_of book.new.setup) line.now lanes.new.items) }
{
    if at.is_home() {
        return Ok(());
    }
    // The session isn't at its end, so they stand before its first entry.
    follow(alloc, book, lanes, line)
}

// Brings them from before the first entry of the book to where it stands.
fn follow<'a>(
    alloc: Global,
    book: &mut Book<'a>,
    lanes: &mut Vec<Cell<'a>>,
    line: &[u32; 8],
) -> Result<(), AllocError>
    requires alone { IsAlone book.old lanes.old.items }
    requires stable { IsStableIn book.old line.now }
    ensures same { book.new ≡ book.old }
    ensures home { OnOk result (AreHome book.new lanes.new.items) }
    ensures bases { OnOk result (HaveBases (roles_of book.new.setup) line.now lanes.new.items) }
{
    if book.len() == 0 {
        // The cells stand there already: they need no second book.
        book.stop_choosing();
        return Ok(());
    }
    *book = catch_up(alloc, book, lanes)?;
    forget_before(book, lanes, line);
    Ok(())
}

// One thread made the steps of a book. The cells, which stand before the first step, make them once more.
fn catch_up<'a>(
    alloc: Global,
    book: &Book<'a>,
    lanes: &mut Vec<Cell<'a>>,
) -> Result<Book<'a>, AllocError>
    requires steps { AreSteps (rules_of book.now.setup) (start (roles_of book.now.setup)) book.now.entries }
    requires home { AreHome (record { setup = book.now.setup; entries = [] }) lanes.old.items }
    requires bases { HaveBases (roles_of book.now.setup) [] lanes.old.items }
    ensures same { IfOk result (λ copy. copy ≡ book.now) }
    ensures home { OnOk result (AreHome book.now lanes.new.items) }
    ensures bases { OnOk result (HaveBases (roles_of book.now.setup) [] lanes.new.items) }
{
    // Tells the proof that the protocol is accepted.
    let _protocol = book.setup().protocol();
    let mut copy = Book::new(alloc, book.setup())?;
    // From here on the cells choose.
    copy.stop_choosing();
    for _ in 0..book.len() {
        // Tells the proof that the copy's journal is legal.
        let _entries = copy.entries();
        make_step(alloc, &mut copy, lanes, &NoGate)?;
    }
    Ok(copy)
}
