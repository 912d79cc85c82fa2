// The cells of a session forget the states that no recovery can ask for: those before the stable line.

ghost use Rattle.std.specs.Prelude.{◌≡◌, ◌+◌, ◌%◌, ◌<◌, ◌≤◌, ℕ, true, false, length, slice_index};
ghost use Rattle.rcv_session.specs.Session.{roles_of};
ghost use Rattle.rcv_core.specs.Book.{IsStableLineOf};
ghost use Rattle.rcv_role.specs.Cell.{CellView};
ghost use Rattle.rcv_cells.specs.Home.{cell_at, AreHome, HaveBases};
ghost use Rattle.rcv_super.specs.declared.whereabouts.Whereabouts.TheVariants.{Home};
ghost use Rattle.rcv_super.specs.Bases.{IsStableIn, WasStable, CanForget, without_states};

use crate::whereabouts::Whereabouts;
use rcv_cells::house::House;
use rcv_core::book::Book;
use rcv_role::cell::Cell;

// After so many turns that added entries the cells forget.
const OFTEN: u32 = 1024;

// One cell forgets the states that are older than the one after so many events.
fn forget_cell<'a>(cell: &mut Cell<'a>, line: u32)
    requires { CanForget line cell.old }
    ensures { cell.new ≡ without_states cell.old line }
{
    cell.forget(line);
}

// Each cell does, by its role's count.
fn forget_all<'a>(lanes: &mut Vec<Cell<'a>>, line: &[u32; 8])
    requires few { length lanes.old.items ≤ 8 }
    requires can { (r : ℕ) (d : CellView) → r < length lanes.old.items
        → CanForget (slice_index line.now r) (cell_at lanes.old.items r d) }
    ensures count { length lanes.new.items ≡ length lanes.old.items }
    ensures forgot { (r : ℕ) (d : CellView) → r < length lanes.old.items
        → cell_at lanes.new.items r d ≡ without_states (cell_at lanes.old.items r d) (slice_index line.now r) }
{
    for role in 0..lanes.len() {
        let cell = &mut lanes[role];
        forget_cell(cell, line[role]);
    }
}

/// The cells, which are at home, forget the states before these counts. It takes no memory.
pub fn forget_before<'a>(book: &Book<'a>, lanes: &mut Vec<Cell<'a>>, line: &[u32; 8])
    requires home { AreHome book.now lanes.old.items }
    requires stable { IsStableIn book.now line.now }
    requires above { (r : ℕ) (d : CellView) → r < roles_of book.now.setup
        → (cell_at lanes.old.items r d).part.base ≤ slice_index line.now r }
    ensures home { AreHome book.now lanes.new.items }
    ensures bases { HaveBases (roles_of book.now.setup) line.now lanes.new.items }
{
    // Tells the proof that there are at most eight roles.
    let _protocol = book.setup().protocol();
    forget_all(lanes, line);
}

/// Tells the proof that counts which were stable before the last entries are stable still.
pub fn still_stable(book: &Book, line: &[u32; 8])
    requires { WasStable book.now line.now }
    ensures { IsStableIn book.now line.now }
{
    let _entries = book.entries();
    let _protocol = book.setup().protocol();
}

/// The number of the next turn: each turn so far added an entry.
pub fn next_turn(book: &Book, turns: u32) -> u32
    requires { turns < length book.now.entries }
    ensures { result ≡ turns + 1 }
{
    // Tells the proof that there are few entries.
    let _roles = book.setup().roles();
    let _few = book.len();
    turns + 1
}

/// Comes after a turn that added entries, with the number of that turn. After each 1,024th the line becomes the book's
/// stable line, and the cells forget the states before it, if they are at home. It takes no memory.
pub fn keep_line<'a>(house: &mut House<'a>, at: Whereabouts, turns: u32, line: &mut [u32; 8])
    requires was { WasStable house.old.book line.old }
    requires home { at ≡ Home → AreHome house.old.book house.old.lanes.items
        × HaveBases (roles_of house.old.book.setup) line.old house.old.lanes.items }
    ensures book { house.new.book ≡ house.old.book }
    ensures watch { house.new.watch ≡ house.old.watch }
    ensures watches { house.new.watches.items ≡ house.old.watches.items }
    ensures home { at ≡ Home → AreHome house.old.book house.new.lanes.items
        × HaveBases (roles_of house.old.book.setup) line.new house.new.lanes.items }
    ensures same { (at ≡ Home → ⊥) → house.new.lanes.items ≡ house.old.lanes.items }
    ensures stable { IsStableIn house.old.book line.new }
    ensures line { turns % 1024 ≡ 0 → IsStableLineOf house.old.book line.new }
    ensures stays { (turns % 1024 ≡ 0 → ⊥) → line.new ≡ line.old }
{
    still_stable(&house.book, line);
    if turns % OFTEN != 0 {
        return;
    }
    let new = house.book.stable_line();
    if at.is_home() {
        forget_before(&house.book, &mut house.lanes, &new);
    }
    *line = new;
}
