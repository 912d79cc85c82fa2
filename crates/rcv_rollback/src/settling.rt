// The parts of a half's cells go back, once their channels did.

ghost use Rattle.std.specs.Prelude.{◌≡◌, ◌+◌, ◌^◌, ◌<◌, ◌≤◌, true, false, Some, length, take};
ghost use Rattle.rcv_session.specs.Session.{roles_of};
ghost use Rattle.rcv_role.specs.Cell.{CellView, cell_of, IsSettled, IsSettledAt};
ghost use Rattle.rcv_rollback.specs.Back.{kept_of};
ghost use Rattle.rcv_rollback.specs.Going.{part_back, IsGoing, HasGoneInPlace, HasGoneAt, AreGone, HaveMoved};

use crate::halves::Half;
use rcv_core::book::Book;
use rcv_role::cell::Cell;
use rcv_tree::role::RoleId;

// Goes back to so many first events, and runs on, unless the role stays crashed.
fn back_or_cut<'a>(cell: &mut Cell<'a>, stays: bool, keep: u32, clock: u64)
    requires settled { IsSettledAt cell.old (take keep cell.old.part.own.events) }
    requires base { cell.old.part.base ≤ keep }
    requires made { keep ≤ length cell.old.part.own.events }
    requires held { stays ≡ false → keep ≤ cell.old.part.held }
    requires crashed { stays ≡ true → cell.old.part.own.numbers.crashed ≡ true }
    requires attempt { cell.old.part.own.numbers.attempt + 1 < 2 ^ 32 }
    ensures back { cell.new ≡ cell_of (part_back stays cell.old.part keep clock) cell.old.posts cell.old.inboxes }
    ensures settled { IsSettled cell.new }
{
    if stays {
        cell.cut_to(keep, clock);
    } else {
        cell.back_to(keep, clock);
    }
}

// The part of one cell.
fn settle_cell<'a>(book: &Book<'a>, cell: &mut Cell<'a>, role: RoleId)
    requires role { role < roles_of book.now.setup }
    requires going { IsGoing book.now role cell.old }
    requires settled { IsSettledAt cell.old (kept_of book.now role) }
    ensures { HasGoneInPlace book.now role cell.old cell.new }
{
    // Tells the proof that the book has numbers of each role.
    let _entries = book.entries();
    let stays = book.crashed(role);
    back_or_cut(cell, stays, book.kept(role), book.clock(role));
    // Tells the proof that no event of a cell is a Recv from a stranger.
    cell.known();
}

// The part of the cell at a place, if one stands there.
fn settle_at<'a>(book: &Book<'a>, place: &mut Option<Cell<'a>>, role: RoleId)
    requires role { role < roles_of book.now.setup }
    requires going { (c : CellView) → place.old ≡ Some c → IsGoing book.now role c }
    requires settled { (c : CellView) → place.old ≡ Some c → IsSettledAt c (kept_of book.now role) }
    ensures { HasGoneAt book.now role place.old place.new }
{
    if let Some(cell) = place {
        settle_cell(book, cell, role);
    }
}

// The part of the cell of one role, if it stands in the half.
fn settle<'a>(book: &Book<'a>, half: &mut Half<'a>, role: u8)
    requires role { role < roles_of book.now.setup }
    requires gone { AreGone book.now role half.old.items }
    ensures gone { AreGone book.now (role + 1) half.new.items }
    ensures moved { HaveMoved half.old.items half.new.items }
{
    settle_at(book, &mut half[role as usize], RoleId(role));
}

/// All parts go back.
pub fn settle_all<'a>(book: &Book<'a>, half: &mut Half<'a>)
    requires { AreGone book.now 0 half.old.items }
    ensures gone { AreGone book.now (roles_of book.now.setup) half.new.items }
    ensures moved { HaveMoved half.old.items half.new.items }
{
    for role in 0..book.setup().roles() {
        settle(book, half, role);
    }
}
