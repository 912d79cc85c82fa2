// The cells of a session in two halves: those that a recovery concerns, and those that may run beside it.

ghost use Rattle.std.specs.Prelude.{◌≡◌, ◌<◌, ◌≤◌, [], ◌∷◌, ◌++◌, length, vec_len, vec_capacity};
ghost use Rattle.std.specs.Prelude.{List, IfOk, OnOk, OnErr};
ghost use Rattle.rcv_role.specs.Cell.{CellView};
ghost use Rattle.rcv_rollback.specs.Halves.{AreSplit, Has, Lacks};
ghost use Rattle.rcv_rollback.specs.Going.{StayBut};
ghost use Rattle.rcv_rollback.specs.Parting.{ArePushedApart};

use rcv_role::cell::Cell;
use rcv_tree::role::{RoleId, RoleSet};
use std::alloc::{AllocError, Global};

/// Cells at the places of their roles. The place of a role whose cell stands in the other half is empty.
pub type Half<'a> = Vec<Option<Cell<'a>>>;

// Adds a place to both halves, which have room for it, with the cell in the first one if it is concerned, and else
// in the second.
fn push_apart<T: Drop>(
    back: &mut Vec<Option<T>>,
    beside: &mut Vec<Option<T>>,
    cell: T,
    is_concerned: bool,
)
    requires back { vec_len back.old < vec_capacity back.old }
    requires beside { vec_len beside.old < vec_capacity beside.old }
    ensures apart { ArePushedApart back.old.items back.new.items beside.old.items beside.new.items cell is_concerned }
    ensures back_room { vec_capacity back.new ≡ vec_capacity back.old }
    ensures beside_room { vec_capacity beside.new ≡ vec_capacity beside.old }
{
    if is_concerned {
        back.push_reserved(Some(cell));
        beside.push_reserved(None);
    } else {
        back.push_reserved(None);
        beside.push_reserved(Some(cell));
    }
}

// Moves all cells out of their list into two empty halves, which have room for them. The list keeps its room. It is for
// cells of any type, since the prover doesn't know what a drain leaves of those with a lifetime.
fn part<T: Drop>(
    cells: &mut Vec<T>,
    back: &mut Vec<Option<T>>,
    beside: &mut Vec<Option<T>>,
    concerned: RoleSet,
)
    requires few { length cells.old.items ≤ 8 }
    requires back_empty { back.old.items ≡ [] }
    requires beside_empty { beside.old.items ≡ [] }
    requires back_room { length cells.old.items ≤ vec_capacity back.old }
    requires beside_room { length cells.old.items ≤ vec_capacity beside.old }
    ensures split { AreSplit concerned cells.old.items back.new.items beside.new.items }
    ensures empty { cells.new.items ≡ [] }
    ensures room { vec_capacity cells.new ≡ vec_capacity cells.old }
{
    for cell in cells.drain(..) {
        let role = RoleId(back.len() as u8);
        push_apart(back, beside, cell, concerned.has(role));
    }
}

/// Takes all cells out (there are at most eight): the concerned ones into the first half, the others into the
/// second. The list keeps its room, so that they can be put back. Fails if memory runs out, before a cell is moved.
pub fn split<'a>(
    alloc: Global,
    cells: &mut Vec<Cell<'a>>,
    concerned: RoleSet,
) -> Result<(Half<'a>, Half<'a>), AllocError>
    requires { length cells.old.items ≤ 8 }
    ensures split { IfOk result (λ halves. AreSplit concerned cells.old.items halves.0.items halves.1.items) }
    ensures empty { OnOk result (cells.new.items ≡ []) }
    ensures room { length cells.old.items ≤ vec_capacity cells.new }
    ensures kept { OnErr result (cells.new.items ≡ cells.old.items) }
{
    let mut back = Vec::with_capacity(alloc, cells.len())?;
    let mut beside = Vec::with_capacity(alloc, cells.len())?;
    part(cells, &mut back, &mut beside, concerned);
    Ok((back, beside))
}

// Adds the cell at a place, if one stands there, to a list that has room for it.
fn move_from<'a>(cells: &mut Vec<Cell<'a>>, half: &mut Half<'a>, place: usize)
    requires place { place < length half.old.items }
    requires room { (c : CellView) → Has half.old.items place c → vec_len cells.old < vec_capacity cells.old }
    ensures others { StayBut half.old.items half.new.items place }
    ensures moved { (c : CellView) → Has half.old.items place c → cells.new.items ≡ cells.old.items ++ c ∷ [] }
    ensures none { Lacks half.old.items place → cells.new.items ≡ cells.old.items }
    ensures room { vec_capacity cells.new ≡ vec_capacity cells.old }
{
    if let Some(cell) = half[place].take() {
        cells.push_reserved(cell);
    }
}

/// Puts the cells of both halves back in their order, into a list without cells that has room for them.
pub fn unite<'a>(
    cells: &mut Vec<Cell<'a>>,
    back: &mut Half<'a>,
    beside: &mut Half<'a>,
    concerned: RoleSet,
)
    requires empty { cells.old.items ≡ [] }
    requires room { length back.old.items ≤ vec_capacity cells.old }
    requires halves { (all : List CellView) × AreSplit concerned all back.old.items beside.old.items }
    ensures { AreSplit concerned cells.new.items back.old.items beside.old.items }
{
    for place in 0..back.len() {
        move_from(cells, back, place);
        move_from(cells, beside, place);
    }
}
