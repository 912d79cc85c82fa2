// What a recovery needs to know before it begins: whom it concerns, and that the cells hold the states to go back to.

ghost use Rattle.std.specs.Prelude.{◌≡◌, ◌<◌, ℕ, length};
ghost use Rattle.rcv_role.specs.Part.{HoldsStates};
ghost use Rattle.rcv_role.specs.Cell.{CellView};
ghost use Rattle.rcv_cells.specs.Home.{cell_at};
ghost use Rattle.rcv_super.specs.Steps.{concerned_of};

use rcv_role::cell::Cell;
use rcv_tree::entry::Entry;
use rcv_tree::role::RoleSet;

/// Whom a Recover concerns; no other entry concerns anybody.
pub fn concerned_by(entry: &Entry) -> RoleSet
    ensures { result ≡ concerned_of entry.now }
{
    match entry {
        Entry::Recover { concerned, .. } => *concerned,
        _ => RoleSet(0),
    }
}

/// Each cell holds the states that it may go back to.
pub fn know_all(lanes: &Vec<Cell>)
    ensures { (r : ℕ) (d : CellView) → r < length lanes.now.items → HoldsStates (cell_at lanes.now.items r d).part }
{
    for cell in lanes {
        cell.known();
    }
}
