// The recovery of a crashed role, with nobody running beside it.

ghost use Rattle.std.specs.Prelude.{◌≡◌, OnOk, OnErr};
ghost use Rattle.rcv_model.specs.Final.{IsCrashed};
ghost use Rattle.rcv_core.specs.Book.{state_of};
ghost use Rattle.rcv_cells.specs.Home.{AreHome, SameBases};
ghost use Rattle.rcv_super.specs.Bases.{AreBased};
ghost use Rattle.rcv_super.specs.Steps.{HasRecovered};

use crate::known::{concerned_by, know_all};
use rcv_core::book::Book;
use rcv_role::cell::Cell;
use rcv_rollback::back::go_back;
use rcv_rollback::halves::{split, unite};
use rcv_tree::role::RoleId;
use std::alloc::{AllocError, Global};

/// Recovers a crashed role: its Recover goes into the book, and the concerned cells go back to what the book keeps.
/// Fails if memory runs out; then the book is as it was.
pub fn recover_alone<'a>(
    alloc: Global,
    book: &mut Book<'a>,
    lanes: &mut Vec<Cell<'a>>,
    role: RoleId,
) -> Result<(), AllocError>
    requires home { AreHome book.old lanes.old.items }
    requires based { AreBased book.old lanes.old.items }
    requires crashed { IsCrashed (state_of book.old) role }
    ensures home { OnOk result (AreHome book.new lanes.new.items) }
    ensures bases { OnOk result (SameBases lanes.old.items lanes.new.items) }
    ensures recovered { OnOk result (HasRecovered book.old book.new role) }
    ensures same { OnErr result (book.new ≡ book.old) }
{
    // Tells the proof that the journal is legal, the protocol accepted and its plan in range, and the states held.
    let _entries = book.entries();
    let _roles = book.setup().roles();
    know_all(lanes);
    let entry = book.recovery(role)?;
    let concerned = concerned_by(&entry);
    let (mut back, mut beside) = split(alloc, lanes, concerned)?;
    // The room is there, so it succeeds.
    let _reserved = book.push(entry);
    go_back(book, &mut back);
    unite(lanes, &mut back, &mut beside, concerned);
    Ok(())
}
