// What a picture tells: rows and wires together.

ghost use Rattle.std.specs.Prelude.{◌≡◌, List, IfOk, length};
ghost use Rattle.rcv_tree.specs.declared.event.Event.{Event};
ghost use Rattle.rcv_session.specs.Session.{net_for};
ghost use Rattle.rcv_fates.specs.Record.{HasKept};
ghost use Rattle.rcv_rows.specs.Told.{ShowMarked, Tells};

use crate::row::rows;
use crate::wire::wires;
use rcv_fates::Record;
use rcv_picture::group::Says;
use std::alloc::{AllocError, Global};

/// What a picture of a journal tells: its entries in rows, and its messages as arrows.
#[derive(Drop)]
pub struct Told {
    pub rows: Vec<Says>,
    pub wires: Vec<Says>,
}

/// What a picture of a journal tells. `shown` has a mark for each entry: marked entries have rows of their own, and
/// the others are folded. Fails if memory runs out.
pub fn tell(alloc: Global, record: &Record<'_>, shown: &[bool]) -> Result<Told, AllocError>
    requires { length shown.now ≡ length record.now.entries }
    ensures tells { IfOk result (λ told. (kept : List Event) → HasKept record.now kept
        → Tells (net_for record.now.setup) kept record.now.entries told.rows.items told.wires.items) }
    ensures marked { IfOk result (λ told. ShowMarked shown.now told.rows.items) }
{
    Ok(Told {
        rows: rows(alloc, record, shown)?,
        wires: wires(alloc, record, shown)?,
    })
}
