// The wires of a journal: its messages as arrows, if an end is shown.

ghost use Rattle.std.specs.Prelude.{◌≡◌, ◌↔◌, ◌⊎◌, List, IsTrue, IfOk, length};
ghost use Rattle.rcv_tree.specs.declared.event.Event.{Event};
ghost use Rattle.rcv_session.specs.Session.{net_for};
ghost use Rattle.rcv_fates.specs.Record.{HasKept};
ghost use Rattle.rcv_rows.specs.Told.{IsMarked, AreWires};
ghost use Rattle.rcv_rows.specs.Adding.{IsWireOf};

use crate::mark::is_marked;
use rcv_fates::{Arrow, Record, arrows};
use rcv_picture::group::Says;
use std::alloc::{AllocError, Global};

/// The messages of a journal that were received, each as an arrow, if its Send or its Recv is shown. `shown` has a mark
/// for each entry. Fails if memory runs out.
pub fn wires(alloc: Global, record: &Record<'_>, shown: &[bool]) -> Result<Vec<Says>, AllocError>
    requires { length shown.now ≡ length record.now.entries }
    ensures { IfOk result (λ wires. (kept : List Event) → HasKept record.now kept
        → AreWires (net_for record.now.setup) kept record.now.entries (IsMarked shown.now) wires.items) }
{
    let messages = arrows(alloc, record)?;
    let mut wires = Vec::new(alloc);
    for arrow in &messages {
        if is_seen(shown, arrow) {
            wires.push(wire_of(record, arrow))?;
        }
    }
    Ok(wires)
}

// Whether an end of the arrow is marked.
fn is_seen(marks: &[bool], arrow: &Arrow) -> bool
    ensures { IsTrue result ↔ (IsMarked marks.now arrow.now.send ⊎ IsMarked marks.now arrow.now.receive) }
{
    if is_marked(marks, arrow.send as usize) {
        return true;
    }
    is_marked(marks, arrow.receive as usize)
}

// What an arrow says.
fn wire_of(record: &Record<'_>, arrow: &Arrow) -> Says
    ensures { (kept : List Event) → HasKept record.now kept → IsWireOf kept record.now.entries arrow.now.send arrow.now.receive result }
{
    Says::Arrow {
        send: arrow.send,
        receive: arrow.receive,
        undone: record.is_undone(arrow.receive as usize),
    }
}
