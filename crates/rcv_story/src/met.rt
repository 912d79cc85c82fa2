// Which Sends share their fate with a Recv of their message: both are kept, or one Recover undoes both.

ghost use Rattle.std.specs.Prelude.{◌≡◌, ◌↔◌, length, IsTrue, IfOk};
ghost use Rattle.rcv_session.specs.Session.{net_for};
ghost use Rattle.rcv_fates.specs.Fates.{AreArrows};
ghost use Rattle.rcv_story.specs.Stacks.{AreMet};

use crate::receipts::filled;
use rcv_fates::{Arrow, Record};
use std::alloc::{AllocError, Global};

// Whether two entries share their fate.
fn is_same(one: Option<u32>, other: Option<u32>) -> bool
    ensures { IsTrue result ↔ (one ≡ other) }
{
    one == other
}

/// For each entry whether it is such a Send. Fails if memory runs out.
pub fn met_of(
    alloc: Global,
    record: &Record<'_>,
    arrows: &[Arrow],
    undone: &[Option<u32>],
) -> Result<Vec<bool>, AllocError>
    requires arrows { AreArrows (net_for record.now.setup) record.now.entries arrows.now }
    requires size { length undone.now ≡ length record.now.entries }
    ensures { IfOk result (λ met. AreMet (net_for record.now.setup) record.now.entries undone.now met.items) }
{
    let mut met = filled(alloc, record.entries().len(), false)?;
    for arrow in arrows {
        if is_same(undone[arrow.receive as usize], undone[arrow.send as usize]) {
            met[arrow.send as usize] = true;
        }
    }
    Ok(met)
}
