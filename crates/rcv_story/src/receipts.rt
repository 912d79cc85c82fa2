// Which Send each Recv takes, and which Recvs take a message again.

ghost use Rattle.std.specs.Prelude.{◌≡◌, length, replicate, IfOk};
ghost use Rattle.rcv_session.specs.Session.{net_for};
ghost use Rattle.rcv_fates.specs.Fates.{AreArrows};
ghost use Rattle.rcv_story.specs.Messages.{AreSendsOf, AreAgain};

use rcv_fates::{Arrow, Record};
use std::alloc::{AllocError, Global};

/// So many of these. Fails if memory runs out.
pub fn filled<T: Copy>(alloc: Global, count: usize, item: T) -> Result<Vec<T>, AllocError>
    ensures { IfOk result (λ items. items.items ≡ replicate count item) }
{
    let mut items = Vec::new(alloc);
    for _number in 0..count {
        items.push(item)?;
    }
    Ok(items)
}

/// For each entry the Send whose message it receives. Fails if memory runs out.
pub fn sends_of(
    alloc: Global,
    record: &Record<'_>,
    arrows: &[Arrow],
) -> Result<Vec<Option<u32>>, AllocError>
    requires { AreArrows (net_for record.now.setup) record.now.entries arrows.now }
    ensures { IfOk result (λ sends. AreSendsOf (net_for record.now.setup) record.now.entries sends.items) }
{
    let mut sends = filled(alloc, record.entries().len(), None)?;
    for arrow in arrows {
        sends[arrow.receive as usize] = Some(arrow.send);
    }
    Ok(sends)
}

/// For each entry whether it receives a message again. Fails if memory runs out.
pub fn again_of(
    alloc: Global,
    record: &Record<'_>,
    arrows: &[Arrow],
) -> Result<Vec<bool>, AllocError>
    requires { AreArrows (net_for record.now.setup) record.now.entries arrows.now }
    ensures { IfOk result (λ again. AreAgain (net_for record.now.setup) record.now.entries again.items) }
{
    let mut again = filled(alloc, record.entries().len(), false)?;
    // For each entry whether it is a Send whose message was received.
    let mut received = filled(alloc, record.entries().len(), false)?;
    for arrow in arrows {
        again[arrow.receive as usize] = received[arrow.send as usize];
        received[arrow.send as usize] = true;
    }
    Ok(again)
}
