// The messages that were received, each as the places of its Send and of its Recv.

ghost use Rattle.std.specs.Prelude.{◌≡◌, IfOk};
ghost use Rattle.rcv_session.specs.Session.{net_for};
ghost use Rattle.rcv_fates.specs.Fates.{AreArrows};

use crate::record::Record;
use crate::sends::{Sent, no_sends, note, place_of};
use rcv_tree::entry::Entry;
use std::alloc::{AllocError, Global};

/// A message that was received: the places of its Send and of its Recv among the entries, from 0.
#[derive(Clone, Copy, Debug, PartialEq, Eq)]
pub struct Arrow {
    pub send: u32,
    pub receive: u32,
}

/// The messages that were received, in the order of their Recvs: one for each Recv, so a message that was received
/// again has one for each time. It takes memory for each Send and each Recv. For each Recv it takes time that grows
/// with the logarithm of how many Sends its sender has made. Fails if memory runs out.
pub fn arrows(alloc: Global, record: &Record<'_>) -> Result<Vec<Arrow>, AllocError>
    ensures { IfOk result (λ arrows. AreArrows (net_for record.now.setup) record.now.entries arrows.items) }
{
    let setup = record.setup();
    let mut sends = no_sends(alloc, setup.roles())?;
    let mut arrows = Vec::new(alloc);
    for (place, entry) in record.entries().iter().enumerate() {
        match entry {
            Entry::Send(event) => {
                let stamp = event.stamp;
                let place = place as u32;
                note(&mut sends, event.role, Sent { stamp, place })?;
            }
            Entry::Recv(event) => {
                let sender = setup.sender(event.point);
                if let Some(send) = place_of(&sends[sender.0 as usize], event.sent) {
                    let receive = place as u32;
                    arrows.push(Arrow { send, receive })?;
                }
            }
            Entry::Crash(_) => {}
            Entry::Recover { .. } => {}
        }
    }
    Ok(arrows)
}
