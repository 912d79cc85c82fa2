// The messages that nobody has: those that a Recover drops, and those that wait.

ghost use Rattle.std.specs.Prelude.{◌≡◌, ◌↔◌, ℕ, false, None, Some, length, IsTrue, IfOk};
ghost use Rattle.rcv_session.specs.Session.{net_for};
ghost use Rattle.rcv_story.specs.Messages.{AreDropped, AreWaiting};
ghost use Rattle.rcv_story.specs.Stacks.{IsSend, AreMet, AreUndone};

use crate::story::Dropped;
use rcv_fates::Record;
use rcv_tree::entry::Entry;
use std::alloc::{AllocError, Global};

// Which Recover drops the message of an entry, if one does: it undoes the Send, which shares its fate with no Recv.
fn dropped_by(entry: &Entry, met: bool, undone: Option<u32>) -> Option<u32>
    ensures { (q : ℕ) → (result ≡ Some q) ↔ (IsSend entry.now × (met ≡ false) × (undone ≡ Some q)) }
{
    match entry {
        Entry::Send(_) => { if met { None } else { undone } }
        Entry::Recv(_) => None,
        Entry::Crash(_) => None,
        Entry::Recover { .. } => None,
    }
}

// Whether an entry is a Send that nobody undoes, and that shares its fate with no Recv.
fn is_waiting(entry: &Entry, met: bool, undone: Option<u32>) -> bool
    ensures { IsTrue result ↔ (IsSend entry.now × (met ≡ false) × (undone ≡ None)) }
{
    match entry {
        Entry::Send(_) => !met && undone.is_none(),
        Entry::Recv(_) => false,
        Entry::Crash(_) => false,
        Entry::Recover { .. } => false,
    }
}

/// The messages that Recovers drop, in the order of their Sends: `undone` says which Recover undoes an entry, and `met`
/// which Sends share their fate with a Recv. Fails if memory runs out.
pub fn dropped_of(
    alloc: Global,
    record: &Record<'_>,
    undone: &[Option<u32>],
    met: &[bool],
) -> Result<Vec<Dropped>, AllocError>
    requires undone { AreUndone record.now.entries undone.now }
    requires met { AreMet (net_for record.now.setup) record.now.entries undone.now met.now }
    ensures { IfOk result (λ dropped. AreDropped (net_for record.now.setup) record.now.entries dropped.items) }
{
    let mut dropped = Vec::new(alloc);
    for (place, entry) in record.entries().iter().enumerate() {
        if let Some(recover) = dropped_by(entry, met[place], undone[place]) {
            let send = place as u32;
            dropped.push(Dropped { send, recover })?;
        }
    }
    Ok(dropped)
}

/// The Sends whose messages lie in channels at the end, in order. Fails if memory runs out.
pub fn waiting_of(
    alloc: Global,
    record: &Record<'_>,
    undone: &[Option<u32>],
    met: &[bool],
) -> Result<Vec<u32>, AllocError>
    requires undone { AreUndone record.now.entries undone.now }
    requires met { AreMet (net_for record.now.setup) record.now.entries undone.now met.now }
    ensures { IfOk result (λ waiting. AreWaiting (net_for record.now.setup) record.now.entries waiting.items) }
{
    let mut waiting = Vec::new(alloc);
    for (place, entry) in record.entries().iter().enumerate() {
        if is_waiting(entry, met[place], undone[place]) {
            waiting.push(place as u32)?;
        }
    }
    Ok(waiting)
}
