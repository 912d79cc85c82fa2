// Which events of a told journal are undone at its end: those whose stamps aren't among the kept ones of their roles.

ghost use Rattle.std.specs.Prelude.{◌≡◌, ◌↔◌, ◌<◌, ℕ, List, Some, length, slice_get, IsTrue, IfOk};
ghost use Rattle.std.specs.List.Sorted.{IsNonDecreasing};
ghost use Rattle.rcv_tree.specs.declared.event.Event.{Event as TheEvent};
ghost use Rattle.rcv_tree.specs.declared.entry.Entry.{Entry as TheEntry};
ghost use Rattle.rcv_session.specs.Session.{SessionView};
ghost use Rattle.rcv_fates.specs.Fates.{IsUndone, IsEventAt};
ghost use Rattle.rcv_fates.specs.Record.{HasKept};
ghost use Rattle.rcv_tree.specs.Lists.{lists_in};
ghost use Rattle.rcv_retold.specs.Stamps.{stamps_at, LacksStamp, IsEventOf};

use crate::stamps::{Stamps, has};
use rcv_tree::entry::Entry;
use rcv_tree::event::Event;
use std::alloc::{AllocError, Global};

// Whether the stamp of an event isn't among its role's.
fn is_lost(stamps: &Stamps, event: &Event) -> bool
    requires declared { event.now.role < length stamps.now.items }
    requires sorted { IsNonDecreasing (stamps_at (lists_in stamps.now.items) event.now.role) }
    ensures { IsTrue result ↔ LacksStamp (lists_in stamps.now.items) (TheEntry.Send event.now) }
{
    !has(&stamps[event.role.0 as usize], event.stamp)
}

// Whether the stamp of an entry's event isn't.
fn is_undone(stamps: &Stamps, entry: &Entry) -> bool
    requires declared { (e : TheEvent) → IsEventOf entry.now e → e.role < length stamps.now.items }
    requires sorted { (r : ℕ) → r < length stamps.now.items → IsNonDecreasing (stamps_at (lists_in stamps.now.items) r) }
    ensures { IsTrue result ↔ LacksStamp (lists_in stamps.now.items) entry.now }
{
    match entry {
        Entry::Send(event) => is_lost(stamps, event),
        Entry::Recv(event) => is_lost(stamps, event),
        Entry::Crash(_) => false,
        Entry::Recover { .. } => false,
    }
}

/// For each entry, whether its event's stamp isn't among the stamps of its role, which grow. If these are the stamps of
/// the kept events, it says which events are undone. Fails if memory runs out.
pub fn undone_of(alloc: Global, stamps: &Stamps, entries: &[Entry]) -> Result<Vec<bool>, AllocError>
    requires declared { (place : ℕ) (e : TheEvent) → IsEventAt entries.now place e → e.role < length stamps.now.items }
    requires sorted { (r : ℕ) → r < length stamps.now.items → IsNonDecreasing (stamps_at (lists_in stamps.now.items) r) }
    ensures { IfOk result (λ undone. (kept : List TheEvent) (session : SessionView)
        → ((place : ℕ) (e : TheEntry) → slice_get entries.now place ≡ Some e
        → LacksStamp (lists_in stamps.now.items) e ↔ IsUndone kept e)
        → HasKept (record { setup = session; entries = entries.now; undone = undone.items }) kept) }
{
    let mut undone = Vec::new(alloc);
    for entry in entries {
        undone.push(is_undone(stamps, entry))?;
    }
    Ok(undone)
}
