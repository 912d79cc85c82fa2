// The entries of a told journal, judged one after another.

ghost use Rattle.std.specs.Prelude.{◌≡◌, ◌<◌, ◌^◌, ℕ, List, length, IfOk, IfErr, OnOk};
ghost use Rattle.rcv_tree.specs.declared.event.Event.{Event as TheEvent};
ghost use Rattle.rcv_ledger.specs.Logs.{log_at};
ghost use Rattle.rcv_guide.specs.Guide.{roles_of, opened, IsMemory};
ghost use Rattle.rcv_told.specs.Told.{told};
ghost use Rattle.rcv_fates.specs.Record.{HasKept};
ghost use Rattle.rcv_retold.specs.Retold.{terms_for, with_protocol, HasSameText, IsRetold, IsFirstUntold, HasWhole, HasStamps};
ghost use Rattle.rcv_tree.specs.Lists.{lists_in};
ghost use Rattle.rcv_retold.specs.Stamps.{AreStamps, IsEventOf, IsBehind};
ghost use Rattle.rcv_retold.specs.declared.retell.RetellError.TheVariants as errors;

use crate::kept::undone_of;
use crate::stamps::{Stamps, cut_all, no_stamps, note};
use crate::tell::tell;
use rcv_core::setup::Setup;
use rcv_fates::Record;
use rcv_guide::guide::Guide;
use rcv_tree::entry::Entry;
use std::alloc::{AllocError, Global};
use thiserror::Error;

/// Why entries have no record.
#[derive(Clone, Copy, Debug, PartialEq, Eq, Error)]
pub enum RetellError {
    /// The first entry, counted from 0, that may not be told after those before it.
    #[error("entry {0} may not come")]
    Entry(u32),
    /// Memory ran out.
    #[error("no memory is left")]
    Memory,
}

impl From<AllocError> for RetellError {
    ghost from_gives = { λ _ e. e ≡ errors.Memory };

    fn from(_e: AllocError) -> RetellError {
        RetellError::Memory
    }
}

// Follows an entry that was told to a guide. Fails if memory runs out.
fn follow(stamps: &mut Stamps, guide: &Guide, entry: &Entry) -> Result<(), AllocError>
    requires count { length stamps.old.items ≡ roles_of guide.now }
    requires declared { (e : TheEvent) → IsEventOf entry.now e → e.role < roles_of guide.now }
    ensures { OnOk result ((old : ℕ → List TheEvent) → HasWhole guide.now
        → AreStamps (roles_of guide.now) old (lists_in stamps.old.items)
        → IsBehind old (log_at guide.now.logs) entry.now
        → AreStamps (roles_of guide.now) (log_at guide.now.logs) (lists_in stamps.new.items)) }
{
    match entry {
        Entry::Send(event) => note(stamps, event.role, event.stamp),
        Entry::Recv(event) => note(stamps, event.role, event.stamp),
        Entry::Crash(_) => Ok(()),
        Entry::Recover { .. } => {
            cut_all(stamps, guide);
            Ok(())
        }
    }
}

// Tells all entries to a guide of a protocol with the setup's plan. Gives the stamps of each role's events that are
// kept then.
fn tell_all(
    alloc: Global,
    setup: &Setup,
    guide: &mut Guide,
    entries: &[Entry],
) -> Result<Stamps, RetellError>
    requires few { length entries.now < 2 ^ 31 }
    requires fresh { guide.old ≡ opened guide.old.protocol setup.now.plan (length entries.now) }
    ensures retold { OnOk result (IsRetold (terms_for (with_protocol setup.now guide.old.protocol)) entries.now) }
    ensures stamps { IfOk result (λ stamps. HasStamps (with_protocol setup.now guide.old.protocol) entries.now
        (lists_in stamps.items)) }
    ensures protocol { OnOk result (guide.new.protocol ≡ guide.old.protocol) }
    ensures memory { OnOk result (IsMemory guide.new
        (told (terms_for (with_protocol setup.now guide.old.protocol)) entries.now)) }
    ensures wrong { IfErr result (λ e. (k : ℕ) → e ≡ RetellError.Entry k
        → IsFirstUntold (terms_for (with_protocol setup.now guide.old.protocol)) entries.now k) }
{
    let mut stamps = no_stamps(alloc, guide.roles())?;
    for (number, entry) in entries.iter().enumerate() {
        if !tell(guide, entry) {
            return Err(RetellError::Entry(number as u32));
        }
        follow(&mut stamps, guide, entry)?;
    }
    Ok(stamps)
}

/// The record of a told journal of fewer than 2^31 entries. It is told to a guide of the session with room for them,
/// and the guide has them all then. `Entry` comes exactly if one of them may not be told as it stands after those
/// before it. `Memory` comes if memory runs out.
pub fn retell<'a>(
    alloc: Global,
    setup: &'a Setup,
    guide: &mut Guide,
    entries: &'a [Entry],
) -> Result<Record<'a>, RetellError>
    requires few { length entries.now < 2 ^ 31 }
    requires fresh { guide.old ≡ opened guide.old.protocol setup.now.plan (length entries.now) }
    requires same { HasSameText guide.old.protocol setup.now.protocol }
    ensures setup { IfOk result (λ made. made.setup ≡ setup.now) }
    ensures entries { IfOk result (λ made. made.entries ≡ entries.now) }
    ensures kept { IfOk result (λ made. HasKept made (told (terms_for setup.now) entries.now).held) }
    ensures retold { OnOk result (IsRetold (terms_for setup.now) entries.now) }
    ensures protocol { OnOk result (HasSameText guide.new.protocol setup.now.protocol) }
    ensures memory { OnOk result (IsMemory guide.new (told (terms_for setup.now) entries.now)) }
    ensures wrong { IfErr result (λ e. (k : ℕ) → e ≡ RetellError.Entry k
        → IsFirstUntold (terms_for setup.now) entries.now k) }
{
    let stamps = tell_all(alloc, setup, guide, entries)?;
    // Tells the proof that the protocol is accepted.
    let _protocol = setup.protocol();
    let undone = undone_of(alloc, &stamps, entries)?;
    Ok(Record::new(setup, entries, undone))
}
