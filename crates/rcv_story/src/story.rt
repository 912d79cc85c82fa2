// The story of a journal: what its Recovers do, and what becomes of its messages.

ghost use Rattle.std.specs.Prelude.{◌≡◌, ◌↔◌, ◌<◌, ℕ, List, IsTrue, IfOk, MatchOption, slice_index_or, None};
ghost use Rattle.rcv_tree.specs.declared.entry.Entry.{Entry as TheEntry};
ghost use Rattle.rcv_session.specs.Session.{net_for};
ghost use Rattle.rcv_fates.specs.Fates.{IsMessage};
ghost use Rattle.rcv_fates.specs.Record.{RecordView};
ghost use Rattle.rcv_story.specs.Messages.{IsAgain};
ghost use Rattle.rcv_story.specs.Recoveries.{GoesBack, IsRecovery};
ghost use Rattle.rcv_story.specs.Story.{IsStory};

use crate::messages::{dropped_of, waiting_of};
use crate::met::met_of;
use crate::receipts::{again_of, sends_of};
use crate::undoing::undoing_of;
use rcv_fates::{Record, arrows};
use rcv_tree::role::RoleId;
use std::alloc::{AllocError, Global};

/// What one Recover does. Places of entries count from 0.
#[derive(Clone, Copy, Debug, PartialEq, Eq)]
pub struct Recovery {
    /// The Recover.
    pub place: u32,
    /// The latest Crash of its role, which it answers; none if the role hasn't crashed before.
    pub crash: Option<u32>,
    /// For each role the first event that it loses; none if it loses none.
    pub firsts: [Option<u32>; 8],
    /// For each role the last event that it keeps; none if it keeps none.
    pub lasts: [Option<u32>; 8],
}

/// A message that a Recover takes from its channel: its Send is undone, and nobody had received it.
#[derive(Clone, Copy, Debug, PartialEq, Eq)]
pub struct Dropped {
    pub send: u32,
    pub recover: u32,
}

/// What happens in the entries of a journal. Places of entries count from 0.
#[derive(Drop)]
pub struct Story {
    /// For each entry whether it receives a message again.
    pub again: Vec<bool>,
    /// For each entry the Send whose message it receives; none if it receives none.
    pub sends: Vec<Option<u32>>,
    /// The recoveries, in order.
    pub recoveries: Vec<Recovery>,
    /// The messages that Recovers take from channels, in the order of their Sends.
    pub dropped: Vec<Dropped>,
    /// The Sends whose messages lie in channels at the end, in order.
    pub waiting: Vec<u32>,
}

impl Recovery {
    /// Whether a role, below 8, loses events. Then it goes back; else it stays.
    pub fn goes_back(&self, role: RoleId) -> bool
        requires { role < 8 }
        ensures { (entries : List TheEntry) → IsRecovery entries self.now → IsTrue result ↔ GoesBack entries self.now.place role }
    {
        self.firsts[role.0 as usize].is_some()
    }
}

impl Story {
    /// The Send whose message the entry at a place receives; none if it receives none.
    pub fn send_of(&self, place: u32) -> Option<u32>
        ensures { (r : RecordView) → IsStory r self.now
            → MatchOption result ((s : ℕ) → IsMessage (net_for r.setup) r.entries s place → ⊥)
            (λ s. IsMessage (net_for r.setup) r.entries s place) }
    {
        self.sends.get(place as usize).copied().flatten()
    }

    /// Whether the entry at a place receives a message that was received before.
    pub fn is_again(&self, place: u32) -> bool
        ensures { (r : RecordView) → IsStory r self.now → IsTrue result ↔ IsAgain (net_for r.setup) r.entries place }
    {
        self.again.get(place as usize).copied().unwrap_or(false)
    }
}

/// The story of a journal. It takes memory for each entry. For each Recv it takes time that grows with the logarithm of
/// how many Sends its sender has made. Fails if memory runs out.
pub fn story_of(alloc: Global, record: &Record<'_>) -> Result<Story, AllocError>
    ensures { IfOk result (λ story. IsStory record.now story) }
{
    let found = undoing_of(alloc, record)?;
    let arrows = arrows(alloc, record)?;
    let met = met_of(alloc, record, arrows.as_slice(), found.undone.as_slice())?;
    let again = again_of(alloc, record, arrows.as_slice())?;
    let sends = sends_of(alloc, record, arrows.as_slice())?;
    let dropped = dropped_of(alloc, record, found.undone.as_slice(), met.as_slice())?;
    let waiting = waiting_of(alloc, record, found.undone.as_slice(), met.as_slice())?;
    Ok(Story {
        again,
        sends,
        recoveries: found.recoveries,
        dropped,
        waiting,
    })
}
