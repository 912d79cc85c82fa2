// What the Recovers undo, in one pass: each event is put on its role's stack once, and taken from it at most once.

ghost use Rattle.std.specs.Prelude.{◌≡◌, ◌<◌, ℕ, length, drop, IfOk};
ghost use Rattle.rcv_model.specs.Net.{IsIn};
ghost use Rattle.rcv_tree.specs.Lists.{lists_in};
ghost use Rattle.rcv_story.specs.Stacks.{stack_at, left_count, AreMarked, IsTaken, IsUndoing};

use crate::stacks::{Stacks, cut, firsts_of, lasts_of, left_of, no_stacks, put};
use crate::story::Recovery;
use rcv_fates::Record;
use rcv_tree::entry::Entry;
use rcv_tree::role::{RoleId, RoleSet};
use std::alloc::{AllocError, Global};

/// What the Recovers undo.
#[derive(Drop)]
pub struct Undoing {
    /// For each entry the Recover that undoes it.
    pub undone: Vec<Option<u32>>,
    /// The recoveries, in order.
    pub recoveries: Vec<Recovery>,
}

// Marks these places with a Recover.
fn mark(undone: &mut Vec<Option<u32>>, places: &[u32], recover: u32)
    requires { (p : ℕ) → IsIn p places.now → p < length undone.old.items }
    ensures { AreMarked (λ p. IsIn p places.now) recover undone.old.items undone.new.items }
{
    for place in places {
        undone[*place as usize] = Some(recover);
    }
}

// Marks the events that a Recover takes from these stacks.
fn undo(
    undone: &mut Vec<Option<u32>>,
    stacks: &Stacks,
    concerned: RoleSet,
    kept: &[u32; 8],
    recover: u32,
)
    requires eight { length stacks.now.items ≡ 8 }
    requires within { (r p : ℕ) → r < 8 → IsIn p (stack_at (lists_in stacks.now.items) r) → p < length undone.old.items }
    ensures { AreMarked (IsTaken concerned kept.now (lists_in stacks.now.items) 8) recover undone.old.items undone.new.items }
{
    for role in 0..8 {
        let stack = stacks[role as usize].as_slice();
        let left = left_of(stack.len(), concerned, kept, RoleId(role));
        mark(undone, &stack[left..], recover);
    }
}

/// What the Recovers of a journal undo. Fails if memory runs out.
pub fn undoing_of(alloc: Global, record: &Record<'_>) -> Result<Undoing, AllocError>
    ensures { IfOk result (λ found. IsUndoing record.now.entries found) }
{
    let mut stacks = no_stacks(alloc)?;
    let mut crashes = [None; 8];
    let mut undone = Vec::new(alloc);
    let mut recoveries = Vec::new(alloc);
    for (place, entry) in record.entries().iter().enumerate() {
        let here = place as u32;
        undone.push(None)?;
        match entry {
            Entry::Send(event) => put(&mut stacks, event.role, here)?,
            Entry::Recv(event) => put(&mut stacks, event.role, here)?,
            Entry::Crash(role) => {
                crashes[role.0 as usize] = Some(here);
            }
            Entry::Recover {
                role,
                concerned,
                kept,
                undone: _,
            } => {
                let firsts = firsts_of(&stacks, *concerned, kept);
                undo(&mut undone, &stacks, *concerned, kept, here);
                cut(&mut stacks, *concerned, kept);
                let lasts = lasts_of(&stacks);
                recoveries.push(Recovery {
                    place: here,
                    crash: crashes[role.0 as usize],
                    firsts,
                    lasts,
                })?;
            }
        }
    }
    Ok(Undoing { undone, recoveries })
}
