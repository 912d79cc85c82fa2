// For each role the events that it keeps, as a stack of their places.

ghost use Rattle.std.specs.Prelude.{◌≡◌, ◌<◌, ℕ, [], length, replicate, take, slice_get, slice_index_or, None, IfOk, OnOk};
ghost use Rattle.rcv_tree.specs.Lists.{lists_in};
ghost use Rattle.rcv_story.specs.Stacks.{stack_at, with_place, left_count, last_in};

use rcv_tree::role::{RoleId, RoleSet};
use std::alloc::{AllocError, Global};

/// For each role the places of its kept events, in order.
pub type Stacks = Vec<Vec<u32>>;

/// Eight roles that keep nothing. Fails if memory runs out.
pub fn no_stacks(alloc: Global) -> Result<Stacks, AllocError>
    ensures { IfOk result (λ stacks. lists_in stacks.items ≡ replicate 8 []) }
{
    let mut stacks = Vec::new(alloc);
    for _role in 0..8_u8 {
        stacks.push(Vec::new(alloc))?;
    }
    Ok(stacks)
}

/// Adds the place of an event of a role. Fails if memory runs out.
pub fn put(stacks: &mut Stacks, role: RoleId, place: u32) -> Result<(), AllocError>
    requires { role < length stacks.old.items }
    ensures { OnOk result (lists_in stacks.new.items ≡ with_place (lists_in stacks.old.items) role place) }
{
    stacks[role.0 as usize].push(place)?;
    Ok(())
}

/// How many of so many kept events a Recover leaves to a role: as many as it says if it concerns the role, else all.
pub fn left_of(height: usize, concerned: RoleSet, kept: &[u32; 8], role: RoleId) -> usize
    requires { role < 8 }
    ensures { result ≡ left_count concerned kept.now role height }
{
    if !concerned.has(role) {
        return height;
    }
    height.min(kept[role.0 as usize] as usize)
}

/// For each role the first event that a Recover takes from it.
pub fn firsts_of(stacks: &Stacks, concerned: RoleSet, kept: &[u32; 8]) -> [Option<u32>; 8]
    requires { length stacks.now.items ≡ 8 }
    ensures { (r : ℕ) → r < 8 → slice_index_or result r None ≡ slice_get (stack_at (lists_in stacks.now.items) r)
        (left_count concerned kept.now r (length (stack_at (lists_in stacks.now.items) r))) }
{
    let mut firsts = [None; 8];
    for role in 0..8 {
        let stack = &stacks[role as usize];
        let left = left_of(stack.len(), concerned, kept, RoleId(role));
        firsts[role as usize] = stack.get(left).copied();
    }
    firsts
}

/// For each role the last event that it keeps.
pub fn lasts_of(stacks: &Stacks) -> [Option<u32>; 8]
    requires { length stacks.now.items ≡ 8 }
    ensures { (r : ℕ) → r < 8 → slice_index_or result r None ≡ last_in (stack_at (lists_in stacks.now.items) r) }
{
    let mut lasts = [None; 8];
    for role in 0..8 {
        lasts[role] = stacks[role].last().copied();
    }
    lasts
}

/// Leaves to each role what a Recover leaves it.
pub fn cut(stacks: &mut Stacks, concerned: RoleSet, kept: &[u32; 8])
    requires { length stacks.old.items ≡ 8 }
    ensures eight { length stacks.new.items ≡ 8 }
    ensures left { (r : ℕ) → r < 8 → stack_at (lists_in stacks.new.items) r ≡ take
        (left_count concerned kept.now r (length (stack_at (lists_in stacks.old.items) r))) (stack_at (lists_in stacks.old.items) r) }
{
    for role in 0..8 {
        let left = left_of(stacks[role as usize].len(), concerned, kept, RoleId(role));
        stacks[role as usize].truncate(left);
    }
}
