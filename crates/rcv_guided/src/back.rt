// What a session holds of roles that go back: their saves and incarnations.

ghost use Rattle.std.specs.Prelude.{◌≡◌, ◌<◌, ◌≤◌, ◌+◌, ◌^◌, ◌||◌, ℕ, nat_lt, length, slice_index};
ghost use Rattle.rcv_tree.specs.Bits.{has_bit};
ghost use Rattle.rcv_guided.specs.Failures.{AreCut, AreRaised};

use rcv_saves::saves::Saves;
use rcv_tree::role::{RoleId, RoleSet};

/// Who goes back: the roles of the group that failed, and those that keep fewer events than before.
pub fn who_goes_back(group: RoleSet, before: &[u64; 8], kept: &[u64; 8]) -> RoleSet
    ensures { (r : ℕ) → r < 8 → has_bit result.0 r ≡ (has_bit group.0 r || nat_lt (slice_index kept.now r) (slice_index before.now r)) }
{
    let mut back = group;
    for role in 0..8 {
        if kept[role as usize] < before[role as usize] {
            back = back.with(RoleId(role));
        }
    }
    back
}

/// Drops what was told of so many roles' saves above what each keeps.
pub fn cut(saves: &mut Saves, roles: u8, kept: &[u64; 8])
    requires roles { roles ≤ length saves.old.steps }
    requires few { roles ≤ 8 }
    ensures { AreCut saves.old saves.new roles (slice_index kept.now) }
{
    for role in 0..roles {
        saves.cut(RoleId(role), kept[role as usize]);
    }
}

/// Raises the incarnations of the roles that go back.
pub fn raise(incarnations: &mut Vec<u64>, back: RoleSet)
    requires few { length incarnations.old.items ≤ 8 }
    requires low { (r : ℕ) → slice_index incarnations.old.items r + 1 < 2 ^ 64 }
    ensures { AreRaised incarnations.old.items incarnations.new.items (has_bit back.0) }
{
    for role in 0..incarnations.len() {
        if back.has(RoleId(role as u8)) {
            incarnations[role] += 1;
        }
    }
}

/// The incarnations of the declared roles, at most eight.
pub fn copied(incarnations: &[u64]) -> [u64; 8]
    requires { length incarnations.now ≤ 8 }
    ensures { (r : ℕ) → r < length incarnations.now → slice_index result r ≡ slice_index incarnations.now r }
{
    let mut copy = [0; 8];
    for role in 0..incarnations.len() {
        copy[role] = incarnations[role];
    }
    copy
}

/// The roles whose incarnation is higher than before.
pub fn raised(before: &[u64; 8], incarnations: &[u64]) -> RoleSet
    requires { length incarnations.now ≤ 8 }
    ensures { (r : ℕ) → r < length incarnations.now
        → has_bit result.0 r ≡ nat_lt (slice_index before.now r) (slice_index incarnations.now r) }
{
    let mut higher = RoleSet(0);
    for role in 0..incarnations.len() {
        if before[role] < incarnations[role] {
            higher = higher.with(RoleId(role as u8));
        }
    }
    higher
}
