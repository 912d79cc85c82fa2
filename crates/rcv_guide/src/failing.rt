// What the failure of a group of roles leaves, read off the ledger.

ghost use Rattle.std.specs.Prelude.{◌≡◌, ℕ, ◌+◌, ◌-◌, ◌<◌, ◌≤◌, ◌^◌, length, slice_get, slice_index, true, if◌then◌else◌};
ghost use Rattle.rcv_tree.specs.Bits.{has_bit};
ghost use Rattle.rcv_ledger.specs.Logs.{log_at};
ghost use Rattle.rcv_guide.specs.Numbers.{numbers_at};
ghost use Rattle.rcv_tree.specs.Events.{point_or_none};
ghost use Rattle.rcv_guide.specs.Failing.{HaveLogs, AreKeeps, logged_of, first_lost, AreStartsOf};
ghost use Rattle.rcv_guide.specs.Failing.{AreMade, AreCountsOf, all_events, within_counts};

use crate::numbers::{Numbers, ROLES};
use rcv_depend::keeps::Keeps;
use rcv_ledger::ledger::Ledger;
use rcv_tree::role::{RoleId, RoleSet};

/// How many of its logged events each role of a failed group keeps, if it has saved so many of all its events. It
/// takes no memory.
pub fn keeps(numbers: &[Numbers], ledger: &Ledger, group: RoleSet, saved: &[u64; 8]) -> Keeps
    requires logs { HaveLogs group.0 ledger.now.logs }
    requires same { length numbers.now ≡ length ledger.now.logs }
    ensures { AreKeeps numbers.now ledger.now.logs group.0 saved.now result }
{
    let mut keep = [0; 8];
    for role in 0..ROLES {
        keep[role] = keep_by(numbers, ledger, group, saved, RoleId(role as u8));
    }
    Keeps {
        failed: group,
        keep,
    }
}

// How many of its logged events a role of the group keeps. No caller uses the answer for another role.
fn keep_by(
    numbers: &[Numbers],
    ledger: &Ledger,
    group: RoleSet,
    saved: &[u64; 8],
    role: RoleId,
) -> u32
    requires logs { HaveLogs group.0 ledger.now.logs }
    requires same { length numbers.now ≡ length ledger.now.logs }
    requires role { role < 8 }
    ensures { has_bit group.0 role ≡ true → result ≡ logged_of numbers.now ledger.now.logs saved.now role }
{
    if !group.has(role) {
        return 0;
    }
    logged(numbers, ledger, saved, role)
}

// How many logged events of a role are among its first so many.
fn logged(numbers: &[Numbers], ledger: &Ledger, saved: &[u64; 8], role: RoleId) -> u32
    requires few { length ledger.now.logs ≤ 8 }
    requires role { role < length ledger.now.logs }
    requires count { length (log_at ledger.now.logs role) < 2 ^ 32 }
    requires same { length numbers.now ≡ length ledger.now.logs }
    ensures { result ≡ logged_of numbers.now ledger.now.logs saved.now role }
{
    let own = numbers[role.0 as usize];
    let made = ledger.made(role) as u64;
    let behind = saved[role.0 as usize]
        .saturating_sub(own.forgotten)
        .min(made);
    (behind + own.seeds as u64).min(made) as u32
}

/// The starts of the failed roles: the point of the first event that a role hasn't saved; 0 if it has saved all. It
/// takes no memory.
pub fn starts(ledger: &Ledger, keeps: &Keeps) -> [u16; 8]
    requires { HaveLogs keeps.now.failed.0 ledger.now.logs }
    ensures { AreStartsOf ledger.now.logs keeps.now result }
{
    let mut starts = [0; 8];
    for role in 0..ROLES {
        starts[role] = start_by(ledger, keeps, RoleId(role as u8));
    }
    starts
}

// The start of a role; 0 for one that didn't fail.
fn start_by(ledger: &Ledger, keeps: &Keeps, role: RoleId) -> u16
    requires logs { HaveLogs keeps.now.failed.0 ledger.now.logs }
    requires role { role < 8 }
    ensures { result ≡ first_lost ledger.now.logs keeps.now role }
{
    if !keeps.failed.has(role) {
        return 0;
    }
    start(ledger, role, keeps.keep[role.0 as usize])
}

// The point of a role's first event after so many; 0 if there is none.
fn start(ledger: &Ledger, role: RoleId, count: u32) -> u16
    requires { role < length ledger.now.logs }
    ensures { result ≡ point_or_none (slice_get (log_at ledger.now.logs role) count) }
{
    let number = count as usize;
    if number >= ledger.made(role) {
        return 0;
    }
    ledger.event(role, number).point.0
}

/// How many of all its events each role keeps, if so many of the logged ones are left; 0 for a role without a log. It
/// takes no memory.
pub fn made(numbers: &[Numbers], counts: &[u32; 8]) -> [u64; 8]
    requires few { length numbers.now ≤ 8 }
    requires seeds { (r : ℕ) → r < length numbers.now → (numbers_at numbers.now r).seeds ≤ slice_index counts.now r }
    requires fits { (r : ℕ) → r < length numbers.now
        → (numbers_at numbers.now r).forgotten + slice_index counts.now r < 2 ^ 64 }
    ensures { AreMade numbers.now counts.now result }
{
    let mut made = [0; 8];
    for role in 0..numbers.len() {
        made[role] = made_by(numbers[role], counts[role]);
    }
    made
}

// How many of all its events a role keeps, if so many of the logged ones are left.
fn made_by(own: Numbers, count: u32) -> u64
    requires seeds { own.seeds ≤ count }
    requires fits { own.forgotten + count < 2 ^ 64 }
    ensures { result ≡ own.forgotten + (count - own.seeds) }
{
    own.forgotten + (count - own.seeds) as u64
}

/// How many events are undone if so many of each role are kept: all that are logged, less those. It takes no memory.
pub fn undone(ledger: &Ledger, counts: &[u32; 8]) -> u32
    requires logs { HaveLogs 0 ledger.now.logs }
    requires counts { AreCountsOf ledger.now.logs counts.now }
    requires few { all_events ledger.now.logs < 2 ^ 32 }
    ensures { result + within_counts ledger.now.logs counts.now ≡ all_events ledger.now.logs }
{
    let mut undone = 0;
    for role in 0..ledger.roles() {
        undone += ledger.made(RoleId(role as u8)) as u32 - counts[role];
    }
    undone
}
