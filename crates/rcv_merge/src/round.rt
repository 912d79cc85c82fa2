// The order of a round: of all logs, the entry that comes first by its stamp is merged next.

ghost use Rattle.std.specs.Prelude.{◌≡◌, ◌<◌, ◌≤◌, ◌+◌, ◌^◌, length, slice_index, slice_index_or};
ghost use Rattle.std.specs.Prelude.{slice_get, slice_set};
ghost use Rattle.std.specs.Prelude.{All, MatchOption, OnOk, None};
ghost use Rattle.rcv_theory.specs.Round.{NeverFalls};
ghost use Rattle.rcv_merge.specs.Merge.{lent_logs, nobody, next_at, stamp_of, AreStamps, AreStampsOf, IsMergeOf, HasLeft};
ghost use Rattle.rcv_merge.specs.Merge.{IsFront, IsFrontOf, AreDry, IsFirstOfBoth};

use rcv_tree::entry::{Entry, Timed};
use std::alloc::AllocError;

// So many roles have a log at most.
const ROLES: usize = 8;

// A role, and the stamp of its next entry.
#[derive(Clone, Copy)]
struct Front {
    role: usize,
    stamp: u64,
}

/// The entries of these logs, each once: by stamp, then role, then position in the role's log. There is one log for
/// each of at most eight roles, and in none of them do stamps fall. The entries come into a list, instead of what is
/// in it. Fails if memory runs out.
pub fn merge_round(logs: &[&[Timed]], merged: &mut Vec<Entry>) -> Result<(), AllocError>
    requires few { length logs.now ≤ 8 }
    requires rise { All NeverFalls (lent_logs logs.now) }
    ensures { OnOk result (IsMergeOf (lent_logs logs.now) merged.new.items) }
{
    merged.clear();
    merged.reserve(count_of(logs))?;
    let mut heads = [0; ROLES];
    let mut stamps = first_stamps(logs);
    while let Some(front) = first(&stamps) {
        let entry = take(logs, &mut heads, &mut stamps, front.role);
        merged.push(entry)?;
    }
    Ok(())
}

// How many entries the logs have, which says how much to reserve.
fn count_of(logs: &[&[Timed]]) -> usize {
    let mut count: usize = 0;
    for log in logs {
        count = count.saturating_add(log.len());
    }
    count
}

// The stamp of an entry, if the log has so many.
fn stamp_at(log: &[Timed], place: usize) -> Option<u64>
    ensures { result ≡ stamp_of (slice_get log.now place) }
{
    match log.get(place) {
        Some(timed) => Some(timed.stamp),
        None => None,
    }
}

// The entry at a place of the log; there is a place after it, too.
fn entry_at(log: &[Timed], place: usize) -> Entry
    requires { place < length log.now }
    ensures entry { result ≡ (slice_index_or log.now place nobody).step }
    ensures behind { place + 1 < 2 ^ 64 }
{
    log[place].step
}

// The stamps of the first entries.
fn first_stamps(logs: &[&[Timed]]) -> [Option<u64>; ROLES]
    requires { length logs.now ≤ 8 }
    ensures { AreStampsOf (lent_logs logs.now) (length logs.now) result }
{
    let mut stamps = [None; ROLES];
    for role in 0..logs.len() {
        stamps[role] = stamp_at(logs[role], 0);
    }
    stamps
}

// The next entry of a role. Afterwards its head stands after that entry.
fn take(
    logs: &[&[Timed]],
    heads: &mut [usize; ROLES],
    stamps: &mut [Option<u64>; ROLES],
    role: usize,
) -> Entry
    requires role { (role < length logs.now) × (role < 8) }
    requires left { HasLeft (lent_logs logs.now) heads.old role }
    requires stamps { AreStamps (lent_logs logs.now) heads.old stamps.old }
    ensures heads { heads.new ≡ slice_set heads.old role (slice_index heads.old role + 1) }
    ensures stamps { AreStamps (lent_logs logs.now) heads.new stamps.new }
    ensures entry { result ≡ (next_at (lent_logs logs.now) heads.old role).step }
{
    let log = logs[role];
    let place = heads[role];
    let entry = entry_at(log, place);
    heads[role] = place + 1;
    stamps[role] = stamp_at(log, place + 1);
    entry
}

// The role whose next entry is the first of all. None if no role has one.
fn first(stamps: &[Option<u64>; ROLES]) -> Option<Front>
    ensures { MatchOption result (AreDry stamps.now 8) (IsFront stamps.now) }
{
    let mut best: Option<Front> = None;
    for role in 0..ROLES {
        if let Some(stamp) = stamps[role] {
            best = Some(first_of(best, Front { role, stamp }));
        }
    }
    best
}

// The one of two that comes first: the former, if they have one stamp.
fn first_of(former: Option<Front>, latter: Front) -> Front
    ensures { IsFirstOfBoth former latter result }
{
    match former {
        Some(front) if front.stamp <= latter.stamp => front,
        _ => latter,
    }
}
