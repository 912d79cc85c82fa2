// The stable line of a session, found from the ends of the logs.

ghost use Rattle.std.specs.Prelude.{◌≡◌, ◌+◌, ◌<◌, ◌≤◌, ◌^◌, ℕ, MatchOption, length, slice_index};
ghost use Rattle.rcv_points.specs.Follow.{net_in};
ghost use Rattle.rcv_depend.specs.Logs.{AreSound, AreFew, AreOfEvents};
ghost use Rattle.rcv_ledger.specs.Ledger.{AreCarried};
ghost use Rattle.rcv_depend.specs.Cuts.{IsCounted};
ghost use Rattle.rcv_guide.specs.Line.{AreNumbered, AreSavedCounts, AreBehindSeeds, GoesBackTo, IsLastCount, IsLineIn, ReachSeeds};

use crate::numbers::Numbers;
use rcv_depend::cut::Counted;
use rcv_ledger::ledger::Ledger;
use rcv_points::points::Points;
use rcv_saves::saves::Saves;
use rcv_tree::role::RoleId;

/// How many of each role's logged events after its seeds no failure takes back. These are the greatest counts after
/// which each role has saved its state, such that nothing is received within them that is sent outside; 0 for a role
/// without a log. It takes no memory.
///
/// It begins with all events, and takes some off the ends of the logs: a role that hasn't saved its state at its count
/// goes back to a count where it has. If a channel then owes a message, its receiver goes back.
pub fn line(numbers: &[Numbers], ledger: &Ledger, points: &Points, saves: &Saves) -> [u32; 8]
    requires carried { AreCarried (net_in points.now) ledger.now.logs ledger.now.channels }
    requires few { AreFew ledger.now.logs }
    requires logs { AreOfEvents (net_in points.now) ledger.now.logs }
    requires numbered { AreNumbered (net_in points.now) ledger.now.logs numbers.now }
    requires steps { length ledger.now.logs ≤ length saves.now.steps }
    ensures { IsLineIn (net_in points.now) ledger.now.logs numbers.now saves.now result }
{
    let mut counted = Counted::all(ledger, points);
    counted.settle(ledger, points);
    while let Some(back) = unsaved(&counted.counts, numbers, saves) {
        lower_to(&mut counted, ledger, points, back.role, back.count);
        counted.settle(ledger, points);
    }
    behind_seeds(&counted.counts, numbers)
}

// A role that goes back, and the count that it goes back to.
#[derive(Clone, Copy)]
struct Back {
    role: usize,
    count: u32,
}

// The first role that hasn't saved its state at its count, and the count that it goes back to; none if each has.
fn unsaved(counts: &[u32; 8], numbers: &[Numbers], saves: &Saves) -> Option<Back>
    requires eight { length numbers.now ≤ 8 }
    requires steps { length numbers.now ≤ length saves.now.steps }
    requires seeds { ReachSeeds numbers.now counts.now }
    ensures { MatchOption result (AreSavedCounts numbers.now saves.now counts.now)
        (λ back. GoesBackTo numbers.now saves.now counts.now back.role back.count) }
{
    for role in 0..numbers.len() {
        let count = last_saved(numbers[role], RoleId(role as u8), counts[role], saves);
        if count < counts[role] {
            return Some(Back { role, count });
        }
    }
    None
}

// The greatest count of logged events up to this one after which a role has saved its state.
fn last_saved(own: Numbers, role: RoleId, count: u32, saves: &Saves) -> u32
    requires role { role < length saves.now.steps }
    requires seeds { own.seeds ≤ count }
    requires few { own.forgotten + count < 2 ^ 64 }
    ensures { IsLastCount own saves.now role count result }
{
    let made = own.forgotten + (count - own.seeds) as u64;
    own.seeds + (saves.last(role, own.forgotten, made) - own.forgotten) as u32
}

// Lowers a role to a count.
fn lower_to(counted: &mut Counted, ledger: &Ledger, points: &Points, role: usize, count: u32)
    requires few { length ledger.now.logs ≤ 8 }
    requires sound { AreSound (net_in points.now) ledger.now.logs }
    requires counted { IsCounted (net_in points.now) ledger.now.logs counted.old }
    requires role { role < length ledger.now.logs }
    requires less { count < slice_index counted.old.counts role }
    ensures counted { IsCounted (net_in points.now) ledger.now.logs counted.new }
    ensures there { slice_index counted.new.counts role ≡ count }
    ensures others { (r : ℕ) → (r ≡ role → ⊥) → slice_index counted.new.counts r ≡ slice_index counted.old.counts r }
{
    while counted.counts[role] > count {
        counted.lower(ledger, points, role);
    }
}

// The counts without the seeds; 0 for a role without numbers.
fn behind_seeds(counts: &[u32; 8], numbers: &[Numbers]) -> [u32; 8]
    requires eight { length numbers.now ≤ 8 }
    requires seeds { ReachSeeds numbers.now counts.now }
    ensures { AreBehindSeeds numbers.now counts.now result }
{
    let mut behind = [0; 8];
    for role in 0..numbers.len() {
        behind[role] = counts[role] - numbers[role].seeds;
    }
    behind
}
