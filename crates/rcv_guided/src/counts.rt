// How many events each role keeps, has saved, and can't lose.

ghost use Rattle.std.specs.Prelude.{◌≡◌, ◌+◌, ◌<◌, ◌≤◌, ℕ, length, slice_index, All};
ghost use Rattle.rcv_ledger.specs.Logs.{log_at};
ghost use Rattle.rcv_guide.specs.Numbers.{numbers_at};
ghost use Rattle.rcv_guide.specs.Guide.{roles_of, HaveSavedEnough};
ghost use Rattle.rcv_guided.specs.Session.{roles_in, made_in};
ghost use Rattle.rcv_guided.specs.Counts.{AreStableCounts};
ghost use Rattle.rcv_guided.specs.Failures.{told_count, is_told_below, first_below, IsSavedCount, HaveSaved};
ghost use Rattle.rcv_guided.specs.Taking.{AreEnough};

use crate::session::GuidedSession;
use rcv_dialogue::few::{Failed, Kept};
use rcv_guide::guide::Guide;
use rcv_tree::role::RoleId;

/// How many events a declared role keeps, forgotten ones too.
pub fn made(guide: &Guide, role: RoleId) -> u64
    requires { role < roles_of guide.now }
    ensures { result ≡ made_in guide.now role }
{
    // Tells the proof that the guide has a memory.
    let _roles = guide.roles();
    guide.made(role)
}

/// How many events each declared role keeps; 0 of others.
pub fn all_made(guide: &Guide) -> [u64; 8]
    ensures all { (r : ℕ) → r < roles_of guide.now → slice_index result r ≡ made_in guide.now r }
    ensures eight { length result ≡ 8 }
{
    let mut all = [0; 8];
    for role in 0..guide.roles() {
        all[role as usize] = made(guide, RoleId(role));
    }
    all
}

// So many events of a declared role, with those that are forgotten.
fn with_forgotten(guide: &Guide, role: RoleId, count: u32) -> u64
    requires role { role < roles_of guide.now }
    requires held { (numbers_at guide.now.numbers role).seeds + count ≤ length (log_at guide.now.logs role) }
    ensures { result ≡ (numbers_at guide.now.numbers role).forgotten + count }
{
    // Tells the proof that this can be counted: it is no more than the role made.
    let _made = made(guide, role);
    guide.forgotten(role) + count as u64
}

// The count that is told of a role, if one is.
fn told_count(failed: &[Failed], role: RoleId) -> Option<u64>
    ensures { result ≡ told_count failed.now role }
{
    for one in failed {
        if one.role == role {
            return one.count;
        }
    }
    None
}

// Whether the told count is below this line.
fn is_told_below(line: u64, count: Option<u64>) -> bool
    ensures { result ≡ is_told_below line count }
{
    match count {
        Some(count) => count < line,
        None => false,
    }
}

/// The first role of these, which are below 8, whose told count is below its line, with the line.
pub fn first_below(stable: &[u64; 8], failed: &[Failed]) -> Option<Kept>
    requires { All (λ f. f.role < 8) failed.now }
    ensures { result ≡ first_below (slice_index stable.now) failed.now }
{
    for one in failed {
        let line = stable[one.role.0 as usize];
        if is_told_below(line, one.count) {
            return Some(Kept {
                role: one.role,
                count: line,
            });
        }
    }
    None
}

impl GuidedSession {
    /// How many events of each role are stable, forgotten ones too; 0 of a role that isn't declared.
    pub(crate) fn stable(&self) -> [u64; 8]
        ensures { AreStableCounts self.now result }
    {
        let line = self.guide.line(&self.saves);
        let mut stable = [0; 8];
        for role in 0..self.guide.roles() {
            stable[role as usize] = with_forgotten(&self.guide, RoleId(role), line[role as usize]);
        }
        stable
    }

    // After how many events a declared role has saved its state: the told count, or the greatest known one.
    fn saved_by(&self, failed: &[Failed], role: RoleId) -> u64
        requires { role < roles_in self.now }
        ensures { IsSavedCount self.now role (told_count failed.now role) result }
    {
        match told_count(failed, role) {
            Some(count) => count,
            None => self
                .saves
                .last(role, self.guide.forgotten(role), made(&self.guide, role)),
        }
    }

    /// After how many events each declared role has saved its state, by what is told of some roles.
    pub(crate) fn saved(&self, failed: &[Failed]) -> [u64; 8]
        ensures counts { HaveSaved self.now failed.now result }
        ensures enough { AreEnough self.now failed.now → (p : ℕ) → HaveSavedEnough self.now.guide p result }
    {
        let mut saved = [0; 8];
        for role in 0..self.guide.roles() {
            saved[role as usize] = self.saved_by(failed, RoleId(role));
        }
        saved
    }
}
