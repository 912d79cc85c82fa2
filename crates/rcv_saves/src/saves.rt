// The saves of a session's roles.

ghost use Rattle.std.specs.Prelude.{◌≡◌, ◌<◌, ◌≤◌, IfOk, OnOk, OnErr, length};
ghost use Rattle.rcv_saves.specs.Counts.{IsAscending, IsLastTold, IsLastStepped, with_count, up_to, above};
ghost use Rattle.rcv_saves.specs.Saves.{opened, told_of, with_told, IsLastSaved};

use crate::counts::{add, drop_above, drop_up_to, many_up_to};
use rcv_tree::role::RoleId;
use std::alloc::{AllocError, Global};
use std::marker::Model;

/// After which counts of its events each role has saved its state: after each multiple of its step, if it has one, and
/// after those that were told of it.
#[derive(Drop)]
pub struct Saves {
    // For each role its step, or 0 if it has none; and what was told of it.
    steps: Vec<u32>,
    told: Vec<Vec<u64>>,
}

impl Model for Saves {
    ghost use Rattle.rcv_tree.specs.Lists.{lists_in};
    ghost use Rattle.rcv_saves.specs.Saves.{SavesView, saves_of, AreSaves};

    ghost Value = { SavesView };

    ghost view = { λ a. saves_of a.steps.items (lists_in a.told.items) };

    ghost invariant = { λ a. AreSaves (saves_of a.steps.items (lists_in a.told.items)) };
}

impl Saves {
    /// The saves of roles with these steps, before any is told. Fails if memory runs out.
    pub fn new(alloc: Global, steps: &[u32]) -> Result<Saves, AllocError>
        ensures { IfOk result (λ saves. saves ≡ opened steps.now) }
    {
        let mut own = Vec::new(alloc);
        own.extend_from_slice(steps)?;
        let mut told = Vec::new(alloc);
        for _role in 0..steps.len() {
            told.push(Vec::new(alloc))?;
        }
        Ok(Saves { steps: own, told })
    }

    /// Tells that a role has saved its state after this count. Telling it twice is like telling it once. Fails if
    /// memory runs out; then all is as before.
    pub fn save(&mut self, role: RoleId, count: u64) -> Result<(), AllocError>
        requires { role < length self.old.steps }
        ensures ok { OnOk result (self.new ≡ with_told self.old role (with_count count (told_of self.old role))) }
        ensures err { OnErr result (self.new ≡ self.old) }
    {
        add(&mut self.told[role.0 as usize], count)
    }

    /// The counts after which a role has saved its state, as it was told: ascending, without those that were dropped.
    pub fn told(&self, role: RoleId) -> &[u64]
        requires { role < length self.now.steps }
        ensures { result.now ≡ told_of self.now role }
    {
        self.told[role.0 as usize].as_slice()
    }

    /// The greatest count up to this one after which a role has saved its state, given that it has saved it after the
    /// base. It takes no memory.
    pub fn last(&self, role: RoleId, base: u64, count: u64) -> u64
        requires role { role < length self.now.steps }
        requires base { base ≤ count }
        ensures { IsLastSaved self.now role base count result }
    {
        let told = last_told(self.told[role.0 as usize].as_slice(), base, count);
        told.max(last_stepped(self.steps[role.0 as usize], base, count))
    }

    /// Drops what was told of a role above a count: it goes back to there. It takes no memory.
    pub fn cut(&mut self, role: RoleId, count: u64)
        requires { role < length self.old.steps }
        ensures { self.new ≡ with_told self.old role (up_to count (told_of self.old role)) }
    {
        drop_above(&mut self.told[role.0 as usize], count);
    }

    /// Drops what was told of a role up to a base, and the base too: nobody goes back further. It takes no memory.
    pub fn forget(&mut self, role: RoleId, base: u64)
        requires { role < length self.old.steps }
        ensures { self.new ≡ with_told self.old role (above base (told_of self.old role)) }
    {
        drop_up_to(&mut self.told[role.0 as usize], base);
    }
}

// The greatest of ascending counts that is from the base on and at most this one, or the base if there is none.
fn last_told(told: &[u64], base: u64, count: u64) -> u64
    requires told { IsAscending told.now }
    requires base { base ≤ count }
    ensures { IsLastTold told.now base count result }
{
    let many = many_up_to(told, count);
    if many == 0 {
        return base;
    }
    base.max(told[many - 1])
}

// The greatest multiple of the step that is from the base on and at most this count, or the base if there is none.
fn last_stepped(step: u32, base: u64, count: u64) -> u64
    requires { base ≤ count }
    ensures { IsLastStepped step base count result }
{
    if step == 0 {
        return base;
    }
    base.max(count - count % u64::from(step))
}
