// The counts at which the crash lines so far let each role crash.

ghost use Rattle.std.specs.Prelude.{◌≡◌, ◌<◌, ◌==◌, ◌&&◌, ◌||◌, ℕ, length, false, OnOk, OnErr};
ghost use Rattle.rcv_plan.specs.CrashCounts.{crashes_at};

use rcv_tree::role::{RoleId, RoleSet};
use std::alloc::{AllocError, Global};
use std::marker::Model;

/// For each count the roles that crash at it, so that one is found without a search. It holds a byte for each count up
/// to the greatest one so far: at most 100,001 bytes, if counts go up to 100,000.
#[derive(Drop)]
pub struct CrashCounts {
    sets: Vec<RoleSet>,
}

impl Model for CrashCounts {
    ghost use Rattle.std.specs.Prelude.{List};
    ghost use Rattle.rcv_tree.specs.declared.role.RoleSet.{RoleSet};

    ghost Value = { List RoleSet };

    ghost view = { λ a. a.sets.items };
}

impl CrashCounts {
    /// No role crashes. It keeps the allocator, and takes no memory.
    pub fn new(alloc: Global) -> Self
        ensures { (r n : ℕ) → crashes_at r n result ≡ false }
    {
        CrashCounts {
            sets: Vec::new(alloc),
        }
    }

    /// Whether this role crashes at this count. It takes the same time however many counts there are.
    pub fn has(&self, role: RoleId, number: u32) -> bool
        requires { role < 8 }
        ensures { result ≡ crashes_at role number self.now }
    {
        match self.sets.get(number as usize) {
            Some(set) => set.has(role),
            None => false,
        }
    }

    /// Lets this role crash at this count. Fails if memory runs out; then it is as before.
    pub fn add(&mut self, role: RoleId, number: u32) -> Result<(), AllocError>
        requires { role < 8 }
        ensures ok { OnOk result ((r n : ℕ) → r < 8
            → crashes_at r n self.new ≡ (crashes_at r n self.old || (role == r && number == n))) }
        ensures err { OnErr result (self.new ≡ self.old) }
    {
        reach(&mut self.sets, number)?;
        let place = number as usize;
        self.sets[place] = self.sets[place].with(role);
        Ok(())
    }
}

// Makes the list hold this count. Counts that it didn't hold get no roles.
fn reach(sets: &mut Vec<RoleSet>, number: u32) -> Result<(), AllocError>
    ensures same { OnOk result ((r n : ℕ) → crashes_at r n sets.new.items ≡ crashes_at r n sets.old.items) }
    ensures holds { OnOk result (number < length sets.new.items) }
    ensures err { OnErr result (sets.new.items ≡ sets.old.items) }
{
    if (number as usize) < sets.len() {
        return Ok(());
    }
    sets.resize(number as usize + 1, RoleSet(0))
}
