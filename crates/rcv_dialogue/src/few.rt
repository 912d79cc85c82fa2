// Lists of at most eight, which take no memory.

ghost use Rattle.std.specs.Prelude.{◌≡◌, ◌<◌, [], ◌∷◌, ◌++◌, length};

use rcv_tree::role::RoleId;
use std::marker::Model;

// A protocol has no more roles.
const MOST: usize = 8;

/// A role that failed, and how many events it had saved, if that is told.
#[derive(Clone, Copy, Debug, PartialEq, Eq)]
pub struct Failed {
    pub role: RoleId,
    pub count: Option<u64>,
}

/// A role, and how many events it keeps.
#[derive(Clone, Copy, Debug, PartialEq, Eq)]
pub struct Kept {
    pub role: RoleId,
    pub count: u64,
}

/// At most eight roles that failed, in order.
#[derive(Drop)]
pub struct FailedRoles {
    items: [Failed; MOST],
    count: u8,
}

impl Model for FailedRoles {
    ghost use Rattle.std.specs.Prelude.{◌≤◌, List, take};
    ghost use Rattle.rcv_dialogue.specs.declared.few.Failed.{Failed};

    ghost Value = { List Failed };

    ghost view = { λ a. take a.count a.items };

    ghost invariant = { λ a. a.count ≤ 8 };
}

impl FailedRoles {
    /// The list of this one.
    pub fn of(first: Failed) -> FailedRoles
        ensures { result ≡ first ∷ [] }
    {
        FailedRoles {
            items: [first; MOST],
            count: 1,
        }
    }

    /// Adds one at the end.
    pub fn push(&mut self, item: Failed)
        requires { length self.old < 8 }
        ensures { self.new ≡ self.old ++ item ∷ [] }
    {
        self.items[self.count as usize] = item;
        self.count += 1;
    }

    /// All of them.
    pub fn as_slice(&self) -> &[Failed]
        ensures { result.now ≡ self.now }
    {
        &self.items[..self.count as usize]
    }
}

/// At most eight roles and what they keep, in order.
#[derive(Drop)]
pub struct KeptRoles {
    items: [Kept; MOST],
    count: u8,
}

impl Model for KeptRoles {
    ghost use Rattle.std.specs.Prelude.{◌≤◌, List, take};
    ghost use Rattle.rcv_dialogue.specs.declared.few.Kept.{Kept};

    ghost Value = { List Kept };

    ghost view = { λ a. take a.count a.items };

    ghost invariant = { λ a. a.count ≤ 8 };
}

impl KeptRoles {
    /// The list of this one.
    pub fn of(first: Kept) -> KeptRoles
        ensures { result ≡ first ∷ [] }
    {
        KeptRoles {
            items: [first; MOST],
            count: 1,
        }
    }

    /// Adds one at the end.
    pub fn push(&mut self, item: Kept)
        requires { length self.old < 8 }
        ensures { self.new ≡ self.old ++ item ∷ [] }
    {
        self.items[self.count as usize] = item;
        self.count += 1;
    }

    /// All of them.
    pub fn as_slice(&self) -> &[Kept]
        ensures { result.now ≡ self.now }
    {
        &self.items[..self.count as usize]
    }
}
