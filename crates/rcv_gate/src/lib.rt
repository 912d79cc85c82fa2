// Gates: what a step or a recovery passes before it is tried.
#![tactic(auto)]

use rcv_tree::role::RoleId;

/// Is told of each step that a role attempts, and of each recovery, and may hold them up. One that several threads pass
/// is `Sync`, too.
pub trait Gate {
    /// Comes before each attempted step of this role, which made so many events in all, undone ones included.
    fn enter(&self, role: RoleId, count: u32);

    /// Comes before the recovery of this failed role moves anything.
    fn recovering(&self, role: RoleId);

    /// Whether it always lets all pass at once: then nobody can be held up beside others.
    fn is_open(&self) -> bool;
}

/// The gate that lets all pass at once.
#[derive(Clone, Copy, Debug)]
pub struct NoGate;

impl Gate for NoGate {
    fn enter(&self, _role: RoleId, _count: u32) {}

    fn recovering(&self, _role: RoleId) {}

    fn is_open(&self) -> bool {
        true
    }
}
