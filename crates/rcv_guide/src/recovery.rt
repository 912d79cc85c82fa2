// What a failure takes back.

use rcv_tree::role::RoleSet;

/// What a failure takes back: whom it concerns, how many of its first events each of eight roles keeps, and how many
/// events are undone in all. A role whose count fell goes on after its last kept event, in its next attempt.
#[derive(Clone, Copy, Debug)]
pub struct Recovery {
    pub concerned: RoleSet,
    pub kept: [u64; 8],
    pub undone: u32,
}
