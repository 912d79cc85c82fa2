// What one crash costs, and the list of all.

use rcv_tree::point::Point;
use rcv_tree::role::{RoleId, RoleSet};

/// What the crash of one role costs, at one count of its events, in the session in which nobody else crashes.
#[derive(Clone, Copy, Debug, PartialEq, Eq)]
pub struct Cost {
    pub role: RoleId,
    /// The role crashes after so many of its events.
    pub count: u32,
    /// The point of the event that it has made last before the crash; none if it crashes before its first one.
    pub before: Option<Point>,
    /// The point of the event that it would make next if it didn't crash; none if it would make no more.
    pub after: Option<Point>,
    /// How many of their kept events the role and those of its host haven't saved.
    pub lost: u64,
    /// How many events the recovery undoes, the lost ones too.
    pub undone: u32,
    /// How many events are kept before the recovery: so many are undone if all roles start from the beginning.
    pub kept: u64,
    /// Who takes part in the recovery.
    pub concerned: RoleSet,
    /// How many messages are received again: their Sends are kept, and the recovery undoes their Recvs.
    pub again: u64,
}

/// The costs of each role's crash at each count, or of every so many counts if there are more than 2,000.
#[derive(Drop)]
pub struct Costs {
    /// Each count that is a multiple of it is looked at: 1 if all are.
    pub step: u32,
    /// In the order of the roles, and for each role in the order of the counts.
    pub list: Vec<Cost>,
}
