// A journal that was read back.

use crate::line::RoleLine;
use rcv_tree::entry::Entry;
use rcv_tree::role::RoleId;
use std::marker::Model;

/// A journal as it was read: its entries, a line for each role, and the roles that the last line names: none if it says
/// `completed`. It is of the form; whether the entries are legal and the last lines fit them isn't asked.
#[derive(Drop)]
pub struct Journal {
    pub entries: Vec<Entry>,
    pub roles: Vec<RoleLine>,
    pub limited: Vec<RoleId>,
}

impl Model for Journal {
    ghost use Rattle.rcv_journal.specs.Recorded.{JournalView};

    ghost Value = { JournalView };

    ghost view = { λ a. record { entries = a.entries.items; roles = a.roles.items; limited = a.limited.items } };
}
