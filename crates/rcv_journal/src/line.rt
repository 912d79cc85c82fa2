// What a journal's text says of a role at the end.

use rcv_tree::role::RoleId;

/// How a role ended.
#[derive(Clone, Copy, Debug, PartialEq, Eq)]
pub enum RoleWord {
    /// Nothing is next for it.
    Done,
    /// It has made as many events as a role may make.
    Limit,
    /// Neither: it waits for a message, or for room in a channel.
    Waits,
}

/// A role's line: how many of its events are kept, how many it made, and how it ended.
#[derive(Clone, Copy, Debug, PartialEq, Eq)]
pub struct RoleLine {
    pub role: RoleId,
    pub kept: u32,
    pub raw: u32,
    pub word: RoleWord,
}
