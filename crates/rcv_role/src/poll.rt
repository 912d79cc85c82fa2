// What a poll answers, and why a run ended.

/// What one poll did.
#[derive(Clone, Copy, Debug, PartialEq, Eq)]
pub enum Poll {
    /// A crash line was due, and the role has crashed.
    Crashed,
    /// The role has no next point.
    Done,
    /// The role makes no more steps: it made as many as the limit allows, or its clock came to 2^62.
    Tired,
    /// The role made a step.
    Moved,
    /// The role waits for room in a channel, or for a message.
    Waiting,
}

/// Why a run ended.
#[derive(Clone, Copy, Debug, PartialEq, Eq)]
pub enum Stop {
    /// The last poll waited.
    Waiting,
    /// In the last poll the role was done.
    Done,
    /// In the last poll the role crashed.
    Crashed,
    /// In the last poll the role was tired.
    Tired,
    /// Each turn made a step.
    Spent,
    /// The last look showed a failure that reaches the role, and no poll came after it.
    Fenced,
}
