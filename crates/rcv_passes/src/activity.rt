// What a round was like.

/// How much the workers of a round moved, and how much of it side by side. No clause says which numbers these are: they
/// help to decide whether threads pay.
#[derive(Clone, Copy, Debug, PartialEq, Eq)]
pub struct Activity {
    /// So many passes over a worker's places moved one of them.
    pub moves: u64,
    /// After so many of these no other worker was at work: each waited, had left, or hadn't begun.
    pub alone: u64,
}

impl Activity {
    /// Nothing has moved.
    pub fn none() -> Activity {
        Activity { moves: 0, alone: 0 }
    }

    /// One more pass that moved a place, by a worker that was alone, or wasn't.
    pub fn with_move(self, alone: bool) -> Activity {
        Activity {
            moves: self.moves.saturating_add(1),
            alone: self.alone.saturating_add(u64::from(alone)),
        }
    }

    /// What both of them were like.
    pub fn and(self, other: Activity) -> Activity {
        Activity {
            moves: self.moves.saturating_add(other.moves),
            alone: self.alone.saturating_add(other.alone),
        }
    }
}
