// How far a worker has come with its places.

use crate::place::Pace;

// Of so many places it is remembered that they are over. Any further one is run again, and is over again.
const REMEMBERED: usize = 64;

/// Which places of a worker are over, and what its pass has found so far.
#[derive(Clone, Copy)]
pub struct Progress {
    over: u64,
    moved: bool,
    open: bool,
}

impl Progress {
    /// No place has been run.
    pub fn new() -> Progress {
        Progress {
            over: 0,
            moved: false,
            open: false,
        }
    }

    /// A new pass begins.
    pub fn begin_pass(&mut self) {
        self.moved = false;
        self.open = false;
    }

    /// The place with this index was run.
    pub fn note(&mut self, index: usize, pace: Pace) {
        match pace {
            Pace::Moved => {
                self.moved = true;
                self.open = true;
            }
            Pace::Waits => self.open = true,
            Pace::Over => {
                // Its last run may have made steps.
                self.moved = true;
                if index < REMEMBERED {
                    self.over |= 1 << index;
                }
            }
        }
    }

    /// Whether it is remembered that this place is over.
    pub fn is_over(&self, index: usize) -> bool {
        index < REMEMBERED && self.over >> index & 1 == 1
    }

    /// Whether a place has moved in this pass.
    pub fn has_moved(&self) -> bool {
        self.moved
    }

    /// Whether a place that was run in this pass isn't over.
    pub fn is_open(&self) -> bool {
        self.open
    }
}
