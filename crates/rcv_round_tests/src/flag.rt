// Flags by which the threads of a test wait for each other.

use std::sync::atomic::{AtomicU64, Ordering};
use std::thread;

// How often a wait looks at most.
const LOOKS: u64 = 10_000_000;

/// What one thread sets, and others wait for.
#[derive(Drop)]
pub struct Flag {
    word: AtomicU64,
}

impl Flag {
    /// A flag that isn't set.
    pub fn new() -> Flag {
        Flag {
            word: AtomicU64::new(0),
        }
    }

    /// Sets it.
    pub fn set(&self) {
        self.word.store(1, Ordering::SeqCst);
    }

    /// It isn't set from now on.
    pub fn clear(&self) {
        self.word.store(0, Ordering::SeqCst);
    }

    /// Whether it is set.
    pub fn is_set(&self) -> bool {
        self.word.load(Ordering::SeqCst) != 0
    }

    /// Waits until it is set. If that takes too long, the wait ends, and sets the other one.
    pub fn wait(&self, missed: &Flag) {
        for _ in 0..LOOKS {
            if self.is_set() {
                return;
            }
            thread::yield_now();
        }
        missed.set();
    }
}
