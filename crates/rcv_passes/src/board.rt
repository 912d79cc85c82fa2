// What the workers of a round show one another.

use std::sync::atomic::{AtomicU64, Ordering};

/// At most so many workers share a round.
pub const MOST_WORKERS: usize = 8;

/// How a worker stands. `Waiting(moves)`: in a whole pass it moved none of its places, and before that pass so many
/// moves were counted.
#[derive(Clone, Copy, PartialEq, Eq)]
pub enum Mark {
    Away,
    Busy,
    Gone,
    Waiting(u64),
}

// A mark lies in a word as one of these; a mark that waits, as the last one or as a number above it.
const AWAY: u64 = 0;

const BUSY: u64 = 1;

const GONE: u64 = 2;

const WAITING: u64 = 3;

impl Mark {
    fn word(self) -> u64 {
        match self {
            Mark::Away => AWAY,
            Mark::Busy => BUSY,
            Mark::Gone => GONE,
            Mark::Waiting(moves) => WAITING.saturating_add(moves),
        }
    }
}

/// A mark of each worker and a count of moves, which any worker may change at any time. No clause says what they are:
/// they decide who does how much, and not what comes of it.
///
/// A worker counts a move when it comes to a stop after passes that moved, and before it shows that it waits. So if all
/// wait since the same count, each has gone in vain over its places after the last move of all: nobody can go on.
#[derive(Drop)]
pub struct Board {
    workers: usize,
    moves: AtomicU64,
    marks: [AtomicU64; MOST_WORKERS],
}

impl Board {
    /// So many workers, from 1 to 8, are away.
    pub fn new(workers: usize) -> Board {
        Board {
            workers,
            moves: AtomicU64::new(0),
            marks: [
                AtomicU64::new(AWAY),
                AtomicU64::new(AWAY),
                AtomicU64::new(AWAY),
                AtomicU64::new(AWAY),
                AtomicU64::new(AWAY),
                AtomicU64::new(AWAY),
                AtomicU64::new(AWAY),
                AtomicU64::new(AWAY),
            ],
        }
    }

    /// Whether there are several workers.
    pub fn is_shared(&self) -> bool {
        self.workers > 1
    }

    /// How many moves were counted.
    pub fn moves(&self) -> u64 {
        self.moves.load(Ordering::SeqCst)
    }

    /// Counts a move.
    pub fn count_move(&self) {
        self.moves.fetch_add(1, Ordering::SeqCst);
    }

    /// Shows how a worker stands.
    pub fn show(&self, worker: usize, mark: Mark) {
        if let Some(place) = self.marks.get(worker) {
            place.store(mark.word(), Ordering::SeqCst);
        }
    }

    /// Whether no worker but this one is busy.
    pub fn is_alone(&self, worker: usize) -> bool {
        self.marks.iter().enumerate().all(|(other, mark)| other == worker
            || mark.load(Ordering::SeqCst) != BUSY)
    }

    /// Whether each worker has gone or waits since so many moves. Workers that are away count as gone, if they are no
    /// longer expected.
    pub fn is_settled(&self, moves: u64, expects: bool) -> bool {
        let waiting = Mark::Waiting(moves).word();
        self.marks
            .iter()
            .take(self.workers)
            .all(|mark| match mark.load(Ordering::SeqCst) {
                AWAY => !expects,
                GONE => true,
                other => other == waiting,
            })
    }
}
