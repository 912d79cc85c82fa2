// A worker between two passes: whether it goes on, and how long it waits before it does.

use crate::activity::Activity;
use crate::board::{Board, Mark};
use crate::progress::Progress;
use std::{hint, thread};

// At most so many passes in vain are made one after another.
const TRIES: u32 = 10_000;
// After so many of them, workers that haven't begun aren't expected any longer: if no threads can be made, they begin
// when this one has left.
const EXPECTED: u32 = 1_000;
// After so many of them a wait lets others run; before that it is a short one, twice as long each time.
const SHORT: u32 = 6;
// A stop after moves during which it was alone counts one up, any other stop one down. At so many it leaves: workers
// that only move in turn gain nothing, and on a busy machine each turn may have to wait for a processor.
const LONE_STOPS: u32 = 16;

/// A worker that stands between two passes over its places.
#[derive(Clone, Copy)]
pub struct Worker {
    number: usize,
    // How it stands, as the others see it.
    mark: Mark,
    // Whether it has moved places and hasn't counted that yet.
    moving: bool,
    // Whether no other worker was busy after any of these moves.
    lone: bool,
    lone_stops: u32,
    // How many moves were counted before its pass.
    seen: u64,
    // How many passes in vain it has made since it last moved.
    tries: u32,
    activity: Activity,
}

impl Worker {
    /// A worker with this number begins.
    pub fn begin(board: &Board, number: usize) -> Worker {
        let mut worker = Worker {
            number,
            mark: Mark::Away,
            moving: false,
            lone: true,
            lone_stops: 0,
            seen: board.moves(),
            tries: 0,
            activity: Activity::none(),
        };
        worker.show(board, Mark::Busy);
        worker
    }

    /// Whether to make another pass after this one. It says no if all places are over, if nobody can move, if it has
    /// only moved in turn with others, and after a number of passes in vain. If the pass was in vain, it has waited for
    /// a little while.
    pub fn goes_on(&mut self, board: &Board, pass: &Progress) -> bool {
        if pass.has_moved() {
            self.has_moved(board);
        }
        if !pass.is_open() {
            return false;
        }
        pass.has_moved() || board.is_shared() && self.tries_again(board)
    }

    /// The worker leaves the round: what its passes were like.
    pub fn leave(mut self, board: &Board) -> Activity {
        if self.moving {
            board.count_move();
        }
        self.show(board, Mark::Gone);
        self.activity
    }

    fn has_moved(&mut self, board: &Board) {
        if !self.moving {
            self.moving = true;
            self.lone = true;
            self.tries = 0;
            self.show(board, Mark::Busy);
        }
        let alone = board.is_alone(self.number);
        self.lone &= alone;
        self.activity = self.activity.with_move(alone);
    }

    // After a pass in vain: whether to make another one.
    fn tries_again(&mut self, board: &Board) -> bool {
        if self.moving {
            return self.stops(board);
        }
        if self.tries >= TRIES {
            return false;
        }
        self.tries += 1;
        self.show(board, Mark::Waiting(self.seen));
        if board.is_settled(self.seen, self.tries < EXPECTED) {
            return false;
        }
        wait(self.tries);
        self.seen = board.moves();
        true
    }

    // After the first pass in vain. Only a pass that begins when the moves of its worker are counted can show that
    // nobody moves.
    fn stops(&mut self, board: &Board) -> bool {
        self.moving = false;
        board.count_move();
        self.seen = board.moves();
        self.lone_stops = if self.lone {
            self.lone_stops.saturating_add(1)
        } else {
            self.lone_stops.saturating_sub(1)
        };
        self.lone_stops < LONE_STOPS
    }

    fn show(&mut self, board: &Board, mark: Mark) {
        if self.mark != mark {
            self.mark = mark;
            board.show(self.number, mark);
        }
    }
}

// Waits a little while, after so many passes in vain.
fn wait(tries: u32) {
    if tries > SHORT {
        thread::yield_now();
        return;
    }
    for _ in 0..1u32 << tries {
        hint::spin_loop();
    }
}
