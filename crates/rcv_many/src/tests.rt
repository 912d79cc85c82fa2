// Counters on threads, two items at one time, and how many are begun at one time.

ghost use Rattle.std.specs.Prelude.{◌≡◌, ◌≤◌, ◌<◌, ℕ};
ghost use Rattle.std.proofs.Common.{rules};

use crate::run_all;
use crate::turns::{Step, Turns};
use std::sync::atomic::{AtomicU64, Ordering};
use std::test::Fail;
use std::thread;

// Counts down. It stops if no more are left than its last ones, and some are.
#[derive(Drop)]
struct Counter {
    start: u32,
    left: u32,
    last: u32,
}

impl Turns<()> for Counter {
    ghost ended = { λ c. c.left ≡ 0 };

    ghost stopped = { λ c. (0 < c.left) × (c.left ≤ c.last) };

    ghost left = { λ c. c.left };

    ghost goes = { λ a b. (b.left ≤ a.left) × (b.last ≡ a.last) };

    fn turn(&mut self, _with: &()) -> Step {
        if self.left == 0 {
            return Step::Ended;
        }
        if self.left <= self.last {
            return Step::Stopped;
        }
        self.left -= 1;
        Step::More
    }

    ghost apart = { Prim.search rules };

    ghost stays = { Prim.search rules };

    ghost joins = { Prim.search rules };
}

#[test]
fn each_comes_to_its_end(rt: HostRuntime) -> Result<(), Fail> {
    for workers in 1..9u32 {
        let mut all = Vec::new(rt.alloc());
        for number in 0..40u32 {
            let start = number * 37;
            let last = number % 5 * 10;
            all.push(Counter {
                start,
                left: start,
                last,
            })?;
        }
        run_all(&rt, &(), all.as_mut_slice(), workers);
        assert!(rt; all.iter().all(|it| it.left == it.start.min(it.last)));
    }
    Ok(())
}

#[test]
fn no_items_are_done_at_once(rt: HostRuntime) {
    let mut none: [Counter; 0] = [];
    run_all(&rt, &(), &mut none, 8);
}

// How often an item looks for others at most.
const LOOKS: u64 = 10_000_000;

// Tells that an item has come, waits until so many have, and says whether they did.
fn meet(come: &AtomicU64, all: u64) -> bool {
    come.fetch_add(1, Ordering::SeqCst);
    for _ in 0..LOOKS {
        if come.load(Ordering::SeqCst) >= all {
            return true;
        }
        thread::yield_now();
    }
    false
}

// Has one turn, in which it waits for another item.
#[derive(Drop)]
struct Meeter<'a> {
    come: &'a AtomicU64,
    met: bool,
    left: u32,
}

impl<'a> Turns<()> for Meeter<'a> {
    ghost ended = { λ m. m.left ≡ 0 };

    ghost stopped = { λ m. ⊥ };

    ghost left = { λ m. m.left };

    ghost goes = { λ a b. b.left ≤ a.left };

    fn turn(&mut self, _with: &()) -> Step {
        if self.left == 0 {
            return Step::Ended;
        }
        self.left -= 1;
        self.met = meet(self.come, 2);
        Step::More
    }

    ghost apart = { λ x e s. s };

    ghost stays = { Prim.search rules };

    ghost joins = { Prim.search rules };
}

#[test]
fn two_items_are_at_their_first_turns_at_one_time(rt: HostRuntime) {
    let come = AtomicU64::new(0);
    let mut both = [
        Meeter {
            come: &come,
            met: false,
            left: 1,
        },
        Meeter {
            come: &come,
            met: false,
            left: 1,
        },
    ];
    run_all(&rt, &(), &mut both, 2);
    assert!(rt; both[0].met && both[1].met);
}

// How many turns a visitor makes: a worker looks twice for idle ones meanwhile.
const VISIT: u32 = 130;

// Waits at its first turn until as many have come as there are workers, and keeps the greatest count that it saw of
// those that have come and haven't gone.
#[derive(Drop)]
struct Visitor<'a> {
    come: &'a AtomicU64,
    here: &'a AtomicU64,
    workers: u32,
    most: u64,
    left: u32,
}

impl<'a> Turns<()> for Visitor<'a> {
    ghost ended = { λ v. v.left ≡ 0 };

    ghost stopped = { λ v. ⊥ };

    ghost left = { λ v. v.left };

    ghost goes = { λ a b. b.left ≤ a.left };

    fn turn(&mut self, _with: &()) -> Step {
        if self.left == 0 {
            return Step::Ended;
        }
        if self.left == VISIT {
            self.here.fetch_add(1, Ordering::SeqCst);
            meet(self.come, u64::from(self.workers));
        }
        self.most = self.most.max(self.here.load(Ordering::SeqCst));
        thread::yield_now();
        self.left -= 1;
        if self.left == 0 {
            self.here.fetch_sub(1, Ordering::SeqCst);
        }
        Step::More
    }

    ghost apart = { λ x e s. s };

    ghost stays = { Prim.search rules };

    ghost joins = { Prim.search rules };
}

#[test]
fn as_many_items_are_begun_at_one_time_as_there_are_workers(rt: HostRuntime) -> Result<(), Fail> {
    for workers in [2u32, 4, 8] {
        let come = AtomicU64::new(0);
        let here = AtomicU64::new(0);
        let mut all = Vec::new(rt.alloc());
        for _ in 0..48u32 {
            all.push(Visitor {
                come: &come,
                here: &here,
                workers,
                most: 0,
                left: VISIT,
            })?;
        }
        run_all(&rt, &(), all.as_mut_slice(), workers);
        assert!(rt;
            all.iter()
                .all(|it| it.left == 0 && it.most <= u64::from(workers))
        );
        assert!(rt; all.iter().any(|it| it.most == u64::from(workers)));
    }
    Ok(())
}
