// Rings and chains that come to their ends, places that are run at one time, and rounds in which nobody can move.

ghost use Rattle.std.specs.Prelude.{◌≡◌, ◌≤◌};
ghost use Rattle.std.proofs.Common.{rules};

use crate::activity::Activity;
use crate::board::Board;
use crate::place::{Pace, Place};
use crate::run_round;
use crate::work::work;
use std::alloc::{AllocError, Global};
use std::sync::atomic::{AtomicU64, Ordering};
use std::test::Fail;
use std::thread;
use std::thread::Threads;

// Takes one step after each step of the place before it, or is ahead of that place by so many.
#[derive(Drop)]
struct Link<'a> {
    before: &'a AtomicU64,
    own: &'a AtomicU64,
    ahead: u64,
    taken: u64,
    last: u64,
}

impl<'a> Link<'a> {
    // One step, if it may.
    fn step(&mut self) -> Pace
        ensures { self.new.last ≡ self.old.last }
    {
        if self.taken >= self.last {
            return Pace::Over;
        }
        let limit = self
            .before
            .load(Ordering::SeqCst)
            .saturating_add(self.ahead);
        if self.taken >= limit {
            return Pace::Waits;
        }
        self.taken += 1;
        self.own.store(self.taken, Ordering::SeqCst);
        Pace::Moved
    }
}

impl<'a> Place<u64, ()> for Link<'a> {
    ghost ready = { λ p. Unit {0} };

    ghost like = { λ t u. Unit {0} };

    ghost ran = { λ t a b. b.last ≡ a.last };

    fn run(&mut self, tool: &mut u64, _with: &()) -> Pace {
        *tool = tool.saturating_add(1);
        match self.step() {
            Pace::Moved => match self.step() {
                Pace::Over => Pace::Over,
                _ => Pace::Moved,
            },
            pace => pace,
        }
    }

    ghost reflexive = { Prim.search rules };

    ghost symmetric = { Prim.search rules };

    ghost transitive = { Prim.search rules };

    ghost joins = { Prim.search rules };

    ghost carries = { Prim.search rules };
}

// Each of eight links takes so many steps after the one before it, and the first one is ahead of the last one by so
// many: a ring in which one moves at a time, or a chain whose first link can take all of its steps at once.
fn linked<'a>(
    counts: &'a [AtomicU64],
    alloc: Global,
    steps: u64,
    first_ahead: u64,
) -> Result<Vec<Link<'a>>, AllocError> {
    let mut links = Vec::new(alloc);
    if let Some(last) = counts.last() {
        let mut before = last;
        let mut ahead = first_ahead;
        for own in counts {
            links.push(Link {
                before,
                own,
                ahead,
                taken: 0,
                last: steps,
            })?;
            before = own;
            ahead = 0;
        }
    }
    Ok(links)
}

fn eight() -> [AtomicU64; 8] {
    [
        AtomicU64::new(0),
        AtomicU64::new(0),
        AtomicU64::new(0),
        AtomicU64::new(0),
        AtomicU64::new(0),
        AtomicU64::new(0),
        AtomicU64::new(0),
        AtomicU64::new(0),
    ]
}

// A round with so many workers, from 1 to 8.
fn round<R: Threads + Sync>(rt: &R, links: &mut [Link], workers: usize) -> Activity {
    let mut tools = [0u64; 8];
    let (used, _) = tools.split_at_mut(workers.max(1).min(8));
    run_round(rt, &(), links, used)
}

// How many steps each link of a chain takes, and in how many rounds at most: in each of them the first link that isn't over
// comes to its end.
const STEPS: u64 = 100;

const ROUNDS: u32 = 50;

// How many laps of a ring some round makes, and in how many rounds at most. Most rounds make more on an idle machine; a
// busy one may give a round's workers their turns one after another. If a worker left at its first pass in vain, each
// round would make one.
const LAPS: u64 = 4;

const ATTEMPTS: u32 = 1_000;

// How many steps each link of that ring has.
const LENGTH: u64 = 10_000;

// Makes rounds until so many of the links are over.
fn rounds_until_over<R: Threads + Sync>(rt: &R, links: &mut [Link], workers: usize, over: usize) {
    for _ in 0..ROUNDS {
        if links.iter().filter(|it| it.taken == it.last).count() >= over {
            return;
        }
        round(rt, links, workers);
    }
}

// How many steps each link has taken at least.
fn laps(links: &[Link]) -> u64 {
    links.iter().fold(u64::MAX, |least, it| it.taken.min(least))
}

// Whether some round moves each link of a ring by so many steps.
fn some_round_makes_laps<R: Threads + Sync>(rt: &R, links: &mut [Link], workers: usize) -> bool {
    for _ in 0..ATTEMPTS {
        let before = laps(links);
        round(rt, links, workers);
        if laps(links) >= before.saturating_add(LAPS) {
            return true;
        }
    }
    false
}

#[test]
fn a_ring_goes_on_within_a_round(rt: HostRuntime) -> Result<(), Fail> {
    for workers in [1usize, 2, 3, 4, 8] {
        let counts = eight();
        let mut links = linked(&counts, rt.alloc(), LENGTH, 1)?;
        assert!(rt; some_round_makes_laps(&rt, links.as_mut_slice(), workers));
    }
    Ok(())
}

#[test]
fn a_single_worker_is_always_alone(rt: HostRuntime) -> Result<(), Fail> {
    let counts = eight();
    let mut links = linked(&counts, rt.alloc(), STEPS, 1)?;
    let activity = round(&rt, links.as_mut_slice(), 1);
    assert!(rt; activity.moves > 0 && activity.alone == activity.moves);
    Ok(())
}

#[test]
fn no_places_are_done_at_once(rt: HostRuntime) {
    let mut none: [Link; 0] = [];
    assert!(rt; round(&rt, &mut none, 8) == Activity::none());
}

#[test]
fn the_others_move_beside_one_that_never_can(rt: HostRuntime) -> Result<(), Fail> {
    for workers in 1..9usize {
        let counts = eight();
        let never = AtomicU64::new(0);
        let own = AtomicU64::new(0);
        let mut links = linked(&counts, rt.alloc(), STEPS, STEPS)?;
        links.push(Link {
            before: &never,
            own: &own,
            ahead: 0,
            taken: 0,
            last: STEPS,
        })?;
        rounds_until_over(&rt, links.as_mut_slice(), workers, 8);
        assert!(rt; counts.iter().all(|it| it.load(Ordering::SeqCst) == STEPS));
        assert!(rt; own.load(Ordering::SeqCst) == 0);
    }
    Ok(())
}

// Can never move, and counts its runs.
#[derive(Drop)]
struct Stone {
    runs: u64,
}

impl Place<u64, ()> for Stone {
    ghost ready = { λ p. Unit {0} };

    ghost like = { λ t u. Unit {0} };

    ghost ran = { λ t a b. a.runs ≤ b.runs };

    fn run(&mut self, _tool: &mut u64, _with: &()) -> Pace {
        self.runs = self.runs.saturating_add(1);
        Pace::Waits
    }

    ghost reflexive = { Prim.search rules };

    ghost symmetric = { Prim.search rules };

    ghost transitive = { Prim.search rules };

    ghost joins = { Prim.search rules };

    ghost carries = { Prim.search rules };
}

// How often a place is run at most in a round of eight in which none can move.
fn most_runs<R: Threads + Sync>(rt: &R, alloc: Global, workers: usize) -> Result<u64, AllocError> {
    let mut stones = Vec::new(alloc);
    for _ in 0..8 {
        stones.push(Stone { runs: 0 })?;
    }
    let mut tools = [0u64; 8];
    let (used, _) = tools.split_at_mut(workers.max(1).min(8));
    run_round(rt, &(), stones.as_mut_slice(), used);
    Ok(stones.iter().fold(0, |most, it| it.runs.max(most)))
}

#[test]
fn a_single_worker_ends_behind_its_first_pass_in_vain(rt: HostRuntime) -> Result<(), Fail> {
    assert!(rt; most_runs(&rt, rt.alloc(), 1)? == 1);
    Ok(())
}

// If a processor is late, the others wait for it. So the test takes the best of many rounds.
#[test]
fn where_nobody_can_move_the_round_ends_soon(rt: HostRuntime) -> Result<(), Fail> {
    for workers in [2usize, 3, 4, 8] {
        let mut least = u64::MAX;
        for _ in 0..20 {
            least = least.min(most_runs(&rt, rt.alloc(), workers)?);
        }
        assert!(rt; least <= 1_100);
    }
    Ok(())
}

#[test]
fn a_worker_ends_where_the_other_never_begins(rt: HostRuntime) {
    let board = Board::new(2);
    let mut stones = [Stone { runs: 0 }];
    let mut tool = 0u64;
    let activity = work(&(), &board, 0, &mut tool, &mut stones);
    assert!(rt; activity == Activity::none());
    assert!(rt; stones[0].runs <= 1_100);
}

// How often a place looks for others at most.
const LOOKS: u64 = 10_000_000;

// Tells that one more has come, and waits until so many have. It answers whether they did.
fn meet(come: &AtomicU64, all: u64) -> bool {
    come.fetch_add(1, Ordering::SeqCst);
    for _ in 0..LOOKS {
        if come.load(Ordering::SeqCst) >= all {
            return true;
        }
        thread::yield_now();
    }
    false
}

// Waits at its first run until so many have come, and moves no further.
#[derive(Drop)]
struct Meeter<'a> {
    come: &'a AtomicU64,
    all: u64,
    met: bool,
}

impl<'a> Place<u64, ()> for Meeter<'a> {
    ghost ready = { λ p. Unit {0} };

    ghost like = { λ t u. Unit {0} };

    ghost ran = { λ t a b. b.all ≡ a.all };

    fn run(&mut self, _tool: &mut u64, _with: &()) -> Pace {
        self.met = meet(self.come, self.all);
        Pace::Over
    }

    ghost reflexive = { Prim.search rules };

    ghost symmetric = { Prim.search rules };

    ghost transitive = { Prim.search rules };

    ghost joins = { Prim.search rules };

    ghost carries = { Prim.search rules };
}

#[test]
fn as_many_places_are_run_at_one_time_as_there_are_workers(rt: HostRuntime) -> Result<(), Fail> {
    for workers in [2usize, 4, 5, 8] {
        let come = AtomicU64::new(0);
        let mut meeters = Vec::new(rt.alloc());
        for _ in 0..8 {
            meeters.push(Meeter {
                come: &come,
                all: workers as u64,
                met: false,
            })?;
        }
        let mut tools = [0u64; 8];
        let (used, _) = tools.split_at_mut(workers);
        run_round(&rt, &(), meeters.as_mut_slice(), used);
        assert!(rt; meeters.iter().all(|it| it.met));
    }
    Ok(())
}
