// A gate that counts: with one worker it is passed once for each entry.

use crate::alone::completes;
use crate::given::{PING, setup_of};
use crate::kept::is_complete;
use rcv_core::book::Book;
use rcv_core::setup::Setup;
use rcv_super::session::{Session, Turn};
use rcv_top::{Gate, NoGate};
use rcv_tree::entry::Entry;
use rcv_tree::role::RoleId;
use std::alloc::AllocError;
use std::sync::atomic::{AtomicU64, Ordering};
use std::test::Fail;
use std::thread::Threads;

// Counts how often it is passed.
#[derive(Drop)]
struct Counter {
    steps: AtomicU64,
    recoveries: AtomicU64,
}

impl Counter {
    fn new() -> Counter {
        Counter {
            steps: AtomicU64::new(0),
            recoveries: AtomicU64::new(0),
        }
    }
}

impl Gate for Counter {
    fn enter(&self, _role: RoleId, _count: u32) {
        self.steps.fetch_add(1, Ordering::SeqCst);
    }

    fn recovering(&self, _role: RoleId) {
        self.recoveries.fetch_add(1, Ordering::SeqCst);
    }

    fn is_open(&self) -> bool {
        true
    }
}

// How many of a book's entries after the first so many are recoveries, and how many are not.
fn counts(book: &Book<'_>, before: usize) -> (usize, usize) {
    let recoveries = book
        .entries()
        .iter()
        .skip(before)
        .filter(|entry| matches!(entry, Entry::Recover { .. }))
        .count();
    let all = book.entries().iter().skip(before).count();
    (recoveries, all.saturating_sub(recoveries))
}

// How the counted entries are made.
#[derive(Clone, Copy)]
enum Way {
    Turns,
    TurnsBehindSeveral,
    FinishBehindSeveral,
}

// Brings a session to its end with one worker, and says whether it completes.
fn ends<R: AllocGlobal + Threads + Sync>(
    rt: &R,
    session: &mut Session<'_>,
    gate: &Counter,
    way: Way,
) -> bool {
    match way {
        Way::FinishBehindSeveral => {
            session.finish(rt, rt.alloc(), 1, gate) == Ok(()) && is_complete(session.book())
        }
        _ => completes(rt, session, gate) == Ok(true),
    }
}

// Whether a session of Ping completes with one worker, after a first turn of several or of none, with recoveries, and
// each of its entries passed the gate once.
fn passes_once<R: AllocGlobal + Threads + Sync>(rt: &R, way: Way) -> Result<bool, AllocError> {
    match setup_of(rt.alloc(), PING)? {
        Some(setup) => passes_in(rt, &setup, way),
        None => Ok(false),
    }
}

// The same for a session of a setup.
fn passes_in<R: AllocGlobal + Threads + Sync>(
    rt: &R,
    setup: &Setup,
    way: Way,
) -> Result<bool, AllocError> {
    let mut session = Session::new(rt.alloc(), setup)?;
    Ok(passes(rt, &mut session, way))
}

fn passes<R: AllocGlobal + Threads + Sync>(rt: &R, session: &mut Session<'_>, way: Way) -> bool {
    let several = !matches!(way, Way::Turns);
    if several && session.turn(rt, rt.alloc(), 2, &NoGate) != Ok(Turn::More) {
        return false;
    }
    let before = session.book().len();
    let gate = Counter::new();
    let completed = ends(rt, session, &gate, way);
    let (recoveries, steps) = counts(session.book(), before);
    completed
        && recoveries > 0
        && gate.recoveries.load(Ordering::SeqCst) == recoveries as u64
        && gate.steps.load(Ordering::SeqCst) == steps as u64
}

#[test]
fn one_worker_passes_the_gate_once_for_each_entry(rt: HostRuntime) -> Result<(), Fail> {
    assert!(rt; passes_once(&rt, Way::Turns)?);
    Ok(())
}

#[test]
fn one_worker_does_behind_several(rt: HostRuntime) -> Result<(), Fail> {
    assert!(rt; passes_once(&rt, Way::TurnsBehindSeveral)?);
    assert!(rt; passes_once(&rt, Way::FinishBehindSeveral)?);
    Ok(())
}
