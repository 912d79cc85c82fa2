// A recovery beside which the roles that it doesn't concern make steps.

use crate::flag::Flag;
use crate::given::{DEAR, setup_of, with_terms};
use rcv_core::book::Book;
use rcv_core::outcome::Outcome;
use rcv_core::setup::Setup;
use rcv_journal::text::text_of;
use rcv_super::session::{Session, Turn};
use rcv_top::Gate;
use rcv_tree::entry::Entry;
use rcv_tree::role::RoleId;
use std::alloc::{AllocError, Global};
use std::sync::atomic::{AtomicU64, Ordering};
use std::test::Fail;
use std::thread::Threads;

// How many turns the session may take.
const TURNS: u32 = 10_000;

// The number that C sends is dear, so that its turns are long.
const BESIDE: &[u8] = b"module beside;
global protocol Beside(role A, role B, role C, role D) {
  a() from A to B;
  rec X { c(Int) from C to D; continue X; }
}
%% scripts
role C { send c = 7";

const BESIDE_END: &[u8] = b"; }
%% plan
every B 100 crash B 1 limit 4000
";

// Its one recovery, and its last lines.
const RECOVERY: &str = "\nrecover B undone 1: B 0\n";

const END: &str = "role A kept 1 raw 1 done
role B kept 1 raw 2 done
role C kept 4000 raw 4000 limit
role D kept 4000 raw 4000 limit
limited C D
";

const B: RoleId = RoleId(1);

const C: RoleId = RoleId(2);

// How many steps C makes beside the recovery: nearly all that fit into one turn.
const STEPS: u64 = 1000;

// After the crash, holds C at its next step until the recovery of B has begun, and holds the recovery until C has made
// so many more.
#[derive(Drop)]
struct Both {
    crashed: Flag,
    begun: Flag,
    started: Flag,
    // How many steps C had made when it came to that step.
    start: AtomicU64,
    ahead: Flag,
    missed: Flag,
}

impl Gate for Both {
    fn enter(&self, role: RoleId, count: u32) {
        if role != C || !self.crashed.is_set() {
            return;
        }
        let made = u64::from(count);
        if !self.started.is_set() {
            self.start.store(made, Ordering::SeqCst);
            self.started.set();
            self.begun.wait(&self.missed);
        }
        if made.saturating_sub(self.start.load(Ordering::SeqCst)) >= STEPS {
            self.ahead.set();
        }
    }

    fn recovering(&self, role: RoleId) {
        if role == B {
            self.begun.set();
            self.ahead.wait(&self.missed);
        }
    }

    fn is_open(&self) -> bool {
        false
    }
}

// The text of a session's journal if the session is limited, else none.
fn limited_text(alloc: Global, book: &Book<'_>) -> Result<Option<String>, AllocError> {
    match book.final_state() {
        Outcome::Limited => {
            let bytes = text_of(alloc, book)?;
            Ok(Some(String::from_utf8_lossy(alloc, bytes.as_slice())?))
        }
        _ => Ok(None),
    }
}

// Turns the session with two workers to its end, and gives its journal. The gate hears of the crash after the turn that
// makes it.
fn journal<R: AllocGlobal + Threads + Sync>(
    rt: &R,
    gate: &Both,
) -> Result<Option<String>, AllocError> {
    let input = with_terms(rt.alloc(), BESIDE, DEAR, BESIDE_END)?;
    match setup_of(rt.alloc(), input.as_slice())? {
        Some(setup) => journal_in(rt, &setup, gate),
        None => Ok(None),
    }
}

// The same for the session of a setup.
fn journal_in<R: AllocGlobal + Threads + Sync>(
    rt: &R,
    setup: &Setup,
    gate: &Both,
) -> Result<Option<String>, AllocError> {
    let mut session = Session::new(rt.alloc(), setup)?;
    turn_to_end(rt, &mut session, gate);
    limited_text(rt.alloc(), session.book())
}

fn turn_to_end<R: AllocGlobal + Threads + Sync>(rt: &R, session: &mut Session<'_>, gate: &Both) {
    for _ in 0..TURNS {
        if session.turn(rt, rt.alloc(), 2, gate) != Ok(Turn::More) {
            return;
        }
        if has_crash(session.book()) {
            gate.crashed.set();
        }
    }
}

// Whether a book has a crash.
fn has_crash(book: &Book<'_>) -> bool {
    for entry in book.entries() {
        if let Entry::Crash(_) = entry {
            return true;
        }
    }
    false
}

#[test]
fn roles_go_on_beside_a_recovery_of_others(rt: HostRuntime) -> Result<(), Fail> {
    let gate = Both {
        crashed: Flag::new(),
        begun: Flag::new(),
        started: Flag::new(),
        start: AtomicU64::new(0),
        ahead: Flag::new(),
        missed: Flag::new(),
    };
    let text = journal(&rt, &gate)?.unwrap_or(String::new(rt.alloc()));
    assert!(rt; gate.ahead.is_set() && !gate.missed.is_set());
    assert!(rt; text.as_str().contains(RECOVERY));
    assert_eq!(rt; text.as_str().split("recover ").count(), 2);
    assert!(rt; text.as_str().ends_with(END));
    Ok(())
}
