// Roles that are at a step at one time, each on a thread of its own: the first step of all, and one after many turns
// that added few entries.

ghost use Rattle.std.specs.Prelude.{◌≤◌};

use crate::calls::run;
use crate::flag::Flag;
use crate::given::{RING_OF_EIGHT, RING_OF_FOUR, RING_OF_TWO, setup_of, stormy};
use rcv_core::setup::Setup;
use rcv_super::session::{Session, Turn};
use rcv_top::Gate;
use rcv_tree::role::RoleId;
use std::alloc::AllocError;
use std::sync::atomic::{AtomicU64, Ordering};
use std::test::Fail;
use std::thread;
use std::thread::Threads;

// How often a role looks for the others, if they have to come.
const LOOKS: u64 = 10_000_000;

// If one thread may make the turn, the others don't have to come. This is how often a role then looks for the first of
// them, and lets other threads go first. That takes some 20 ms. In that time threads are started on a busy machine,
// too.
const LOOKS_ALONE: u64 = 50_000;

// How often A crashes, each time with its first event alone. So there are many turns that add few entries, and several
// of the later ones are made on threads.
const CRASHES: u32 = 200;

// How many turns come before the late one, and all turns of a session.
const EARLY: u32 = 50;

const TURNS: u32 = 1_000;

// Once the roles are called, holds each at its next step until all have come to theirs.
#[derive(Drop)]
struct Gathering {
    roles: u64,
    // Whether one thread may make a turn.
    lonely: bool,
    called: Flag,
    here: [Flag; 8],
    come: AtomicU64,
    missed: Flag,
}

impl Gathering {
    fn new(roles: u32, lonely: bool) -> Gathering {
        Gathering {
            roles: u64::from(roles),
            lonely,
            called: Flag::new(),
            here: [
                Flag::new(),
                Flag::new(),
                Flag::new(),
                Flag::new(),
                Flag::new(),
                Flag::new(),
                Flag::new(),
                Flag::new(),
            ],
            come: AtomicU64::new(0),
            missed: Flag::new(),
        }
    }

    // Calls the roles, or lets them pass.
    fn call(&self, calls: bool) {
        for here in &self.here {
            here.clear();
        }
        self.come.store(0, Ordering::SeqCst);
        self.missed.clear();
        if calls {
            self.called.set();
        } else {
            self.called.clear();
        }
    }

    fn have_come(&self) -> bool {
        self.come.load(Ordering::SeqCst) == self.roles
    }

    // Whether all have come, and nobody waited in vain.
    fn have_met(&self) -> bool {
        self.have_come() && !self.missed.is_set()
    }

    fn wait(&self) {
        if self.lonely && !self.is_joined() {
            self.missed.set();
            return;
        }
        for _ in 0..LOOKS {
            if self.have_come() || self.missed.is_set() {
                return;
            }
            thread::yield_now();
        }
        self.missed.set();
    }

    // Whether a second role comes. It needs a second thread.
    fn is_joined(&self) -> bool {
        for _ in 0..LOOKS_ALONE {
            if self.come.load(Ordering::SeqCst) > 1 {
                return true;
            }
            thread::yield_now();
        }
        false
    }
}

impl Gate for Gathering {
    fn enter(&self, role: RoleId, _count: u32) {
        if !self.called.is_set() {
            return;
        }
        let Some(here) = self.here.get(role.0 as usize) else {
            return;
        };
        if here.is_set() {
            return;
        }
        here.set();
        self.come.fetch_add(1, Ordering::SeqCst);
        self.wait();
    }

    fn recovering(&self, _role: RoleId) {}

    fn is_open(&self) -> bool {
        false
    }
}

// Whether all roles of an input are at their first steps at one time, if there are as many workers.
fn gather_first<R: AllocGlobal + Threads + Sync>(
    rt: &R,
    workers: &str,
    roles: u32,
    input: &[u8],
) -> Result<bool, AllocError> {
    let gate = Gathering::new(roles, false);
    gate.call(true);
    let (status, _) = run(rt, workers, input, &gate)?;
    Ok(status == 3 && gate.have_met())
}

// Whether they are at a step at one time in some later turn.
fn gather_late<R: AllocGlobal + Threads + Sync>(
    rt: &R,
    roles: u32,
    input: &[u8],
) -> Result<bool, AllocError>
    requires least { 1 ≤ roles }
    requires most { roles ≤ 8 }
{
    let input = stormy(rt.alloc(), input, &["A"], CRASHES)?;
    match setup_of(rt.alloc(), input.as_slice())? {
        Some(setup) => gather_in(rt, &setup, roles),
        None => Ok(false),
    }
}

// The same for the session of a setup.
fn gather_in<R: AllocGlobal + Threads + Sync>(
    rt: &R,
    setup: &Setup,
    roles: u32,
) -> Result<bool, AllocError>
    requires least { 1 ≤ roles }
    requires most { roles ≤ 8 }
{
    let mut session = Session::new(rt.alloc(), setup)?;
    Ok(gather_by_turns(rt, &mut session, roles))
}

// The roles are called in each later turn in which none of them is crashed.
fn gather_by_turns<R: AllocGlobal + Threads + Sync>(
    rt: &R,
    session: &mut Session<'_>,
    roles: u32,
) -> bool
    requires least { 1 ≤ roles }
    requires most { roles ≤ 8 }
{
    let gate = Gathering::new(roles, true);
    for turn in 0..TURNS {
        gate.call(turn >= EARLY && session.book().first_crashed().is_none());
        if session.turn(rt, rt.alloc(), roles, &gate) != Ok(Turn::More) {
            return false;
        }
        if gate.have_met() {
            return true;
        }
    }
    false
}

#[test]
fn as_many_roles_are_at_their_first_steps_as_there_are_workers(
    rt: HostRuntime,
) -> Result<(), Fail> {
    assert!(rt; gather_first(&rt, "2", 2, RING_OF_TWO)?);
    assert!(rt; gather_first(&rt, "4", 4, RING_OF_FOUR)?);
    assert!(rt; gather_first(&rt, "8", 8, RING_OF_EIGHT)?);
    Ok(())
}

#[test]
fn as_many_are_at_a_step_behind_many_short_turns(rt: HostRuntime) -> Result<(), Fail> {
    assert!(rt; gather_late(&rt, 2, RING_OF_TWO)?);
    assert!(rt; gather_late(&rt, 4, RING_OF_FOUR)?);
    assert!(rt; gather_late(&rt, 8, RING_OF_EIGHT)?);
    Ok(())
}
