// A role beside one that is held up: it makes all of its steps in that very turn.

use crate::flag::Flag;
use crate::given::{DEAR, setup_of, with_terms};
use rcv_core::setup::Setup;
use rcv_super::session::{Session, Turn};
use rcv_top::Gate;
use rcv_tree::role::RoleId;
use std::alloc::AllocError;
use std::test::Fail;
use std::thread::Threads;

// C makes as many events as the limit allows, and they fit into one turn. There are more of them if its number is dear.
const AHEAD: &[u8] = b"module ahead;
global protocol Ahead(role A, role B, role C, role D) {
  a() from A to B;
  rec X { c(Int) from C to D; continue X; }
}
%% scripts
role C { send c = 7";

const CHEAP_END: &[u8] = b"; }
%% plan
limit 60
";

const DEAR_END: &[u8] = b"; }
%% plan
limit 1000
";

const A: RoleId = RoleId(0);

const C: RoleId = RoleId(2);

// Holds A at its first step until C is at its last one, after so many others.
#[derive(Drop)]
struct Hold {
    before: u32,
    held: Flag,
    last: Flag,
    missed: Flag,
}

impl Gate for Hold {
    fn enter(&self, role: RoleId, count: u32) {
        if role == A && count == 0 {
            self.held.set();
            self.last.wait(&self.missed);
        }
        if role == C && count == self.before {
            self.last.set();
        }
    }

    fn recovering(&self, _role: RoleId) {}

    fn is_open(&self) -> bool {
        false
    }
}

// Whether in the first turn of two workers, with A held up, C makes all of its steps, so many before the last one.
fn goes_ahead<R: AllocGlobal + Threads + Sync>(
    rt: &R,
    input: &[u8],
    before: u32,
) -> Result<bool, AllocError> {
    match setup_of(rt.alloc(), input)? {
        Some(setup) => goes_in(rt, &setup, before),
        None => Ok(false),
    }
}

// The same for the session of a setup.
fn goes_in<R: AllocGlobal + Threads + Sync>(
    rt: &R,
    setup: &Setup,
    before: u32,
) -> Result<bool, AllocError> {
    let mut session = Session::new(rt.alloc(), setup)?;
    let gate = Hold {
        before,
        held: Flag::new(),
        last: Flag::new(),
        missed: Flag::new(),
    };
    let turned = session.turn(rt, rt.alloc(), 2, &gate) == Ok(Turn::More);
    Ok(turned && gate.held.is_set() && gate.last.is_set() && !gate.missed.is_set())
}

#[test]
fn a_role_makes_all_its_steps_beside_one_that_is_held_up(rt: HostRuntime) -> Result<(), Fail> {
    let cheap = with_terms(rt.alloc(), AHEAD, 0, CHEAP_END)?;
    assert!(rt; goes_ahead(&rt, cheap.as_slice(), 59)?);
    let dear = with_terms(rt.alloc(), AHEAD, DEAR, DEAR_END)?;
    assert!(rt; goes_ahead(&rt, dear.as_slice(), 999)?);
    Ok(())
}
