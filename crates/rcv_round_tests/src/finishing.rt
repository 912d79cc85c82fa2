// Sessions that `finish` ends: with several workers, and with one after several. Each ends as with one worker alone,
// and each role keeps the same.

use crate::flag::Flag;
use crate::given::{DEAR, RING_OF_TWO, setup_of, stormy, stream};
use crate::kept::complete_alike;
use rcv_core::book::Book;
use rcv_core::setup::Setup;
use rcv_super::session::{Session, Turn};
use rcv_top::{Gate, NoGate};
use rcv_tree::role::RoleId;
use std::alloc::AllocError;
use std::test::Fail;
use std::thread::Threads;

// How often each role of a stream crashes, and A in a ring.
const CRASHES: u32 = 15;

// How many events a role of a ring makes at most.
const LIMIT: u32 = 300;

// Who ends a session.
#[derive(Clone, Copy)]
enum Way {
    Four,
    OneBehindSeveral,
}

// Lets all pass, though it doesn't say so, and keeps whether a role that has come to the limit tries one more step. If
// rounds are made to the end, it does. If the book goes on alone, it doesn't.
#[derive(Drop)]
struct Silent {
    limited: Flag,
}

impl Gate for Silent {
    fn enter(&self, _role: RoleId, count: u32) {
        if count == LIMIT {
            self.limited.set();
        }
    }

    fn recovering(&self, _role: RoleId) {}

    fn is_open(&self) -> bool {
        false
    }
}

// Brings a session to its end, and says whether it comes there.
fn ends<R: AllocGlobal + Threads + Sync, G: Gate + Sync>(
    rt: &R,
    session: &mut Session<'_>,
    gate: &G,
    way: Way,
) -> bool {
    match way {
        Way::Four => session.finish(rt, rt.alloc(), 4, gate) == Ok(()),
        Way::OneBehindSeveral => {
            for _ in 0..3u32 {
                if session.turn(rt, rt.alloc(), 3, gate) != Ok(Turn::More) {
                    return false;
                }
            }
            session.finish(rt, rt.alloc(), 1, gate) == Ok(())
        }
    }
}

// Whether a stormy stream whose numbers have so many terms ends as with one worker alone.
fn ends_alike<R: AllocGlobal + Threads + Sync, G: Gate + Sync>(
    rt: &R,
    terms: u32,
    gate: &G,
    way: Way,
) -> Result<bool, AllocError> {
    let calm = stream(rt.alloc(), terms)?;
    let input = stormy(rt.alloc(), calm.as_slice(), &["A", "B", "C"], CRASHES)?;
    match setup_of(rt.alloc(), input.as_slice())? {
        Some(setup) => alike_in(rt, &setup, gate, way),
        None => Ok(false),
    }
}

// The same for the sessions of a setup: the one of one worker comes first.
fn alike_in<R: AllocGlobal + Threads + Sync, G: Gate + Sync>(
    rt: &R,
    setup: &Setup,
    gate: &G,
    way: Way,
) -> Result<bool, AllocError> {
    let mut alone = Session::new(rt.alloc(), setup)?;
    let ended = alone.finish(rt, rt.alloc(), 1, &NoGate) == Ok(());
    Ok(ended && alike_beside(rt, setup, alone.book(), gate, way)?)
}

// And then the other one.
fn alike_beside<R: AllocGlobal + Threads + Sync, G: Gate + Sync>(
    rt: &R,
    setup: &Setup,
    alone: &Book<'_>,
    gate: &G,
    way: Way,
) -> Result<bool, AllocError> {
    let mut session = Session::new(rt.alloc(), setup)?;
    let ended = ends(rt, &mut session, gate, way);
    Ok(ended && complete_alike(alone, session.book()))
}

#[test]
fn four_workers_end_a_storm_as_one_does(rt: HostRuntime) -> Result<(), Fail> {
    for terms in [0, DEAR] {
        assert!(rt;
            ends_alike(&rt, terms, &NoGate, Way::Four)?,
            "open, {terms} terms"
        );
        let gate = Silent {
            limited: Flag::new(),
        };
        assert!(rt;
            ends_alike(&rt, terms, &gate, Way::Four)?,
            "silent, {terms} terms"
        );
    }
    Ok(())
}

#[test]
fn one_worker_does_behind_several(rt: HostRuntime) -> Result<(), Fail> {
    for terms in [0, DEAR] {
        assert!(rt;
            ends_alike(&rt, terms, &NoGate, Way::OneBehindSeveral)?,
            "{terms} terms"
        );
    }
    Ok(())
}

// Whether two workers end a ring with many turns that add few entries, and a role that has come to the limit tries one
// more step.
fn rounds_to_the_end<R: AllocGlobal + Threads + Sync>(rt: &R) -> Result<bool, AllocError> {
    let input = stormy(rt.alloc(), RING_OF_TWO, &["A"], CRASHES)?;
    match setup_of(rt.alloc(), input.as_slice())? {
        Some(setup) => rounds_in(rt, &setup),
        None => Ok(false),
    }
}

fn rounds_in<R: AllocGlobal + Threads + Sync>(rt: &R, setup: &Setup) -> Result<bool, AllocError> {
    let mut session = Session::new(rt.alloc(), setup)?;
    let gate = Silent {
        limited: Flag::new(),
    };
    let ended = session.finish(rt, rt.alloc(), 2, &gate) == Ok(());
    Ok(ended && gate.limited.is_set())
}

#[test]
fn rounds_go_on_where_a_gate_may_hold_roles_up(rt: HostRuntime) -> Result<(), Fail> {
    assert!(rt; rounds_to_the_end(&rt)?);
    Ok(())
}
