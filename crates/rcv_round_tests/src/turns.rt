// Sessions that one worker and several turn by turns. Some of their crashed roles recover between two turns. Each role
// keeps what it keeps if one worker makes all turns.

use crate::alone::{TURNS, completes};
use crate::given::{TWO_BUYER, setup_of, stream};
use crate::kept::{complete_alike, recoveries};
use rcv_core::book::Book;
use rcv_core::setup::Setup;
use rcv_super::session::{Session, SessionError, Turn};
use rcv_top::NoGate;
use std::alloc::AllocError;
use std::test::Fail;
use std::thread::Threads;

// B is done when it crashes, and loses all of its events.
const TWO_BUYER_PLAN: &[u8] = b"%% plan
every B 100 crash B 6
";

const STREAM_PLAN: &[u8] = b"crash A 5 crash B 10 crash C 7
";

// One turn. The number of its workers depends on how many turns came before.
fn turn_after<R: AllocGlobal + Threads + Sync>(
    rt: &R,
    session: &mut Session<'_>,
    turns: u32,
) -> Result<Turn, SessionError> {
    match turns % 5 {
        2 => session.turn(rt, rt.alloc(), 3, &NoGate),
        4 => session.turn(rt, rt.alloc(), 2, &NoGate),
        _ => session.turn(rt, rt.alloc(), 1, &NoGate),
    }
}

// Turns a session to its end, and says whether it completes. Every second time that a role is crashed, the first time
// too, it recovers between two turns.
fn completes_by_turns<R: AllocGlobal + Threads + Sync>(
    rt: &R,
    session: &mut Session<'_>,
) -> Result<bool, SessionError> {
    let mut between = false;
    for turns in 0..TURNS {
        if let Some(role) = session.book().first_crashed() {
            between = !between;
            if between {
                session.recover(rt.alloc(), role)?;
            }
        }
        match turn_after(rt, session, turns)? {
            Turn::More => {}
            end => return Ok(end == Turn::Completed),
        }
    }
    Ok(false)
}

// Whether the session of an input completes by turns, with so many recoveries, and keeps what one worker keeps.
fn keeps_by_turns<R: AllocGlobal + Threads + Sync>(
    rt: &R,
    input: &[u8],
    wanted: usize,
) -> Result<bool, AllocError> {
    match setup_of(rt.alloc(), input)? {
        Some(setup) => keeps_in(rt, &setup, wanted),
        None => Ok(false),
    }
}

// The same for the sessions of a setup: what one worker keeps comes first.
fn keeps_in<R: AllocGlobal + Threads + Sync>(
    rt: &R,
    setup: &Setup,
    wanted: usize,
) -> Result<bool, AllocError> {
    let mut alone = Session::new(rt.alloc(), setup)?;
    let _completed = completes(rt, &mut alone, &NoGate);
    keeps_beside(rt, setup, alone.book(), wanted)
}

// And then what is kept by turns.
fn keeps_beside<R: AllocGlobal + Threads + Sync>(
    rt: &R,
    setup: &Setup,
    alone: &Book<'_>,
    wanted: usize,
) -> Result<bool, AllocError> {
    let mut turned = Session::new(rt.alloc(), setup)?;
    let _completed = completes_by_turns(rt, &mut turned);
    Ok(recoveries(turned.book()) == wanted && complete_alike(alone, turned.book()))
}

#[test]
fn two_buyers_by_turns(rt: HostRuntime) -> Result<(), Fail> {
    let mut input = Vec::from_slice(rt.alloc(), TWO_BUYER)?;
    input.extend_from_slice(TWO_BUYER_PLAN)?;
    assert!(rt; keeps_by_turns(&rt, input.as_slice(), 1)?);
    Ok(())
}

#[test]
fn a_stream_by_turns(rt: HostRuntime) -> Result<(), Fail> {
    let mut input = stream(rt.alloc(), 0)?;
    input.extend_from_slice(STREAM_PLAN)?;
    assert!(rt; keeps_by_turns(&rt, input.as_slice(), 3)?);
    Ok(())
}
