// Sessions of more than 1,024 turns: they find their stable line after the 1,024th, the cells forget what is before it,
// and a role that crashes later recovers.

use crate::given::setup_of;
use crate::kept::{is_complete, recoveries};
use rcv_core::setup::Setup;
use rcv_super::session::{Session, Turn};
use rcv_top::NoGate;
use std::alloc::AllocError;
use std::test::Fail;
use std::thread::Threads;

// One worker adds a Send and its Recv by turns. B crashes after the 1,024th turn, even if the first turn was a round.
const STREAM: &[u8] = b"module stream;
global protocol Stream(role A, role B) {
  rec X {
    choice at A { more() from A to B; continue X; } or { stop() from A to B; }
  }
}
%% scripts
role A { var n = 0; on more set n = n + 1; pick more when n < 1700; pick stop; }
%% plan
every A 3 every B 4 crash B 1560 room 1
";

const NOTHING: [u32; 8] = [0; 8];

// A has made 512 events then, and saved 510. B has made 512, and saved all. But the last of B's events whose Send A
// saved is the 510th, and the last one up to there at which B saved is the 508th.
const LINE: [u32; 8] = [510, 508, 0, 0, 0, 0, 0, 0];

// Turns a session with one worker until so many turns were made, and says whether each of them added entries.
fn comes_to<R: AllocGlobal + Threads + Sync>(
    rt: &R,
    session: &mut Session<'_>,
    turns: u32,
) -> bool {
    for _ in session.turns()..turns {
        if session.turn(rt, rt.alloc(), 1, &NoGate) != Ok(Turn::More) {
            return false;
        }
    }
    true
}

// Turns it to its end with two workers, and says whether it completes with one recovery.
fn recovers<R: AllocGlobal + Threads + Sync>(rt: &R, session: &mut Session<'_>) -> bool {
    session.finish(rt, rt.alloc(), 2, &NoGate) == Ok(())
        && is_complete(session.book())
        && recoveries(session.book()) == 1
}

// Whether a session forgets, with its cells after a first turn of several, or with cells that a later turn of several
// brings home.
fn forgets<R: AllocGlobal + Threads + Sync>(
    rt: &R,
    session: &mut Session<'_>,
    several: bool,
) -> bool {
    if several && session.turn(rt, rt.alloc(), 2, &NoGate) != Ok(Turn::More) {
        return false;
    }
    if !comes_to(rt, session, 1023) || session.stable() != NOTHING {
        return false;
    }
    if !comes_to(rt, session, 1024) {
        return false;
    }
    let line = session.stable();
    let found = if several {
        line != NOTHING
    } else {
        line == LINE
    };
    found && recovers(rt, session)
}

// The same for the session of the stream.
fn stream_forgets<R: AllocGlobal + Threads + Sync>(
    rt: &R,
    several: bool,
) -> Result<bool, AllocError> {
    match setup_of(rt.alloc(), STREAM)? {
        Some(setup) => forgets_in(rt, &setup, several),
        None => Ok(false),
    }
}

// And for the session of a setup.
fn forgets_in<R: AllocGlobal + Threads + Sync>(
    rt: &R,
    setup: &Setup,
    several: bool,
) -> Result<bool, AllocError> {
    let mut session = Session::new(rt.alloc(), setup)?;
    Ok(forgets(rt, &mut session, several))
}

#[test]
fn one_worker_finds_the_line(rt: HostRuntime) -> Result<(), Fail> {
    assert!(rt; stream_forgets(&rt, false)?);
    Ok(())
}

#[test]
fn cells_forget_at_home(rt: HostRuntime) -> Result<(), Fail> {
    assert!(rt; stream_forgets(&rt, true)?);
    Ok(())
}
