// A session that one worker turns to its end.

use rcv_super::session::{Session, SessionError, Turn};
use rcv_top::Gate;
use std::thread::Threads;

/// How many turns a session of a test may take.
pub const TURNS: u32 = 1000;

/// Turns a session to its end with one worker through the gate, and says whether it completes. It fails if a turn
/// fails.
pub fn completes<R: AllocGlobal + Threads + Sync, G: Gate + Sync>(
    rt: &R,
    session: &mut Session<'_>,
    gate: &G,
) -> Result<bool, SessionError> {
    for _ in 0..TURNS {
        match session.turn(rt, rt.alloc(), 1, gate)? {
            Turn::More => {}
            end => return Ok(end == Turn::Completed),
        }
    }
    Ok(false)
}
