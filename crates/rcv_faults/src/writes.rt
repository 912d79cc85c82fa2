// A sink that fails at one call: what it took before is written, and nothing after that.

use crate::call::{Fault, PIECE};
use crate::fault::try_fault;
use std::io;
use std::thread::Threads;

// It tries so many calls, more than the session's journal needs.
const CALLS: u64 = 60;

/// Prints each call of the sink that fails, if the answer isn't: status 5 and the pieces of this journal of the
/// session before that call if it is made, else the journal.
pub fn try_writes<R: AllocGlobal + Print + Threads + Sync>(
    rt: &R,
    session: &[u8],
    journal: &[u8],
) -> io::Result<()> {
    for number in 1..=CALLS {
        let front = PIECE * (number as usize - 1);
        let (status, written) = if front < journal.len() {
            (5, &journal[..front])
        } else {
            (0, journal)
        };
        try_fault(rt, session, Fault::Write(number), status, written)?;
    }
    Ok(())
}
