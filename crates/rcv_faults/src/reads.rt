// A source that fails at one call: nothing is written.

use crate::call::{Fault, PIECE};
use crate::fault::try_fault;
use std::io;
use std::thread::Threads;

// It tries so many calls, more than the session's text needs.
const CALLS: u64 = 120;

/// Prints each call of the source that fails, if the answer isn't: status 4 and nothing if that call is made, else
/// this journal of the session.
pub fn try_reads<R: AllocGlobal + Print + Threads + Sync>(
    rt: &R,
    session: &[u8],
    journal: &[u8],
) -> io::Result<()> {
    // One for each piece, and one that finds the end.
    let made = session.chunks(PIECE).count() as u64 + 1;
    for number in 1..=CALLS {
        let (status, written) = if number <= made {
            (4, b"".as_slice())
        } else {
            (0, journal)
        };
        try_fault(rt, session, Fault::Read(number), status, written)?;
    }
    Ok(())
}
