// A call that fails, and what the program must answer then.

use crate::call::{Fault, run};
use std::io;
use std::thread::Threads;

/// Prints what differs if the call on this session doesn't end with this status or doesn't write these bytes.
pub fn try_fault<R: AllocGlobal + Print + Threads + Sync>(
    rt: &R,
    session: &[u8],
    fault: Fault,
    status: u8,
    written: &[u8],
) -> io::Result<()> {
    let answer = run(rt, session, "1", fault)?;
    if answer.status != status || answer.bytes.as_slice() != written {
        let bytes = String::from_utf8_lossy(rt.alloc(), answer.bytes.as_slice())?;
        println!(rt;
            "{fault:?} ends with {} and writes\n{}",
            answer.status,
            bytes.as_str()
        )?;
    }
    Ok(())
}
