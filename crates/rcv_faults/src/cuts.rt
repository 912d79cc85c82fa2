// Input that is cut: what is left of it is run or refused.

use crate::call::{Fault, run};
use crate::plan::with_plan;
use std::io;
use std::thread::Threads;

// The second buyer crashes when it is done.
const PLAN: &str = "every B 100 crash B 6";

/// Prints each length at which the text of this session and a plan, cut, is neither run nor refused.
pub fn try_cuts<R: AllocGlobal + Print + Threads + Sync>(rt: &R, session: &[u8]) -> io::Result<()> {
    let text = with_plan(rt.alloc(), session, PLAN)?;
    for length in 0..=text.len() {
        try_cut(rt, &text[..length])?;
    }
    Ok(())
}

// Prints how a call with this input ends, if it is neither run nor refused.
fn try_cut<R: AllocGlobal + Print + Threads + Sync>(rt: &R, input: &[u8]) -> io::Result<()> {
    let status = run(rt, input, "1", Fault::None)?.status;
    if status != 0 && status != 2 {
        println!(rt; "the first {} bytes end with {status}", input.len())?;
    }
    Ok(())
}
