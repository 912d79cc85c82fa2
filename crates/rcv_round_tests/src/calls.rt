// Calls of `run` with several workers over memory, for one session and for several.

use rcv_io::{MemSink, MemSource};
use rcv_top::{Gate, recover};
use std::alloc::AllocError;
use std::thread::Threads;

/// The number of the status with which so many workers end the session of an input, and what is written.
pub fn run<R: AllocGlobal + Threads + Sync, G: Gate + Sync>(
    rt: &R,
    workers: &str,
    input: &[u8],
    gate: &G,
) -> Result<(u8, Vec<u8>), AllocError> {
    run_sessions(rt, "1", workers, input, gate)
}

/// The same of so many sessions of the input.
pub fn run_sessions<R: AllocGlobal + Threads + Sync, G: Gate + Sync>(
    rt: &R,
    sessions: &str,
    workers: &str,
    input: &[u8],
    gate: &G,
) -> Result<(u8, Vec<u8>), AllocError> {
    let alloc = rt.alloc();
    let mut words = Vec::new(alloc);
    for word in ["run", "--sessions", sessions, "--workers", workers] {
        words.push(String::from_str(alloc, word)?)?;
    }
    let mut source = MemSource::new(Vec::from_slice(alloc, input)?, 4096, Vec::new(alloc));
    let mut sink = MemSink::new(alloc, 4096, Vec::new(alloc), 65_536)?;
    let status = recover(rt, alloc, words.as_slice(), &mut source, &mut sink, gate);
    Ok((status.number(), Vec::from_slice(alloc, sink.written())?))
}
