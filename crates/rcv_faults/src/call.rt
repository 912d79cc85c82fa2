// A call of the program over memory, in which one call of the source or of the sink may fail.

use rcv_io::{MemSink, MemSource};
use rcv_top::{NoGate, recover};
use std::alloc::{AllocError, Global};
use std::io;
use std::thread::Threads;

/// How many bytes a call of the source gives at most, and how many a call of the sink takes.
pub const PIECE: usize = 16;

// How many bytes an answer may have.
const ROOM: usize = 1_048_576;

/// The call that fails, by its number from 1.
#[derive(Clone, Copy, Debug)]
pub enum Fault {
    None,
    Read(u64),
    Write(u64),
}

/// How a call ended, and what it wrote.
#[derive(Drop)]
pub struct Answer {
    pub status: u8,
    pub bytes: Vec<u8>,
}

/// What `run` with so many workers answers to this input.
pub fn run<R: AllocGlobal + Threads + Sync>(
    rt: &R,
    input: &[u8],
    workers: &str,
    fault: Fault,
) -> io::Result<Answer> {
    let alloc = rt.alloc();
    let words = words_of(alloc, workers)?;
    let (reads, writes) = failing(alloc, fault)?;
    let mut source = MemSource::new(Vec::from_slice(alloc, input)?, PIECE, reads);
    let mut sink = MemSink::new(alloc, PIECE, writes, ROOM)?;
    let status = recover(rt, alloc, words.as_slice(), &mut source, &mut sink, &NoGate);
    Ok(Answer {
        status: status.number(),
        bytes: Vec::from_slice(alloc, sink.written())?,
    })
}

// The words that ask for a run with so many workers.
fn words_of(alloc: Global, workers: &str) -> Result<Vec<String>, AllocError> {
    let mut words = Vec::new(alloc);
    for word in ["run", "--workers", workers] {
        words.push(String::from_str(alloc, word)?)?;
    }
    Ok(words)
}

// The numbers of the source's calls that fail, and of the sink's.
fn failing(alloc: Global, fault: Fault) -> Result<(Vec<u64>, Vec<u64>), AllocError> {
    let mut reads = Vec::new(alloc);
    let mut writes = Vec::new(alloc);
    match fault {
        Fault::None => {}
        Fault::Read(number) => reads.push(number)?,
        Fault::Write(number) => writes.push(number)?,
    }
    Ok((reads, writes))
}
