// A case put through the top call over memory.

use rcv_case::{Case, read_case};
use rcv_io::{MemSink, MemSource};
use rcv_same_kept::keep_the_same;
use rcv_top::{NoGate, recover};
use std::alloc::{AllocError, Global};
use std::fs::Files;
use std::thread::Threads;
use std::{fs, io};

// How many bytes an answer may have.
const ROOM: usize = 4_194_304;

// How a call ended, and what it wrote.
#[derive(Drop)]
struct Answer {
    status: String,
    bytes: Vec<u8>,
}

/// Prints what differs between the answer to a case and the wanted one, nothing if they are the same. A session also
/// runs with two and with four workers, and its answers must fit the case.
pub fn try_case<R: AllocGlobal + Files + Print + Threads + Sync>(
    rt: &R,
    name: &str,
) -> io::Result<()> {
    let text = fs::read_to_string(rt, name)?;
    let Some(case) = read_case(rt.alloc(), "rcv", text.as_str())? else {
        return println!(rt; "{name} is no case");
    };
    try_alone(rt, name, &case)?;
    if case.words.len() == 1 && case.words[0].as_str() == "run" {
        for workers in ["2", "4"] {
            try_workers(rt, name, &case, workers)?;
        }
    }
    Ok(())
}

// Prints what differs in the answer to this case.
fn try_alone<R: AllocGlobal + Files + Print + Threads + Sync>(
    rt: &R,
    name: &str,
    case: &Case,
) -> io::Result<()> {
    let answer = call(rt, case.words.as_slice(), case.input.as_slice())?;
    if answer.status != case.status {
        println!(rt;
            "{name} ends with {} in place of {}",
            answer.status.as_str(),
            case.status.as_str()
        )?;
    }
    if answer.bytes.as_slice() != case.output.as_slice() {
        let written = String::from_utf8_lossy(rt.alloc(), answer.bytes.as_slice())?;
        println!(rt; "{name} writes\n{}", written.as_str())?;
    }
    Ok(())
}

// Prints what differs if so many workers run the session of this case.
fn try_workers<R: AllocGlobal + Files + Print + Threads + Sync>(
    rt: &R,
    name: &str,
    case: &Case,
    workers: &str,
) -> io::Result<()> {
    let alloc = rt.alloc();
    let mut words = Vec::new(alloc);
    for word in ["run", "--workers", workers] {
        words.push(String::from_str(alloc, word)?)?;
    }
    let answer = call(rt, words.as_slice(), case.input.as_slice())?;
    if !fits(alloc, case, &answer)? {
        let written = String::from_utf8_lossy(alloc, answer.bytes.as_slice())?;
        println!(rt;
            "{name} with {workers} workers ends with {} and writes\n{}",
            answer.status.as_str(),
            written.as_str()
        )?;
    }
    Ok(())
}

// Whether an answer of several workers fits the case. A refusal is the same one. The last line of a journal says its
// status. If the word `crash` doesn't stand in the input, that is the wanted one; else the order of the roles' steps
// may decide who comes to the limit. If both complete, each role keeps the same events, unless the word `attempt`
// stands in the input: how often a role is rolled back may depend on that order, too.
fn fits(alloc: Global, case: &Case, answer: &Answer) -> Result<bool, AllocError> {
    let same = answer.status == case.status;
    if !is_of_session(case.status.as_str()) {
        return Ok(same && answer.bytes.as_slice() == case.output.as_slice());
    }
    if !says_its_status(alloc, answer)? {
        return Ok(false);
    }
    if !same {
        return has_word(alloc, case, "crash");
    }
    if case.status.as_str() == "3" || has_word(alloc, case, "attempt")? {
        return Ok(true);
    }
    keep_the_same(alloc, case.output.as_slice(), answer.bytes.as_slice())
}

// Whether a session that was run ends with this status.
fn is_of_session(status: &str) -> bool {
    status == "0" || status == "3"
}

// Whether the last line of a journal fits the status that it came with.
fn says_its_status(alloc: Global, answer: &Answer) -> Result<bool, AllocError> {
    let journal = String::from_utf8_lossy(alloc, answer.bytes.as_slice())?;
    let mut says = false;
    for line in journal.as_str().lines() {
        says = is_last_of(line, answer.status.as_str());
    }
    Ok(says)
}

// Whether a journal with this last line comes with this status.
fn is_last_of(line: &str, status: &str) -> bool {
    match status {
        "0" => line == "completed",
        "3" => line.starts_with("limited"),
        _ => false,
    }
}

// Whether this word stands in the input.
fn has_word(alloc: Global, case: &Case, word: &str) -> Result<bool, AllocError> {
    let input = String::from_utf8_lossy(alloc, case.input.as_slice())?;
    Ok(input.as_str().contains(word))
}

// What the top call answers to these words and this input.
fn call<R: AllocGlobal + Threads + Sync>(
    rt: &R,
    words: &[String],
    input: &[u8],
) -> io::Result<Answer> {
    let alloc = rt.alloc();
    let mut source = MemSource::new(Vec::from_slice(alloc, input)?, 4096, Vec::new(alloc));
    let mut sink = MemSink::new(alloc, 4096, Vec::new(alloc), ROOM)?;
    let status = recover(rt, alloc, words, &mut source, &mut sink, &NoGate);
    Ok(Answer {
        status: format!(in alloc; "{}", status.number())?,
        bytes: Vec::from_slice(alloc, sink.written())?,
    })
}
