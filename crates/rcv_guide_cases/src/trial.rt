// A case put through the top call over memory.

use rcv_case::{Case, read_case};
use rcv_io::{MemSink, MemSource};
use rcv_talk::talk;
use std::fs::Files;
use std::{fs, io};

// How many bytes an answer may have.
const ROOM: usize = 4_194_304;

// The source gives so many bytes at a time: a line in pieces, a few lines, and many.
const PIECES: [usize; 3] = [7, 100, 65_536];

// How a call ended, and what it wrote.
#[derive(Drop)]
struct Answer {
    status: String,
    bytes: Vec<u8>,
}

/// Prints what differs between the answer to a case and the wanted one; nothing if they are the same, however many
/// bytes the source gives at a time.
pub fn try_case<R: AllocGlobal + Files + Print>(rt: &R, name: &str) -> io::Result<()> {
    let text = fs::read_to_string(rt, name)?;
    let Some(case) = read_case(rt.alloc(), "rcv-guide", text.as_str())? else {
        return println!(rt; "{name} is no case");
    };
    for piece in PIECES {
        try_pieces(rt, name, &case, piece)?;
    }
    Ok(())
}

// Prints what differs if the source gives so many bytes at a time.
fn try_pieces<R: AllocGlobal + Print>(
    rt: &R,
    name: &str,
    case: &Case,
    piece: usize,
) -> io::Result<()> {
    let answer = call(rt, case.words.as_slice(), case.input.as_slice(), piece)?;
    if answer.status != case.status {
        println!(rt;
            "{name} by {piece} bytes ends with {} in place of {}",
            answer.status.as_str(),
            case.status.as_str()
        )?;
    }
    if answer.bytes.as_slice() != case.output.as_slice() {
        let written = String::from_utf8_lossy(rt.alloc(), answer.bytes.as_slice())?;
        println!(rt; "{name} by {piece} bytes writes\n{}", written.as_str())?;
    }
    Ok(())
}

// What the top call answers to these words and this input.
fn call<R: AllocGlobal>(
    rt: &R,
    words: &[String],
    input: &[u8],
    piece: usize,
) -> io::Result<Answer> {
    let alloc = rt.alloc();
    let mut source = MemSource::new(
        Vec::from_slice(alloc, input)?,
        piece.max(1),
        Vec::new(alloc),
    );
    let mut sink = MemSink::new(alloc, 4096, Vec::new(alloc), ROOM)?;
    let status = talk(alloc, words, &mut source, &mut sink);
    Ok(Answer {
        status: format!(in alloc; "{}", status.number())?,
        bytes: Vec::from_slice(alloc, sink.written())?,
    })
}
