// Calls that no case can say: a source or a sink that fails, or has no room.

use rcv_io::{MemSink, MemSource};
use rcv_top::{NoGate, recover};
use std::io;
use std::thread::Threads;

const PING: &[u8] =
    b"module ping; global protocol Ping(role A, role B) { ping() from A to B; pong() from B to A; }";

// A call of `run` on PING: the numbers of the failing read and the failing write, 0 for none, and the room of the sink.
struct Call {
    name: &'static str,
    read: u64,
    write: u64,
    room: usize,
    status: u8,
    written: &'static [u8],
}

const CALLS: [Call; 3] = [
    Call {
        name: "failing read",
        read: 2,
        write: 0,
        room: 4096,
        status: 4,
        written: b"",
    },
    Call {
        name: "failing write",
        read: 0,
        write: 2,
        room: 4096,
        status: 5,
        written: b"send A 1",
    },
    Call {
        name: "sink without room",
        read: 0,
        write: 0,
        room: 12,
        status: 5,
        written: b"send A 1 pin",
    },
];

/// Prints each call that ends in another way than it should, or writes other bytes.
pub fn try_calls<R: AllocGlobal + Print + Threads + Sync>(rt: &R) -> io::Result<()> {
    for call in CALLS.iter() {
        try_call(rt, call)?;
    }
    Ok(())
}

// Prints what differs in this call. The sink takes 8 bytes at a time.
fn try_call<R: AllocGlobal + Print + Threads + Sync>(rt: &R, call: &Call) -> io::Result<()> {
    let alloc = rt.alloc();
    let words = [String::from_str(alloc, "run")?];
    let input = Vec::from_slice(alloc, PING)?;
    let mut source = MemSource::new(input, 4096, vec![in alloc; call.read]?);
    let mut sink = MemSink::new(alloc, 8, vec![in alloc; call.write]?, call.room)?;
    let number = recover(rt, alloc, words.as_slice(), &mut source, &mut sink, &NoGate).number();
    if number != call.status || sink.written() != call.written {
        let written = String::from_utf8_lossy(alloc, sink.written())?;
        println!(rt;
            "{} ends with {number} and writes {:?}",
            call.name,
            written.as_str()
        )?;
    }
    Ok(())
}
