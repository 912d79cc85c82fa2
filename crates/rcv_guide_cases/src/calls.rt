// Calls that no case can say: a source or a sink that fails, or has no room.

use rcv_io::{MemSink, MemSource};
use rcv_talk::talk;
use std::io;

const PING: &[u8] = b"module ping; global protocol Ping(role A, role B) { ping() from A to B; }
%% events
send A 1 ping 0
recv B 1 ping 0
end
";

// A call with PING, whose bytes the source gives 32 at a time: the numbers of the failing read and the failing write,
// 0 for none, and the room of the sink.
struct Call {
    name: &'static str,
    read: u64,
    write: u64,
    room: usize,
    status: u8,
    written: &'static [u8],
}

const CALLS: [Call; 5] = [
    Call {
        name: "no fault",
        read: 0,
        write: 0,
        room: 4096,
        status: 0,
        written: b"ready 1 A B
done @1
done @2 <1
end +3
role A kept 1 raw 1 done
role B kept 1 raw 1 done
completed
",
    },
    Call {
        name: "failing read in the text",
        read: 2,
        write: 0,
        room: 4096,
        status: 4,
        written: b"",
    },
    Call {
        name: "failing read behind a line",
        read: 4,
        write: 0,
        room: 4096,
        status: 4,
        written: b"ready 1 A B\n",
    },
    Call {
        name: "failing write",
        read: 0,
        write: 3,
        room: 4096,
        status: 5,
        written: b"ready 1 A B\n",
    },
    Call {
        name: "sink without room",
        read: 0,
        write: 0,
        room: 20,
        status: 5,
        written: b"ready 1 A B\ndone @1\n",
    },
];

/// Prints each call that doesn't end as it must, or writes other bytes.
pub fn try_calls<R: AllocGlobal + Print>(rt: &R) -> io::Result<()> {
    for call in CALLS.iter() {
        try_call(rt, call)?;
    }
    Ok(())
}

// Prints what differs in this call. The sink takes 8 bytes at a time.
fn try_call<R: AllocGlobal + Print>(rt: &R, call: &Call) -> io::Result<()> {
    let alloc = rt.alloc();
    let input = Vec::from_slice(alloc, PING)?;
    let mut source = MemSource::new(input, 32, vec![in alloc; call.read]?);
    let mut sink = MemSink::new(alloc, 8, vec![in alloc; call.write]?, call.room)?;
    let words = Vec::new(alloc);
    let number = talk(alloc, words.as_slice(), &mut source, &mut sink).number();
    if number != call.status || sink.written() != call.written {
        let written = String::from_utf8_lossy(alloc, sink.written())?;
        println!(rt;
            "{} ends with {number} and writes {:?}",
            call.name,
            written.as_str()
        )?;
    }
    Ok(())
}
