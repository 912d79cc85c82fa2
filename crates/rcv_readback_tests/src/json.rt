// JSON that is read back.

use crate::protocols::{PING, accepted, recv, send};
use rcv_accept::accepted::Accepted;
use rcv_json_reader::{JsonError, read_json};
use std::alloc::{AllocError, Global};
use std::test::Fail;

// As `run --json` writes it, except for the line feeds between the entries.
const PING_LINES: &[u8] = b"{\"entries\":[
[\"send\",\"A\",1,\"ping\",0,1],
[\"recv\",\"B\",1,\"ping\",0,2,1],
[\"send\",\"B\",2,\"pong\",0,3],
[\"recv\",\"A\",2,\"pong\",0,4,3]
],\"limited\":[],\"roles\":[[\"A\",2,2,\"done\"],[\"B\",2,2,\"done\"]]}
";

// Whether a text isn't of the form of a protocol's journals.
fn has_no_shape(alloc: Global, accepted: &Accepted, text: &[u8]) -> Result<bool, AllocError> {
    match read_json(alloc, text, accepted) {
        Ok(_) => Ok(false),
        Err(JsonError::Shape) => Ok(true),
        Err(JsonError::Memory) => Err(AllocError),
    }
}

#[test]
fn ping_is_read_back(rt: HostRuntime) -> Result<(), Fail> {
    let accepted = accepted(rt.alloc(), PING).expect(&rt, "the protocol is accepted");
    let Ok(journal) = read_json(rt.alloc(), PING_LINES, &accepted) else {
        panic!(&rt; "the lines are a journal");
    };
    let entries = [
        send(0, 1, 1),
        recv(1, 1, 2, 1),
        send(1, 2, 3),
        recv(0, 2, 4, 3),
    ];
    assert!(rt; journal.entries.as_slice() == entries.as_slice());
    assert_eq!(rt; journal.roles.len(), 2);
    assert!(rt; journal.limited.is_empty());
    Ok(())
}

#[test]
fn other_values_have_no_shape(rt: HostRuntime) -> Result<(), Fail> {
    let accepted = accepted(rt.alloc(), PING).expect(&rt, "the protocol is accepted");
    let others: [&[u8]; 7] = [
        b"[]",
        b"{\"entries\":[],\"limited\":[]}",
        b"{\"entries\":[[\"crash\",\"C\"]],\"limited\":[],\"roles\":[[\"A\",0,0,\"done\"],[\"B\",0,0,\"done\"]]}",
        b"{\"entries\":[],\"limited\":[],\"roles\":[[\"A\",1.0,0,\"done\"],[\"B\",0,0,\"done\"]]}",
        b"{\"entries\":[],\"limited\":[],\"roles\":[[\"A\",1e0,0,\"done\"],[\"B\",0,0,\"done\"]]}",
        b"{\"entries\":[],\"limited\":[],\"roles\":[[\"A\",18446744073709551616,0,\"done\"],[\"B\",0,0,\"done\"]]}",
        b"{\"entries\":[],\"limited\":[],\"roles\":[[\"B\",0,0,\"done\"],[\"A\",0,0,\"done\"]]}",
    ];
    for other in others.iter() {
        assert!(rt; has_no_shape(rt.alloc(), &accepted, other)?);
    }
    Ok(())
}

// An object whose key `entries` stands twice: first with so many lists, one inside the other, and then with none. The
// last counts.
fn nested(alloc: Global, depth: u32) -> Result<Vec<u8>, AllocError> {
    let mut text = Vec::from_slice(alloc, b"{\"entries\":")?;
    for _ in 0..depth {
        text.push(b'[')?;
    }
    for _ in 0..depth {
        text.push(b']')?;
    }
    text.extend_from_slice(b",\"entries\":[],\"limited\":[],")?;
    text.extend_from_slice(b"\"roles\":[[\"A\",0,0,\"done\"],[\"B\",0,0,\"done\"]]}")?;
    Ok(text)
}

#[test]
fn lists_nested_200_deep_have_no_shape(rt: HostRuntime) -> Result<(), Fail> {
    let accepted = accepted(rt.alloc(), PING).expect(&rt, "the protocol is accepted");
    let deep = nested(rt.alloc(), 200)?;
    assert!(rt; has_no_shape(rt.alloc(), &accepted, deep.as_slice())?);
    let flatter = nested(rt.alloc(), 100)?;
    assert!(rt; !has_no_shape(rt.alloc(), &accepted, flatter.as_slice())?);
    Ok(())
}
