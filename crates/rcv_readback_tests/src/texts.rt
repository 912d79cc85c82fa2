// Texts that are read back.

use crate::protocols::{PING, TWO_BUYER, accepted, recv, send};
use rcv_accept::accepted::Accepted;
use rcv_journal::line::{RoleLine, RoleWord};
use rcv_lines::text::{LinesError, read_text};
use rcv_tree::entry::Entry;
use rcv_tree::role::{RoleId, RoleSet};
use std::alloc::{AllocError, Global};
use std::test::Fail;

// How many bytes a text of a test has at most.
const MOST: usize = 65_536;

const PING_TEXT: &[u8] = b"send A 1 ping 0 @1
recv B 1 ping 0 @2 <1
send B 2 pong 0 @3
recv A 2 pong 0 @4 <3
role A kept 2 raw 2 done
role B kept 2 raw 2 done
completed
";

// A crash of a role that is done, which loses all of its events.
const TWO_BUYER_TEXT: &[u8] = b"send A 1 title 7 @1
recv S 1 title 7 @2 <1
send S 2 quote 80 @3
recv A 2 quote 80 @4 <3
send A 4 share 50 @5
send S 3 quote 80 @4
recv B 3 quote 80 @5 <4
recv B 4 share 50 @6 <5
send B 5 ok 0 @7
recv A 5 ok 0 @8 <7
send B 6 ok 0 @8
send B 7 address 12 @9
recv S 6 ok 0 @9 <8
recv S 7 address 12 @10 <9
send S 8 date 25 @11
recv B 8 date 25 @12 <11
crash B
recover B undone 10: A 3 B 0 S 3
recv B 3 quote 80 @14 <4
recv B 4 share 50 @15 <5
send B 5 ok 0 @16
recv A 5 ok 0 @17 <16
send B 6 ok 0 @17
send B 7 address 12 @18
recv S 6 ok 0 @18 <17
recv S 7 address 12 @19 <18
send S 8 date 25 @20
recv B 8 date 25 @21 <20
role A kept 4 raw 5 done
role B kept 6 raw 12 done
role S kept 6 raw 9 done
completed
";

// The line of a role that is done.
fn done(role: u8, kept: u32, raw: u32) -> RoleLine {
    RoleLine {
        role: RoleId(role),
        kept,
        raw,
        word: RoleWord::Done,
    }
}

// Whether the entry with this number is this one.
fn has_entry(entries: &[Entry], number: usize, entry: Entry) -> bool {
    entries.get(number) == Some(&entry)
}

// The first line of a text that isn't of the form; none if all are.
fn first_wrong(alloc: Global, accepted: &Accepted, text: &[u8]) -> Result<Option<u32>, AllocError> {
    if text.len() > MOST {
        return Ok(Some(0));
    }
    match read_text(alloc, text, accepted) {
        Ok(_) => Ok(None),
        Err(LinesError::Line(line)) => Ok(Some(line)),
        Err(LinesError::Memory) => Err(AllocError),
    }
}

// Whether the text of Ping's journal is wrong at the line of a byte if that byte is changed to a sign that no journal
// has, whichever byte it is.
fn tells_each_byte(alloc: Global, accepted: &Accepted) -> Result<bool, AllocError> {
    let mut line: u32 = 1;
    for (place, byte) in PING_TEXT.iter().enumerate() {
        let mut changed = Vec::from_slice(alloc, PING_TEXT)?;
        let Some(other) = changed.get_mut(place) else {
            return Ok(false);
        };
        *other = b'#';
        if first_wrong(alloc, accepted, changed.as_slice())? != Some(line) {
            return Ok(false);
        }
        if *byte == b'\n' {
            line = line.saturating_add(1);
        }
    }
    Ok(line == 8)
}

#[test]
fn two_buyers_with_a_crash_are_read_back(rt: HostRuntime) -> Result<(), Fail> {
    let accepted = accepted(rt.alloc(), TWO_BUYER).expect(&rt, "the protocol is accepted");
    let Ok(journal) = read_text(rt.alloc(), TWO_BUYER_TEXT, &accepted) else {
        panic!(&rt; "the text is a journal");
    };
    let entries = journal.entries.as_slice();
    let recovery = Entry::Recover {
        role: RoleId(1),
        concerned: RoleSet(7),
        kept: [3, 0, 3, 0, 0, 0, 0, 0],
        undone: 10,
    };
    assert_eq!(rt; entries.len(), 28);
    assert!(rt; has_entry(entries, 8, send(1, 5, 7)));
    assert!(rt; has_entry(entries, 16, Entry::Crash(RoleId(1))));
    assert!(rt; has_entry(entries, 17, recovery));
    assert!(rt; has_entry(entries, 21, recv(0, 5, 17, 16)));
    let roles = [done(0, 4, 5), done(1, 6, 12), done(2, 6, 9)];
    assert!(rt; journal.roles.as_slice() == roles.as_slice());
    assert!(rt; journal.limited.is_empty());
    Ok(())
}

#[test]
fn wrong_texts_have_their_lines(rt: HostRuntime) -> Result<(), Fail> {
    let accepted = accepted(rt.alloc(), PING).expect(&rt, "the protocol is accepted");
    assert_eq!(rt;
        first_wrong(rt.alloc(), &accepted, b"send A 1 ping 0 1\n")?,
        Some(1)
    );
    assert_eq!(rt; first_wrong(rt.alloc(), &accepted, b"crash A\n")?, Some(2));
    assert_eq!(rt; first_wrong(rt.alloc(), &accepted, b"")?, Some(1));
    Ok(())
}

#[test]
fn each_changed_byte_is_wrong_at_its_line(rt: HostRuntime) -> Result<(), Fail> {
    let accepted = accepted(rt.alloc(), PING).expect(&rt, "the protocol is accepted");
    assert_eq!(rt; first_wrong(rt.alloc(), &accepted, PING_TEXT)?, None);
    assert!(rt; tells_each_byte(rt.alloc(), &accepted)?);
    Ok(())
}
