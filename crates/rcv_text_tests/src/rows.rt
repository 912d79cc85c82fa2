// A session with a crash: which of its events are undone, which messages are drawn, and what a fold counts.

use rcv_core::book::Book;
use rcv_core::setup::Setup;
use rcv_fates::Record;
use rcv_input::read_input;
use rcv_picture::group::{Counts, Says};
use rcv_rows::{Told, tell};
use std::alloc::Global;
use std::test::Fail;

// B crashes after its first event, which is undone: entry 1 receives the message of entry 0, and so does entry 4.
const PING: &[u8] = b"module ping;
global protocol Ping(role A, role B) {
  ping() from A to B;
  pong() from B to A;
}
%% plan
every A 2 every B 2 crash B 1
";

// How many bytes an input may have.
const MOST: usize = 1_048_576;

// What is told of the journal of one thread; none if there isn't a mark for each entry, or memory ran out.
fn told_of(alloc: Global, input: &[u8], shown: &[bool]) -> Option<Told> {
    if input.len() > MOST {
        return None;
    }
    let input = read_input(alloc, input).ok()?;
    let setup = Setup::new(alloc, input.accepted, input.scripts, input.plan).ok()?;
    let mut book = Book::new(alloc, &setup).ok()?;
    book.run_alone();
    if shown.len() != book.len() {
        return None;
    }
    let record = Record::of_book(alloc, &book).ok()?;
    tell(alloc, &record, shown).ok()
}

// Whether this is said at a place, counted from 0.
fn says(list: &[Says], place: usize, said: Says) -> bool {
    list.get(place) == Some(&said)
}

fn entry(place: u32, undone: bool) -> Says {
    Says::Entry { place, undone }
}

fn arrow(send: u32, receive: u32, undone: bool) -> Says {
    Says::Arrow {
        send,
        receive,
        undone,
    }
}

#[test]
fn an_undone_event_is_marked_with_its_message(rt: HostRuntime) -> Result<(), Fail> {
    let told = told_of(rt.alloc(), PING, &[true; 7]).expect(&rt, "the session runs");
    let rows = told.rows.as_slice();
    assert_eq!(rt; rows.len(), 7);
    assert!(rt; says(rows, 0, entry(0, false)));
    assert!(rt; says(rows, 1, entry(1, true)));
    assert!(rt; says(rows, 2, entry(2, false)));
    assert!(rt; says(rows, 4, entry(4, false)));
    let wires = told.wires.as_slice();
    assert_eq!(rt; wires.len(), 3);
    assert!(rt; says(wires, 0, arrow(0, 1, true)));
    assert!(rt; says(wires, 1, arrow(0, 4, false)));
    assert!(rt; says(wires, 2, arrow(5, 6, false)));
    Ok(())
}

#[test]
fn what_is_hidden_is_folded_and_counted(rt: HostRuntime) -> Result<(), Fail> {
    let shown = [false, false, false, false, false, true, false];
    let told = told_of(rt.alloc(), PING, &shown).expect(&rt, "the session runs");
    let rows = told.rows.as_slice();
    let counts = Counts {
        sends: 1,
        receives: 2,
        crashes: 1,
        recoveries: 1,
        undone: 1,
    };
    assert_eq!(rt; rows.len(), 3);
    assert!(rt;
        says(
            rows,
            0,
            Says::Fold {
                first: 0,
                end: 5,
                counts
            }
        )
    );
    assert!(rt; says(rows, 1, entry(5, false)));
    let wires = told.wires.as_slice();
    assert_eq!(rt; wires.len(), 1);
    assert!(rt; says(wires, 0, arrow(5, 6, false)));
    Ok(())
}
