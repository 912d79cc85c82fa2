// Sessions with a crash: what is told of their recoveries and messages.

use rcv_core::book::Book;
use rcv_core::setup::Setup;
use rcv_fates::Record;
use rcv_input::read_input;
use rcv_story::shown::shown_entries;
use rcv_story::story::{Dropped, Story, story_of};
use rcv_tree::role::RoleId;
use std::alloc::Global;
use std::test::Fail;

// B crashes after its first event, which is undone: entry 1 receives the message of entry 0, and so does entry 4.
const PING: &[u8] = b"module ping;
global protocol Ping(role A, role B) {
  ping() from A to B;
  pong() from B to A;
}
%% plan
every A 2 every B 2 crash B 1
";

// A crashes after its first Send, whose message is in flight: it is dropped.
const FLIGHT: &[u8] = b"module flight;
global protocol Flight(role A, role B) {
  one() from A to B;
  two() from A to B;
}
%% plan
every A 2 every B 2 crash A 1
";

// How many bytes an input may have.
const MOST: usize = 1_048_576;

// The story of the journal of one thread, with the marks of what is shown; none if no memory was left.
fn story_for(alloc: Global, input: &[u8]) -> Option<(Story, Vec<bool>)> {
    if input.len() > MOST {
        return None;
    }
    let input = read_input(alloc, input).ok()?;
    let setup = Setup::new(alloc, input.accepted, input.scripts, input.plan).ok()?;
    let mut book = Book::new(alloc, &setup).ok()?;
    book.run_alone();
    let record = Record::of_book(alloc, &book).ok()?;
    let story = story_of(alloc, &record).ok()?;
    let shown = shown_entries(alloc, &record, &story).ok()?;
    Some((story, shown))
}

#[test]
fn a_receiver_goes_back_and_receives_again(rt: HostRuntime) -> Result<(), Fail> {
    let (story, shown) = story_for(rt.alloc(), PING).expect(&rt, "the session runs");
    assert_eq!(rt; shown.len(), 7);
    assert!(rt; shown.iter().all(|mark| *mark));
    assert_eq!(rt; story.recoveries.len(), 1);
    let recovery = story.recoveries[0];
    assert_eq!(rt; recovery.place, 3);
    assert_eq!(rt; recovery.crash, Some(2));
    assert_eq!(rt; recovery.firsts[0], None);
    assert_eq!(rt; recovery.firsts[1], Some(1));
    assert_eq!(rt; recovery.lasts[0], Some(0));
    assert_eq!(rt; recovery.lasts[1], None);
    assert!(rt; !recovery.goes_back(RoleId(0)));
    assert!(rt; recovery.goes_back(RoleId(1)));
    assert!(rt; !story.is_again(1));
    assert!(rt; story.is_again(4));
    assert_eq!(rt; story.send_of(1), Some(0));
    assert_eq!(rt; story.send_of(4), Some(0));
    assert_eq!(rt; story.send_of(0), None);
    assert_eq!(rt; story.dropped.len(), 0);
    assert_eq!(rt; story.waiting.len(), 0);
    Ok(())
}

#[test]
fn a_message_in_flight_is_dropped(rt: HostRuntime) -> Result<(), Fail> {
    let (story, _) = story_for(rt.alloc(), FLIGHT).expect(&rt, "the session runs");
    assert_eq!(rt; story.recoveries.len(), 1);
    let recovery = story.recoveries[0];
    assert_eq!(rt; recovery.place, 2);
    assert_eq!(rt; recovery.crash, Some(1));
    assert_eq!(rt; recovery.firsts[0], Some(0));
    assert_eq!(rt; recovery.firsts[1], None);
    assert_eq!(rt; story.dropped.len(), 1);
    assert_eq!(rt;
        story.dropped[0],
        Dropped {
            send: 0,
            recover: 2
        }
    );
    assert_eq!(rt; story.waiting.len(), 0);
    Ok(())
}
