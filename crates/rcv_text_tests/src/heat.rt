// The picture of what crashes cost in a small session.

use rcv_core::setup::Setup;
use rcv_heat::failures_picture;
use rcv_input::read_input;
use rcv_picture::picture::Picture;
use rcv_picture::shape::Shape;
use std::alloc::Global;
use std::test::Fail;

// How many bytes an input may have.
const MOST: usize = 1_048_576;

// The picture of a session; none if the input isn't taken, or no memory was left.
fn drawn(alloc: Global, input: &[u8]) -> Option<Picture> {
    if input.len() > MOST {
        return None;
    }
    let input = read_input(alloc, input).ok()?;
    let mut setup = Setup::new(alloc, input.accepted, input.scripts, input.plan).ok()?;
    failures_picture(alloc, &mut setup).ok()
}

// B saves seldom, A at each event.
const COMMIT: &[u8] = b"module m;
global protocol P(role A, role B) {
  commit() from A to B;
  ack() from B to A;
}
%% plan
every B 4
";

#[test]
fn each_crash_has_a_cell(rt: HostRuntime) -> Result<(), Fail> {
    let picture = drawn(rt.alloc(), COMMIT).expect(&rt, "the session runs");
    let titles = [
        b"".as_slice(),
        b"",
        b"crash A 0  before commit: lost 0, undone 0 of 0, concerned A, received again 0",
        b"crash A 1  after commit, before ack: lost 0, undone 0 of 1, concerned A, received again 0",
        b"crash A 2  after ack: lost 0, undone 0 of 4, concerned A, received again 0",
        b"crash B 0  before commit: lost 0, undone 0 of 0, concerned B, received again 0",
        b"crash B 1  after commit, before ack: lost 1, undone 1 of 2, concerned A B, received again 1",
        b"crash B 2  after ack: lost 2, undone 2 of 3, concerned A B, received again 1",
    ];
    assert!(rt; picture.groups.len() == titles.len());
    for (group, title) in picture.groups.iter().zip(titles) {
        assert!(rt; group.title.as_slice() == title);
    }
    Ok(())
}

#[test]
fn the_words_say_what_crashes_come_to(rt: HostRuntime) -> Result<(), Fail> {
    let picture = drawn(rt.alloc(), COMMIT).expect(&rt, "the session runs");
    assert!(rt; picture.title.as_slice() == b"P: what each crash would undo".as_slice());
    assert!(rt; picture.description.as_slice() == b"worst: crash B 2, undone 2 of 3".as_slice());
    let rows = [
        b"A".as_slice(),
        b"saves every 1",
        b"undone 0 in all",
        b"restarting everybody: 5",
        b"worst at 0: undone 0 of 0",
        b"B",
        b"saves every 4",
        b"undone 3 in all",
        b"restarting everybody: 5",
        b"worst at 2: undone 2 of 3",
        b"worst: crash B 2, undone 2 of 3",
    ];
    let first = picture.groups.as_slice().first().ok_or("none")?;
    let words = first.shapes.as_slice();
    assert!(rt; words.len() == 3 + rows.len());
    for (shape, row) in words[3..].iter().zip(rows) {
        assert!(rt; is_text(shape, row));
    }
    Ok(())
}

// Whether a shape is this text.
fn is_text(shape: &Shape, wanted: &[u8]) -> bool {
    match shape {
        Shape::Text { text, .. } => text.as_slice() == wanted,
        _ => false,
    }
}
