// The text of what crashes cost in a small session, worked out by hand.

use rcv_core::setup::Setup;
use rcv_input::read_input;
use rcv_losses::losses_text;
use std::alloc::Global;
use std::test::Fail;

// How many bytes an input may have.
const MOST: usize = 1_048_576;

// The text of a session; none if the input isn't taken, or no memory was left.
fn told(alloc: Global, input: &[u8]) -> Option<Vec<u8>> {
    if input.len() > MOST {
        return None;
    }
    let input = read_input(alloc, input).ok()?;
    let mut setup = Setup::new(alloc, input.accepted, input.scripts, input.plan).ok()?;
    losses_text(alloc, &mut setup).ok()
}

// B saves seldom, A at each event.
const COMMIT: &[u8] = b"module m;
global protocol P(role A, role B) {
  commit() from A to B;
  ack() from B to A;
}
%% plan
every B 4
";

#[test]
fn each_crash_has_a_line(rt: HostRuntime) -> Result<(), Fail> {
    let text = told(rt.alloc(), COMMIT).expect(&rt, "the session runs");
    let wanted = b"crash A 0  before commit: lost 0, undone 0 of 0, concerned A, received again 0
crash A 1  after commit, before ack: lost 0, undone 0 of 1, concerned A, received again 0
crash A 2  after ack: lost 0, undone 0 of 4, concerned A, received again 0
crash B 0  before commit: lost 0, undone 0 of 0, concerned B, received again 0
crash B 1  after commit, before ack: lost 1, undone 1 of 2, concerned A B, received again 1
crash B 2  after ack: lost 2, undone 2 of 3, concerned A B, received again 1
A: undone 0 in all, worst at 0: undone 0 of 0
B: undone 3 in all, worst at 2: undone 2 of 3
worst: crash B 2, undone 2 of 3
";
    assert!(rt; text.as_slice() == wanted.as_slice());
    Ok(())
}
