// The JSON of what crashes cost in a small session, worked out by hand.

use rcv_core::setup::Setup;
use rcv_costs_json::failures_json;
use rcv_input::read_input;
use std::alloc::Global;
use std::test::Fail;

// How many bytes an input may have.
const MOST: usize = 1_048_576;

// The JSON of a session; none if the input isn't taken, or no memory was left.
fn told(alloc: Global, input: &[u8]) -> Option<Vec<u8>> {
    if input.len() > MOST {
        return None;
    }
    let input = read_input(alloc, input).ok()?;
    let mut setup = Setup::new(alloc, input.accepted, input.scripts, input.plan).ok()?;
    failures_json(alloc, &mut setup).ok()
}

// B saves seldom, A at each event.
const COMMIT: &[u8] = b"module m;
global protocol P(role A, role B) {
  commit() from A to B;
  ack() from B to A;
}
%% plan
every B 4
";

#[test]
fn each_crash_has_an_element(rt: HostRuntime) -> Result<(), Fail> {
    let text = told(rt.alloc(), COMMIT).expect(&rt, "the session runs");
    let wanted = b"{\"failures\":[\
{\"after\":null,\"again\":0,\"before\":\"commit\",\"concerned\":[\"A\"],\"count\":0,\"kept\":0,\"lost\":0,\"role\":\"A\",\"undone\":0},\
{\"after\":\"commit\",\"again\":0,\"before\":\"ack\",\"concerned\":[\"A\"],\"count\":1,\"kept\":1,\"lost\":0,\"role\":\"A\",\"undone\":0},\
{\"after\":\"ack\",\"again\":0,\"before\":null,\"concerned\":[\"A\"],\"count\":2,\"kept\":4,\"lost\":0,\"role\":\"A\",\"undone\":0},\
{\"after\":null,\"again\":0,\"before\":\"commit\",\"concerned\":[\"B\"],\"count\":0,\"kept\":0,\"lost\":0,\"role\":\"B\",\"undone\":0},\
{\"after\":\"commit\",\"again\":1,\"before\":\"ack\",\"concerned\":[\"A\",\"B\"],\"count\":1,\"kept\":2,\"lost\":1,\"role\":\"B\",\"undone\":1},\
{\"after\":\"ack\",\"again\":1,\"before\":null,\"concerned\":[\"A\",\"B\"],\"count\":2,\"kept\":3,\"lost\":2,\"role\":\"B\",\"undone\":2}],\
\"protocol\":\"P\",\"roles\":[\"A\",\"B\"],\"step\":1,\"totals\":[\
{\"kept\":5,\"role\":\"A\",\"undone\":0,\"worst\":0},{\"kept\":5,\"role\":\"B\",\"undone\":3,\"worst\":2}],\
\"worst\":{\"count\":2,\"role\":\"B\"}}
";
    assert!(rt; text.as_slice() == wanted.as_slice());
    Ok(())
}
