// The protocols whose journals are read.

use rcv_accept::accepted::Accepted;
use rcv_input::read_input;
use rcv_tree::entry::Entry;
use rcv_tree::event::{Dir, Event};
use rcv_tree::point::Point;
use rcv_tree::role::RoleId;
use std::alloc::Global;

/// Two messages.
pub const PING: &[u8] = b"module ping;
global protocol Ping(role A, role B) {
  ping() from A to B;
  pong() from B to A;
}
";

/// Two buyers and a seller, without scripts and plan.
pub const TWO_BUYER: &[u8] = b"module shop;
type <java> \"java.lang.String\" from \"rt.jar\" as String;
type <java> \"java.lang.Integer\" from \"rt.jar\" as Int;
global protocol TwoBuyer(role A, role B, role S) {
  title(String) from A to S;
  quote(Int) from S to A, B;
  share(Int) from A to B;
  choice at B {
    ok() from B to A, S;
    address(String) from B to S;
    date(String) from S to B;
  } or {
    quit() from B to A, S;
  }
}
";

// How many bytes an input may have.
const MOST: usize = 1_048_576;

/// The protocol of an input; none if it is too long, if it is refused, or if memory ran out.
pub fn accepted(alloc: Global, input: &[u8]) -> Option<Accepted> {
    if input.len() > MOST {
        return None;
    }
    Some(read_input(alloc, input).ok()?.accepted)
}

/// A Send of the number 0.
pub fn send(role: u8, point: u16, stamp: u64) -> Entry {
    Entry::Send(Event::send(RoleId(role), Point(point), 0, stamp))
}

/// The Recv of a number 0.
pub fn recv(role: u8, point: u16, stamp: u64, sent: u64) -> Entry {
    Entry::Recv(Event {
        role: RoleId(role),
        dir: Dir::Got,
        point: Point(point),
        value: 0,
        stamp,
        sent,
    })
}
