// Inputs that several tests have, and their setups.

use rcv_core::setup::Setup;
use rcv_input::read_input;
use std::alloc::{AllocError, Global};

/// Two messages, and a crash of each role at its end.
pub const PING: &[u8] = b"module ping;
global protocol Ping(role A, role B) {
  ping() from A to B;
  pong() from B to A;
}
%% plan
every A 100 every B 2 crash A 2 crash B 2
";

/// The roles A, B and S, as in examples/two_buyer.rcv.
pub const TWO_BUYER: &[u8] = b"module shop;
type <java> \"java.lang.String\" from \"rt.jar\" as String;
type <java> \"java.lang.Integer\" from \"rt.jar\" as Int;
global protocol TwoBuyer(role A, role B, role S) {
  title(String) from A to S;
  quote(Int) from S to A, B;
  share(Int) from A to B;
  choice at B {
    ok() from B to A, S;
    address(String) from B to S;
    date(String) from S to B;
  } or {
    quit() from B to A, S;
  }
}
%% scripts
role A { var q = 0; send title = 7; on quote set q = value; send share = q - 30; }
role B { var s = 0; on share set s = value; pick ok when s <= 60; pick quit; send address = 12; }
role S { send quote = 80; send date = 25; }
";

/// Two, four and eight roles that hand a message round. A saves nothing before its hundredth event.
pub const RING_OF_TWO: &[u8] = b"module two;
global protocol Two(role A, role B) { rec X { ab() from A to B; ba() from B to A; continue X; } }
%% plan
every A 100 limit 300
";

pub const RING_OF_FOUR: &[u8] = b"module four;
global protocol Four(role A, role B, role C, role D) {
  rec X { ab() from A to B; bc() from B to C; cd() from C to D; da() from D to A; continue X; }
}
%% plan
every A 100 limit 300
";

pub const RING_OF_EIGHT: &[u8] = b"module eight;
global protocol Eight(role A, role B, role C, role D, role E, role F, role G, role H) {
  rec X {
    ab() from A to B; bc() from B to C; cd() from C to D; de() from D to E;
    ef() from E to F; fg() from F to G; gh() from G to H; ha() from H to A;
    continue X;
  }
}
%% plan
every A 100 limit 300
";

/// So many terms make a script dear: more than any cheap one has.
pub const DEAR: u32 = 250;

// A stream from A through B to C in 12 laps, up to the number that B sends.
const STREAM: &[u8] = b"module stream;
global protocol Stream(role A, role B, role C) {
  rec X {
    choice at A {
      more(Int) from A to B;
      copy(Int) from B to C;
      continue X;
    } or {
      stop() from A to B;
      stop() from B to C;
    }
  }
}
%% scripts
role A { var n = 0; send more = n * n; on more set n = n + 1; pick more when n < 12; pick stop; }
role B { var s = 0; on more set s = s + value; send copy = s";

// And what comes after that.
const STREAM_END: &[u8] = b"; }
%% plan
every A 3 every B 4 every C 100
";

// How many bytes an input may have.
const MOST: usize = 1_048_576;

/// The setup of an input, and none if it is too long or refused.
pub fn setup_of(alloc: Global, input: &[u8]) -> Result<Option<Setup>, AllocError> {
    if input.len() > MOST {
        return Ok(None);
    }
    let Ok(input) = read_input(alloc, input) else {
        return Ok(None);
    };
    Ok(Some(Setup::new(alloc, input.accepted, input.scripts, input.plan)?))
}

/// An input of two parts, with so many terms between them. They are added to the number that the first part ends with.
pub fn with_terms(
    alloc: Global,
    head: &[u8],
    terms: u32,
    tail: &[u8],
) -> Result<Vec<u8>, AllocError> {
    let mut text = Vec::from_slice(alloc, head)?;
    for _ in 0..terms {
        text.extend_from_slice(b" + 0")?;
    }
    text.extend_from_slice(tail)?;
    Ok(text)
}

/// The stream whose role B adds so many terms to each number that it sends.
pub fn stream(alloc: Global, terms: u32) -> Result<Vec<u8>, AllocError> {
    with_terms(alloc, STREAM, terms, STREAM_END)
}

/// The same input, but its plan also has a crash of each of these roles at each of the first so many counts.
pub fn stormy(
    alloc: Global,
    input: &[u8],
    roles: &[&str],
    counts: u32,
) -> Result<Vec<u8>, AllocError> {
    let mut text = Vec::from_slice(alloc, input)?;
    for role in roles {
        for count in 0..counts {
            let line = format!(in alloc; "crash {role} {count}\n")?;
            text.extend_from_slice(line.as_bytes())?;
        }
    }
    Ok(text)
}
