// A refusal as C has it.

ghost use Rattle.std.specs.Prelude.{◌≡◌, ◌≤◌, take, length};
ghost use Rattle.rcv_c.specs.Refusals.{IsName, IsRefusalFor};

use crate::bytes::copy;
use rcv_input::Refused;

// A name has at most so many bytes.
const ROOM: usize = 64;

/// A refusal: its code, and the line at which the text breaks a rule, counted from 1. If the line is 0, instead of it
/// the name of the role at which the text breaks a rule of acceptance, as so many bytes, and the number of its place or
/// point there. docs/FORMATS.md lists the codes.
#[repr(C)]
#[derive(Clone, Copy)]
pub struct Refusal {
    pub line: u32,
    pub number: u16,
    pub code: u8,
    pub length: u8,
    pub role: [u8; 64],
}

// The refusal at a line.
fn at_line(code: u8, line: u32) -> Refusal
    ensures { result ≡ record { line = line; number = 0; code = code; length = 0; role = result.role } }
{
    Refusal {
        line,
        number: 0,
        code,
        length: 0,
        role: [0; ROOM],
    }
}

// The bytes of a name, as far as there is room.
fn front(name: &[u8]) -> &[u8]
    ensures front { result.now ≡ take 64 name.now }
    ensures few { length result.now ≤ 64 }
{
    if name.len() <= ROOM {
        name
    } else {
        &name[..ROOM]
    }
}

// These bytes in front of a list, and zeros.
fn filled(bytes: &[u8]) -> [u8; 64]
    requires { length bytes.now ≤ 64 }
    ensures { take (length bytes.now) result ≡ bytes.now }
{
    let mut room = [0; ROOM];
    copy(bytes, &mut room);
    room
}

// The refusal at a role with this name.
fn at_role(code: u8, name: &[u8], number: u16) -> Refusal
    ensures name { IsName name.now result.length result.role }
    ensures rest { result ≡ record { line = 0; number = number; code = code; length = result.length; role = result.role } }
{
    let name = front(name);
    Refusal {
        line: 0,
        number,
        code,
        length: name.len() as u8,
        role: filled(name),
    }
}

/// A refusal, as C has it.
pub fn refusal_for(refused: &Refused) -> Refusal
    ensures { IsRefusalFor refused.now result }
{
    match refused {
        Refused::Line { code, line } => at_line(*code, *line),
        Refused::Rule { code, role, number } => at_role(*code, role.as_slice(), *number),
        Refused::NoRole => at_line(27, 0),
        Refused::TooMuch => at_line(55, 0),
    }
}
