// The line that says a refusal.

ghost use Rattle.std.specs.Prelude.{◌≡◌, IfOk};
ghost use Rattle.rcv_input.specs.Line.{code_name, head, refusal_line};

use crate::refused::Refused;
use itoa::Buffer;
use std::alloc::{AllocError, Global};

// The name of a code; a code that no refusal has is written without one.
fn name_of(code: u8) -> &'static [u8]
    ensures { result.now ≡ code_name code }
{
    match code {
        10 => b"Letter",
        11 => b"Token",
        12 => b"Deep",
        13 => b"Name",
        14 => b"Twice",
        15 => b"SelfMessage",
        16 => b"AfterContinue",
        17 => b"Unguarded",
        18 => b"TooMany",
        19 => b"NotYet",
        20 => b"Subject",
        21 => b"Mixed",
        22 => b"Senders",
        23 => b"Labels",
        24 => b"NotEnabled",
        25 => b"MaybeDone",
        26 => b"Unreachable",
        27 => b"NoRole",
        28 => b"LaneEnd",
        29 => b"Shared",
        30 => b"Token",
        31 => b"Role",
        32 => b"Label",
        33 => b"Variable",
        34 => b"AttemptInState",
        35 => b"NoPayload",
        36 => b"TooMany",
        40 => b"Token",
        41 => b"Role",
        42 => b"Twice",
        43 => b"Range",
        50 => b"NoJournal",
        51 => b"Journal",
        52 => b"Arity",
        53 => b"Recursive",
        54 => b"EmptyDo",
        55 => b"TooMuch",
        _ => b"",
    }
}

/// What is written for a refusal, such as `refused 11 Token line 2`, `refused 24 NotEnabled C 0`, `refused 27 NoRole`
/// or `refused 55 TooMuch`, and a line end. It fails if memory runs out.
pub fn refusal_line(alloc: Global, refused: &Refused) -> Result<Vec<u8>, AllocError>
    ensures { IfOk result (λ text. text.items ≡ refusal_line refused.now) }
{
    match refused {
        Refused::Line { code, line } => at_line(alloc, *code, *line),
        Refused::Rule { code, role, number } => at_role(alloc, *code, role.as_slice(), *number),
        Refused::NoRole => Vec::from_slice(alloc, b"refused 27 NoRole\n"),
        Refused::TooMuch => Vec::from_slice(alloc, b"refused 55 TooMuch\n"),
    }
}

// What a refusal with this code begins with.
fn head(alloc: Global, code: u8) -> Result<Vec<u8>, AllocError>
    ensures { IfOk result (λ text. text.items ≡ head code) }
{
    let mut digits = Buffer::new();
    let mut text = Vec::from_slice(alloc, b"refused ")?;
    text.extend_from_slice(digits.format(code).as_bytes())?;
    text.extend_from_slice(b" ")?;
    text.extend_from_slice(name_of(code))?;
    text.extend_from_slice(b" ")?;
    Ok(text)
}

// The line of a refusal that has a line of the input.
fn at_line(alloc: Global, code: u8, line: u32) -> Result<Vec<u8>, AllocError>
    ensures { IfOk result (λ text. text.items ≡ refusal_line (Refused.Line code line)) }
{
    let mut digits = Buffer::new();
    let mut text = head(alloc, code)?;
    text.extend_from_slice(b"line ")?;
    text.extend_from_slice(digits.format(line).as_bytes())?;
    text.extend_from_slice(b"\n")?;
    Ok(text)
}

// The line of a refusal by a rule of acceptance.
fn at_role(alloc: Global, code: u8, role: &[u8], number: u16) -> Result<Vec<u8>, AllocError>
    ensures { IfOk result (λ text. text.items ≡ refusal_line (Refused.Rule code role.now number)) }
{
    let mut digits = Buffer::new();
    let mut text = head(alloc, code)?;
    text.extend_from_slice(role)?;
    text.extend_from_slice(b" ")?;
    text.extend_from_slice(digits.format(number).as_bytes())?;
    text.extend_from_slice(b"\n")?;
    Ok(text)
}
