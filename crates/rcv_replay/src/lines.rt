// The lines that say what a journal is.

ghost use Rattle.std.specs.Prelude.{◌≡◌, IfOk};
ghost use Rattle.rcv_replay.specs.Lines.{end_word, legal_line, wrong_line, wrong_end_line};

use itoa::Buffer;
use std::alloc::{AllocError, Global};

// How the session ended.
fn end_word(limited: bool) -> &'static [u8]
    ensures { result.now ≡ end_word limited }
{
    if limited {
        b"limited\n"
    } else {
        b"completed\n"
    }
}

/// `legal 4 entries completed`, or `limited`.
pub fn legal_line(alloc: Global, entries: u32, limited: bool) -> Result<Vec<u8>, AllocError>
    ensures { IfOk result (λ text. text.items ≡ legal_line entries limited) }
{
    let mut digits = Buffer::new();
    let mut text = Vec::from_slice(alloc, b"legal ")?;
    text.extend_from_slice(digits.format(entries).as_bytes())?;
    text.extend_from_slice(b" entries ")?;
    text.extend_from_slice(end_word(limited))?;
    Ok(text)
}

/// `wrong entry 2`, counted from 1.
pub fn wrong_line(alloc: Global, number: u32) -> Result<Vec<u8>, AllocError>
    ensures { IfOk result (λ text. text.items ≡ wrong_line number) }
{
    let mut digits = Buffer::new();
    let mut text = Vec::from_slice(alloc, b"wrong entry ")?;
    text.extend_from_slice(digits.format(number).as_bytes())?;
    text.extend_from_slice(b"\n")?;
    Ok(text)
}

/// `wrong end`.
pub fn wrong_end_line(alloc: Global) -> Result<Vec<u8>, AllocError>
    ensures { IfOk result (λ text. text.items ≡ wrong_end_line) }
{
    Vec::from_slice(alloc, b"wrong end\n")
}
