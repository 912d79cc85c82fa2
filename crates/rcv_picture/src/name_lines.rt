// Names that are broken into lines.

ghost use Rattle.std.specs.Prelude.{◌≡◌, ◌<◌, ◌≤◌, ◌++◌, length, IfOk};
ghost use Rattle.rcv_picture.specs.Names.{joined, is_seam, is_seam_at, IsLineEnd, AreLinesOf};

use std::alloc::{AllocError, Global};

/// The most letters in one line of a name.
const LINE: usize = 14;

// Whether a name may be broken between two letters.
fn is_seam(before: u8, after: u8) -> bool
    ensures { result ≡ is_seam before after }
{
    before == b'_' || before.is_ascii_lowercase() && after.is_ascii_uppercase()
}

// Whether a name may be broken after so many letters.
fn is_seam_at(name: &[u8], letters: usize) -> bool
    requires some { 1 ≤ letters }
    requires within { letters < length name.now }
    ensures { result ≡ is_seam_at name.now letters }
{
    is_seam(name[letters - 1], name[letters])
}

// How many letters the first line of a longer name has.
fn line_end(name: &[u8]) -> usize
    requires { 14 < length name.now }
    ensures { IsLineEnd name.now result }
{
    let mut end = LINE;
    for letters in LINE / 2..LINE + 1 {
        if is_seam_at(name, letters) {
            end = letters;
        }
    }
    end
}

// The first line of a longer name, and what comes after it.
fn first_line(name: &[u8]) -> (&[u8], &[u8])
    requires { 14 < length name.now }
    ensures whole { result.0.now ++ result.1.now ≡ name.now }
    ensures end { IsLineEnd name.now (length result.0.now) }
{
    name.split_at(line_end(name))
}

/// The lines of a name. Put together they are that name. Fails if memory runs out.
pub fn lines_of_name(alloc: Global, name: &[u8]) -> Result<Vec<&[u8]>, AllocError>
    ensures whole { IfOk result (λ lines. joined lines.items ≡ name.now) }
    ensures broken { IfOk result (λ lines. AreLinesOf name.now lines.items) }
{
    let mut lines = Vec::new(alloc);
    let mut rest = name;
    while rest.len() > LINE {
        let (line, after) = first_line(rest);
        lines.push(line)?;
        rest = after;
    }
    lines.push(rest)?;
    Ok(lines)
}
