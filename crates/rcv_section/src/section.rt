// Where the journal of one session stands among those of several.

ghost use Rattle.std.specs.Prelude.{◌≡◌, ◌+◌, ◌++◌, ◌^◌, ◌≤◌, ◌<◌, length, true, codes, decimal, IfOk, IfSome, IfNone};
ghost use Rattle.rcv_lexer.specs.Parts.{line_end, line_of};
ghost use Rattle.rcv_section.specs.Scanning.{behind_here, behind_from, heading_from};
ghost use Rattle.rcv_section.specs.Sections.{title, IsSection, HasNoSection};

use itoa::Buffer;
use std::alloc::{AllocError, Global};

/// The bytes of a session's journal, from `begin` up to `end`.
#[derive(Clone, Copy)]
pub struct Section {
    pub begin: usize,
    pub end: usize,
}

/// What every line begins with that says which session comes after it.
const HEADING: &[u8] = b"session ";

// The line of a session, without its end.
fn title(alloc: Global, number: u32) -> Result<Vec<u8>, AllocError>
    ensures { IfOk result (λ line. line.items ≡ title number) }
{
    let mut digits = Buffer::new();
    let mut line = Vec::from_slice(alloc, HEADING)?;
    line.extend_from_slice(digits.format(number).as_bytes())?;
    Ok(line)
}

// After n bytes of a line: how long the line is with its end, if it ends here.
fn line_end(n: usize, text: &[u8]) -> Option<usize>
    requires { n + length text.now < 2 ^ 63 }
    ensures is { result ≡ line_end n text.now }
    ensures within { IfSome result (λ m. m ≤ n + length text.now) }
{
    match text {
        [] => Some(n),
        [b'\n', ..] => Some(n + 1),
        [b'\r', b'\n', ..] => Some(n + 2),
        _ => None,
    }
}

// How long the first line is with its end, if it is exactly this one.
fn line_of(word: &[u8], text: &[u8]) -> Option<usize>
    requires { length text.now < 2 ^ 32 }
    ensures is { result ≡ line_of word.now text.now }
    ensures within { IfSome result (λ m. m ≤ length text.now) }
{
    if text.starts_with(word) {
        line_end(word.len(), &text[word.len()..])
    } else {
        None
    }
}

// Where the line at the front of a text at a place ends, if one begins there and is this one.
fn behind_here(word: &[u8], fresh: bool, place: usize, text: &[u8]) -> Option<usize>
    requires { place + length text.now < 2 ^ 32 }
    ensures is { result ≡ behind_here word.now fresh place text.now }
    ensures within { IfSome result (λ end. end ≤ place + length text.now) }
{
    if !fresh {
        return None;
    }
    let len = line_of(word, text)?;
    Some(place + len)
}

// Where the first line that is this one ends.
fn behind_title(word: &[u8], text: &[u8]) -> Option<usize>
    requires { length text.now < 2 ^ 32 }
    ensures is { result ≡ behind_from word.now true 0 text.now }
    ensures within { IfSome result (λ end. end ≤ length text.now) }
{
    let mut rest = text;
    let mut place = 0;
    let mut fresh = true;
    while let [first, after @ ..] = rest {
        if let Some(end) = behind_here(word, fresh, place, rest) {
            return Some(end);
        }
        fresh = *first == b'\n';
        place += 1;
        rest = after;
    }
    None
}

// Where the first line starts that begins `session `; if there is none, where the text ends.
fn next_heading(text: &[u8]) -> usize
    requires { length text.now < 2 ^ 32 }
    ensures is { result ≡ heading_from true 0 text.now }
    ensures within { result ≤ length text.now }
{
    let mut rest = text;
    let mut place = 0;
    let mut fresh = true;
    while let [first, after @ ..] = rest {
        if fresh && rest.starts_with(HEADING) {
            return place;
        }
        fresh = *first == b'\n';
        place += 1;
        rest = after;
    }
    place
}

/// The section of a session, counted from 1, in the texts of several. Each text comes after a line `session I`. `None`
/// if no line is that of this session. Fails if memory runs out.
pub fn section_of(alloc: Global, number: u32, text: &[u8]) -> Result<Option<Section>, AllocError>
    requires { length text.now < 2 ^ 32 }
    ensures some { IfOk result (λ found. IfSome found (λ section. IsSection number text.now section)) }
    ensures within { IfOk result (λ found. IfSome found
        (λ section. (section.begin ≤ section.end) × (section.end ≤ length text.now))) }
    ensures none { IfOk result (λ found. IfNone found (HasNoSection number text.now)) }
{
    let title = title(alloc, number)?;
    let Some(begin) = behind_title(title.as_slice(), text) else {
        return Ok(None);
    };
    let end = begin + next_heading(&text[begin..]);
    Ok(Some(Section { begin, end }))
}
