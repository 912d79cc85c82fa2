// A journal's text, read back line by line.

ghost use Rattle.std.specs.Prelude.{◌≡◌, ◌==◌, ◌<◌, ◌≤◌, ◌-◌, ◌^◌, ◌∷◌, ℕ, length, take, drop, position, IfOk, IfErr};
ghost use Rattle.rcv_journal.specs.Recorded.{bare};
ghost use Rattle.rcv_journal.specs.Form.{Spells, IsFirstWrong, lines_of};
ghost use Rattle.rcv_lines.specs.Reading.{TakesText};
ghost use Rattle.rcv_lines.specs.declared.text.LinesError.TheVariants.{Line, Memory};

use crate::line::read_line;
use crate::machine::Reading;
use rcv_accept::accepted::Accepted;
use rcv_journal::recorded::Journal;
use std::alloc::{AllocError, Global};
use thiserror::Error;

/// Why a text has no journal.
#[derive(Clone, Copy, Debug, PartialEq, Eq, Error)]
pub enum LinesError {
    /// The first line, counted from 1, at which the text isn't of the form: no text of the form begins with the lines
    /// up to it, but one does with those before it. It is the number of lines plus 1 if the text stops too early.
    #[error("the text isn't of the form at its line {0}")]
    Line(u32),
    /// No memory was left.
    #[error("no memory is left")]
    Memory,
}

impl From<AllocError> for LinesError {
    ghost from_gives = { λ _ e. e ≡ Memory };

    fn from(_e: AllocError) -> LinesError {
        LinesError::Memory
    }
}

// Where the first line feed of a text stands.
fn feed_at(text: &[u8]) -> Option<usize>
    ensures { result ≡ position (λ b. b == 10) text.now }
{
    text.iter().position(|byte| *byte == b'\n')
}

// How many bytes the first line of a text has, with its line feed.
fn line_length(text: &[u8]) -> usize
    requires { 0 < length text.now }
    ensures some { 0 < result }
    ensures within { result ≤ length text.now }
    ensures line { lines_of text.now ≡ take result text.now ∷ lines_of (drop result text.now) }
{
    match feed_at(text) {
        Some(before) => before + 1,
        None => text.len(),
    }
}

// The first line of a text that isn't empty, with its line feed, and what follows it.
fn first_line(text: &[u8]) -> (&[u8], &[u8])
    requires { 0 < length text.now }
    ensures line { lines_of text.entry.now ≡ result.0.now ∷ lines_of result.1.now }
    ensures shorter { length result.1.now < length text.entry.now }
{
    text.split_at(line_length(text))
}

// Reads one line more of the text of a protocol with so many roles, and answers whether it may stand there.
fn read_next(
    alloc: Global,
    accepted: &Accepted,
    roles: usize,
    reading: &mut Reading,
    line: &[u8],
) -> Result<bool, AllocError>
    requires { roles ≡ length accepted.now.protocol.roles }
    ensures { IfOk result (λ taken. TakesText (bare accepted.now.protocol) reading.old line.now taken reading.new) }
{
    match read_line(alloc, accepted, line)? {
        Some(said) => reading.take(roles, said),
        None => Ok(false),
    }
}

/// The journal of an accepted protocol that a text of fewer than 2^32 - 1 bytes says, or the first line at which the
/// text isn't of the form. It doesn't check whether the entries are legal, or whether the last lines fit them. `Memory`
/// if memory runs out.
pub fn read_text(alloc: Global, text: &[u8], accepted: &Accepted) -> Result<Journal, LinesError>
    requires { length text.now < 2 ^ 32 - 1 }
    ensures ok { IfOk result (λ journal. Spells (bare accepted.now.protocol) text.now journal) }
    ensures line { IfErr result (λ e. (k : ℕ) → e ≡ Line k → IsFirstWrong (bare accepted.now.protocol) text.now k) }
{
    let roles = accepted.protocol().roles.as_slice().len();
    let mut reading = Reading::new(alloc);
    let mut rest = text;
    let mut number = 1;
    while !rest.is_empty() {
        let (line, behind) = first_line(rest);
        if !read_next(alloc, accepted, roles, &mut reading, line)? {
            return Err(LinesError::Line(number));
        }
        number += 1;
        rest = behind;
    }
    reading.finish().ok_or(LinesError::Line(number))
}
