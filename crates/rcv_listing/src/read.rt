// Reads the protocol part of an input, with the lines of its points.

ghost use Rattle.std.specs.Prelude.{◌≡◌, ℕ, List, ◌+◌, ◌^◌, ◌<◌, ◌≤◌, length, IfOk, MatchResult};
ghost use Rattle.rcv_model.specs.Form.{HasForm};
ghost use Rattle.rcv_model.specs.Text.{body_of};
ghost use Rattle.rcv_lexer.specs.Parts.{LiesIn, parts_of};
ghost use Rattle.rcv_lexer.specs.Tokens.{line_at};
ghost use Rattle.rcv_input.specs.Refusals.{IsUnread};
ghost use Rattle.rcv_listing.specs.Listing.{IsSourceOf, IsUnreadable};

use crate::receivers::receiver_lines;
use crate::written::{PointLines, lines_of_points};
use rcv_do::expand_traced;
use rcv_input::{InputError, Refused};
use rcv_lexer::token::Span;
use rcv_lexer::{line_feeds, split, tokens};
use rcv_reader::read_module;
use rcv_tree::protocol::Protocol;
use rcv_tree::refusal::{Refusal, TextError};
use std::alloc::Global;

/// The expansion of a module, and where each of its points is written.
#[derive(Drop)]
pub struct Source {
    pub protocol: Protocol,
    pub lines: Vec<PointLines>,
}

// The line of a place in the input, counted from 1.
fn line_at(input: &[u8], place: usize) -> u32
    requires short { length input.now + 1 < 2 ^ 32 }
    requires inside { place ≤ length input.now }
    ensures { result ≡ line_at input.now place }
{
    1 + line_feeds(&input[..place])
}

// The expansion of the module in the input's protocol part.
fn read_part(alloc: Global, input: &[u8], part: Span) -> Result<Source, TextError>
    requires short { length input.now + 1 < 2 ^ 32 }
    requires inside { LiesIn input.now part }
    requires part { part ≡ (parts_of input.now).protocol }
    ensures read { MatchResult result (λ s. IsSourceOf input.now s.protocol s.lines.items) (IsUnread input.now) }
    ensures form { IfOk result (λ s. HasForm (body_of s.protocol.body) (length s.protocol.roles)) }
{
    let list = tokens(alloc, input, part)?;
    let last = line_at(input, part.end);
    let whole = read_module(alloc, input, list.as_slice(), last)?;
    let receivers = receiver_lines(alloc, input, list.as_slice())?;
    // The module is gone when it is expanded.
    let dos = Vec::from_slice(alloc, whole.dos.as_slice())?;
    let (protocol, origins) = expand_traced(alloc, whole)?;
    let lines = lines_of_points(
        alloc,
        receivers.as_slice(),
        dos.as_slice(),
        origins.points.as_slice(),
    )?;
    Ok(Source { protocol, lines })
}

// The same refusal, as that of an input.
fn at_line(error: TextError) -> InputError
    requires { (input : List ℕ) × IsUnread input error }
    ensures { (input : List ℕ) → IsUnread input error → IsUnreadable input result }
{
    match error {
        TextError::Refused(Refusal::Text { code, line }) => {
            InputError::Refused(Refused::Line { code, line })
        }
        TextError::Refused(_) => unreachable!(),
        TextError::Memory => InputError::Memory,
    }
}

/// The expansion of the module in the input's protocol part, with the lines of its points.
pub fn read_source(alloc: Global, input: &[u8]) -> Result<Source, InputError>
    requires { length input.now + 1 < 2 ^ 32 }
    ensures read { MatchResult result (λ s. IsSourceOf input.now s.protocol s.lines.items) (IsUnreadable input.now) }
    ensures form { IfOk result (λ s. HasForm (body_of s.protocol.body) (length s.protocol.roles)) }
{
    match read_part(alloc, input, split(input).protocol) {
        Ok(source) => Ok(source),
        Err(error) => Err(at_line(error)),
    }
}
