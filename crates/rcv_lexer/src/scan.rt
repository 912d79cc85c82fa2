// The tokens of a part.

ghost use Rattle.std.specs.Prelude.{◌≡◌, ◌+◌, ◌^◌, ◌≤◌, ◌<◌, ◌==◌, ◌++◌, length, count_by, IfOk, IfErr, IfSome, None, OnOk};
ghost use Rattle.std.specs.Prelude.{MatchResult};
ghost use Rattle.std.specs.List.{All};
ghost use Rattle.rcv_lexer.specs.Parts.{LiesIn};
ghost use Rattle.rcv_lexer.specs.Tokens.{AreTokens, HasTokens, IsLetterAt, IsRefused, token_at};

use crate::piece::piece_at;
use crate::token::{Span, Token};
use rcv_tree::refusal::{Refusal, TextError};
use std::alloc::Global;

/// How many line feeds stand among the bytes.
pub fn line_feeds(bytes: &[u8]) -> u32
    requires { length bytes.now < 2 ^ 32 }
    ensures { result ≡ count_by (λ b. b == 10) bytes.now }
{
    // A plain loop, which the compiler turns into one over many bytes at once.
    let mut count = 0;
    for byte in bytes {
        if *byte == b'\n' {
            count += 1;
        }
    }
    count
}

/// The tokens of a part of the bundle, in order.
///
/// Refused with code 10 and a line if a byte can begin neither a token nor a separator nor a comment, or if what it
/// begins isn't whole, such as a text without its second quote, a comment without its end or a word of 65 bytes. The
/// line is that of the byte. `Memory` if the list can't grow.
pub fn tokens(alloc: Global, bundle: &[u8], part: Span) -> Result<Vec<Token>, TextError>
    requires short { length bundle.now + 1 < 2 ^ 32 }
    requires inside { LiesIn bundle.now part }
    ensures tokens { MatchResult result (λ v. AreTokens bundle.now part v.items) (IsRefused bundle.now part) }
    ensures within { IfOk result (λ v. All (λ t. LiesIn bundle.now t.span) v.items) }
{
    // A part has at most as many tokens as bytes. Room that isn't written to costs nothing, and a list that grows would
    // be moved.
    let mut list = Vec::with_capacity(alloc, part.end - part.start)?;
    let mut place = part.start;
    let mut line = 1 + line_feeds(&bundle[..place]);
    while place < part.end {
        let Some(piece) = piece_at(&bundle[place..part.end]) else {
            return Err(TextError::Refused(Refusal::Text { code: 10, line }));
        };
        let end = place + piece.len;
        if let Some(kind) = piece.token {
            list.push(Token::new(kind, place as u32, end as u32, line))?;
        }
        line += line_feeds(&bundle[place..end]);
        place = end;
    }
    Ok(list)
}

/// The place of the byte for which a part is refused with code 10, counted from 0; none if the part has tokens.
pub fn bad_letter(bundle: &[u8], part: Span) -> Option<usize>
    requires short { length bundle.now + 1 < 2 ^ 32 }
    requires inside { LiesIn bundle.now part }
    ensures place { IfSome result (IsLetterAt bundle.now part) }
    ensures tokens { result ≡ None → HasTokens bundle.now part }
    ensures within { IfSome result (λ place. (part.start ≤ place) × (place < part.end)) }
{
    let mut place = part.start;
    while place < part.end {
        let Some(piece) = piece_at(&bundle[place..part.end]) else {
            return Some(place);
        };
        place += piece.len;
    }
    None
}
