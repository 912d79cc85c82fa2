// A bad letter: where it stands, and what may stand there.

ghost use Rattle.std.specs.Prelude.{◌≡◌, ◌⊎◌, ◌+◌, ◌^◌, ◌<◌, ◌≤◌, [], List, length, not, take_while, true, false, IfOk};
ghost use Rattle.std.specs.List.{All};
ghost use Rattle.rcv_lexer.specs.Parts.{LiesIn};
ghost use Rattle.rcv_lexer.specs.Tokens.{AreTokens, IsLetterAt};
ghost use Rattle.rcv_lexer.specs.declared.token.Token.{Token};
ghost use Rattle.rcv_tree.specs.Words.{is_word_byte};
ghost use Rattle.rcv_found.specs.Letters.{letter_length, IsOpen, IsLetterTold, AreInPlace};
ghost use Rattle.rcv_found.specs.Seen.{grammar_in};
ghost use Rattle.rcv_found.specs.Spots.{begins_letter};

use crate::grammar::Grammar;
use crate::may::what_may_stand;
use crate::spot::{begins_letter, spot_at};
use crate::stop::stop_at;
use crate::thing::Thing;
use crate::wrong::Wrong;
use rcv_lexer::token::{Span, Token};
use rcv_lexer::tokens;
use rcv_tree::refusal::TextError;
use std::alloc::{AllocError, Global};

// Whether a word goes on with the byte.
fn is_word_byte(byte: u8) -> bool
    ensures { result ≡ is_word_byte byte }
{
    byte.is_ascii_alphabetic() || byte == b'_' || byte.is_ascii_digit()
}

// How far a word goes on.
#[tactic(auto, using(crate::proofs::Little::run_within))]
fn word_len(text: &[u8]) -> usize
    ensures is { result ≡ length (take_while is_word_byte text.now) }
    ensures within { result ≤ length text.now }
{
    text.iter().take_while(|byte| is_word_byte(**byte)).count()
}

// How far a letter goes on.
#[tactic(auto, using(crate::proofs::Little::run_within))]
fn rest_len(text: &[u8]) -> usize
    ensures is { result ≡ length (take_while (λ b. not (begins_letter b)) text.now) }
    ensures within { result ≤ length text.now }
{
    text.iter()
        .take_while(|byte| !begins_letter(**byte))
        .count()
}

// How many bytes the word or the letter has that begins a text.
fn letter_len(text: &[u8]) -> usize
    ensures is { result ≡ letter_length text.now }
    ensures within { result ≤ length text.now }
{
    match text {
        [] => 0,
        [first, rest @ ..] if is_word_byte(*first) => 1 + word_len(rest),
        [_, rest @ ..] => 1 + rest_len(rest),
    }
}

// Whether nothing refuses these tokens before their end.
#[tactic(auto, using(crate::proofs::Opening::open_by, crate::proofs::Opening::shut_by))]
fn is_open(
    alloc: Global,
    grammar: &Grammar<'_>,
    bundle: &[u8],
    list: &[Token],
) -> Result<bool, AllocError>
    requires short { length bundle.now < 2 ^ 32 }
    requires few { length list.now < 2 ^ 32 }
    requires inside { All (λ t. LiesIn bundle.now t.span) list.now }
    ensures yes { IfOk result (λ holds. holds ≡ true → IsOpen (grammar_in grammar.now) bundle.now list.now) }
    ensures no { IfOk result (λ holds. holds ≡ false → IsOpen (grammar_in grammar.now) bundle.now list.now → ⊥) }
{
    match stop_at(alloc, grammar, bundle, list)? {
        Some(stop) => Ok(stop.place == list.len()),
        None => Ok(true),
    }
}

// What may stand after the tokens of a list, unless something refuses them before their end.
fn may_after(
    alloc: Global,
    grammar: &Grammar<'_>,
    input: &[u8],
    list: &[Token],
) -> Result<Vec<Thing>, AllocError>
    requires short { length input.now + 8 < 2 ^ 32 }
    requires few { length list.now + 1 < 2 ^ 32 }
    requires inside { All (λ t. LiesIn input.now t.span) list.now }
    ensures { IfOk result (λ may. AreInPlace (grammar_in grammar.now) input.now list.now may.items) }
{
    if is_open(alloc, grammar, input, list)? {
        what_may_stand(alloc, grammar, input, list)
    } else {
        Ok(Vec::new(alloc))
    }
}

// What may stand where this part ends.
fn may_at_end(
    alloc: Global,
    grammar: &Grammar<'_>,
    input: &[u8],
    front: Span,
) -> Result<Vec<Thing>, AllocError>
    requires short { length input.now + 8 < 2 ^ 32 }
    requires inside { LiesIn input.now front }
    ensures { IfOk result (λ may. (tokens : List Token) → AreTokens input.now front tokens
        → AreInPlace (grammar_in grammar.now) input.now tokens may.items) }
{
    match tokens(alloc, input, front) {
        Ok(list) => may_after(alloc, grammar, input, list.as_slice()),
        Err(TextError::Refused(_)) => Ok(Vec::new(alloc)),
        Err(TextError::Memory) => Err(AllocError),
    }
}

/// What is told of the bad letter of a part: where it stands, and what may stand there after the tokens before it, unless
/// something is wrong with these. Fails if memory runs out.
pub fn letter_at(
    alloc: Global,
    grammar: &Grammar<'_>,
    input: &[u8],
    part: Span,
    place: usize,
) -> Result<Wrong, AllocError>
    requires short { length input.now + 8 < 2 ^ 32 }
    requires inside { LiesIn input.now part }
    requires within { (part.start ≤ place) × (place < part.end) }
    requires letter { IsLetterAt input.now part place }
    ensures told { IfOk result (IsLetterTold (grammar_in grammar.now) input.now part) }
    ensures lies { IfOk result (λ wrong. LiesIn input.now wrong.spot.span) }
{
    let end = place + letter_len(&input[place..part.end]);
    let spot = spot_at(input, Span { start: place, end });
    let front = Span {
        start: part.start,
        end: place,
    };
    let may = may_at_end(alloc, grammar, input, front)?;
    Ok(Wrong {
        code: 10,
        spot,
        may,
    })
}
