// What is found in a part of an input: a bad letter, a wrong token, or nothing.

ghost use Rattle.std.specs.Prelude.{◌≡◌, ◌+◌, ◌^◌, ◌<◌, length, IfOk};
ghost use Rattle.rcv_lexer.specs.Parts.{LiesIn};
ghost use Rattle.rcv_lexer.specs.Tokens.{AreTokens};
ghost use Rattle.rcv_found.specs.Seen.{grammar_in};
ghost use Rattle.rcv_found.specs.Findings.{IsFindingIn, LiesWrong};

use crate::grammar::Grammar;
use crate::letter::letter_at;
use crate::wrong::{Wrong, wrong_at};
use rcv_lexer::token::{Span, Token};
use rcv_lexer::{bad_letter, tokens};
use rcv_tree::refusal::TextError;
use std::alloc::{AllocError, Global};

/// What is found in a part.
#[derive(Drop)]
pub enum Finding {
    /// A bad letter.
    Letter(Wrong),
    /// Its tokens are refused.
    Wrong(Wrong),
    /// They are read.
    Taken,
}

// What is found at the tokens of a part that ends there.
fn find_wrong(
    alloc: Global,
    grammar: &Grammar<'_>,
    input: &[u8],
    part: Span,
    list: &[Token],
) -> Result<Finding, AllocError>
    requires short { length input.now + 8 < 2 ^ 32 }
    requires inside { LiesIn input.now part }
    requires tokens { AreTokens input.now part list.now }
    ensures found { IfOk result (IsFindingIn (grammar_in grammar.now) input.now part) }
    ensures lies { IfOk result (LiesWrong input.now) }
{
    match wrong_at(alloc, grammar, input, list, part.end)? {
        Some(wrong) => Ok(Finding::Wrong(wrong)),
        None => Ok(Finding::Taken),
    }
}

/// What is found in a part of an input. Fails if memory runs out.
pub fn find(
    alloc: Global,
    grammar: &Grammar<'_>,
    input: &[u8],
    part: Span,
) -> Result<Finding, AllocError>
    requires short { length input.now + 8 < 2 ^ 32 }
    requires inside { LiesIn input.now part }
    ensures found { IfOk result (IsFindingIn (grammar_in grammar.now) input.now part) }
    ensures lies { IfOk result (LiesWrong input.now) }
{
    if let Some(place) = bad_letter(input, part) {
        let told = letter_at(alloc, grammar, input, part, place)?;
        return Ok(Finding::Letter(told));
    }
    match tokens(alloc, input, part) {
        Ok(list) => find_wrong(alloc, grammar, input, part, list.as_slice()),
        Err(TextError::Refused(_)) => unreachable!(),
        Err(TextError::Memory) => Err(AllocError),
    }
}
