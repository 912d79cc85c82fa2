// Where a part is refused: at which of its tokens.

ghost use Rattle.std.specs.Prelude.{◌≡◌, ◌+◌, ◌^◌, ◌<◌, ◌∷◌, ◌++◌, length, IfOk, OnOk, MatchOption};
ghost use Rattle.std.specs.List.{All};
ghost use Rattle.rcv_lexer.specs.Parts.{LiesIn};
ghost use Rattle.rcv_found.specs.Stops.{IsTakenBy, IsFirstAt, numbered};
ghost use Rattle.rcv_found.specs.Seen.{grammar_in};

use crate::grammar::Grammar;
use rcv_lexer::token::Token;
use rcv_tree::refusal::{Refusal, TextError};
use std::alloc::{AllocError, Global};

/// The first code of a table, and the place of the token at which it holds: counted from 0, and after all of them if
/// that is the end.
#[derive(Clone, Copy, Debug, PartialEq, Eq)]
pub struct Stop {
    pub code: u8,
    pub place: usize,
}

// The same token with a place instead of its line. The bundle tells the proof that its span fits.
fn numbered_token(bundle: &[u8], token: &Token, place: u32) -> Token
    requires short { length bundle.now < 2 ^ 32 }
    requires inside { LiesIn bundle.now token.now.span }
    ensures { result ≡ record { kind = token.now.kind; span = token.now.span; line = place } }
{
    let _bundle = bundle;
    let span = token.span();
    Token::new(token.kind(), span.start as u32, span.end as u32, place)
}

// Adds the first of these tokens so.
#[tactic(auto, using(crate::proofs::Numbering::one_more))]
fn add_numbered(
    bundle: &[u8],
    token: &Token,
    after: &[Token],
    place: u32,
    tokens: &mut Vec<Token>,
) -> Result<(), AllocError>
    requires short { length bundle.now < 2 ^ 32 }
    requires inside { LiesIn bundle.now token.now.span }
    ensures { OnOk result (tokens.new.items ++ numbered (place + 1) after.now
        ≡ tokens.old.items ++ numbered place (token.now ∷ after.now)) }
{
    let _after = after;
    tokens.push(numbered_token(bundle, token, place))?;
    Ok(())
}

// All tokens so: a refusal's line is then a place.
fn numbered(alloc: Global, bundle: &[u8], list: &[Token]) -> Result<Vec<Token>, AllocError>
    requires short { length bundle.now < 2 ^ 32 }
    requires few { length list.now < 2 ^ 32 }
    requires inside { All (λ t. LiesIn bundle.now t.span) list.now }
    ensures { IfOk result (λ v. v.items ≡ numbered 0 list.now) }
{
    let mut tokens = Vec::with_capacity(alloc, list.len())?;
    let mut place = 0;
    let mut rest = list;
    while let [token, after @ ..] = rest {
        add_numbered(bundle, token, after, place, &mut tokens)?;
        place += 1;
        rest = after;
    }
    Ok(tokens)
}

/// The first code of the grammar's table that holds at one of the tokens or at the end; none if the part is read. Fails
/// if memory runs out.
pub fn stop_at(
    alloc: Global,
    grammar: &Grammar<'_>,
    bundle: &[u8],
    list: &[Token],
) -> Result<Option<Stop>, AllocError>
    requires short { length bundle.now < 2 ^ 32 }
    requires few { length list.now < 2 ^ 32 }
    requires inside { All (λ t. LiesIn bundle.now t.span) list.now }
    ensures { IfOk result (λ stop. MatchOption stop (IsTakenBy (grammar_in grammar.now) bundle.now list.now)
        (λ s. IsFirstAt (grammar_in grammar.now) bundle.now list.now s.code s.place)) }
{
    let tokens = numbered(alloc, bundle, list)?;
    match grammar.read(alloc, bundle, tokens.as_slice(), list.len() as u32) {
        Ok(()) => Ok(None),
        Err(TextError::Refused(Refusal::Text { code, line })) => Ok(Some(Stop {
            code,
            place: line as usize,
        })),
        Err(TextError::Refused(_)) => unreachable!(),
        Err(TextError::Memory) => Err(AllocError),
    }
}
