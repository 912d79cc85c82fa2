// The lines of the receivers among the tokens of a module, by protocol.

ghost use Rattle.std.specs.Prelude.{◌≡◌, false, ◌∷◌, ◌++◌, IfOk, OnOk};
ghost use Rattle.std.specs.List.{All};
ghost use Rattle.rcv_lexer.specs.Parts.{LiesIn};
ghost use Rattle.rcv_lexer.specs.Symbols.{symbol_in};
ghost use Rattle.rcv_listing.specs.Receivers.{listed_behind, goes_on, is_receiver, is_global, said_by, up_to_next};
ghost use Rattle.rcv_listing.specs.Receivers.{receivers_of, lines_of, receiver_lines};

use rcv_lexer::token::Token;
use rcv_lexer::{Alphabet, Lexeme};
use rcv_syntax::Sign;
use rcv_tree::module::Lines;
use std::alloc::{AllocError, Global};

// Whether a list of receivers goes on after a sign.
fn listed_behind(listed: bool, sign: Sign) -> bool
    ensures { result ≡ listed_behind listed sign }
{
    match sign {
        Sign::To => true,
        Sign::Semicolon => false,
        _ => listed,
    }
}

// Whether it goes on after what a token says.
fn goes_on(listed: bool, lexeme: &Lexeme<'_, Sign>) -> bool
    ensures { result ≡ goes_on listed (symbol_in lexeme.now) }
{
    match lexeme {
        Lexeme::Is(sign) => listed_behind(listed, *sign),
        _ => listed,
    }
}

// Whether a token that says this is a receiver.
fn is_receiver(listed: bool, lexeme: &Lexeme<'_, Sign>) -> bool
    ensures { result ≡ is_receiver listed (symbol_in lexeme.now) }
{
    match lexeme {
        Lexeme::Word(_) => listed,
        _ => false,
    }
}

// What a token says.
fn said_by<'a>(input: &'a [u8], token: &Token) -> Lexeme<'a, Sign>
    requires { LiesIn input.now token.now.span }
    ensures { symbol_in result ≡ said_by input.now token.now }
{
    let span = token.span();
    Sign::lexeme(token.kind(), &input[span.start..span.end])
}

// Whether a token that says this is the word `global`. A protocol stands after that word.
fn is_global(lexeme: &Lexeme<'_, Sign>) -> bool
    ensures { result ≡ is_global (symbol_in lexeme.now) }
{
    match lexeme {
        Lexeme::Is(Sign::Global) => true,
        _ => false,
    }
}

// The lines of the receivers up to the next protocol, in order.
fn lines_up_to_next(alloc: Global, input: &[u8], tokens: &[Token]) -> Result<Lines, AllocError>
    requires { All (λ t. LiesIn input.now t.span) tokens.now }
    ensures { IfOk result (λ lines. lines
        ≡ lines_of (receivers_of input.now false (up_to_next input.now tokens.now))) }
{
    let mut lines = Lines::new(alloc);
    let mut listed = false;
    let mut rest = tokens;
    while let [token, after @ ..] = rest {
        let lexeme = said_by(input, token);
        if is_global(&lexeme) {
            return Ok(lines);
        }
        if is_receiver(listed, &lexeme) {
            lines.push(token.line())?;
        }
        listed = goes_on(listed, &lexeme);
        rest = after;
    }
    Ok(lines)
}

// Adds the lines of the receivers of the protocol that begins at this token, if one does. Fails if memory runs out.
#[tactic(auto, using(crate::proofs::Texts::protocol_begins, crate::proofs::Texts::protocol_goes_on))]
fn add_lines(
    alloc: Global,
    input: &[u8],
    token: &Token,
    after: &[Token],
    lines: &mut Vec<Lines>,
) -> Result<(), AllocError>
    requires own { LiesIn input.now token.now.span }
    requires behind { All (λ t. LiesIn input.now t.span) after.now }
    ensures { OnOk result (lines.new.items ++ receiver_lines input.now after.now
        ≡ lines.old.items ++ receiver_lines input.now (token.now ∷ after.now)) }
{
    if is_global(&said_by(input, token)) {
        lines.push(lines_up_to_next(alloc, input, after)?)?;
    }
    Ok(())
}

/// For each protocol of a module with these tokens, in text order, the lines of its receivers, in order: one for each of
/// the points of its text. Fails if memory runs out.
pub fn receiver_lines(
    alloc: Global,
    input: &[u8],
    tokens: &[Token],
) -> Result<Vec<Lines>, AllocError>
    requires { All (λ t. LiesIn input.now t.span) tokens.now }
    ensures { IfOk result (λ lines. lines.items ≡ receiver_lines input.now tokens.now) }
{
    let mut lines = Vec::new(alloc);
    let mut rest = tokens;
    while let [token, after @ ..] = rest {
        add_lines(alloc, input, token, after, &mut lines)?;
        rest = after;
    }
    Ok(lines)
}
