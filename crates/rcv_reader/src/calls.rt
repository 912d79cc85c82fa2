// The lines of the calls among the tokens of a module.

ghost use Rattle.std.specs.Prelude.{◌≡◌, IfOk};
ghost use Rattle.std.specs.List.{All};
ghost use Rattle.rcv_lexer.specs.Parts.{LiesIn};
ghost use Rattle.rcv_lexer.specs.Symbols.{symbol_of};
ghost use Rattle.rcv_syntax.specs.Symbols.{symbol_by};
ghost use Rattle.rcv_syntax.specs.Trees.{is_call, lines_of_calls};

use rcv_lexer::token::Token;
use rcv_lexer::{Alphabet, Lexeme};
use rcv_syntax::Sign;
use rcv_tree::module::Lines;
use std::alloc::{AllocError, Global};

// Whether the token is the word `do`.
fn is_call(bundle: &[u8], token: &Token) -> bool
    requires { LiesIn bundle.now token.now.span }
    ensures { result ≡ is_call (symbol_of symbol_by bundle.now token.now) }
{
    let span = token.span();
    match Sign::lexeme(token.kind(), &bundle[span.start..span.end]) {
        Lexeme::Is(Sign::Do) => true,
        _ => false,
    }
}

/// The lines of the words `do`, in text order. Fails if memory runs out.
pub fn lines_of_calls(alloc: Global, bundle: &[u8], list: &[Token]) -> Result<Lines, AllocError>
    requires inside { All (λ t. LiesIn bundle.now t.span) list.now }
    ensures { IfOk result (λ lines. lines ≡ lines_of_calls bundle.now list.now) }
{
    let mut lines = Lines::new(alloc);
    let mut rest = list;
    while let [token, after @ ..] = rest {
        if is_call(bundle, token) {
            lines.push(token.line())?;
        }
        rest = after;
    }
    Ok(lines)
}
