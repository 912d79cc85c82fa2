// The marks of a plan.

ghost use Rattle.std.specs.Prelude.{◌≡◌};
ghost use Rattle.rcv_plan.specs.Symbols.{mark};

use rcv_lexer::token::Kind;
use rcv_lexer::{Alphabet, Lexeme, is, number_of, unquoted};

/// A mark of the grammar, or any other one.
#[derive(Clone, Copy, Debug, PartialEq, Eq, Drop)]
pub enum Sign {
    Equals,
    Comma,
    /// A mark that the grammar doesn't have.
    Foreign,
}

impl Alphabet for Sign {
    ghost use Rattle.rcv_lexer.specs.Symbols.{greatest};
    ghost use Rattle.rcv_plan.specs.Symbols.{symbol_by};

    ghost symbol_by = { symbol_by };

    ghost greatest = { greatest };

    fn is(self, other: Sign) -> bool {
        self == other
    }

    fn lexeme<'a>(kind: Kind, bytes: &'a [u8]) -> Lexeme<'a, Sign> {
        match kind {
            Kind::Word => Lexeme::Word(bytes),
            Kind::Number => Lexeme::Number(number_of(bytes)),
            Kind::Text => Lexeme::Text(unquoted(bytes)),
            Kind::Mark => Lexeme::Is(mark(bytes)),
        }
    }
}

fn mark(bytes: &[u8]) -> Sign
    ensures { result ≡ mark bytes.now }
{
    if is(bytes, b"=") {
        Sign::Equals
    } else if is(bytes, b",") {
        Sign::Comma
    } else {
        Sign::Foreign
    }
}
