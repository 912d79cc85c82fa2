// What a token says: a reserved word or a mark, a name, or what stands between quotes.

ghost use Rattle.std.specs.Prelude.{◌≡◌, Option, None};
ghost use Rattle.rcv_syntax.specs.Symbols.{reserved, mark};

use crate::sign::Sign;
use rcv_lexer::token::Kind;
use rcv_lexer::{Alphabet, Lexeme, is, number_of, unquoted};

impl Alphabet for Sign {
    ghost use Rattle.rcv_lexer.specs.Symbols.{greatest};
    ghost use Rattle.rcv_syntax.specs.Symbols.{symbol_by};

    ghost symbol_by = { symbol_by };

    ghost greatest = { greatest };

    fn is(self, other: Sign) -> bool {
        self == other
    }

    fn lexeme<'a>(kind: Kind, bytes: &'a [u8]) -> Lexeme<'a, Sign> {
        match kind {
            Kind::Word => match reserved(bytes) {
                Some(sign) => Lexeme::Is(sign),
                None => Lexeme::Word(bytes),
            },
            Kind::Number => Lexeme::Number(number_of(bytes)),
            Kind::Text => Lexeme::Text(unquoted(bytes)),
            Kind::Mark => Lexeme::Is(mark(bytes)),
        }
    }
}

fn reserved(word: &[u8]) -> Option<Sign>
    ensures { result ≡ reserved word.now }
{
    match word {
        _ if is(word, b"module") => Some(Sign::Module),
        _ if is(word, b"global") => Some(Sign::Global),
        _ if is(word, b"protocol") => Some(Sign::Protocol),
        _ if is(word, b"role") => Some(Sign::Role),
        _ if is(word, b"from") => Some(Sign::From),
        _ if is(word, b"to") => Some(Sign::To),
        _ if is(word, b"choice") => Some(Sign::Choice),
        _ if is(word, b"at") => Some(Sign::At),
        _ if is(word, b"or") => Some(Sign::Or),
        _ if is(word, b"rec") => Some(Sign::Rec),
        _ if is(word, b"continue") => Some(Sign::Continue),
        _ if is(word, b"par") => Some(Sign::Par),
        _ if is(word, b"and") => Some(Sign::And),
        _ if is(word, b"do") => Some(Sign::Do),
        _ => None,
    }
}

fn mark(bytes: &[u8]) -> Sign
    ensures { result ≡ mark bytes.now }
{
    match bytes {
        _ if is(bytes, b"{") => Sign::Open,
        _ if is(bytes, b"}") => Sign::Close,
        _ if is(bytes, b"(") => Sign::Left,
        _ if is(bytes, b")") => Sign::Right,
        _ if is(bytes, b",") => Sign::Comma,
        _ if is(bytes, b";") => Sign::Semicolon,
        _ if is(bytes, b".") => Sign::Dot,
        _ if is(bytes, b"<") => Sign::Less,
        _ if is(bytes, b">") => Sign::Greater,
        _ => Sign::Foreign,
    }
}
