// What a token says: a word, a number, a mark, or nothing that the grammar has.

ghost use Rattle.std.specs.Prelude.{◌≡◌, Option};
ghost use Rattle.rcv_script.specs.Symbols.{mark};
ghost use Rattle.rcv_script.specs.Machine.{kind_of};

use crate::sign::Sign;
use rcv_lexer::token::Kind;
use rcv_lexer::{Alphabet, Lexeme, is, number_of, unquoted};

/// What a line does.
#[derive(Clone, Copy)]
pub enum LineKind {
    Var,
    Send,
    Pick,
    On,
}

/// What a line does that begins with this word.
pub fn kind_of(word: &[u8]) -> Option<LineKind>
    ensures { result ≡ kind_of word.now }
{
    match word {
        _ if is(word, b"var") => Some(LineKind::Var),
        _ if is(word, b"send") => Some(LineKind::Send),
        _ if is(word, b"pick") => Some(LineKind::Pick),
        _ if is(word, b"on") => Some(LineKind::On),
        _ => None,
    }
}

fn mark(bytes: &[u8]) -> Sign
    ensures { result ≡ mark bytes.now }
{
    match bytes {
        _ if is(bytes, b"{") => Sign::Open,
        _ if is(bytes, b"}") => Sign::Close,
        _ if is(bytes, b"(") => Sign::Left,
        _ if is(bytes, b")") => Sign::Right,
        _ if is(bytes, b";") => Sign::Semicolon,
        _ if is(bytes, b"=") => Sign::Equals,
        _ if is(bytes, b"<") => Sign::Less,
        _ if is(bytes, b"<=") => Sign::AtMost,
        _ if is(bytes, b"==") => Sign::Same,
        _ if is(bytes, b"!=") => Sign::Differ,
        _ if is(bytes, b">") => Sign::More,
        _ if is(bytes, b">=") => Sign::AtLeast,
        _ if is(bytes, b"+") => Sign::Plus,
        _ if is(bytes, b"-") => Sign::Minus,
        _ if is(bytes, b"*") => Sign::Times,
        _ => Sign::Foreign,
    }
}

impl Alphabet for Sign {
    ghost use Rattle.rcv_script.specs.Symbols.{symbol_by, greatest};

    ghost symbol_by = { symbol_by };

    ghost greatest = { greatest };

    fn is(self, other: Sign) -> bool {
        self == other
    }

    fn lexeme<'a>(kind: Kind, bytes: &'a [u8]) -> Lexeme<'a, Sign> {
        match kind {
            Kind::Word => Lexeme::Word(bytes),
            Kind::Number => match number_of(bytes) {
                number if number <= 9223372036854775807 => Lexeme::Number(number),
                _ => Lexeme::Is(Sign::Foreign),
            },
            Kind::Text => Lexeme::Text(unquoted(bytes)),
            Kind::Mark => Lexeme::Is(mark(bytes)),
        }
    }
}
