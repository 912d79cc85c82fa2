// What a token says to a grammar.

ghost use Rattle.std.specs.Prelude.{◌≡◌};
ghost use Rattle.std.specs.Str.{bytes_eq};
ghost use Rattle.rcv_lexer.specs.Symbols.{number_of, unquoted};

/// A sign of the grammar, or else what stands in the token.
#[derive(Clone, Copy)]
pub enum Lexeme<'a, S> {
    /// A reserved word or a mark.
    Is(S),
    /// The bytes of any other word.
    Word(&'a [u8]),
    /// A number; 2^64 - 1 if it is greater than that.
    Number(u64),
    /// What stands between two quotes.
    Text(&'a [u8]),
}

/// Whether the two are the same.
#[inline(always)]
pub fn is(word: &[u8], other: &[u8]) -> bool
    ensures { result ≡ bytes_eq word.now other.now }
{
    word == other
}

/// The number that these digits say, however many there are; 2^64 - 1 if it is greater than that.
pub fn number_of(digits: &[u8]) -> u64
    ensures { result ≡ number_of digits.now }
{
    let mut number: u64 = 0;
    for digit in digits {
        number = number
            .saturating_mul(10)
            .saturating_add(digit.saturating_sub(48) as u64);
    }
    number
}

/// What stands between the first and the last byte.
pub fn unquoted(bytes: &[u8]) -> &[u8]
    ensures { result.now ≡ unquoted bytes.now }
{
    if bytes.len() < 2 {
        return &[];
    }
    &bytes[1..bytes.len() - 1]
}
