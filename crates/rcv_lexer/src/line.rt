// The line at which a reader stands.

ghost use Rattle.std.specs.Prelude.{◌≡◌};
ghost use Rattle.rcv_lexer.specs.Symbols.{line_before};

use crate::token::Token;

/// The line of the token from which on so many of the list are left; if none is left, `last`, the line of the end.
pub fn line_before(list: &[Token], last: u32, left: usize) -> u32
    ensures { result ≡ line_before list.now last left }
{
    let place = list.len().saturating_sub(left);
    match &list[place..] {
        [first, ..] => first.line(),
        [] => last,
    }
}
