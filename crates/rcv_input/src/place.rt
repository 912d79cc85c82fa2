// The line of a place in an input.

ghost use Rattle.std.specs.Prelude.{◌≡◌, ◌+◌, ◌^◌, ◌<◌, ◌≤◌, length};
ghost use Rattle.rcv_lexer.specs.Tokens.{line_at};

use rcv_lexer::line_feeds;

/// The line of a place in the input, counted from 1.
pub fn line_at(input: &[u8], place: usize) -> u32
    requires short { length input.now + 1 < 2 ^ 32 }
    requires inside { place ≤ length input.now }
    ensures { result ≡ line_at input.now place }
{
    1 + line_feeds(&input[..place])
}
