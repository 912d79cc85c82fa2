// Where something stands in a text: its line, and its column.

ghost use Rattle.std.specs.Prelude.{◌≡◌, ℕ, List, [], ◌∷◌, ◌++◌, ◌+◌, ◌^◌, ◌<◌, ◌≤◌, length, slice_get};
ghost use Rattle.std.specs.List.{All};
ghost use Rattle.rcv_lexer.specs.Parts.{LiesIn};
ghost use Rattle.rcv_lexer.specs.Tokens.{line_at};
ghost use Rattle.rcv_found.specs.Spots.{begins_letter, column_of, column_at, spot_by, spot_of};

use rcv_lexer::line_feeds;
use rcv_lexer::token::{Span, Token};

/// A stretch of a text, with the line and the column of its first byte, both counted from 1. A column counts letters.
/// At the end of a part the stretch is empty.
#[derive(Clone, Copy, Debug, PartialEq, Eq)]
pub struct Spot {
    pub span: Span,
    pub line: u32,
    pub column: u32,
}

/// Whether a letter begins with the byte.
pub fn begins_letter(byte: u8) -> bool
    ensures { result ≡ begins_letter byte }
{
    byte < 128 || 192 <= byte
}

// The column after a byte, if this is the byte's own.
#[tactic(auto, using(crate::proofs::Columns::column_last, crate::proofs::Columns::column_letter, crate::proofs::Columns::column_same))]
fn next_column(column: u32, byte: u8) -> u32
    requires { column + 1 < 2 ^ 32 }
    ensures step { (before : List ℕ) → column ≡ column_of before → result ≡ column_of (before ++ byte ∷ []) }
    ensures short { (n : ℕ) → column ≤ n + 1 → result ≤ n + 2 }
{
    if byte == b'\n' {
        1
    } else if begins_letter(byte) {
        column + 1
    } else {
        column
    }
}

// The column after these bytes.
fn column_of(before: &[u8]) -> u32
    requires { length before.now + 1 < 2 ^ 32 }
    ensures { result ≡ column_of before.now }
{
    let mut column = 1;
    for byte in before {
        column = next_column(column, *byte);
    }
    column
}

// The line of a place.
fn line_at(bundle: &[u8], place: usize) -> u32
    requires short { length bundle.now + 1 < 2 ^ 32 }
    requires inside { place ≤ length bundle.now }
    ensures { result ≡ line_at bundle.now place }
{
    1 + line_feeds(&bundle[..place])
}

// A stretch of the bundle on this line.
fn spot_by(bundle: &[u8], span: Span, line: u32) -> Spot
    requires short { length bundle.now + 1 < 2 ^ 32 }
    requires inside { span.start ≤ length bundle.now }
    ensures { result ≡ spot_by bundle.now span line }
{
    Spot {
        span,
        line,
        column: column_of(&bundle[..span.start]),
    }
}

/// Where a stretch of the bundle stands.
pub fn spot_at(bundle: &[u8], span: Span) -> Spot
    requires short { length bundle.now + 1 < 2 ^ 32 }
    requires inside { span.start ≤ length bundle.now }
    ensures { result ≡ spot_by bundle.now span (line_at bundle.now span.start) }
{
    spot_by(bundle, span, line_at(bundle, span.start))
}

/// Where the token with this place stands; if the place is after all of them, where the part ends.
pub fn spot_of(bundle: &[u8], list: &[Token], place: usize, end: usize) -> Spot
    requires short { length bundle.now + 1 < 2 ^ 32 }
    requires inside { All (λ t. LiesIn bundle.now t.span) list.now }
    requires last { end ≤ length bundle.now }
    ensures lies { LiesIn bundle.now result.span }
    ensures spot { result ≡ spot_of bundle.now end (slice_get list.now place) }
{
    match list.get(place) {
        Some(token) => spot_by(bundle, token.span(), token.line()),
        None => spot_by(bundle, Span { start: end, end }, line_at(bundle, end)),
    }
}
