// Pieces of a bundle, tokens, and why there are none.

ghost use Rattle.std.specs.Prelude.{◌≡◌};
ghost use Rattle.rcv_lexer.specs.Seen.{token};

use std::marker::Model;
use std::mem::size_of;

/// A stretch of the bundle: the place of its first byte, and the place after its last one. Places are counted from 0.
#[derive(Clone, Copy, Debug, PartialEq, Eq)]
pub struct Span {
    pub start: usize,
    pub end: usize,
}

/// What a token is.
#[derive(Clone, Copy, Debug, PartialEq, Eq)]
pub enum Kind {
    /// A letter or `_`, then letters, digits and `_`, at most 64 bytes in all.
    Word,
    /// Digits.
    Number,
    /// At most 64 bytes between two quotes, with the quotes.
    Text,
    /// One of `{ } ( ) , ; . < > = + - *`, or of `<= >= == !=`.
    Mark,
}

/// A token: what it is, where it stands, and the line of its first byte, counted from 1. It takes 16 bytes, since a
/// bundle may have as many tokens as bytes.
#[derive(Clone, Copy, Debug, PartialEq, Eq)]
pub struct Token {
    kind: Kind,
    start: u32,
    end: u32,
    line: u32,
}

impl Model for Token {
    ghost use Rattle.rcv_lexer.specs.Seen.{Seen};

    ghost Value = { Seen };

    ghost view = { λ a. record { kind = a.kind; span = record { start = a.start; end = a.end }; line = a.line } };

    ghost inverse = { λ t. record { kind = t.kind; start = t.span.start; end = t.span.end; line = t.line } };
}

const _: () = prove!(size_of::<Token>() == 16);

impl Token {
    /// The token of this kind there, on a line.
    pub fn new(kind: Kind, start: u32, end: u32, line: u32) -> Self
        ensures { result ≡ token kind start end line }
    {
        Token {
            kind,
            start,
            end,
            line,
        }
    }

    /// What it is.
    pub fn kind(&self) -> Kind
        ensures { result ≡ self.now.kind }
    {
        self.kind
    }

    /// Where it stands.
    pub fn span(&self) -> Span
        ensures { result ≡ self.now.span }
    {
        Span {
            start: self.start as usize,
            end: self.end as usize,
        }
    }

    /// The line of its first byte.
    pub fn line(&self) -> u32
        ensures { result ≡ self.now.line }
    {
        self.line
    }
}
