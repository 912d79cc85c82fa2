// The signs of a grammar.

ghost use Rattle.std.specs.Prelude.{◌≡◌, ℕ, List, true, false};
ghost use Rattle.rcv_lexer.specs.declared.token.Kind.{Kind};
ghost use Rattle.rcv_lexer.specs.Symbols.{Symbol, symbol_in, IsWithin};

use crate::lexeme::Lexeme;
use crate::token::Kind;

/// The reserved words and marks of a grammar, and what each token says to it.
pub trait Alphabet: Copy + Drop {
    ghost symbol_by: { Kind → List ℕ → Symbol Self };

    // The greatest number that the grammar has.
    ghost greatest: { ℕ };

    /// Whether the two are the same.
    fn is(self, other: Self) -> bool
        ensures yes { result ≡ true → self ≡ other }
        ensures no { result ≡ false → self ≡ other → ⊥ };

    /// What a token of this kind with these bytes says.
    fn lexeme<'a>(kind: Kind, bytes: &'a [u8]) -> Lexeme<'a, Self>
        ensures says { symbol_in result ≡ symbol_by kind bytes.now }
        ensures within { IsWithin greatest result };
}
