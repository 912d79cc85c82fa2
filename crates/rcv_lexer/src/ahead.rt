// The tokens that are still to be read.

ghost use Rattle.std.specs.Prelude.{◌≡◌, ◌≤◌, ◌∷◌, [], length, IfSome, IfNone, true, false};
ghost use Rattle.std.specs.List.{All};
ghost use Rattle.rcv_lexer.specs.Parts.{LiesIn};
ghost use Rattle.rcv_lexer.specs.Symbols.{Is, Word, Number, Text, IsNotNext, NoWord, NoNumber, NoText, IsWithin};
ghost use Rattle.rcv_lexer.specs.Symbols.{symbol_in, symbols_of};

use crate::alphabet::Alphabet;
use crate::lexeme::Lexeme;
use crate::token::Token;
use std::marker::{Model, PhantomData};

/// Tokens of a bundle, seen as what they say to the grammar with these signs.
#[derive(Drop)]
pub struct Ahead<'a, S: Alphabet> {
    bundle: &'a [u8],
    tokens: &'a [Token],
    signs: PhantomData<S>,
}

impl<'a, S: Alphabet> Model for Ahead<'a, S> {
    ghost use Rattle.std.specs.Prelude.{List};
    ghost use Rattle.std.specs.List.{All};
    ghost use Rattle.rcv_lexer.specs.Parts.{LiesIn};
    ghost use Rattle.rcv_lexer.specs.Symbols.{Symbol, symbols_of};

    ghost Value = { List (Symbol S) };

    ghost view = { λ a. symbols_of S.symbol_by a.bundle.now a.tokens.now };

    ghost invariant = { λ a. All (λ t. LiesIn a.bundle.now t.span) a.tokens.now };
}

impl<'a, S: Alphabet> Ahead<'a, S> {
    /// All these tokens.
    pub fn new(bundle: &'a [u8], tokens: &'a [Token]) -> Self
        requires { All (λ t. LiesIn bundle.now t.span) tokens.now }
        ensures { result ≡ symbols_of S.symbol_by bundle.now tokens.now }
    {
        Ahead {
            bundle,
            tokens,
            signs: PhantomData,
        }
    }

    /// How many are left.
    pub fn len(&self) -> usize
        ensures { result ≡ length self.now }
    {
        self.tokens.len()
    }

    /// Whether none is left.
    pub fn is_empty(&self) -> bool
        ensures done { result ≡ true → self.now ≡ [] }
        ensures more { result ≡ false → self.now ≡ [] → ⊥ }
    {
        self.tokens.is_empty()
    }

    /// The next one, and what is left after it. It takes no memory.
    pub fn next(&self) -> Option<(Lexeme<'a, S>, Ahead<'a, S>)>
        ensures some { IfSome result (λ r. self.now ≡ symbol_in r.0 ∷ r.1) }
        ensures within { IfSome result (λ r. IsWithin S.greatest r.0) }
        ensures none { IfNone result (self.now ≡ []) }
    {
        let [first, after @ ..] = self.tokens else {
            return None;
        };
        let span = first.span();
        let bytes = &self.bundle[span.start..span.end];
        let rest = Ahead {
            bundle: self.bundle,
            tokens: after,
            signs: PhantomData,
        };
        Some((S::lexeme(first.kind(), bytes), rest))
    }

    /// What is left after this sign, if it is next.
    pub fn sign(&self, sign: S) -> Option<Ahead<'a, S>>
        ensures some { IfSome result (λ after. self.now ≡ Is sign ∷ after) }
        ensures none { IfNone result (IsNotNext (Is sign) self.now) }
    {
        let Some((Lexeme::Is(found), after)) = self.next() else {
            return None;
        };
        if found.is(sign) { Some(after) } else { None }
    }

    /// The word that is next, and what is left after it.
    pub fn word(&self) -> Option<(&'a [u8], Ahead<'a, S>)>
        ensures some { IfSome result (λ r. self.now ≡ Word r.0.now ∷ r.1) }
        ensures none { IfNone result (NoWord self.now) }
    {
        let Some((Lexeme::Word(word), after)) = self.next() else {
            return None;
        };
        Some((word, after))
    }

    /// The number that is next, and what is left after it.
    pub fn number(&self) -> Option<(u64, Ahead<'a, S>)>
        ensures some { IfSome result (λ r. self.now ≡ Number r.0 ∷ r.1) }
        ensures within { IfSome result (λ r. r.0 ≤ S.greatest) }
        ensures none { IfNone result (NoNumber self.now) }
    {
        let Some((Lexeme::Number(number), after)) = self.next() else {
            return None;
        };
        Some((number, after))
    }

    /// What stands between the quotes that are next, and what is left after it.
    pub fn text(&self) -> Option<(&'a [u8], Ahead<'a, S>)>
        ensures some { IfSome result (λ r. self.now ≡ Text r.0.now ∷ r.1) }
        ensures none { IfNone result (NoText self.now) }
    {
        let Some((Lexeme::Text(text), after)) = self.next() else {
            return None;
        };
        Some((text, after))
    }
}
