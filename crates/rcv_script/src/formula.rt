// A descent over expressions, with one token of look-ahead, which writes their steps.

ghost use Rattle.std.specs.Prelude.{◌≡◌, ◌<◌, ◌≤◌, ◌∷◌, ◌+◌, ℕ, List, length, true, false};
ghost use Rattle.std.specs.Prelude.{Option, IfSome, IfNone, IfOk, IfErr};
ghost use Rattle.rcv_model.specs.Script.{Expr};
ghost use Rattle.rcv_formula.specs.Expressions.{leaf_expr};
ghost use Rattle.rcv_script.specs.Symbols.{Symbol, Is, Word, IsNotNext};
ghost use Rattle.rcv_script.specs.Lines.{condition_of, test_of};
ghost use Rattle.rcv_script.specs.Machine.{This, ATest, AnAtom, a_product, a_sum, compared};
ghost use Rattle.rcv_script.specs.Machine.{Item, Refuses, answer};
ghost use Rattle.rcv_script.specs.Descent.{Goes, Passes, Writes, at_depth, rooms, term_sign};

use crate::fault::{Fault, Read, ScriptError};
use crate::line::{Comparison, Condition};
use crate::parser::Parser;
use crate::sign::Sign;
use crate::writing::Writing;
use rcv_formula::Operator::{Add, Multiply, Subtract};
use rcv_formula::{Formula, Leaf, Steps};
use rcv_lexer::{Lexeme, is};
use rcv_tree::name::Names;

/// What speaks against the words `value` and `attempt` in an expression.
#[derive(Clone, Copy)]
pub struct Banned {
    pub value: Option<Fault>,
    pub attempt: Option<Fault>,
}

// What a word is in an expression, or what speaks against it.
fn word_atom(names: &Names, banned: Banned, word: &[u8]) -> Result<Leaf, Fault>
    ensures ok { IfOk result (λ leaf. (depth : ℕ) (k : Expr → Item) (now after : List Symbol)
        → now ≡ Word word.now ∷ after
        → answer (AnAtom (at_depth names.now banned depth) k) now ≡ answer (k (leaf_expr leaf)) after) }
    ensures err { IfErr result (λ fault. (depth : ℕ) (k : Expr → Item) (now after : List Symbol)
        → now ≡ Word word.now ∷ after
        → answer (AnAtom (at_depth names.now banned depth) k) now ≡ Refuses fault now) }
{
    if is(word, b"value") {
        return banned.value.map_or(Ok(Leaf::Value), Err);
    }
    if is(word, b"attempt") {
        return banned.attempt.map_or(Ok(Leaf::Attempt), Err);
    }
    let place = names.place_of(word).ok_or(Fault::Variable)?;
    Ok(Leaf::Variable(place))
}

impl<'a> Parser<'a> {
    /// Takes this mark.
    #[tactic(auto, using(crate::proofs::Stops::no_sign))]
    pub fn expect(&mut self, sign: Sign) -> Read<()>
        ensures goes { Passes result (λ k. This (Is sign) k) self.old.rest self.new.rest }
        ensures shorter { length self.new.rest ≤ length self.old.rest }
    {
        self.rest = self.rest.sign(sign).ok_or(Fault::Token)?;
        Ok(())
    }

    /// Takes this mark if it is next.
    pub fn takes(&mut self, sign: Sign) -> bool
        ensures yes { result ≡ true → self.old.rest ≡ Is sign ∷ self.new.rest }
        ensures taken { result ≡ true → length self.new.rest < length self.old.rest }
        ensures no { result ≡ false → (self.new.rest ≡ self.old.rest) × IsNotNext (Is sign) self.old.rest }
    {
        let Some(after) = self.rest.sign(sign) else {
            return false;
        };
        self.rest = after;
        true
    }

    /// Takes this word if it is next.
    #[tactic(auto, using(crate::proofs::Stops::same_word))]
    pub fn takes_word(&mut self, word: &[u8]) -> bool
        ensures yes { result ≡ true → self.old.rest ≡ Word word.now ∷ self.new.rest }
        ensures taken { result ≡ true → length self.new.rest < length self.old.rest }
        ensures no { result ≡ false → (self.new.rest ≡ self.old.rest) × IsNotNext (Word word.now) self.old.rest }
    {
        match self.rest.word() {
            Some((found, after)) if is(found, word) => {
                self.rest = after;
                true
            }
            _ => false,
        }
    }

    // Takes the mark in front of one more term if one is next: whether the term is subtracted.
    fn takes_term(&mut self) -> Option<bool>
        ensures some { IfSome result (λ minus. self.old.rest ≡ Is (term_sign minus) ∷ self.new.rest) }
        ensures taken { IfSome result (λ minus. length self.new.rest < length self.old.rest) }
        ensures none { IfNone result ((self.new.rest ≡ self.old.rest)
            × IsNotNext (Is Sign.Plus) self.old.rest × IsNotNext (Is Sign.Minus) self.old.rest) }
    {
        if self.takes(Sign::Plus) {
            return Some(false);
        }
        self.takes(Sign::Minus).then_some(true)
    }

    // Takes a number, or a word that stands for one.
    #[tactic(auto, using(crate::proofs::Stops::no_atom))]
    fn leaf(&mut self, names: &Names, banned: Banned, steps: &mut Steps) -> Read<()>
        requires room { length steps.old.1 < 67 }
        ensures goes { (depth : ℕ) → IsNotNext (Is Sign.Minus) self.old.rest → IsNotNext (Is Sign.Left) self.old.rest
            → Writes result steps.old steps.new (λ k. AnAtom (at_depth names.now banned depth) k)
            self.old.rest self.new.rest }
        ensures shorter { length self.new.rest ≤ length self.old.rest }
    {
        if let Some((number, after)) = self.rest.number() {
            self.rest = after;
            return Ok(steps.push(Leaf::Number(number as i64))?);
        }
        let Some((word, after)) = self.rest.word() else {
            return Err(ScriptError::Refused(Fault::Token));
        };
        match word_atom(names, banned, word) {
            Ok(leaf) => {
                self.rest = after;
                Ok(steps.push(leaf)?)
            }
            Err(fault) => Err(ScriptError::Refused(fault)),
        }
    }

    // Takes an atom inside so many open parentheses and signs.
    #[cycle(descent)]
    fn atom(&mut self, names: &Names, banned: Banned, depth: u32, steps: &mut Steps) -> Read<()>
        requires depth { depth ≤ 32 }
        requires room { length steps.old.1 + rooms depth ≤ 68 }
        ensures goes { Writes result steps.old steps.new
            (λ k. AnAtom (at_depth names.now banned depth) k) self.old.rest self.new.rest }
        ensures shorter { length self.new.rest ≤ length self.old.rest }
    {
        if let Some(after) = self.rest.sign(Sign::Minus) {
            if depth >= 32 {
                return Err(ScriptError::Refused(Fault::TooMany));
            }
            self.rest = after;
            self.atom(names, banned, depth + 1, steps)?;
            return Ok(steps.negate()?);
        }
        if let Some(after) = self.rest.sign(Sign::Left) {
            if depth >= 32 {
                return Err(ScriptError::Refused(Fault::TooMany));
            }
            self.rest = after;
            self.sum(names, banned, depth + 1, steps)?;
            return self.expect(Sign::Right);
        }
        self.leaf(names, banned, steps)
    }

    // Takes atoms, multiplied.
    #[tactic(auto, using(crate::proofs::Stops::factors_end, crate::proofs::Stops::terms_end))]
    #[cycle(descent)]
    fn product(&mut self, names: &Names, banned: Banned, depth: u32, steps: &mut Steps) -> Read<()>
        requires depth { depth ≤ 32 }
        requires room { length steps.old.1 + rooms depth ≤ 67 }
        ensures goes { Writes result steps.old steps.new
            (λ k. a_product (at_depth names.now banned depth) k) self.old.rest self.new.rest }
        ensures shorter { length self.new.rest ≤ length self.old.rest }
    {
        self.atom(names, banned, depth, steps)?;
        while self.takes(Sign::Times) {
            self.atom(names, banned, depth, steps)?;
            steps.join(Multiply)?;
        }
        Ok(())
    }

    // Takes products, added and subtracted, inside so many open parentheses and signs.
    #[tactic(auto, using(crate::proofs::Stops::factors_end, crate::proofs::Stops::terms_end))]
    #[cycle(descent)]
    fn sum(&mut self, names: &Names, banned: Banned, depth: u32, steps: &mut Steps) -> Read<()>
        requires depth { depth ≤ 32 }
        requires room { length steps.old.1 + rooms depth ≤ 66 }
        ensures goes { Writes result steps.old steps.new
            (λ k. a_sum (at_depth names.now banned depth) k) self.old.rest self.new.rest }
        ensures shorter { length self.new.rest ≤ length self.old.rest }
    {
        self.product(names, banned, depth, steps)?;
        while let Some(minus) = self.takes_term() {
            self.product(names, banned, depth, steps)?;
            steps.join(if minus { Subtract } else { Add })?;
        }
        Ok(())
    }

    // Takes an expression.
    fn formula(&mut self, names: &Names, banned: Banned) -> Read<Formula>
        ensures goes { Goes result (λ k. a_sum (at_depth names.now banned 0) k) (λ e. e) self.old.rest self.new.rest }
        ensures shorter { length self.new.rest ≤ length self.old.rest }
    {
        let mut steps = Steps::new(self.alloc);
        self.sum(names, banned, 0, &mut steps)?;
        Ok(steps.finish())
    }

    /// Takes what a line computes: the mark `=` and an expression.
    pub fn number_set(&mut self, writing: &Writing<'_>, banned: Banned) -> Read<Formula>
        ensures goes { Goes result (λ k. This (Is Sign.Equals) (a_sum (at_depth writing.now.names banned 0) k))
            (λ e. e) self.old.rest self.new.rest }
        ensures shorter { IfOk result (λ _. length self.new.rest ≤ length self.old.rest) }
    {
        self.expect(Sign::Equals)?;
        self.formula(writing.names(), banned)
    }

    /// Takes a condition.
    pub fn condition(&mut self, writing: &Writing<'_>, banned: Banned) -> Read<Condition>
        ensures goes { Goes result (λ k. compared (at_depth writing.now.names banned 0) k) condition_of
            self.old.rest self.new.rest }
        ensures shorter { IfOk result (λ _. length self.new.rest ≤ length self.old.rest) }
    {
        let left = self.formula(writing.names(), banned)?;
        let comparison = self.comparison()?;
        let right = self.formula(writing.names(), banned)?;
        Ok(Condition {
            left,
            comparison,
            right,
        })
    }

    // Takes a mark that compares.
    fn comparison(&mut self) -> Read<Comparison>
        ensures goes { Goes result (λ k. ATest k) test_of self.old.rest self.new.rest }
        ensures shorter { IfOk result (λ _. length self.new.rest ≤ length self.old.rest) }
    {
        let Some((Lexeme::Is(sign), after)) = self.rest.next() else {
            return Err(ScriptError::Refused(Fault::Token));
        };
        let comparison = match sign {
            Sign::Less => Comparison::Less,
            Sign::AtMost => Comparison::AtMost,
            Sign::Same => Comparison::Same,
            Sign::Differ => Comparison::Differ,
            Sign::More => Comparison::More,
            Sign::AtLeast => Comparison::AtLeast,
            _ => return Err(ScriptError::Refused(Fault::Token)),
        };
        self.rest = after;
        Ok(comparison)
    }
}
