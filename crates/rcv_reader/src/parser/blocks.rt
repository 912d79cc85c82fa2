// A descent over the statements with one token of look-ahead, and two at the word `continue`.

ghost use Rattle.std.specs.Prelude.{◌≡◌, ◌<◌, ◌≤◌, ◌+◌, ◌^◌, ◌++◌, ◌∷◌, [], length, ℕ, List};
ghost use Rattle.std.specs.Prelude.{OnOk, IfOk, true, false, nat_le, ◌||◌};
ghost use Rattle.rcv_tree.specs.Lists.{statements};
ghost use Rattle.rcv_syntax.specs.Symbols.{Is, Word};
ghost use Rattle.rcv_machine.specs.Machine.{Place, Item, This, Subject};
ghost use Rattle.rcv_machine.specs.Machine.{RecName, AgainName, Opening};
ghost use Rattle.rcv_machine.specs.Machine.{First, Rest, More, Lane, Later};
ghost use Rattle.rcv_machine.specs.Machine.{Refuses, inside, after_statement, is_open};
ghost use Rattle.rcv_reader.specs.Standing.{at, back_at, within, named_in, answers};
ghost use Rattle.rcv_reader.specs.Descent.{Takes, Consumes, TakesSome};
ghost use Rattle.rcv_reader.specs.Descent.{TakesAll, TakesBlock, place_at, place_of_spot};

use crate::parser::{Parser, Spot, holds};
use crate::stop::Stop;
use rcv_lexer::{Ahead, Lexeme};
use rcv_syntax::{Fault, Sign};
use rcv_tree::name::Name;
use rcv_tree::role::RoleSet;
use rcv_tree::statement::{Block, Blocks, Stmt};
use std::alloc::Global;

impl<'a> Parser<'a> {
    // Takes the name after `continue`, which is that of an enclosing recursion, and the mark after it.
    #[tactic(auto, using(crate::proofs::Blocks::again_read))]
    fn again(&mut self, alloc: Global, spot: Spot, block: &mut Block) -> Result<(), Stop>
        ensures goes { Consumes result self.old self.new (λ k. AgainName (place_of_spot self.old spot) ∷ k) (λ x k. k) }
        ensures read { OnOk result (TakesSome self.old self.new (Is Sign.Continue ∷ [])
            (statements block.old) (statements block.new)) }
    {
        let Some((Lexeme::Word(bytes), after)) = self.next() else {
            return Err(Stop::Refused(Fault::Token));
        };
        if !holds(bytes, self.recs.as_slice()) {
            return Err(Stop::Refused(Fault::NoName));
        }
        self.go_to(after);
        self.expect(Sign::Semicolon)?;
        let name = Name::of(alloc, bytes)?;
        Ok(block.push(Stmt::Continue { name })?)
    }

    // Takes the brace that begins a block.
    fn open(&mut self, spot: Spot) -> Result<(), Stop>
        ensures goes { Takes result self.old self.new (λ k. Opening (place_of_spot self.old spot) ∷ k)
            (λ x k. First (inside (place_of_spot self.old spot)) ∷ k) }
        ensures read { OnOk result ((self.old ≡ at self.new (Is Sign.Open ∷ self.new.rest)) × (spot.depth < 32)) }
    {
        let Some((Lexeme::Is(Sign::Open), after)) = self.next() else {
            return Err(Stop::Refused(Fault::Token));
        };
        if spot.depth >= 32 {
            return Err(Stop::Refused(Fault::Deep));
        }
        self.go_to(after);
        Ok(())
    }

    // What speaks against what is next after a `continue`.
    fn ended_fault(&self) -> Fault
        ensures { (p : Place) (k : List Item) → p.ended ≡ true
            → answers self.now (First p ∷ k) ≡ Refuses result self.now.rest }
    {
        match self.next() {
            Some((Lexeme::Word(_), _)) => Fault::AfterContinue,
            Some(
                (Lexeme::Is(Sign::Choice | Sign::Rec | Sign::Continue | Sign::Par | Sign::Do), _),
            ) => { Fault::AfterContinue }
            _ => Fault::Token,
        }
    }

    // Whether the name of a recursion is next, and a walk comes here from the start of its body without a message.
    fn is_unguarded(&self, spot: Spot, after: &Ahead<'a, Sign>) -> bool
        requires { spot.comes ≤ length self.now.recs }
        ensures { result ≡ is_open (place_of_spot self.now spot) after.now }
    {
        let Some((name, _)) = after.word() else {
            return false;
        };
        let recs = self.recs.as_slice();
        holds(name, &recs[recs.len() - spot.comes..])
    }

    // Takes the name of a recursion, and enters its body.
    fn enter(&mut self, alloc: Global, spot: Spot) -> Result<(), Stop>
        ensures goes { Takes result self.old self.new (λ k. RecName (place_of_spot self.old spot) ∷ k)
            (λ x k. Opening (place_at self.new.recs spot.depth (spot.comes + 1) false
            (named_in self.new.roles spot.earlier.0)) ∷ k) }
        ensures read { OnOk result ((n : List ℕ) × (self.old ≡ at self.old (Word n ∷ self.new.rest))
            × (self.new ≡ within (at self.old self.new.rest) (self.old.recs ++ n ∷ []))) }
        ensures room { OnOk result (length self.new.recs < 2 ^ 63) }
    {
        let Some((Lexeme::Word(name), after)) = self.next() else {
            return Err(Stop::Refused(Fault::Token));
        };
        let Ok(_) = self.recs.push(Name::of(alloc, name)?) else {
            return Err(Stop::Memory);
        };
        self.go_to(after);
        Ok(())
    }

    // Leaves the body of the innermost recursion, and hands out its name.
    fn leave(&mut self) -> Name
        requires { 0 < length self.old.recs }
        ensures { (recs : List (List ℕ)) (name : List ℕ) → self.old.recs ≡ recs ++ name ∷ []
            → (self.new ≡ within self.old recs) × (result ≡ name) }
    {
        self.recs.pop().unwrap()
    }

    // Takes a recursion, once its word is taken.
    #[cycle(descent)]
    fn recursion(&mut self, alloc: Global, spot: Spot, block: &mut Block) -> Result<(), Stop>
        requires comes { spot.comes ≤ length self.old.recs }
        ensures goes { Consumes result self.old self.new (λ k. RecName (place_of_spot self.old spot) ∷ k) (λ x k. k) }
        ensures read { OnOk result (TakesSome self.old self.new (Is Sign.Rec ∷ [])
            (statements block.old) (statements block.new)) }
    {
        self.enter(alloc, spot)?;
        let inner = Spot {
            depth: spot.depth,
            comes: spot.comes + 1,
            ended: false,
            earlier: spot.earlier,
        };
        let body = self.block(alloc, inner)?;
        let name = self.leave();
        Ok(block.push(Stmt::Rec { name, body })?)
    }

    // Takes a choice, once its word is taken.
    #[cycle(descent)]
    fn choice(&mut self, alloc: Global, spot: Spot, block: &mut Block) -> Result<(), Stop>
        requires comes { spot.comes ≤ length self.old.recs }
        ensures goes { let p = place_of_spot self.old spot in
            Consumes result self.old self.new (λ k. This (Is Sign.At) ∷ Subject p.earlier ∷ Opening p ∷ More p ∷ k)
            (λ x k. Rest (after_statement (place_of_spot self.new spot) false) ∷ k) }
        ensures read { OnOk result (TakesSome self.old self.new (Is Sign.Choice ∷ [])
            (statements block.old) (statements block.new)) }
    {
        let subject = self.role(Sign::At, spot.earlier)?;
        let mut branches = Blocks::new(alloc);
        loop {
            branches.push(self.block(alloc, spot)?)?;
            if !self.takes(Sign::Or) {
                break;
            }
        }
        Ok(block.push(Stmt::Choice { subject, branches })?)
    }

    // Whether no `par` may stand here: another block is open in the protocol's own, or this isn't the first protocol.
    fn is_inner(&self, spot: Spot) -> bool
        ensures { result ≡ (nat_le 2 spot.depth || nat_le 2 (length self.now.protocols)) }
    {
        spot.depth >= 2 || self.protocols.as_slice().len() >= 2
    }

    // Goes on after the word `par`: no role is named since.
    fn begin_par(&mut self, after: Ahead<'a, Sign>)
        ensures { self.new ≡ back_at self.old self.old.count 0 after.entry }
    {
        self.since = RoleSet(0);
        self.rest = after;
    }

    // Takes a par, once its word is taken. No two of its blocks name the same role.
    #[cycle(descent)]
    fn par(&mut self, alloc: Global, spot: Spot, block: &mut Block) -> Result<(), Stop>
        ensures goes { let p = place_of_spot self.old spot in
            Consumes result self.old self.new (λ k. Lane p ∷ This (Is Sign.And) ∷ Lane p ∷ Later p ∷ k)
            (λ x k. Rest (after_statement (place_of_spot self.new spot) false) ∷ k) }
        ensures read { OnOk result (TakesSome self.old self.new (Is Sign.Par ∷ [])
            (statements block.old) (statements block.new)) }
    {
        let mut blocks = Blocks::new(alloc);
        blocks.push(self.lane(alloc, spot)?)?;
        self.expect(Sign::And)?;
        loop {
            blocks.push(self.lane(alloc, spot)?)?;
            if !self.takes(Sign::And) {
                break;
            }
        }
        Ok(block.push(Stmt::Par { blocks })?)
    }

    // Takes a block of a par. Those before it name the roles that are named since the word.
    #[cycle(descent)]
    fn lane(&mut self, alloc: Global, spot: Spot) -> Result<Block, Stop>
        ensures goes { Consumes result self.old self.new (λ k. Lane (place_of_spot self.old spot) ∷ k) (λ x k. k) }
        ensures read { IfOk result (λ b. TakesBlock self.old self.new b) }
    {
        self.block(alloc, spot.beside(self.since))
    }

    // Takes a block of at least one statement, with its braces.
    #[cycle(descent)]
    fn block(&mut self, alloc: Global, spot: Spot) -> Result<Block, Stop>
        requires comes { spot.comes ≤ length self.old.recs }
        ensures goes { Consumes result self.old self.new (λ k. Opening (place_of_spot self.old spot) ∷ k) (λ x k. k) }
        ensures read { IfOk result (λ b. TakesBlock self.old self.new b) }
    {
        self.open(spot)?;
        let mut here = spot;
        here.depth += 1;
        here.ended = false;
        let mut block = Block::new(alloc);
        self.stmt(alloc, &mut here, &mut block)?;
        self.stmts(alloc, here, &mut block)?;
        Ok(block)
    }

    /// Takes the other statements of a block, and its last brace.
    #[cycle(descent)]
    #[tactic(auto, using(crate::proofs::Blocks::no_stmts))]
    pub fn stmts(&mut self, alloc: Global, spot: Spot, block: &mut Block) -> Result<(), Stop>
        requires comes { spot.comes ≤ length self.old.recs }
        ensures goes { Consumes result self.old self.new (λ k. Rest (place_of_spot self.old spot) ∷ k) (λ x k. k) }
        ensures read { OnOk result (TakesAll self.old self.new (statements block.old) (statements block.new)) }
    {
        let mut here = spot;
        while !self.takes(Sign::Close) {
            self.stmt(alloc, &mut here, block)?;
        }
        Ok(())
    }

    // Takes a statement at this place, which becomes the place after it.
    #[cycle(descent)]
    fn stmt(&mut self, alloc: Global, spot: &mut Spot, block: &mut Block) -> Result<(), Stop>
        requires comes { spot.old.comes ≤ length self.old.recs }
        ensures goes { Consumes result self.old self.new (λ k. First (place_of_spot self.old spot.old) ∷ k)
            (λ x k. Rest (place_of_spot self.new spot.new) ∷ k) }
        ensures read { OnOk result (TakesSome self.old self.new [] (statements block.old) (statements block.new)) }
        ensures start { spot.new.comes ≡ 0 }
    {
        let here = *spot;
        spot.comes = 0;
        if here.ended {
            return Err(Stop::Refused(self.ended_fault()));
        }
        match self.next() {
            Some((Lexeme::Word(label), after)) => {
                self.go_to(after);
                self.message(alloc, here.earlier, label, block)
            }
            Some((Lexeme::Is(Sign::Choice), after)) => {
                self.go_to(after);
                self.choice(alloc, here, block)
            }
            Some((Lexeme::Is(Sign::Rec), after)) => {
                self.go_to(after);
                self.recursion(alloc, here, block)
            }
            Some((Lexeme::Is(Sign::Continue), after)) => {
                if self.is_unguarded(here, &after) {
                    return Err(Stop::Refused(Fault::Unguarded));
                }
                self.go_to(after);
                spot.ended = true;
                self.again(alloc, here, block)
            }
            Some((Lexeme::Is(Sign::Par), after)) => {
                if self.is_inner(here) {
                    return Err(Stop::Refused(Fault::NotYet));
                }
                self.begin_par(after);
                self.par(alloc, here, block)
            }
            Some((Lexeme::Is(Sign::Do), after)) => {
                self.go_to(after);
                self.call(alloc, here.earlier, block)
            }
            _ => Err(Stop::Refused(Fault::Token)),
        }
    }
}
