// A parser over the tokens of a module: what is next, and the names that stand before the statements.

ghost use Rattle.std.specs.Prelude.{◌≡◌, ◌<◌, ◌∷◌, ◌≢◌, [], length, ℕ, List};
ghost use Rattle.std.specs.Prelude.{All, IfSome, IfNone, OnOk, IfOk, true, false, Some};
ghost use Rattle.rcv_tree.specs.Names.{place_of};
ghost use Rattle.rcv_lexer.specs.Parts.{LiesIn};
ghost use Rattle.rcv_lexer.specs.Symbols.{symbol_in};
ghost use Rattle.rcv_syntax.specs.Symbols.{Symbol, Is, Word, symbols_of};
ghost use Rattle.rcv_syntax.specs.Codes.{is_among};
ghost use Rattle.rcv_machine.specs.Machine.{Item, This, AnyName, RoleName, MoreRoles};
ghost use Rattle.rcv_machine.specs.Machine.{ProtocolName, MoreProtocols, Rest, beside, outermost};
ghost use Rattle.rcv_reader.specs.Standing.{Standing, IsSmall, IsOver, at, afresh, named_in};
ghost use Rattle.rcv_reader.specs.Descent.{AddsName, AddsProtocol, Takes, Consumes};
ghost use Rattle.rcv_reader.specs.Descent.{IsNameList, place_of_spot, at_first};

mod blocks;
mod messages;

use crate::stop::Stop;
use rcv_lexer::token::Token;
use rcv_lexer::{Ahead, Lexeme};
use rcv_syntax::{Fault, Sign};
use rcv_tree::name::{Name, Names};
use rcv_tree::role::RoleSet;
use std::alloc::Global;
use std::marker::Model;
use std::mem;

/// A place in a block: how many blocks are open, for how many of the innermost recursions a walk comes from the start
/// of their body without a message, whether a `continue` of this block stands before, and, in a block of a `par`, the
/// roles that its earlier blocks name.
#[derive(Clone, Copy)]
pub struct Spot {
    pub depth: u32,
    pub comes: usize,
    pub ended: bool,
    pub earlier: RoleSet,
}

impl Spot {
    // The same for a block of a `par`. The blocks before it name these roles.
    fn beside(self, earlier: RoleSet) -> Spot
        ensures place { (p : Standing) → place_of_spot p result
            ≡ beside (place_of_spot p self) (named_in p.roles earlier.0) }
        ensures start { result.comes ≡ 0 }
    {
        Spot {
            depth: self.depth,
            comes: 0,
            ended: false,
            earlier,
        }
    }
}

/// What is left to read, and what is known from before: the names of the protocols. Of the protocol that is being read
/// these are known: the roles, the names of the enclosing recursions with the innermost last, the number of points, and
/// the roles that are named since the last `par` began.
#[derive(Drop)]
pub struct Parser<'a> {
    rest: Ahead<'a, Sign>,
    protocols: Names,
    roles: Names,
    recs: Vec<Name>,
    count: u16,
    since: RoleSet,
}

impl<'a> Model for Parser<'a> {
    ghost use Rattle.std.specs.Prelude.{length};
    ghost use Rattle.rcv_reader.specs.Standing.{Standing, IsSmall};

    ghost Value = { Standing };

    ghost view = { λ a. record {
      protocols = a.protocols;
      roles = a.roles;
      recs = a.recs.items;
      count = a.count;
      since = a.since.0;
      rest = a.rest;
    } };

    ghost invariant = { λ a. IsSmall (length a.protocols) (length a.roles) a.count };
}

// Whether the name is one of these.
fn holds(name: &[u8], names: &[Name]) -> bool
    ensures { result ≡ is_among name.now names.now }
{
    names.iter().any(|other| name == other.as_slice())
}

impl<'a> Parser<'a> {
    /// All these tokens, and nothing known.
    pub fn new(alloc: Global, bundle: &'a [u8], list: &'a [Token]) -> Self
        requires { All (λ t. LiesIn bundle.now t.span) list.now }
        ensures { result ≡ at_first (symbols_of bundle.now list.now) }
    {
        Parser {
            rest: Ahead::new(bundle, list),
            protocols: Names::new(alloc),
            roles: Names::new(alloc),
            recs: Vec::new(alloc),
            count: 0,
            since: RoleSet(0),
        }
    }

    /// How many tokens are left.
    pub fn left(&self) -> usize
        ensures { result ≡ length self.now.rest }
    {
        self.rest.len()
    }

    /// What the next token says, and what is left after it.
    pub fn next(&self) -> Option<(Lexeme<'a, Sign>, Ahead<'a, Sign>)>
        ensures some { IfSome result (λ r. self.now ≡ at self.now (symbol_in r.0 ∷ r.1)) }
        ensures none { IfNone result (self.now.rest ≡ []) }
    {
        self.rest.next()
    }

    /// Goes on in front of these.
    pub fn go_to(&mut self, after: Ahead<'a, Sign>)
        ensures there { self.new ≡ at self.old after.entry }
        ensures taken { (t : Symbol) → self.old ≡ at self.old (t ∷ after.entry)
            → self.old ≡ at self.new (t ∷ self.new.rest) }
    {
        self.rest = after;
    }

    /// Takes this word or mark if it is next.
    #[tactic(auto, using(crate::proofs::Stops::is_over))]
    pub fn takes(&mut self, sign: Sign) -> bool
        ensures yes { result ≡ true → self.old ≡ at self.new (Is sign ∷ self.new.rest) }
        ensures no { result ≡ false → (self.old ≡ self.new) × IsOver sign self.new }
    {
        let Some(after) = self.rest.sign(sign) else {
            return false;
        };
        self.go_to(after);
        true
    }

    /// Takes this word or mark.
    pub fn expect(&mut self, sign: Sign) -> Result<(), Stop>
        ensures goes { Takes result self.old self.new (λ k. This (Is sign) ∷ k) (λ x k. k) }
        ensures read { OnOk result (self.old ≡ at self.new (Is sign ∷ self.new.rest)) }
    {
        if !self.takes(sign) {
            return Err(Stop::Refused(Fault::Token));
        }
        Ok(())
    }

    /// Takes any name.
    pub fn name(&mut self) -> Result<&'a [u8], Stop>
        ensures goes { Takes result self.old self.new (λ k. AnyName ∷ k) (λ x k. k) }
        ensures read { IfOk result (λ n. self.old ≡ at self.new (Word n.now ∷ self.new.rest)) }
    {
        let Some((Lexeme::Word(name), after)) = self.next() else {
            return Err(Stop::Refused(Fault::Token));
        };
        self.go_to(after);
        Ok(name)
    }

    /// Takes this word or mark, and the name after it.
    pub fn name_behind(&mut self, sign: Sign) -> Result<&'a [u8], Stop>
        ensures goes { Takes result self.old self.new (λ k. This (Is sign) ∷ AnyName ∷ k) (λ x k. k) }
        ensures read { IfOk result (λ n. self.old ≡ at self.new (Is sign ∷ Word n.now ∷ self.new.rest)) }
    {
        self.expect(sign)?;
        self.name()
    }

    /// Takes names with a sign between two, and the sign after them.
    #[tactic(auto, using(crate::proofs::Reading::names_first))]
    pub fn names(&mut self, alloc: Global, between: Sign, behind: Sign) -> Result<Names, Stop>
        ensures goes { (more : Item) (spell : List (List ℕ) → List Symbol → List Symbol)
            → IsNameList between behind more spell → Consumes result self.old self.new (λ k. AnyName ∷ more ∷ k) (λ x k. k) }
        ensures some { IfOk result (λ names. names ≢ []) }
        ensures read { (more : Item) (spell : List (List ℕ) → List Symbol → List Symbol)
            → IsNameList between behind more spell
            → IfOk result (λ names. self.old ≡ at self.new (spell names (Is behind ∷ self.new.rest))) }
    {
        let mut names = Names::new(alloc);
        loop {
            names.push(Name::of(alloc, self.name()?)?)?;
            if !self.takes(between) {
                self.expect(behind)?;
                return Ok(names);
            }
        }
    }

    /// Takes the name of one more role.
    pub fn add_role(&mut self, alloc: Global) -> Result<(), Stop>
        requires none { self.old.since ≡ 0 }
        ensures goes { Takes result self.old self.new (λ k. RoleName ∷ k) (λ x k. MoreRoles ∷ k) }
        ensures read { OnOk result (AddsName self.old self.new) }
    {
        let Some((Lexeme::Word(bytes), after)) = self.next() else {
            return Err(Stop::Refused(Fault::Token));
        };
        if holds(bytes, self.roles.as_slice()) {
            return Err(Stop::Refused(Fault::Twice));
        }
        if self.roles.as_slice().len() >= 8 {
            return Err(Stop::Refused(Fault::TooMany));
        }
        self.roles.push(Name::of(alloc, bytes)?)?;
        self.go_to(after);
        Ok(())
    }

    /// Takes the name of one more protocol.
    pub fn add_protocol(&mut self, alloc: Global) -> Result<Name, Stop>
        ensures goes { Takes result self.old self.new (λ k. ProtocolName ∷ k) (λ n k. This (Is Sign.Left)
            ∷ This (Is Sign.Role) ∷ RoleName ∷ This (Is Sign.Open) ∷ Rest outermost ∷ MoreProtocols ∷ k) }
        ensures read { IfOk result (AddsProtocol self.old self.new) }
    {
        let Some((Lexeme::Word(bytes), after)) = self.next() else {
            return Err(Stop::Refused(Fault::Token));
        };
        if holds(bytes, self.protocols.as_slice()) {
            return Err(Stop::Refused(Fault::Twice));
        }
        if self.protocols.as_slice().len() >= 64 {
            return Err(Stop::Refused(Fault::TooMany));
        }
        let name = Name::of(alloc, bytes)?;
        self.protocols.push(Name::of(alloc, bytes)?)?;
        self.go_to(after);
        Ok(name)
    }

    /// Hands out the roles, and forgets what else is known of this protocol, except for its name.
    pub fn begin_anew(&mut self, alloc: Global) -> Names
        requires none { self.old.recs ≡ [] }
        ensures is { result ≡ self.old.roles }
        ensures small { IsSmall (length self.old.protocols) (length self.old.roles) self.old.count }
        ensures anew { self.new ≡ afresh self.old.protocols self.old.rest }
    {
        self.count = 0;
        self.since = RoleSet(0);
        mem::replace(&mut self.roles, Names::new(alloc))
    }

    // The place of the role with this name.
    fn place_of(&self, name: &[u8]) -> Option<usize>
        ensures is { result ≡ place_of self.now.roles name.now }
        ensures few { IfSome result (λ place. place < 8) }
    {
        self.roles.place_of(name)
    }
}
