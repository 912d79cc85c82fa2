// Messages and calls: one receiver or argument after another.

ghost use Rattle.std.specs.Prelude.{◌≡◌, ◌≤◌, ◌-◌, ◌++◌, ◌∷◌, [], length, ℕ, List};
ghost use Rattle.std.specs.Prelude.{OnOk, IfOk, Some};
ghost use Rattle.rcv_tree.specs.Lists.{statements};
ghost use Rattle.rcv_tree.specs.Names.{place_of};
ghost use Rattle.rcv_syntax.specs.Symbols.{Is, Word};
ghost use Rattle.rcv_syntax.specs.Grammar.{sort_list};
ghost use Rattle.rcv_syntax.specs.Trees.{is_listed};
ghost use Rattle.rcv_machine.specs.Machine.{This, AnyName, Sorts, Subject};
ghost use Rattle.rcv_machine.specs.Machine.{Sender, Receiver, MoreReceivers};
ghost use Rattle.rcv_machine.specs.Machine.{Argument, MoreArguments};
ghost use Rattle.rcv_reader.specs.Standing.{at, back_at, named_in};
ghost use Rattle.rcv_reader.specs.Descent.{IsReceived, AreReceived, IsGiven, AreArguments, messages};
ghost use Rattle.rcv_reader.specs.Descent.{Takes, Consumes, TakesSome};

use crate::parser::Parser;
use crate::stop::Stop;
use rcv_lexer::Lexeme;
use rcv_syntax::{Fault, Sign};
use rcv_tree::name::{Name, Names};
use rcv_tree::point::Point;
use rcv_tree::role::{RoleId, RoleSet, Roles};
use rcv_tree::statement::{Block, Stmt};
use std::alloc::{AllocError, Global};

// Whether the role is one of these.
fn is_listed(role: RoleId, before: &[RoleId]) -> bool
    ensures { result ≡ is_listed role before.now }
{
    before.iter().any(|other| role == *other)
}

// Adds a message for each of these receivers. With the last one there are so many points in all. The messages share
// the sorts.
fn add_messages(
    alloc: Global,
    label: &[u8],
    sorts: &Names,
    sender: RoleId,
    receivers: &[RoleId],
    points: u16,
    block: &mut Block,
) -> Result<(), AllocError>
    requires few { (length receivers.now ≤ points) × (points ≤ 256) }
    ensures { OnOk result (statements block.new ≡ statements block.old
        ++ messages label.now sorts.now sender receivers.now (points - length receivers.now)) }
{
    let mut point = points - receivers.len() as u16;
    for receiver in receivers {
        point += 1;
        let sorts = sorts.share()?;
        block.push(Stmt::Message {
            label: Name::of(alloc, label)?,
            sorts,
            sender,
            receiver: *receiver,
            point: Point(point),
        })?;
    }
    Ok(())
}

impl<'a> Parser<'a> {
    /// Takes this word, and the name of a role after it, which isn't one of the earlier ones: the subject of a choice,
    /// or a sender.
    pub fn role(&mut self, sign: Sign, earlier: RoleSet) -> Result<RoleId, Stop>
        ensures subject { Takes result self.old self.new
            (λ k. This (Is sign) ∷ Subject (named_in self.old.roles earlier.0) ∷ k) (λ r k. k) }
        ensures sender { Takes result self.old self.new
            (λ k. This (Is sign) ∷ Sender (named_in self.old.roles earlier.0) ∷ k)
            (λ r k. This (Is Sign.To) ∷ Receiver (named_in self.old.roles earlier.0) r [] ∷ k) }
        ensures read { IfOk result (λ r. (n : List ℕ) × (place_of self.new.roles n ≡ Some r)
            × (self.old ≡ back_at self.new self.new.count self.old.since (Is sign ∷ Word n ∷ self.new.rest))) }
    {
        self.expect(sign)?;
        let Some((Lexeme::Word(bytes), after)) = self.next() else {
            return Err(Stop::Refused(Fault::Token));
        };
        let Some(place) = self.place_of(bytes) else {
            return Err(Stop::Refused(Fault::NoName));
        };
        let role = RoleId(place as u8);
        if earlier.has(role) {
            return Err(Stop::Refused(Fault::Shared));
        }
        self.since = self.since.with(role);
        self.go_to(after);
        Ok(role)
    }

    // Takes sorts, and the parenthesis after them.
    #[tactic(auto, using(crate::proofs::Stops::goes_on, crate::proofs::Reading::sorts_are_listed))]
    fn sorts(&mut self, alloc: Global) -> Result<Names, Stop>
        ensures goes { Consumes result self.old self.new (λ k. Sorts ∷ k) (λ x k. k) }
        ensures read { IfOk result (λ sorts. self.old ≡ at self.new (sort_list sorts (Is Sign.Right ∷ self.new.rest))) }
    {
        if self.takes(Sign::Right) {
            return Ok(Names::new(alloc));
        }
        self.names(alloc, Sign::Comma, Sign::Right)
    }

    // Takes one more receiver of a message, which makes a point and isn't one of the earlier ones.
    fn add_receiver(
        &mut self,
        earlier: RoleSet,
        sender: RoleId,
        receivers: &mut Roles,
    ) -> Result<(), Stop>
        ensures goes { Takes result self.old self.new
            (λ k. Receiver (named_in self.old.roles earlier.0) sender receivers.old ∷ k)
            (λ x k. MoreReceivers (named_in self.old.roles earlier.0) sender receivers.new ∷ k) }
        ensures read { OnOk result ((r : ℕ) × IsReceived self.old self.new sender receivers.old r
            × (receivers.new ≡ receivers.old ++ r ∷ [])) }
    {
        let Some((Lexeme::Word(bytes), after)) = self.next() else {
            return Err(Stop::Refused(Fault::Token));
        };
        let Some(place) = self.place_of(bytes) else {
            return Err(Stop::Refused(Fault::NoName));
        };
        let receiver = RoleId(place as u8);
        if is_listed(receiver, receivers.as_slice()) {
            return Err(Stop::Refused(Fault::Twice));
        }
        if receiver == sender {
            return Err(Stop::Refused(Fault::SelfMessage));
        }
        if self.count >= 256 {
            return Err(Stop::Refused(Fault::TooMany));
        }
        if earlier.has(receiver) {
            return Err(Stop::Refused(Fault::Shared));
        }
        receivers.push(receiver)?;
        self.count += 1;
        self.since = self.since.with(receiver);
        self.go_to(after);
        Ok(())
    }

    // Takes all receivers of a message, and the mark after them.
    #[tactic(auto, using(crate::proofs::Reading::receivers_first))]
    fn receivers(&mut self, alloc: Global, earlier: RoleSet, sender: RoleId) -> Result<Roles, Stop>
        ensures goes { Consumes result self.old self.new
            (λ k. Receiver (named_in self.old.roles earlier.0) sender [] ∷ k) (λ x k. k) }
        ensures read { IfOk result (AreReceived self.old (at self.new (Is Sign.Semicolon ∷ self.new.rest)) sender) }
    {
        let mut receivers = Roles::new(alloc);
        self.add_receiver(earlier, sender, &mut receivers)?;
        while self.takes(Sign::Comma) {
            self.add_receiver(earlier, sender, &mut receivers)?;
        }
        self.expect(Sign::Semicolon)?;
        Ok(receivers)
    }

    /// Takes a message, once its label is taken.
    pub fn message(
        &mut self,
        alloc: Global,
        earlier: RoleSet,
        label: &[u8],
        block: &mut Block,
    ) -> Result<(), Stop>
        ensures goes { Consumes result self.old self.new
            (λ k. This (Is Sign.Left) ∷ Sorts ∷ This (Is Sign.From)
            ∷ Sender (named_in self.old.roles earlier.0) ∷ k) (λ x k. k) }
        ensures read { OnOk result (TakesSome self.old self.new (Word label.now ∷ [])
            (statements block.old) (statements block.new)) }
    {
        self.expect(Sign::Left)?;
        let sorts = self.sorts(alloc)?;
        let sender = self.role(Sign::From, earlier)?;
        self.expect(Sign::To)?;
        let receivers = self.receivers(alloc, earlier, sender)?;
        let list = receivers.as_slice();
        Ok(add_messages(alloc, label, &sorts, sender, list, self.count, block)?)
    }

    // Takes one more argument of a call, which isn't one of the earlier roles.
    fn add_argument(&mut self, earlier: RoleSet, arguments: &mut Roles) -> Result<(), Stop>
        ensures goes { Takes result self.old self.new
            (λ k. Argument (named_in self.old.roles earlier.0) arguments.old ∷ k)
            (λ x k. MoreArguments (named_in self.old.roles earlier.0) arguments.new ∷ k) }
        ensures read { OnOk result ((r : ℕ) × IsGiven self.old self.new arguments.old r
            × (arguments.new ≡ arguments.old ++ r ∷ [])) }
    {
        let Some((Lexeme::Word(bytes), after)) = self.next() else {
            return Err(Stop::Refused(Fault::Token));
        };
        let Some(place) = self.place_of(bytes) else {
            return Err(Stop::Refused(Fault::NoName));
        };
        let argument = RoleId(place as u8);
        if is_listed(argument, arguments.as_slice()) {
            return Err(Stop::Refused(Fault::Twice));
        }
        if earlier.has(argument) {
            return Err(Stop::Refused(Fault::Shared));
        }
        arguments.push(argument)?;
        self.since = self.since.with(argument);
        self.go_to(after);
        Ok(())
    }

    // Takes all arguments of a call, and the parenthesis after them.
    #[tactic(auto, using(crate::proofs::Calling::arguments_first))]
    fn arguments(&mut self, alloc: Global, earlier: RoleSet) -> Result<Roles, Stop>
        ensures goes { Consumes result self.old self.new
            (λ k. Argument (named_in self.old.roles earlier.0) [] ∷ k) (λ x k. k) }
        ensures read { IfOk result (AreArguments self.old (at self.new (Is Sign.Right ∷ self.new.rest))) }
    {
        let mut arguments = Roles::new(alloc);
        self.add_argument(earlier, &mut arguments)?;
        while self.takes(Sign::Comma) {
            self.add_argument(earlier, &mut arguments)?;
        }
        self.expect(Sign::Right)?;
        Ok(arguments)
    }

    /// Takes a call, once its word is taken.
    pub fn call(&mut self, alloc: Global, earlier: RoleSet, block: &mut Block) -> Result<(), Stop>
        ensures goes { Consumes result self.old self.new (λ k. AnyName ∷ This (Is Sign.Left)
            ∷ Argument (named_in self.old.roles earlier.0) [] ∷ This (Is Sign.Semicolon) ∷ k) (λ x k. k) }
        ensures read { OnOk result (TakesSome self.old self.new (Is Sign.Do ∷ [])
            (statements block.old) (statements block.new)) }
    {
        let name = self.name()?;
        self.expect(Sign::Left)?;
        let roles = self.arguments(alloc, earlier)?;
        self.expect(Sign::Semicolon)?;
        let protocol = Name::of(alloc, name)?;
        Ok(block.push(Stmt::Do { protocol, roles })?)
    }
}
