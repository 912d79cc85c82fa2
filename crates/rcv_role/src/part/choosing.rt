// What a role does next: which points are offered to it, and the event of one of them.

ghost use Rattle.std.specs.Prelude.{◌≡◌, ◌≢◌, ◌+◌, ◌^◌, ◌<◌, ◌≤◌, ◌↔◌, [], false, IsTrue, MatchOption};
ghost use Rattle.rcv_model.specs.Net.{IsIn};
ghost use Rattle.rcv_model.specs.Journal.{MayOwnRecv, IsOwnDue};
ghost use Rattle.rcv_session.specs.Session.{net_for, rules_of};
ghost use Rattle.rcv_role.specs.Part.{IsNextSend, IsRecvOf, Offers, AllSends, AllRecvs, IsBelow};

use crate::part::Part;
use rcv_tree::event::{Event, Message};
use rcv_tree::point::Point;
use rcv_tree::role::RoleId;

impl<'a> Part<'a> {
    /// Whether a crash line of the role, which isn't crashed, has come.
    pub fn due(&self) -> bool
        requires { self.now.own.numbers.crashed ≡ false }
        ensures { IsTrue result ↔ IsOwnDue (rules_of self.now.setup) self.now.role self.now.own }
    {
        self.setup
            .plan()
            .due(self.role, self.numbers.raw, self.numbers.crashes)
    }

    /// Whether the role makes no more steps: it has made as many as the limit allows, or its clock has come too far.
    pub fn is_tired(&self) -> bool
        ensures { IsTrue result ↔ (IsBelow self.now → ⊥) }
    {
        !(self.numbers.raw < self.setup.limit() && self.numbers.clock < 1 << 62)
    }

    /// The next points of a role that isn't crashed, ascending.
    pub fn offered(&self) -> &'a [Point]
        requires { self.now.own.numbers.crashed ≡ false }
        ensures { Offers self.now result.now }
    {
        let setup = self.setup;
        setup.next(self.role, self.tail.top().k)
    }

    /// The role from which this role receives at all next points, the first of them being this one. None if all are
    /// sends.
    pub fn partner(&self, offered: &[Point], first: Point) -> Option<RoleId>
        requires offers { Offers self.now offered.now }
        requires among { IsIn first offered.now }
        ensures { MatchOption result (AllSends self.now offered.now) (λ from. AllRecvs self.now offered.now from) }
    {
        let sender = self.setup.sender(first);
        if sender == self.role {
            None
        } else {
            Some(sender)
        }
    }

    /// The role that receives at a point of the text.
    pub fn receiver(&self, point: Point) -> RoleId
        requires first { 1 ≤ point }
        requires last { point ≤ (net_for self.now.setup).count }
        ensures { result ≡ (net_for self.now.setup).receiver point }
    {
        self.setup.receiver(point)
    }

    /// The Send that the role makes if all its next points are its sends. The role asks its script for it once, and
    /// remembers the Send until it makes a step or goes back.
    pub fn sent(&mut self, offered: &[Point]) -> Event
        requires running { self.old.own.numbers.crashed ≡ false }
        requires calm { IsOwnDue (rules_of self.old.setup) self.old.role self.old.own → ⊥ }
        requires offers { Offers self.old offered.now }
        requires some { offered.now ≢ [] }
        requires sends { AllSends self.old offered.now }
        requires below { IsBelow self.old }
        ensures same { self.new ≡ self.old }
        ensures next { IsNextSend self.old.setup self.old.role self.old.own result }
    {
        if let Some(event) = self.chosen {
            return event;
        }
        let event = self.choose(offered);
        self.remember(&event);
        event
    }

    fn remember(&mut self, event: &Event)
        requires { IsNextSend self.old.setup self.old.role self.old.own event.now }
        ensures { self.new ≡ self.old }
    {
        self.chosen = Some(*event);
    }

    // The Send that the role's script chooses.
    fn choose(&self, offered: &[Point]) -> Event
        requires running { self.now.own.numbers.crashed ≡ false }
        requires calm { IsOwnDue (rules_of self.now.setup) self.now.role self.now.own → ⊥ }
        requires offers { Offers self.now offered.now }
        requires some { offered.now ≢ [] }
        requires sends { AllSends self.now offered.now }
        requires below { IsBelow self.now }
        ensures { IsNextSend self.now.setup self.now.role self.now.own result }
    {
        let state = self.tail.top();
        let point = self
            .setup
            .choose(self.role, &state.vars, self.numbers.attempt, offered);
        let value = self
            .setup
            .value(self.role, &state.vars, self.numbers.attempt, point);
        Event::send(self.role, point, value, self.numbers.clock + 1)
    }

    /// The Recv of a message from the role from which this role receives at all next points.
    pub fn got(&self, offered: &[Point], from: RoleId, message: &Message) -> Event
        requires running { self.now.own.numbers.crashed ≡ false }
        requires calm { IsOwnDue (rules_of self.now.setup) self.now.role self.now.own → ⊥ }
        requires offers { Offers self.now offered.now }
        requires some { offered.now ≢ [] }
        requires receives { AllRecvs self.now offered.now from }
        requires below { IsBelow self.now }
        requires sender { (net_for self.now.setup).sender message.now.point ≡ from }
        requires stamp { message.now.stamp ≤ 2 ^ 62 }
        ensures may { MayOwnRecv (rules_of self.now.setup) self.now.own result }
        ensures of { IsRecvOf self.now message.now result }
    {
        let _setup = self.setup;
        let stamp = self.numbers.clock.max(message.stamp) + 1;
        Event::recv(self.role, message, stamp)
    }
}
