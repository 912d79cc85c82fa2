// A cell: a role's part with the ends of its channels, which it polls.

ghost use Rattle.std.specs.Prelude.{◌≡◌, ◌≢◌, ◌+◌, ◌<◌, ◌≤◌, [], false, length, take, IfOk, IfSome, IsSome};
ghost use Rattle.rcv_model.specs.Journal.{IsOwnDue};
ghost use Rattle.rcv_session.specs.Session.{roles_of, rules_of};
ghost use Rattle.rcv_core.specs.Setup.{vars_by};
ghost use Rattle.rcv_role.specs.Part.{Offers, AllSends, AllRecvs, IsBelow, HasNoStrangers, HoldsStates, first_part};
ghost use Rattle.rcv_role.specs.Ends.{AreEnds, AreFresh, slot};
ghost use Rattle.rcv_role.specs.Cell.{CellView, cell_of, IsSettled, Goes, AreJoined, HaveMet, IsThere, without_log};
ghost use Rattle.rcv_role.specs.Poll.{Polled};

mod going_back;
mod run;

use crate::ends::{meet_at, receive_from, send_to, slot};
use crate::part::Part;
use crate::poll::Poll;
use rcv_core::setup::Setup;
use rcv_mailbox::{Inbox, Post};
use rcv_tree::entry::Timed;
use rcv_tree::point::Point;
use rcv_tree::role::RoleId;
use rcv_tree::variables::Vars;
use std::alloc::{AllocError, Global};
use std::marker::Model;

/// How many entries a log can hold: a round may be 1,024 steps of a role, and one step more may come before the log is
/// cleared.
pub const LOG: usize = 1_025;

/// A role of a session with a post to each other role and an inbox from each. Contracts see its part, which is its own
/// events and numbers with its log, and its ends.
#[derive(Drop)]
pub struct Cell<'a> {
    part: Part<'a>,
    posts: Vec<Post>,
    inboxes: Vec<Inbox>,
}

impl<'a> Model for Cell<'a> {
    ghost use Rattle.rcv_session.specs.Session.{rules_of};
    ghost use Rattle.rcv_role.specs.Cell.{CellView};
    ghost use Rattle.rcv_role.specs.Ends.{AreEnds};
    ghost use Rattle.rcv_tree.specs.contracts.statement.Stmt as e;
    ghost use Rattle.rcv_formula.specs.Codes.{expr_code};
    ghost use Rattle.std.specs.Coded.{codes};

    ghost Value = { CellView };

    ghost coded = { Prim.hlevel (codes, e.the_row.coded, expr_code) };

    ghost view = { λ c. record { part = c.part; posts = c.posts.items; inboxes = c.inboxes.items } };

    ghost invariant = { λ c. AreEnds (rules_of c.part.setup) c.part.role c.posts.items c.inboxes.items };
}

impl<'a> Cell<'a> {
    /// The cell of a declared role at the start of a session, with the ends of new channels: a post to each other role
    /// and an inbox from each, in order of declaration, with the plan's room and limit. It reserves what it may need.
    /// Fails if memory runs out; no later call takes any.
    pub fn new(
        alloc: Global,
        setup: &'a Setup,
        role: RoleId,
        posts: Vec<Post>,
        inboxes: Vec<Inbox>,
    ) -> Result<Cell<'a>, AllocError>
        requires ends { AreEnds (rules_of setup.now) role posts.items inboxes.items }
        requires fresh { AreFresh (roles_of setup.now) role posts.items inboxes.items }
        ensures cell { IfOk result (λ cell. cell ≡ cell_of (first_part setup.now role) posts.items inboxes.items) }
        ensures settled { IfOk result IsSettled }
    {
        let part = Part::new(alloc, setup, role)?;
        Ok(Cell {
            part,
            posts,
            inboxes,
        })
    }

    /// Makes one step of the role, which isn't crashed, if it can: a crash if a line of the plan is due, else the Send
    /// that its script chooses or the Recv of the message that it waits for. The log has room for an entry ([`LOG`]).
    pub fn poll(&mut self) -> Poll
        requires running { self.old.part.own.numbers.crashed ≡ false }
        requires log { length self.old.part.log < LOG }
        requires settled { IsSettled self.old }
        ensures polled { Polled self.old self.new result }
        ensures goes { Goes self.old self.new }
        ensures few { length self.new.part.log ≤ length self.old.part.log + 1 }
    {
        self.part.known();
        if self.part.due() {
            self.part.crash();
            return Poll::Crashed;
        }
        let offered = self.part.offered();
        let [first, ..] = offered else {
            return Poll::Done;
        };
        if self.part.is_tired() {
            return Poll::Tired;
        }
        match self.part.partner(offered, *first) {
            None => self.poll_send(offered),
            Some(from) => self.poll_recv(offered, from),
        }
    }

    // Sends the message of the chosen point, if its channel has room.
    fn poll_send(&mut self, offered: &[Point]) -> Poll
        requires running { self.old.part.own.numbers.crashed ≡ false }
        requires log { length self.old.part.log < LOG }
        requires settled { IsSettled self.old }
        requires calm { IsOwnDue (rules_of self.old.part.setup) self.old.part.role self.old.part.own → ⊥ }
        requires offers { Offers self.old.part offered.now }
        requires some { offered.now ≢ [] }
        requires sends { AllSends self.old.part offered.now }
        requires below { IsBelow self.old.part }
        ensures polled { Polled self.old self.new result }
        ensures goes { Goes self.old self.new }
        ensures few { length self.new.part.log ≤ length self.old.part.log + 1 }
    {
        self.part.known();
        let event = self.part.sent(offered);
        let to = self.part.receiver(event.point);
        let at = slot(self.part.role(), to);
        if !send_to(&mut self.posts, at, &event) {
            return Poll::Waiting;
        }
        self.part.add(&event);
        Poll::Moved
    }

    // Receives the front message of the channel from a role, if there is one.
    fn poll_recv(&mut self, offered: &[Point], from: RoleId) -> Poll
        requires running { self.old.part.own.numbers.crashed ≡ false }
        requires log { length self.old.part.log < LOG }
        requires settled { IsSettled self.old }
        requires calm { IsOwnDue (rules_of self.old.part.setup) self.old.part.role self.old.part.own → ⊥ }
        requires offers { Offers self.old.part offered.now }
        requires some { offered.now ≢ [] }
        requires receives { AllRecvs self.old.part offered.now from }
        requires below { IsBelow self.old.part }
        ensures polled { Polled self.old self.new result }
        ensures goes { Goes self.old self.new }
        ensures few { length self.new.part.log ≤ length self.old.part.log + 1 }
    {
        self.part.known();
        let at = slot(self.part.role(), from);
        let Some(message) = receive_from(&mut self.inboxes, at) else {
            return Poll::Waiting;
        };
        let event = self.part.got(offered, from, &message);
        self.part.add(&event);
        Poll::Moved
    }

    /// The role.
    pub fn role(&self) -> RoleId
        ensures { result ≡ self.now.part.role }
    {
        self.part.role()
    }

    /// How many events the role ever made, undone ones too.
    pub fn raw(&self) -> u32
        ensures { result ≡ self.now.part.own.numbers.raw }
    {
        self.part.raw()
    }

    /// Whether the role has crashed and isn't recovered yet.
    pub fn crashed(&self) -> bool
        ensures { result ≡ self.now.part.own.numbers.crashed }
    {
        self.part.crashed()
    }

    /// The entries since the log was cleared, each with its time: for a Crash that is the role's clock.
    pub fn log(&self) -> &[Timed]
        ensures { result.now ≡ self.now.part.log }
    {
        self.part.log()
    }

    /// Clears the log.
    pub fn clear_log(&mut self)
        ensures { self.new ≡ without_log self.old }
    {
        self.part.clear_log();
    }

    /// The variables after so many of the role's first events, if that state is held.
    pub fn vars_behind(&self, count: u32) -> Option<Vars>
        ensures value { IfSome result (λ vars. vars ≡ vars_by self.now.part.setup self.now.part.role
            (take count self.now.part.own.events)) }
        ensures held { self.now.part.base ≤ count → count ≤ self.now.part.held → IsSome result }
    {
        self.part.vars_behind(count)
    }

    /// What holds of every cell: it has a post to each other role and an inbox from each, its role is declared, no
    /// event of it is a Recv from a stranger, the role made each of its events once, and it holds the states that it
    /// may go back to.
    pub fn known(&self)
        ensures ends { AreEnds (rules_of self.now.part.setup) self.now.part.role self.now.posts self.now.inboxes }
        ensures states { HoldsStates self.now.part }
        ensures few { length self.now.part.own.events ≤ self.now.part.own.numbers.raw }
        ensures strangers { HasNoStrangers self.now.part }
        ensures declared { self.now.part.role < roles_of self.now.part.setup }
    {
        self.part.known();
    }

    /// The ends of the channel from another cell of the session to this one learn what the other end did. Answers how
    /// many messages lie between them.
    pub fn meet_from(&mut self, sender: &mut Cell<'a>) -> u32
        requires setup { sender.old.part.setup ≡ self.old.part.setup }
        requires apart { sender.old.part.role ≡ self.old.part.role → ⊥ }
        requires channel { AreJoined sender.old self.old }
        ensures met { HaveMet sender.old sender.new self.old self.new result }
        ensures there { IsThere }
    {
        let at = slot(self.part.role(), sender.part.role());
        let to = slot(sender.part.role(), self.part.role());
        meet_at(&mut self.inboxes, at, &mut sender.posts, to)
    }
}
