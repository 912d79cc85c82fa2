// What one role did in a session, and what it does next.

ghost use Rattle.std.specs.Prelude.{◌≡◌, ◌<◌, ◌≤◌, length, take, IfOk, IfSome, IsSome};
ghost use Rattle.rcv_session.specs.Session.{roles_of, rules_of};
ghost use Rattle.rcv_core.specs.Setup.{vars_by};
ghost use Rattle.rcv_role.specs.Part.{HasNoStrangers, HoldsStates, first_part, cleared};

mod adding;
mod choosing;
mod failing;
mod going_back;
mod reach;

use crate::cell::LOG;
use rcv_checkpoint::state::State;
use rcv_checkpoint::tail::Tail;
use rcv_core::setup::Setup;
use rcv_tree::entry::Timed;
use rcv_tree::event::Event;
use rcv_tree::numbers::Numbers;
use rcv_tree::role::RoleId;
use rcv_tree::variables::Vars;
use std::alloc::{AllocError, Global};
use std::marker::Model;

/// A role's own events and numbers, the states after its first events, and the entries that it has made since its log
/// was cleared.
#[derive(Drop)]
pub struct Part<'a> {
    setup: &'a Setup,
    role: RoleId,
    numbers: Numbers,
    events: Vec<Event>,
    // The states, from the earliest that the role may still go back to.
    tail: Tail,
    // Up to how many events it has them.
    held: u32,
    log: Vec<Timed>,
    // The Send that waits for room. Its script isn't asked for it again.
    chosen: Option<Event>,
}

impl<'a> Model for Part<'a> {
    ghost use Rattle.std.specs.Prelude.{◌≤◌, IfSome, vec_capacity};
    ghost use Rattle.rcv_session.specs.Session.{rules_of};
    ghost use Rattle.rcv_role.specs.Part.{PartView, IsPart, IsNextSend, own_by, part_by};
    ghost use Rattle.rcv_role.specs.declared.cell.TheConstants.{LOG};
    ghost use Rattle.rcv_tree.specs.contracts.statement.Stmt as e;
    ghost use Rattle.rcv_formula.specs.Codes.{expr_code};
    ghost use Rattle.std.specs.Coded.{codes};

    ghost Value = { PartView };

    ghost coded = { Prim.hlevel (codes, e.the_row.coded, expr_code) };

    ghost view = { λ p. part_by p.setup.now p.role
        (own_by p.events.items p.numbers) p.held p.tail.base p.log.items };

    ghost invariant = { λ p. IsPart p.setup.now p.role (own_by p.events.items p.numbers) p.tail.base p.held p.tail
        × ((rules_of p.setup.now).limit ≤ vec_capacity p.events) × (LOG ≤ vec_capacity p.log)
        × IfSome p.chosen (IsNextSend p.setup.now p.role (own_by p.events.items p.numbers)) };
}

impl<'a> Part<'a> {
    /// A declared role before its first event, with room for all that it may come to. Fails if memory runs out;
    /// later calls take none.
    pub fn new(alloc: Global, setup: &'a Setup, role: RoleId) -> Result<Part<'a>, AllocError>
        requires { role < roles_of setup.now }
        ensures { IfOk result (λ part. part ≡ first_part setup.now role) }
    {
        // Tells the proof that the protocol is accepted and planned.
        let _roles = setup.roles();
        let limit = setup.limit();
        let first = State {
            k: 0,
            vars: setup.start(role),
        };
        Ok(Part {
            setup,
            role,
            numbers: Numbers::new(),
            events: Vec::with_capacity(alloc, limit as usize)?,
            tail: Tail::new(alloc, first, setup.every(role), limit)?,
            held: 0,
            log: Vec::with_capacity(alloc, LOG)?,
            chosen: None,
        })
    }

    pub fn role(&self) -> RoleId
        ensures { result ≡ self.now.role }
    {
        self.role
    }

    /// How many events the role ever made, undone ones too.
    pub fn raw(&self) -> u32
        ensures { result ≡ self.now.own.numbers.raw }
    {
        self.numbers.raw
    }

    /// Whether the role has crashed and isn't recovered yet.
    pub fn crashed(&self) -> bool
        ensures { result ≡ self.now.own.numbers.crashed }
    {
        self.numbers.crashed
    }

    /// The entries since the log was cleared.
    pub fn log(&self) -> &[Timed]
        ensures { result.now ≡ self.now.log }
    {
        self.log.as_slice()
    }

    pub fn clear_log(&mut self)
        ensures { self.new ≡ cleared self.old }
    {
        self.log.clear();
    }

    /// The variables after so many of the role's first events, if that state is held.
    pub fn vars_behind(&self, count: u32) -> Option<Vars>
        ensures value { IfSome result (λ vars. vars ≡ vars_by self.now.setup self.now.role
            (take count self.now.own.events)) }
        ensures held { self.now.base ≤ count → count ≤ self.now.held → IsSome result }
    {
        if count < self.tail.base() || count > self.held {
            return None;
        }
        Some(self.tail.state_at(count).vars)
    }

    /// What holds of every part: no event is a Recv from a stranger; the role made each of its events once, and no more
    /// than the limit allows; and it holds the states that it may go back to.
    pub fn known(&self)
        ensures states { HoldsStates self.now }
        ensures strangers { HasNoStrangers self.now }
        ensures few { length self.now.own.events ≤ self.now.own.numbers.raw }
        ensures most { self.now.own.numbers.raw ≤ (rules_of self.now.setup).limit }
        ensures limit { (rules_of self.now.setup).limit ≤ 100000 }
        ensures declared { self.now.role < roles_of self.now.setup }
    {
        let _events = &self.events;
        let _limit = self.setup.limit();
    }
}
