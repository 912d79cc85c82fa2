// The guide of a session: it judges what is told of roles that run elsewhere. It judges things in the order in which
// they are told: a Recv that is told before its Send is illegal, though it happened.

ghost use Rattle.std.specs.Prelude.{◌≡◌, ℕ, ◌<◌, ◌≤◌, ◌↔◌, ◌^◌, Some, length, slice_get, slice_index};
ghost use Rattle.std.specs.Prelude.{All, IsTrue, IfOk, IfErr, IfSome, OnOk, OnErr, MatchOption};
ghost use Rattle.rcv_tree.specs.declared.entry.Entry.TheVariants.{Send, Recv, Crash};
ghost use Rattle.rcv_model.specs.Next.{AreNext, IsPlaceOf};
ghost use Rattle.rcv_plan.specs.Lines.{IsPlanned};
ghost use Rattle.rcv_plan.specs.Plans.{IsGroup};
ghost use Rattle.rcv_tables.specs.Rows.{IsTable};
ghost use Rattle.rcv_told.specs.Told.{Remembered, made, IsSend, IsRecv, IsInFront};
ghost use Rattle.rcv_guide.specs.Numbers.{numbers_at, with_crash};
ghost use Rattle.rcv_guide.specs.Guide.{net_for, roles_of, opened, with_event, with_numbers, stand, HasRoom, IsMemory, HasMemory, IsAfter};
ghost use Rattle.rcv_guide.specs.Guide.{IsNextOf, IsAble, IsTurnToSend, IsTurnToReceive, MayBeSent, MayBeReceived};
ghost use Rattle.rcv_guide.specs.Guide.{message, sent, received, stamp_to_send, stamp_to_receive, in_channel, recovery_entry, IsOfText};
ghost use Rattle.rcv_guide.specs.Failing.{all_events};
ghost use Rattle.rcv_guide.specs.Guide.{HaveSavedEnough, MayRecover, AreLeft, IsFailureOf, HasGoneBack, HasRecovered};
ghost use Rattle.rcv_guide.specs.Guide.{MayForget, HasForgotten};
ghost use Rattle.rcv_guide.specs.Line.{IsLine};
ghost use Rattle.rcv_guide.specs.Causes.{IsCauseToStop, IsCauseNotToSend, IsCauseNotToReceive, IsCauseNotInFront};
ghost use Rattle.rcv_guide.specs.Causes.{IsCauseNotToCrash, IsCauseNotToRecover};

use crate::cause::Cause;
use crate::flight::flying;
use crate::line::line;
use crate::news::News;
use crate::numbers::{Numbers, advance, fall, fresh, go_back};
use crate::recovery::Recovery;
use crate::{failing, renewal};
use rcv_accept::accepted::Accepted;
use rcv_checkpoint::changed::Changed;
use rcv_depend::cut::cut;
use rcv_ledger::ledger::Ledger;
use rcv_plan::plan::Plan;
use rcv_saves::saves::Saves;
use rcv_tables::making;
use rcv_tables::table::Table;
use rcv_tree::event::{Dir, Event, Message};
use rcv_tree::point::Point;
use rcv_tree::role::{RoleId, RoleSet};
use std::alloc::{AllocError, Global};
use std::marker::Model;

// So much can be told at most.
const MOST_TOLD: u64 = 1 << 62;

/// A session of an accepted protocol whose roles run elsewhere: what is remembered of what was told of them.
///
/// Tell a Send before its Recv: a Recv that is told first is illegal (`Cause::Empty`), though it happened. Tell each
/// role's events in the order in which it made them. Otherwise any order will do.
#[derive(Drop)]
pub struct Guide {
    pub(crate) accepted: Accepted,
    plan: Plan,
    table: Table,
    // For each role of the protocol.
    pub(crate) numbers: Vec<Numbers>,
    pub(crate) ledger: Ledger,
    // For how many events there is room, and how much was told.
    pub(crate) room: u32,
    pub(crate) told: u64,
}

impl Model for Guide {
    ghost use Rattle.rcv_guide.specs.Guide.{GuideView, guide_of, IsGuide};
    ghost use Rattle.rcv_tree.specs.contracts.statement.Stmt as e;
    ghost use Rattle.std.specs.Coded.{codes};

    ghost Value = { GuideView };

    ghost coded = { Prim.hlevel (codes, e.the_row.coded) };

    ghost view = { λ a. guide_of a.accepted.protocol a.plan a.ledger a.numbers.items a.room a.told };

    ghost invariant = { λ a. IsGuide (guide_of a.accepted.protocol a.plan a.ledger a.numbers.items a.room a.told) a.table a.ledger };
}

impl Guide {
    /// A session before its first event, with a plan that was read for the protocol's roles. Of the plan only the lines
    /// on hosts count. Reserves room for so many events until what is stable is forgotten, and writes none of it before
    /// it is used. Fails if memory runs out.
    pub fn new(
        alloc: Global,
        accepted: Accepted,
        plan: Plan,
        room: u32,
    ) -> Result<Guide, AllocError>
        requires planned { IsPlanned (length accepted.protocol.roles) plan }
        requires few { room < 2 ^ 31 }
        ensures { IfOk result (λ guide. guide ≡ opened accepted.protocol plan room) }
    {
        let table = making::table(alloc, &accepted)?;
        // Tells the proof that the protocol is accepted.
        let _protocol = accepted.protocol();
        let roles = accepted.roles();
        let numbers = fresh(alloc, roles)?;
        let ledger = renewal::empty(alloc, roles as usize, room)?;
        Ok(Guide {
            accepted,
            plan,
            table,
            numbers,
            ledger,
            room,
            told: 0,
        })
    }

    /// The protocol of the session.
    pub fn accepted(&self) -> &Accepted
        ensures { result.now.protocol ≡ self.now.protocol }
    {
        &self.accepted
    }

    /// How many roles the protocol declares, which are at most eight.
    pub fn roles(&self) -> u8
        ensures value { result ≡ roles_of self.now }
        ensures few { result ≤ 8 }
        ensures memory { HasMemory self.now }
    {
        // Tells the proof that the protocol is accepted.
        let _protocol = self.accepted.protocol();
        self.accepted.roles()
    }

    /// The recovery table of the protocol.
    pub fn table(&self) -> &Table
        ensures { IsTable (net_for self.now) (roles_of self.now) result.now }
    {
        &self.table
    }

    /// A role, which is below 8, and the other roles of its host: they fail together.
    pub fn group(&self, role: RoleId) -> RoleSet
        requires { role < 8 }
        ensures { IsGroup self.now.plan role result.0 }
    {
        self.plan.group(role)
    }

    /// For how many events there is room, until what is stable is forgotten.
    pub fn room(&self) -> u32
        ensures value { result ≡ self.now.room }
        ensures few { result < 2 ^ 31 }
    {
        self.room
    }

    /// How many places of that room are used: at least as many as there are remembered events. (A failure frees none.)
    pub fn used(&self) -> u32
        ensures value { result ≡ self.now.used }
        ensures within { result ≤ self.now.room }
        ensures logged { all_events self.now.logs ≤ result }
    {
        self.ledger.entries().len() as u32
    }

    /// How much was told in all, at most 2^62.
    pub fn told(&self) -> u64
        ensures value { result ≡ self.now.told }
        ensures few { result ≤ 2 ^ 62 }
    {
        self.told
    }

    /// Whether a declared role is down.
    pub fn is_down(&self, role: RoleId) -> bool
        requires { role < roles_of self.now }
        ensures { (stand self.now role).down ≡ Some result }
    {
        self.numbers[role.0 as usize].down
    }

    /// The attempt that a declared role is in: how often some of its events were taken back.
    pub fn attempt(&self, role: RoleId) -> u64
        requires { role < roles_of self.now }
        ensures { result ≡ (numbers_at self.now.numbers role).attempt }
    {
        self.numbers[role.0 as usize].attempt
    }

    /// How many events a declared role ever told, undone ones too.
    pub fn raw(&self, role: RoleId) -> u64
        requires { role < roles_of self.now }
        ensures { result ≡ (numbers_at self.now.numbers role).raw }
    {
        self.numbers[role.0 as usize].raw
    }

    /// The clock of a declared role, which is 0 at first and at most 2^62.
    pub fn clock(&self, role: RoleId) -> u64
        requires { role < roles_of self.now }
        ensures value { result ≡ (stand self.now role).clock }
        ensures few { result ≤ 2 ^ 62 }
    {
        self.numbers[role.0 as usize].clock
    }

    /// How many events of a declared role are forgotten.
    pub fn forgotten(&self, role: RoleId) -> u64
        requires { role < roles_of self.now }
        ensures { result ≡ (numbers_at self.now.numbers role).forgotten }
    {
        self.numbers[role.0 as usize].forgotten
    }

    /// How many events of a declared role are kept, forgotten ones too.
    pub fn made(&self, role: RoleId) -> u64
        requires { role < roles_of self.now }
        ensures { (m : Remembered) → IsMemory self.now m → result ≡ made m role }
    {
        let own = &self.numbers[role.0 as usize];
        own.forgotten + (self.ledger.made(role) - own.seeds as usize) as u64
    }

    // The place of a declared role.
    fn place(&self, role: RoleId) -> u16
        requires { role < roles_of self.now }
        ensures value { result ≡ (stand self.now role).place }
        ensures own { IsPlaceOf (net_for self.now) role result }
    {
        let own = &self.numbers[role.0 as usize];
        let made = self.ledger.made(role);
        if made == own.seeds as usize {
            return own.point;
        }
        self.ledger.event(role, made - 1).point.0
    }

    /// The points that a declared role can come to next, ascending: none if its part has ended.
    pub fn next(&self, role: RoleId) -> &[Point]
        requires { role < roles_of self.now }
        ensures { AreNext (net_for self.now) role (stand self.now role).place result.now }
    {
        self.accepted.next(role, self.place(role))
    }

    /// Whether a declared role's part has ended: no point comes next.
    pub fn is_over(&self, role: RoleId) -> bool
        requires { role < roles_of self.now }
        ensures { IsTrue result ↔ ((p : ℕ) → IsNextOf self.now role p → ⊥) }
    {
        self.next(role).is_empty()
    }

    /// How many messages are in flight from one declared role to another.
    pub fn in_flight(&self, from: RoleId, to: RoleId) -> usize
        requires from { from < roles_of self.now }
        requires to { to < roles_of self.now }
        ensures { result ≡ length (in_channel self.now from to) }
    {
        let (put, taken) = self.ledger.counts(from, to);
        put - taken
    }

    /// The oldest message in flight from one declared role to another; none if nothing is in flight. It takes the same
    /// time, however much is remembered.
    pub fn front(&self, from: RoleId, to: RoleId) -> Option<Message>
        requires from { from < roles_of self.now }
        requires to { to < roles_of self.now }
        ensures value { result ≡ slice_get (in_channel self.now from to) 0 }
        ensures declared { IfSome result (IsOfText self.now) }
    {
        self.ledger.front(from, to)
    }

    /// The messages in flight from one declared role to another, the oldest first. It goes once over the sender's
    /// remembered events. Fails if memory runs out.
    pub fn messages(
        &self,
        alloc: Global,
        from: RoleId,
        to: RoleId,
    ) -> Result<Vec<Message>, AllocError>
        requires from { from < roles_of self.now }
        requires to { to < roles_of self.now }
        ensures value { IfOk result (λ all. all.items ≡ in_channel self.now from to) }
        ensures declared { IfOk result (λ all. All (IsOfText self.now) all.items) }
    {
        let (_, taken) = self.ledger.counts(from, to);
        flying(alloc, &self.ledger, self.accepted.points(), from, to, taken)
    }

    /// How many of each role's remembered events after its seeds no failure takes back. These are the greatest counts
    /// after which each role has saved its state, such that nothing is received within them that is sent outside. It
    /// takes no memory.
    pub fn line(&self, saves: &Saves) -> [u32; 8]
        requires { roles_of self.now ≤ length saves.now.steps }
        ensures { IsLine self.now saves.now result }
    {
        line(
            self.numbers.as_slice(),
            &self.ledger,
            self.accepted.points(),
            saves,
        )
    }

    // Whether a declared role may come to a point next.
    pub(crate) fn is_next(&self, role: RoleId, point: Point) -> bool
        requires { role < roles_of self.now }
        ensures { IsTrue result ↔ IsNextOf self.now role point }
    {
        for next in self.next(role) {
            if *next == point {
                return true;
            }
        }
        false
    }

    // Whether there is room for one event more.
    fn has_room(&self) -> bool
        ensures { IsTrue result ↔ HasRoom self.now }
    {
        self.ledger.entries().len() < self.room as usize && self.told < MOST_TOLD
    }

    // Why a role may not make an event at all, if it may not.
    fn stopped(&self, news: &News) -> Option<Cause>
        ensures { MatchOption result (IsAble self.now news.now) (IsCauseToStop self.now news.now) }
    {
        if news.role.0 >= self.roles() {
            return Some(Cause::Undeclared);
        }
        if self.is_down(news.role) {
            return Some(Cause::Down);
        }
        if self.attempt(news.role) != news.attempt {
            return Some(Cause::Stale);
        }
        if !self.has_room() {
            return Some(Cause::Full);
        }
        None
    }

    // Whether it is a declared role's turn to send at a point.
    fn is_turn_to_send(&self, news: &News) -> bool
        requires { news.now.role < roles_of self.now }
        ensures { IsTrue result ↔ IsTurnToSend self.now news.now }
    {
        self.is_next(news.role, news.point)
            && self.accepted.points().sender(news.point) == news.role
    }

    // Whether it is a declared role's turn to receive at a point.
    fn is_turn_to_receive(&self, news: &News) -> bool
        requires { news.now.role < roles_of self.now }
        ensures { IsTrue result ↔ IsTurnToReceive self.now news.now }
    {
        self.is_next(news.role, news.point)
            && self.accepted.points().receiver(news.point) == news.role
    }

    /// Whether a Send may come, and else why not.
    pub fn may_send(&self, news: &News) -> Result<(), Cause>
        ensures ok { OnOk result (MayBeSent self.now news.now) }
        ensures declared { OnOk result (news.now.role < roles_of self.now) }
        ensures cause { IfErr result (IsCauseNotToSend self.now news.now) }
    {
        // Tells the proof what the guide keeps.
        let _accepted = &self.accepted;
        if let Some(cause) = self.stopped(news) {
            return Err(cause);
        }
        if !self.is_turn_to_send(news) {
            return Err(Cause::NotNext);
        }
        Ok(())
    }

    // Whether a message is in front of the channel that a role receives from, and else why not.
    fn has_in_front(&self, news: &News, stamp: u64) -> Result<(), Cause>
        requires able { IsAble self.now news.now }
        requires turn { IsTurnToReceive self.now news.now }
        ensures ok { OnOk result (IsInFront (net_for self.now) (stand self.now news.now.role) (message news.now stamp)) }
        ensures cause { IfErr result (IsCauseNotInFront self.now news.now stamp) }
    {
        let sender = self.accepted.points().sender(news.point);
        let Some(front) = self.ledger.front(sender, news.role) else {
            return Err(Cause::Empty);
        };
        if !is_message(&front, news, stamp) {
            return Err(Cause::NotFront);
        }
        Ok(())
    }

    /// Whether a Recv of the message with this stamp may come, and else why not.
    pub fn may_receive(&self, news: &News, stamp: u64) -> Result<(), Cause>
        ensures ok { OnOk result (MayBeReceived self.now news.now stamp) }
        ensures declared { OnOk result (news.now.role < roles_of self.now) }
        ensures few { OnOk result (stamp ≤ 2 ^ 62) }
        ensures cause { IfErr result (IsCauseNotToReceive self.now news.now stamp) }
    {
        // Tells the proof what the guide keeps.
        let _accepted = &self.accepted;
        if let Some(cause) = self.stopped(news) {
            return Err(cause);
        }
        if !self.is_turn_to_receive(news) {
            return Err(Cause::NotNext);
        }
        self.has_in_front(news, stamp)
    }

    // Adds a Send that may come. Its room is reserved.
    fn add_send(&mut self, event: &Event)
        requires room { HasRoom self.old }
        requires may { IsSend (net_for self.old) (stand self.old event.now.role) event.now }
        ensures value { self.new ≡ with_event self.old event.now }
        ensures after { IsAfter self.old self.new (Send event.now) }
    {
        let receiver = self.accepted.points().receiver(event.point);
        let added = self
            .ledger
            .add_send(event, receiver, &renewal::NO_VARS, Changed::Nothing);
        if added.is_err() {
            unreachable!()
        }
        advance(&mut self.numbers, event);
        self.told += 1;
    }

    // Adds a Recv that may come. Its room is reserved.
    fn add_recv(&mut self, event: &Event)
        requires room { HasRoom self.old }
        requires may { IsRecv (net_for self.old) (stand self.old event.now.role) event.now }
        ensures value { self.new ≡ with_event self.old event.now }
        ensures after { IsAfter self.old self.new (Recv event.now) }
    {
        let sender = self.accepted.points().sender(event.point);
        let added = self
            .ledger
            .add_recv(event, sender, &renewal::NO_VARS, Changed::Nothing);
        if added.is_err() {
            unreachable!()
        }
        advance(&mut self.numbers, event);
        self.told += 1;
    }

    /// Tells that a role sent a number at a point. Answers the stamp of its message, which must travel with it.
    pub fn tell_sent(&mut self, news: &News) -> Result<u64, Cause>
        ensures legal { OnOk result (MayBeSent self.old news.now) }
        ensures stamp { IfOk result (λ stamp. stamp ≡ stamp_to_send self.old news.now.role) }
        ensures ok { OnOk result (self.new ≡ with_event self.old (sent self.old news.now)) }
        ensures after { OnOk result (IsAfter self.old self.new (Send (sent self.old news.now))) }
        ensures cause { IfErr result (IsCauseNotToSend self.old news.now) }
        ensures err { OnErr result (self.new ≡ self.old) }
    {
        self.may_send(news)?;
        let stamp = self.clock(news.role) + 1;
        self.add_send(&Event::send(news.role, news.point, news.value, stamp));
        Ok(stamp)
    }

    /// Tells that a role received a number at a point, in the message with this stamp, whose Send was told before.
    /// Answers the stamp of the Recv.
    pub fn tell_received(&mut self, news: &News, stamp: u64) -> Result<u64, Cause>
        ensures legal { OnOk result (MayBeReceived self.old news.now stamp) }
        ensures stamp { IfOk result (λ own. own ≡ stamp_to_receive self.old news.now.role stamp) }
        ensures ok { OnOk result (self.new ≡ with_event self.old (received self.old news.now stamp)) }
        ensures after { OnOk result (IsAfter self.old self.new (Recv (received self.old news.now stamp))) }
        ensures cause { IfErr result (IsCauseNotToReceive self.old news.now stamp) }
        ensures err { OnErr result (self.new ≡ self.old) }
    {
        self.may_receive(news, stamp)?;
        let own = self.clock(news.role).max(stamp) + 1;
        self.add_recv(&Event {
            role: news.role,
            dir: Dir::Got,
            point: news.point,
            value: news.value,
            stamp: own,
            sent: stamp,
        });
        Ok(own)
    }

    /// Tells that a role is down.
    pub fn tell_crash(&mut self, role: RoleId) -> Result<(), Cause>
        ensures ok { OnOk result (self.new ≡ with_numbers self.old (with_crash self.old.numbers role)) }
        ensures after { OnOk result (IsAfter self.old self.new (Crash role)) }
        ensures cause { IfErr result (IsCauseNotToCrash self.old role) }
        ensures err { OnErr result (self.new ≡ self.old) }
    {
        if role.0 >= self.roles() {
            return Err(Cause::Undeclared);
        }
        if self.is_down(role) {
            return Err(Cause::Down);
        }
        if self.told >= MOST_TOLD {
            return Err(Cause::Full);
        }
        fall(&mut self.numbers, role);
        self.told += 1;
        Ok(())
    }

    // Whether each failed role has saved at least what is forgotten of it.
    fn have_saved_enough(&self, role: RoleId, saved: &[u64; 8]) -> bool
        requires { role < roles_of self.now }
        ensures { IsTrue result ↔ HaveSavedEnough self.now role saved.now }
    {
        let group = self.plan.group(role);
        for number in 0..self.roles() {
            if !group.has(RoleId(number)) {
                continue;
            }
            if !self.has_saved_enough(RoleId(number), saved) {
                return false;
            }
        }
        true
    }

    // Whether a declared role has saved at least what is forgotten of it.
    fn has_saved_enough(&self, role: RoleId, saved: &[u64; 8]) -> bool
        requires declared { role < roles_of self.now }
        requires eight { role < 8 }
        ensures { IsTrue result ↔ ((numbers_at self.now.numbers role).forgotten ≤ slice_index saved.now role) }
    {
        self.numbers[role.0 as usize].forgotten <= saved[role.0 as usize]
    }

    /// Whether it may be told that a role recovers, if each role that fails with it has saved so many of its events;
    /// and else why not.
    pub fn may_recover(&self, role: RoleId, saved: &[u64; 8]) -> Result<(), Cause>
        ensures ok { OnOk result (MayRecover self.now role saved.now) }
        ensures cause { IfErr result (IsCauseNotToRecover self.now role saved.now) }
    {
        if role.0 >= self.roles() {
            return Err(Cause::Undeclared);
        }
        if !self.is_down(role) {
            return Err(Cause::Up);
        }
        if self.told >= MOST_TOLD {
            return Err(Cause::Full);
        }
        if !self.have_saved_enough(role, saved) {
            return Err(Cause::Forgotten);
        }
        Ok(())
    }

    // How many of the logged events of each role are left, and what the failure takes back.
    fn recovery(&self, role: RoleId, saved: &[u64; 8]) -> ([u32; 8], Recovery)
        requires { MayRecover self.now role saved.now }
        ensures left { AreLeft self.now role saved.now result.0 }
        ensures failure { IsFailureOf self.now role saved.now result.1 }
    {
        let group = self.plan.group(role);
        let keeps = failing::keeps(self.numbers.as_slice(), &self.ledger, group, saved);
        let left = cut(&self.ledger, self.accepted.points(), &keeps);
        let starts = failing::starts(&self.ledger, &keeps);
        let recovery = Recovery {
            concerned: self.table.concerned_many(group, &starts),
            kept: failing::made(self.numbers.as_slice(), &left),
            undone: failing::undone(&self.ledger, &left),
        };
        (left, recovery)
    }

    /// What `tell_recovered` would answer now: what the failure takes back, or why the guide refuses it. It changes
    /// nothing.
    pub fn would_recover(&self, role: RoleId, saved: &[u64; 8]) -> Result<Recovery, Cause>
        ensures legal { OnOk result (MayRecover self.now role saved.now) }
        ensures back { IfOk result (IsFailureOf self.now role saved.now) }
        ensures cause { IfErr result (IsCauseNotToRecover self.now role saved.now) }
    {
        self.may_recover(role, saved)?;
        let (_, back) = self.recovery(role, saved);
        Ok(back)
    }

    // Goes back to what is left.
    fn fall_back(&mut self, role: RoleId, saved: &[u64; 8], left: &[u32; 8], back: &Recovery)
        requires may { MayRecover self.old role saved.now }
        requires left { AreLeft self.old role saved.now left.now }
        requires back { IsFailureOf self.old role saved.now back.now }
        ensures told { HasGoneBack self.old self.new role left.now back.now }
        ensures after { IsAfter self.old self.new (recovery_entry role back.now) }
    {
        let group = self.plan.group(role);
        go_back(&mut self.numbers, &self.ledger, group, back.concerned, left);
        self.ledger.cut_to(self.accepted.points(), left);
        self.told += 1;
    }

    /// Tells that a role that is down recovers. It and each role of its host have saved so many of their first events;
    /// a count above what a role did means all of it. Answers what the failure takes back: exactly the lost events and
    /// what depends on them. It takes no memory.
    pub fn tell_recovered(&mut self, role: RoleId, saved: &[u64; 8]) -> Result<Recovery, Cause>
        ensures legal { OnOk result (MayRecover self.old role saved.now) }
        ensures back { IfOk result (IsFailureOf self.old role saved.now) }
        ensures after { IfOk result (λ back. IsAfter self.old self.new (recovery_entry role back)) }
        ensures gone { IfOk result (HasRecovered self.old self.new role saved.now) }
        ensures cause { IfErr result (IsCauseNotToRecover self.old role saved.now) }
        ensures err { OnErr result (self.new ≡ self.old) }
    {
        self.may_recover(role, saved)?;
        let (left, back) = self.recovery(role, saved);
        self.fall_back(role, saved, &left, &back);
        Ok(back)
    }

    /// Forgets so many more of each role's events: no failure takes them back any more. Makes room for so many events
    /// in all, at least for those that are remembered. Fails if memory runs out.
    pub fn forget(&mut self, alloc: Global, counts: &[u32; 8], room: u32) -> Result<(), AllocError>
        requires counts { MayForget self.old counts.now }
        requires room { room < 2 ^ 31 }
        requires fits { all_events self.old.logs ≤ room }
        ensures ok { OnOk result (HasForgotten self.old self.new counts.now room) }
        ensures err { OnErr result (self.new ≡ self.old) }
    {
        let ends = renewal::ends(self.numbers.as_slice(), counts);
        let ledger = renewal::renewed(alloc, &self.ledger, self.accepted.points(), &ends, room)?;
        renewal::forget(&mut self.numbers, &self.ledger, &ledger, counts, &ends);
        self.ledger = ledger;
        self.room = room;
        Ok(())
    }
}

// Whether it is the message of what is told, with this stamp.
fn is_message(front: &Message, news: &News, stamp: u64) -> bool
    ensures { IsTrue result ↔ (front.now ≡ message news.now stamp) }
{
    front.point == news.point && front.value == news.value && front.stamp == stamp
}
