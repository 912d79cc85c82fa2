// Restoring: a guide takes over where another one ended, from what that one remembered. First how much was told, then
// where each role stands, then the messages of what is forgotten, and then the events, each Recv after its Send.

ghost use Rattle.std.specs.Prelude.{◌≡◌, ℕ, ◌<◌, ◌≤◌, ◌^◌, ◌↔◌, Some, slice_get, IsTrue, OnOk, OnErr};
ghost use Rattle.rcv_tree.specs.declared.event.Event.{Event};
ghost use Rattle.rcv_tree.specs.declared.event.Dir.TheVariants.{Sent, Got};
ghost use Rattle.rcv_tree.specs.Events.{message_got};
ghost use Rattle.rcv_model.specs.Next.{IsPlaceOf};
ghost use Rattle.rcv_ledger.specs.Logs.{log_at};
ghost use Rattle.rcv_told.specs.Told.{IsInFront};
ghost use Rattle.rcv_guide.specs.Guide.{net_for, roles_of, stand, IsNextOf};
ghost use Rattle.rcv_guide.specs.Numbers.{numbers_at};
ghost use Rattle.rcv_guide.specs.Restoring.{begun_again, MayStand, with_standing, MayLie, with_seed, MayBeAgain, with_again};
ghost use Rattle.rcv_guide.specs.Restoring.{IsWithin, FitsLog, IsTurn, FitsEvent, with_logged};

use crate::guide::Guide;
use crate::numbers::{self, Numbers};
use crate::renewal;
use crate::standing::Standing;
use rcv_tree::event::{Dir, Event, Message};
use rcv_tree::point::Point;
use rcv_tree::role::RoleId;
use std::alloc::{AllocError, Global};

/// It doesn't fit what was restored before it.
#[derive(Clone, Copy, Debug, PartialEq, Eq)]
pub struct Unfit;

impl Guide {
    /// Begins anew, with room for so many events. So much was told of the session that is restored, at most 2^62. Fails
    /// if memory runs out.
    pub fn begin_again(&mut self, alloc: Global, told: u64, room: u32) -> Result<(), AllocError>
        requires told { told ≤ 2 ^ 62 }
        requires room { room < 2 ^ 31 }
        ensures ok { OnOk result (self.new ≡ begun_again self.old.protocol self.old.plan room told) }
        ensures err { OnErr result (self.new ≡ self.old) }
    {
        let roles = self.roles();
        let numbers = numbers::fresh(alloc, roles)?;
        let ledger = renewal::empty(alloc, roles as usize, room)?;
        self.numbers = numbers;
        self.ledger = ledger;
        self.room = room;
        self.told = told;
        Ok(())
    }

    /// Restores where a role stands. Fails if it may not stand so; then nothing changes.
    pub fn stand_again(&mut self, role: RoleId, standing: &Standing) -> Result<(), Unfit>
        ensures may { OnOk result (MayStand self.old role standing.now) }
        ensures ok { OnOk result (self.new ≡ with_standing self.old role standing.now) }
        ensures may_not { OnErr result (MayStand self.old role standing.now → ⊥) }
        ensures err { OnErr result (self.new ≡ self.old) }
    {
        if !self.may_stand(role, standing) {
            return Err(Unfit);
        }
        self.numbers[role.0 as usize] = Numbers {
            seeds: 0,
            forgotten: standing.forgotten,
            point: standing.place,
            raw: standing.raw,
            attempt: standing.attempt,
            clock: standing.clock,
            down: standing.down,
        };
        Ok(())
    }

    /// Restores a message that a role sent in an event that is forgotten; it lay in its channel then. Fails if it may
    /// not lie there; then nothing changes.
    pub fn lie_again(&mut self, role: RoleId, message: &Message) -> Result<(), Unfit>
        ensures may { OnOk result (MayLie self.old role message.now) }
        ensures ok { OnOk result (self.new ≡ with_seed self.old role message.now) }
        ensures may_not { OnErr result (MayLie self.old role message.now → ⊥) }
        ensures err { OnErr result (self.new ≡ self.old) }
    {
        // Tells the proof what the guide keeps.
        let _accepted = &self.accepted;
        if !self.may_lie(role, message) {
            return Err(Unfit);
        }
        let seeds = self.seeds_of(role) + 1;
        let sent = Event::send(role, message.point, message.value, message.stamp);
        self.log(&sent, seeds);
        Ok(())
    }

    /// Restores an event. Fails if it may not come; then nothing changes.
    pub fn add_again(&mut self, event: &Event) -> Result<(), Unfit>
        ensures may { OnOk result (MayBeAgain self.old event.now) }
        ensures ok { OnOk result (self.new ≡ with_again self.old event.now) }
        ensures may_not { OnErr result (MayBeAgain self.old event.now → ⊥) }
        ensures err { OnErr result (self.new ≡ self.old) }
    {
        // Tells the proof what the guide keeps.
        let _accepted = &self.accepted;
        if !self.may_be_again(event) {
            return Err(Unfit);
        }
        let seeds = self.seeds_of(event.role);
        self.log(event, seeds);
        Ok(())
    }

    // Whether a role may stand so.
    fn may_stand(&self, role: RoleId, standing: &Standing) -> bool
        ensures { IsTrue result ↔ MayStand self.now role standing.now }
    {
        if role.0 >= self.roles() {
            return false;
        }
        if self.ledger.made(role) > 0 {
            return false;
        }
        if !self.is_place(role, standing.place) {
            return false;
        }
        is_within(standing, self.told)
    }

    // Whether a role may have sent a message that lies in its channel.
    fn may_lie(&self, role: RoleId, message: &Message) -> bool
        ensures { IsTrue result ↔ MayLie self.now role message.now }
    {
        if !self.fits_log(role, message.stamp) {
            return false;
        }
        if self.ledger.made(role) != self.seeds_of(role) as usize {
            return false;
        }
        if !self.is_of_text(message.point) {
            return false;
        }
        self.accepted.points().sender(message.point) == role
    }

    // Whether an event may come.
    fn may_be_again(&self, event: &Event) -> bool
        ensures { IsTrue result ↔ MayBeAgain self.now event.now }
    {
        // Tells the proof what the guide keeps.
        let _accepted = &self.accepted;
        if !self.fits_log(event.role, event.stamp) {
            return false;
        }
        if self.made(event.role) >= self.raw(event.role) {
            return false;
        }
        self.is_turn(event)
    }

    // Whether a place is one of a declared role's.
    fn is_place(&self, role: RoleId, place: u16) -> bool
        ensures { IsTrue result ↔ IsPlaceOf (net_for self.now) role place }
    {
        if place == 0 {
            return true;
        }
        if !self.is_of_text(Point(place)) {
            return false;
        }
        self.accepted.points().is_of(Point(place), role)
    }

    // Whether a point is one of the text's.
    fn is_of_text(&self, point: Point) -> bool
        ensures { IsTrue result ↔ ((1 ≤ point) × (point ≤ (net_for self.now).count)) }
    {
        1 <= point.0 && point.0 <= self.accepted.points().count()
    }

    // How many of the logged events of a declared role are its seeds.
    fn seeds_of(&self, role: RoleId) -> u32
        requires { role < roles_of self.now }
        ensures value { result ≡ (numbers_at self.now.numbers role).seeds }
        ensures few { result < 2 ^ 31 }
    {
        self.numbers[role.0 as usize].seeds
    }

    // Whether there is room for one event more of a role, with this stamp.
    fn fits_log(&self, role: RoleId, stamp: u64) -> bool
        ensures { IsTrue result ↔ FitsLog self.now role stamp }
    {
        if role.0 >= self.roles() {
            return false;
        }
        if self.used() >= self.room {
            return false;
        }
        if stamp > self.clock(role) {
            return false;
        }
        self.is_later(role, stamp)
    }

    // Whether a stamp is above those of a declared role's events.
    fn is_later(&self, role: RoleId, stamp: u64) -> bool
        requires { role < roles_of self.now }
        ensures { IsTrue result ↔
            ((n : ℕ) (e : Event) → slice_get (log_at self.now.logs role) n ≡ Some e → e.stamp < stamp) }
    {
        let made = self.ledger.made(role);
        if made == 0 {
            return true;
        }
        self.ledger.event(role, made - 1).stamp < stamp
    }

    // Whether it is a declared role's turn to make an event.
    fn is_turn(&self, event: &Event) -> bool
        requires { event.now.role < roles_of self.now }
        ensures { IsTrue result ↔ IsTurn self.now event.now event.now.dir }
    {
        if !self.is_next(event.role, event.point) {
            return false;
        }
        match event.dir {
            Dir::Sent => self.may_send_again(event),
            Dir::Got => self.may_receive_again(event),
        }
    }

    // Whether its next point is one where it sends, and the message has its stamp.
    fn may_send_again(&self, event: &Event) -> bool
        requires { IsNextOf self.now event.now.role event.now.point }
        ensures { IsTrue result ↔ IsTurn self.now event.now Sent }
    {
        self.accepted.points().sender(event.point) == event.role && event.sent == event.stamp
    }

    // Whether its next point is one where it receives, and the message is in front.
    fn may_receive_again(&self, event: &Event) -> bool
        requires declared { event.now.role < roles_of self.now }
        requires next { IsNextOf self.now event.now.role event.now.point }
        ensures { IsTrue result ↔ IsTurn self.now event.now Got }
    {
        if self.accepted.points().receiver(event.point) != event.role {
            return false;
        }
        if event.sent >= event.stamp {
            return false;
        }
        self.is_in_front(event)
    }

    // Whether the message that a Recv at a next point takes is in front.
    fn is_in_front(&self, event: &Event) -> bool
        requires declared { event.now.role < roles_of self.now }
        requires next { IsNextOf self.now event.now.role event.now.point }
        ensures { IsTrue result ↔ IsInFront (net_for self.now) (stand self.now event.now.role) (message_got event.now) }
    {
        let sender = self.accepted.points().sender(event.point);
        let Some(front) = self.front(sender, event.role) else {
            return false;
        };
        is_taken(&front, event)
    }

    // Logs an event that fits. Its role has so many seeds then. Its room is reserved.
    fn log(&mut self, event: &Event, seeds: u32)
        requires { FitsEvent self.old event.now seeds }
        ensures { self.new ≡ with_logged self.old event.now seeds }
    {
        let added = renewal::add_event(&mut self.ledger, self.accepted.points(), event);
        if added.is_err() {
            unreachable!()
        }
        numbers::set_seeds(&mut self.numbers, event.role, seeds);
    }
}

// Whether a role's numbers are at most what was told.
fn is_within(standing: &Standing, told: u64) -> bool
    ensures { IsTrue result ↔ IsWithin standing.now told }
{
    standing.forgotten <= standing.raw
        && standing.raw <= told
        && standing.attempt <= told
        && standing.clock <= told
}

// Whether it is the message that a Recv takes.
fn is_taken(front: &Message, event: &Event) -> bool
    ensures { IsTrue result ↔ (front.now ≡ message_got event.now) }
{
    front.point == event.point && front.value == event.value && front.stamp == event.sent
}
