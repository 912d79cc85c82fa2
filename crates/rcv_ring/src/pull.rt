// The end of a ring that pulls.

ghost use Rattle.std.specs.Prelude.{◌≡◌, ◌+◌, ◌≤◌, ◌↔◌, [], ◌∷◌, ◌++◌, length, IsTrue, IfSome, IfNone};
ghost use Rattle.rcv_ring.specs.Points.{CanPass};
ghost use Rattle.rcv_ring.specs.Lists.{Begins};
ghost use Rattle.rcv_ring.specs.Shown.{HasLooked, HasMore, IsSameEnd, LooksOnce, WasEmpty, with_taken};

use crate::end::End;
use crate::push::Pusher;
use rcv_tree::event::Message;
use std::marker::Model;

/// The end that pulls, which lies on any thread. Contracts see what it took, all of it, and what it was told of what
/// the other end sent; see `Shown` for the rest.
#[derive(Drop)]
pub struct Puller {
    pub(crate) end: End,
    // How many messages it took, and how many its last look found sent.
    pub(crate) got: u64,
    pub(crate) seen: u64,
    pub(crate) room: u64,
}

impl Model for Puller {
    ghost use Rattle.rcv_ring.specs.Shown.{Shown};

    ghost Value = { Shown };

    ghost use Rattle.rcv_ring.specs.Shown.{shown};
    ghost use Rattle.rcv_ring.specs.Views.{IsPullEnd};

    ghost view = { λ p. shown p.end.seat.table_id p.end.seat.me.0 };

    ghost invariant = { λ p. IsPullEnd p.end.seat.me.0 p.got p.seen p.room };
}

impl Puller {
    /// Takes the front message. If a look of this call found the ring empty, it answers None, and nothing is taken. It
    /// never waits for the other end, and takes no memory. Each look holds the other end up, so a caller that tries
    /// again and again had better rest in between.
    pub fn pull(&mut self) -> Option<Message>
        ensures some { IfSome result (λ m. self.new.taken ≡ self.old.taken ++ m ∷ []) }
        ensures passes { IfSome result (λ m. CanPass self.old.points m) }
        ensures kept { IfNone result (self.new.taken ≡ self.old.taken) }
        ensures empty { IfNone result (WasEmpty self.old self.new) }
        ensures sent { self.new.sent ≡ self.old.sent }
        ensures looks { HasLooked self.old self.new }
        ensures same { IsSameEnd self.old self.new }
    {
        if !self.has_more() {
            self.look();
            if !self.has_more() {
                return None;
            }
        }
        Some(self.take())
    }

    /// Tells both ends what the other did: what was taken begins what was sent. The answer is how many messages lie
    /// between, at most the ring's room. It takes no memory.
    pub fn meet(&mut self, beside: &mut Pusher) -> u32
        requires { beside.old.ring ≡ self.old.ring }
        ensures begins { Begins self.old.taken beside.old.sent }
        ensures held { length beside.old.sent ≡ length self.old.taken + result }
        ensures few { result ≤ self.old.room }
        ensures taken { (self.new.taken ≡ self.old.taken) × (beside.new.taken ≡ self.old.taken) }
        ensures sent { (self.new.sent ≡ beside.old.sent) × (beside.new.sent ≡ beside.old.sent) }
        ensures known { (self.new.known ≡ length beside.old.sent) × (beside.new.known ≡ length self.old.taken) }
        ensures looks { (self.new.looks ≡ self.old.looks + 1) × (beside.new.looks ≡ beside.old.looks + 1) }
        ensures same { IsSameEnd self.old self.new × IsSameEnd beside.old beside.new }
    {
        // An end learns what it heard by its next look, and then hears once more, so that it knows just that.
        self.end.hear_sent(&mut beside.end);
        beside.end.hear_taken(&mut self.end);
        beside.look();
        self.look();
        self.end.hear_sent(&mut beside.end);
        beside.end.hear_taken(&mut self.end);
        (beside.put - self.got) as u32
    }

    // Whether a message is there by what the last look found.
    fn has_more(&self) -> bool
        ensures { IsTrue result ↔ HasMore self.now }
    {
        self.got < self.seen
    }

    // Looks how many messages were sent.
    fn look(&mut self)
        ensures same { IsSameEnd self.old self.new }
        ensures sent { self.new.sent ≡ self.old.sent }
        ensures taken { self.new.taken ≡ self.old.taken }
        ensures looks { LooksOnce self.old self.new }
        ensures known { self.new.known ≡ self.new.seen }
        ensures all { length self.new.taken ≤ self.new.seen }
        ensures few { self.new.seen ≤ length self.new.taken + self.new.room }
    {
        self.seen = self.end.see_put();
    }

    // Reads the front message from its slot, gives the slot free, and counts the message.
    fn take(&mut self) -> Message
        requires more { HasMore self.old }
        ensures taken { self.new ≡ with_taken self.old result }
        ensures passes { CanPass self.old.points result }
    {
        let slot = (self.got % self.room) as usize;
        let message = self.end.take(slot, self.got + 1);
        self.got += 1;
        message
    }
}
