// The end of a ring that pushes.

ghost use Rattle.std.specs.Prelude.{◌≡◌, ◌+◌, ◌^◌, ◌<◌, ◌≤◌, ◌↔◌, [], ◌∷◌, ◌++◌, length, IsTrue, OnOk, IfErr, OnErr};
ghost use Rattle.rcv_ring.specs.Points.{CanPass};
ghost use Rattle.rcv_ring.specs.Lists.{Begins};
ghost use Rattle.rcv_ring.specs.Shown.{HasLooked, HasRoom, IsSameEnd, LooksOnce, WasFull, through, with_sent};

use crate::end::End;
use rcv_tree::event::Message;
use std::marker::Model;

/// The end that pushes, which lies on any thread. Contracts see what it sent, all of it, and what it was told of what
/// the other end took; see `Shown` for the rest.
#[derive(Drop)]
pub struct Pusher {
    pub(crate) end: End,
    // How many messages it sent, and how many of them its last look found taken.
    pub(crate) put: u64,
    pub(crate) seen: u64,
    pub(crate) room: u64,
}

impl Model for Pusher {
    ghost use Rattle.rcv_ring.specs.Shown.{Shown};

    ghost Value = { Shown };

    ghost use Rattle.rcv_ring.specs.Shown.{shown};
    ghost use Rattle.rcv_ring.specs.Views.{IsPushEnd};

    ghost view = { λ p. shown p.end.seat.table_id p.end.seat.me.0 };

    ghost invariant = { λ p. IsPushEnd p.end.seat.me.0 p.put p.seen p.room };
}

impl Pusher {
    /// Sends a message of one of the ring's points, with a stamp up to 2^62. If a look of this call found the ring
    /// full, the message comes back, and nothing is sent. It never waits for the other end, and takes no memory. Each
    /// look holds the other end up, so a caller that tries again and again had better rest in between.
    pub fn push(&mut self, message: Message) -> Result<(), Message>
        requires passes { CanPass self.old.points message }
        requires through { through self.old < 2 ^ 62 }
        ensures ok { OnOk result (self.new.sent ≡ self.old.sent ++ message ∷ []) }
        ensures err { IfErr result (λ back. back ≡ message) }
        ensures kept { OnErr result (self.new.sent ≡ self.old.sent) }
        ensures full { OnErr result (WasFull self.old self.new) }
        ensures taken { self.new.taken ≡ self.old.taken }
        ensures looks { HasLooked self.old self.new }
        ensures same { IsSameEnd self.old self.new }
    {
        if !self.has_room() {
            self.look();
            if !self.has_room() {
                return Err(message);
            }
        }
        self.write(message);
        Ok(())
    }

    // Whether a message more fits by what the last look found.
    fn has_room(&self) -> bool
        ensures { IsTrue result ↔ HasRoom self.now }
    {
        self.put - self.seen < self.room
    }

    /// Looks how many messages were taken.
    pub(crate) fn look(&mut self)
        ensures same { IsSameEnd self.old self.new }
        ensures sent { self.new.sent ≡ self.old.sent }
        ensures taken { self.new.taken ≡ self.old.taken }
        ensures looks { LooksOnce self.old self.new }
        ensures known { self.new.known ≡ self.new.seen }
        ensures begins { Begins self.old.taken self.old.sent }
        ensures some { self.new.seen ≤ length self.new.sent }
        ensures most { length self.new.sent ≤ self.new.seen + self.new.room }
    {
        self.seen = self.end.see_got();
    }

    // Writes the message into its slot, which is free, and counts it.
    fn write(&mut self, message: Message)
        requires passes { CanPass self.old.points message }
        requires through { through self.old < 2 ^ 62 }
        requires room { HasRoom self.old }
        ensures { self.new ≡ with_sent self.old message }
    {
        let slot = (self.put % self.room) as usize;
        self.end.send(slot, self.put + 1, message);
        self.put += 1;
    }
}
