// The end of a channel that receives.

ghost use Rattle.std.specs.Prelude.{◌≡◌, ◌+◌, ◌^◌, ◌<◌, ◌≤◌, Some, [], ◌∷◌, ◌++◌, length, slice_get, IfSome, IfNone};
ghost use Rattle.std.specs.Prelude.{take as first_of};
ghost use Rattle.rcv_ring.specs.Points.{CanPass};
ghost use Rattle.rcv_ring.specs.Lists.{Begins};
ghost use Rattle.rcv_ring.specs.Shown.{HasLooked};
ghost use Rattle.rcv_mailbox.specs.Ends.{End, IsChannel, IsSamePlace, IsUncut, Knows, WasEmpty, ReceivesAgain};
ghost use Rattle.rcv_mailbox.specs.Ends.{TakesFront};
ghost use Rattle.rcv_mailbox.specs.Ends.{posted, received, fetched, through};

use crate::post::Post;
use rcv_ring::Puller;
use rcv_tree::event::Message;
use std::marker::Model;

/// The end that receives. Contracts see what it took and what of that wasn't dropped, and how many of those messages
/// were received; see `End` for the rest.
#[derive(Drop)]
pub struct Inbox {
    pub(crate) puller: Puller,
    pub(crate) taken: Vec<Message>,
    // How many of the messages taken were received. A rewind leaves the others to be received again.
    pub(crate) got: u32,
    pub(crate) limit: u32,
    // How many messages rewinds dropped, and how many the last one left.
    pub(crate) dropped: u64,
    pub(crate) rewound: u32,
}

impl Model for Inbox {
    ghost use Rattle.rcv_mailbox.specs.Ends.{End};

    ghost Value = { End };

    ghost use Rattle.std.specs.Prelude.{vec_capacity};
    ghost use Rattle.rcv_mailbox.specs.Ends.{inbox_of, IsInbox};

    ghost view = { λ p. inbox_of p.puller p.taken.items p.got p.limit p.dropped p.rewound };

    ghost invariant = { λ p. IsInbox p.puller p.taken.items (vec_capacity p.taken) p.got p.limit p.dropped p.rewound };
}

impl Inbox {
    /// Receives the next message: one that was taken before and will be received again, else the front of the channel.
    /// Fewer than `limit` are received before the call. If nothing is left to receive again and a look of this call
    /// found the channel empty, the answer is None, and nothing is received. It never waits, and takes no memory.
    pub fn receive(&mut self) -> Option<Message>
        requires { self.old.got < self.old.limit }
        ensures some { IfSome result (λ m. slice_get (fetched self.new) self.old.got ≡ Some m) }
        ensures got { IfSome result (λ _. self.new.got ≡ self.old.got + 1) }
        ensures again { ReceivesAgain self.old self.new }
        ensures front { IfSome result (λ m. TakesFront self.old self.new m) }
        ensures passes { IfSome result (λ m. CanPass self.old.base.points m) }
        ensures all { IfNone result (self.old.got ≡ length (fetched self.old)) }
        ensures kept { IfNone result ((fetched self.new ≡ fetched self.old) × (self.new.got ≡ self.old.got)) }
        ensures empty { IfNone result (WasEmpty self.old self.new) }
        ensures begins { Begins (fetched self.old) (fetched self.new) }
        ensures looks { HasLooked self.old.base self.new.base }
        ensures same { IsUncut self.old self.new }
        ensures channel { (post : End) → IsChannel post self.old → IsChannel post self.new }
    {
        if (self.got as usize) < self.taken.len() {
            Some(self.again())
        } else {
            self.front()
        }
    }

    /// Tells that what this end took begins what the other one put. The answer is how many messages lie between: those
    /// in flight. It takes no memory.
    pub fn meet(&mut self, beside: &mut Post) -> u32
        requires { IsChannel beside.old self.old }
        ensures begins { Begins (fetched self.old) (posted beside.old) }
        ensures held { length (posted beside.old) ≡ length (fetched self.old) + result }
        ensures few { (result ≤ self.old.base.room) × (length (posted beside.old) ≤ self.old.limit) }
        ensures lists { (fetched self.new ≡ fetched self.old) × (posted beside.new ≡ posted beside.old) }
        ensures got { (self.new.got ≡ self.old.got) × (beside.new.got ≡ beside.old.got) }
        ensures through { through beside.new ≡ through beside.old }
        ensures known { Knows self.new (length (posted beside.old)) × Knows beside.new (length (fetched self.old)) }
        ensures looks { (self.old.base.looks ≤ self.new.base.looks) × (beside.old.base.looks ≤ beside.new.base.looks) }
        ensures same { IsUncut self.old self.new × IsUncut beside.old beside.new }
        ensures channel { IsChannel beside.new self.new }
    {
        self.puller.meet(&mut beside.pusher)
    }

    /// Goes back, with what is in flight. The first `drop_from` messages that were put stay, all of them taken. The
    /// first `keep` of those are received. What was put after them all is dropped. It takes no memory.
    pub fn rewind(&mut self, keep: u32, beside: &mut Post, drop_from: u32)
        requires channel { IsChannel beside.old self.old }
        requires keep { (keep ≤ self.old.got) × (keep ≤ drop_from) }
        requires drop_from { drop_from ≤ length (posted beside.old) }
        ensures put { posted beside.new ≡ first_of drop_from (posted beside.old) }
        ensures taken { fetched self.new ≡ posted beside.new }
        ensures got { self.new.got ≡ keep }
        ensures through { through beside.new ≡ through beside.old }
        ensures known { Knows self.new drop_from × Knows beside.new drop_from }
        ensures looks { (self.old.base.looks ≤ self.new.base.looks) × (beside.old.base.looks ≤ beside.new.base.looks) }
        ensures dropped { self.new.dropped + drop_from ≡ self.old.dropped + length (posted beside.old) }
        ensures rewound { self.new.rewound ≡ drop_from }
        ensures same { IsSamePlace self.old self.new × IsSamePlace beside.old beside.new }
        ensures channel { IsChannel beside.new self.new }
    {
        self.take_all(beside);
        beside.cut(drop_from);
        self.cut(keep, drop_from);
    }

    /// Goes back alone: the first `keep` messages stay received, and those after them will be received again. Nothing
    /// is dropped. It takes no memory.
    pub fn rewind_alone(&mut self, keep: u32)
        requires { keep ≤ self.old.got }
        ensures { self.new ≡ received self.old keep }
    {
        self.got = keep;
    }

    // Gives the next message that was taken and isn't received.
    fn again(&mut self) -> Message
        requires more { self.old.got < length (fetched self.old) }
        requires limit { self.old.got < self.old.limit }
        ensures some { slice_get (fetched self.new) self.old.got ≡ Some result }
        ensures again { self.new ≡ received self.old (self.old.got + 1) }
        ensures passes { CanPass self.old.base.points result }
    {
        let at = self.got as usize;
        self.got += 1;
        self.taken[at]
    }

    // Takes the front of the ring. All that was taken is received.
    fn front(&mut self) -> Option<Message>
        requires limit { self.old.got < self.old.limit }
        requires all { self.old.got ≡ length (fetched self.old) }
        ensures some { IfSome result (λ m. fetched self.new ≡ fetched self.old ++ m ∷ []) }
        ensures got { IfSome result (λ _. self.new.got ≡ self.old.got + 1) }
        ensures passes { IfSome result (λ m. CanPass self.old.base.points m) }
        ensures kept { IfNone result ((fetched self.new ≡ fetched self.old) × (self.new.got ≡ self.old.got)) }
        ensures empty { IfNone result (WasEmpty self.old self.new) }
        ensures looks { HasLooked self.old.base self.new.base }
        ensures same { IsUncut self.old self.new }
        ensures channel { (post : End) → IsChannel post self.old → IsChannel post self.new }
    {
        let Message {
            point,
            value,
            stamp,
        } = self.puller.pull()?;
        self.got += 1;
        self.taken.push_reserved(Message {
            point,
            value,
            stamp,
        });
        Some(Message {
            point,
            value,
            stamp,
        })
    }

    // Takes all that the ring holds, and receives none of it.
    fn take_all(&mut self, beside: &mut Post)
        requires { IsChannel beside.old self.old }
        ensures lists { (fetched self.new ≡ posted beside.old) × (posted beside.new ≡ posted beside.old) }
        ensures got { self.new.got ≡ self.old.got }
        ensures through { through beside.new ≡ through beside.old }
        ensures known { Knows self.new (length (posted beside.old)) × Knows beside.new (length (posted beside.old)) }
        ensures looks { (self.old.base.looks ≤ self.new.base.looks) × (beside.old.base.looks ≤ beside.new.base.looks) }
        ensures same { IsUncut self.old self.new × IsUncut beside.old beside.new }
        ensures channel { IsChannel beside.new self.new }
    {
        let held = self.meet(beside);
        for _ in 0..held {
            self.take_one();
        }
        self.meet(beside);
    }

    // Takes the front of the ring, which is known to hold a message.
    fn take_one(&mut self)
        requires more { length (fetched self.old) + self.old.dropped < self.old.base.known }
        requires room { length (fetched self.old) < self.old.limit }
        ensures one { length (fetched self.new) ≡ length (fetched self.old) + 1 }
        ensures looks { HasLooked self.old.base self.new.base }
        ensures got { self.new.got ≡ self.old.got }
        ensures same { IsUncut self.old self.new }
        ensures channel { (post : End) → IsChannel post self.old → IsChannel post self.new }
    {
        // A look that found the ring empty would have found fewer put than are known of.
        let Some(message) = self.puller.pull() else {
            unreachable!()
        };
        self.taken.push_reserved(message);
    }

    // Drops what was taken after the first `drop_from` messages. The first `keep` of those stay received.
    fn cut(&mut self, keep: u32, drop_from: u32)
        requires cut { (keep ≤ drop_from) × (drop_from ≤ length (fetched self.old)) }
        requires few { self.old.dropped + length (fetched self.old) ≤ 2 ^ 62 }
        ensures taken { fetched self.new ≡ first_of drop_from (fetched self.old) }
        ensures dropped { self.new.dropped + drop_from ≡ self.old.dropped + length (fetched self.old) }
        ensures got { self.new.got ≡ keep }
        ensures rewound { self.new.rewound ≡ drop_from }
        ensures same { (self.new.base ≡ self.old.base) × (self.new.limit ≡ self.old.limit) }
    {
        self.dropped += (self.taken.len() - drop_from as usize) as u64;
        self.rewound = drop_from;
        self.got = keep;
        self.taken.truncate(drop_from as usize);
    }
}
