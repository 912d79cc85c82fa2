// The end of a channel that sends.

ghost use Rattle.std.specs.Prelude.{◌≡◌, ◌+◌, ◌^◌, ◌<◌, ◌≤◌, [], ◌∷◌, ◌++◌, length, OnOk, IfErr, OnErr};
ghost use Rattle.std.specs.Prelude.{take as first_of};
ghost use Rattle.rcv_ring.specs.Points.{CanPass};
ghost use Rattle.rcv_ring.specs.Shown.{HasLooked};
ghost use Rattle.rcv_mailbox.specs.Ends.{End, IsChannel, IsSamePlace, IsUncut, WasFull, posted, through};

use rcv_ring::Pusher;
use rcv_tree::event::Message;
use std::marker::Model;

/// No room was left on the channel. The message comes back.
#[derive(Drop)]
pub struct Full(pub Message);

/// The end that sends. Contracts see what it put and what of that wasn't dropped; see `End` for the rest.
#[derive(Drop)]
pub struct Post {
    pub(crate) pusher: Pusher,
    pub(crate) put: Vec<Message>,
    pub(crate) limit: u32,
    // How many messages rewinds dropped, and how many the last one left.
    pub(crate) dropped: u64,
    pub(crate) rewound: u32,
}

impl Model for Post {
    ghost use Rattle.rcv_mailbox.specs.Ends.{End};

    ghost Value = { End };

    ghost use Rattle.std.specs.Prelude.{vec_capacity};
    ghost use Rattle.rcv_mailbox.specs.Ends.{post_of, IsPost};

    ghost view = { λ p. post_of p.pusher p.put.items p.limit p.dropped p.rewound };

    ghost invariant = { λ p. IsPost p.pusher p.put.items (vec_capacity p.put) p.limit p.dropped p.rewound };
}

impl Post {
    /// Sends a message of one of the channel's points, with a stamp up to 2^62. Fewer than `limit` messages are put
    /// before the call. If a look of this call found no room, the message comes back, and nothing is sent. It never
    /// waits, and takes no memory.
    pub fn send(&mut self, message: Message) -> Result<(), Full>
        requires passes { CanPass self.old.base.points message }
        requires through { through self.old < 2 ^ 62 }
        requires limit { length (posted self.old) < self.old.limit }
        ensures ok { OnOk result (posted self.new ≡ posted self.old ++ message ∷ []) }
        ensures through { OnOk result (through self.new ≡ through self.old + 1) }
        ensures err { IfErr result (λ full. full.0 ≡ message) }
        ensures kept { OnErr result ((posted self.new ≡ posted self.old) × (through self.new ≡ through self.old)) }
        ensures full { OnErr result (WasFull self.old self.new) }
        ensures looks { HasLooked self.old.base self.new.base }
        ensures same { IsUncut self.old self.new }
        ensures channel { (inbox : End) → IsChannel self.old inbox → IsChannel self.new inbox }
    {
        let Message {
            point,
            value,
            stamp,
        } = message;
        let sent = Message {
            point,
            value,
            stamp,
        };
        if let Err(message) = self.pusher.push(sent) {
            return Err(Full(message));
        }
        self.put.push_reserved(Message {
            point,
            value,
            stamp,
        });
        Ok(())
    }

    /// Drops what was put after so many of the first messages. The ring holds nothing.
    pub(crate) fn cut(&mut self, drop_from: u32)
        requires { drop_from ≤ length (posted self.old) }
        ensures put { posted self.new ≡ first_of drop_from (posted self.old) }
        ensures dropped { self.new.dropped + drop_from ≡ self.old.dropped + length (posted self.old) }
        ensures few { self.old.dropped + length (posted self.old) ≤ 2 ^ 62 }
        ensures rewound { self.new.rewound ≡ drop_from }
        ensures same { (self.new.base ≡ self.old.base) × (self.new.limit ≡ self.old.limit) }
    {
        self.dropped += (self.put.len() - drop_from as usize) as u64;
        self.rewound = drop_from;
        self.put.truncate(drop_from as usize);
    }
}
