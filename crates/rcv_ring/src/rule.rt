// The ring as a table of two counts and a slot for each message: what each seat knows, the rule, and what each step
// tells.
use atomic_table::{Join, Play, Split, TableRule};
use rcv_tree::event::Message;
use std::collections::LinkedList;

/// What a ring is told once, when it is made.
#[derive(Drop)]
pub struct Key {
    pub room: u64,
    pub points: [u64; 4],
}

/// What a seat knows. No value of it is made.
pub struct View {
    // Whether it is the seat that may push, and the one that may pull.
    pub pushes: bool,
    pub pulls: bool,
    // What was sent and taken: all of its own doing, and of the other end's what it was told.
    pub sent: LinkedList<Message>,
    pub taken: LinkedList<Message>,
    // What the slot holds that is out with the seat, if one is.
    pub out: LinkedList<Message>,
    // The other end's count as the last look found it, as far as it is known, and how often it looked.
    pub seen: u64,
    pub known: u64,
    pub looks: u64,
    pub room: u64,
    pub points: [u64; 4],
}

// Where the counts lie in the table, and how many words it has. One thread writes the one count and one the other, so
// each has 15 words on either side that nobody writes: wherever the table lies, no other count and no other block of
// memory shares its cache line, or a pair of lines.
pub(crate) const PUT: usize = 16;

pub(crate) const GOT: usize = 32;

pub(crate) const WORDS: usize = 48;

/// The rule: what was taken begins what was sent, and what lies between stands in its slots.
pub struct InOrder;

impl TableRule<Message, View, Key> for InOrder {
    ghost use Rattle.rcv_ring.specs.Ring.{Ring};
    ghost use Rattle.rcv_ring.specs.Views.{newcomer};

    ghost holds = { λ k. Ring k.room k.points };

    ghost first = { λ k. newcomer k.room k.points };
}

/// The pusher has the slot after what it sent out, to write it as plain memory.
pub struct Claims;

impl Play<Message, View> for Claims {
    ghost use Rattle.rcv_ring.specs.Views.{Claimed};

    ghost then = { Claimed };
}

/// The pusher gives the slot back and counts its message: now it is sent.
pub struct Publishes;

impl Play<Message, View> for Publishes {
    ghost use Rattle.rcv_ring.specs.Views.{Published};

    ghost then = { Published };
}

/// The pusher looks at the count of what was taken.
pub struct SeesGot;

impl Play<Message, View> for SeesGot {
    ghost use Rattle.rcv_ring.specs.Views.{SawGot};

    ghost then = { SawGot };
}

/// The puller looks at the count of what was sent.
pub struct SeesPut;

impl Play<Message, View> for SeesPut {
    ghost use Rattle.rcv_ring.specs.Views.{SawPut};

    ghost then = { SawPut };
}

/// The puller has the front slot out, to read it as plain memory.
pub struct Lifts;

impl Play<Message, View> for Lifts {
    ghost use Rattle.rcv_ring.specs.Views.{Lifted};

    ghost then = { Lifted };
}

/// The puller gives the slot back and counts its message: now it may be filled again.
pub struct Releases;

impl Play<Message, View> for Releases {
    ghost use Rattle.rcv_ring.specs.Views.{Released};

    ghost then = { Released };
}

/// The first seat becomes the two ends.
pub struct Parts;

impl Split<View> for Parts {
    ghost use Rattle.rcv_ring.specs.Views.{pusher_of, puller_of};

    ghost left = { pusher_of };

    ghost right = { puller_of };
}

/// A note of what an end knows.
pub struct Notes;

impl Split<View> for Notes {
    ghost use Rattle.rcv_ring.specs.Views.{note_of};

    ghost left = { λ v. v };

    ghost right = { note_of };
}

/// The pusher hears what was taken.
pub struct HearsTaken;

impl Join<View> for HearsTaken {
    ghost use Rattle.rcv_ring.specs.Views.{heard_taken, spent};

    ghost both = { heard_taken };

    ghost spent = { spent };
}

/// The puller hears what was sent.
pub struct HearsSent;

impl Join<View> for HearsSent {
    ghost use Rattle.rcv_ring.specs.Views.{heard_sent, spent};

    ghost both = { heard_sent };

    ghost spent = { spent };
}
