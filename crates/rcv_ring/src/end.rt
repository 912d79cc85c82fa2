// A seat of the ring's table, with the steps that either end makes on it.

ghost use Rattle.std.specs.Prelude.{◌≡◌, ◌<◌, []};
ghost use Rattle.std.specs.Arc.{arc_value};
ghost use Rattle.rcv_ring.specs.Places.{all_words};

use crate::rule::{
    Claims, GOT, HearsSent, HearsTaken, InOrder, Key, Lifts, Notes, PUT, Parts, Publishes,
    Releases, SeesGot, SeesPut, View, WORDS,
};
use atomic_table::{Seat, Table};
use rcv_tree::event::Message;
use rcv_tree::point::Point;
use std::alloc::{AllocError, Global};
use std::sync::Arc;

type Cells = Table<Message, View, Key, InOrder, Global>;

/// A seat of the table that both ends share. It says what the seat knows; each end keeps what it needs of that at hand.
#[derive(Drop)]
pub(crate) struct End {
    table: Arc<Cells, Global>,
    pub(crate) seat: Seat<Message, View>,
    ghost seated: { seat.table_id ≡ (arc_value table).shared.table_id },
    ghost sized: { (arc_value table).shared.table_id.words ≡ all_words },
    ghost idle: { seat.me.1 ≡ [] },
    ghost roomy: { 0 < seat.me.0.room },
}

impl End {
    ghost use Rattle.std.specs.Prelude.{◌≡◌, ◌+◌, ◌<◌, ◌≤◌, true, [], ◌∷◌, length, IfOk};
    ghost use Rattle.rcv_ring.specs.Points.{CanPass};
    ghost use Rattle.rcv_ring.specs.Lists.{Begins};
    ghost use Rattle.rcv_ring.specs.Views.{newcomer, pusher_of, puller_of, note_of, heard_taken, heard_sent};
    ghost use Rattle.rcv_ring.specs.Views.{published, holding, released, looked, Pushing, Pulling, MayFill, MayRead};
    ghost use Rattle.rcv_ring.specs.Views.{fill_place, read_place};

    /// The two ends of a new ring.
    pub(crate) fn both(alloc: Global, key: &Key) -> Result<(End, End), AllocError>
        requires { (0 < key.now.room) × (key.now.room ≤ 1024) }
        ensures pusher { IfOk result (λ t. t.0.seat.me.0 ≡ pusher_of (newcomer key.now.room key.now.points)) }
        ensures puller { IfOk result (λ t. t.1.seat.me.0 ≡ puller_of (newcomer key.now.room key.now.points)) }
        ensures ring { IfOk result (λ t. t.0.seat.table_id ≡ t.1.seat.table_id) }
    {
        let mut pusher = End::first(alloc, key)?;
        let puller = pusher.part()?;
        Ok((pusher, puller))
    }

    // The first seat of a new ring, which is both ends.
    fn first(alloc: Global, key: &Key) -> Result<End, AllocError>
        requires { (0 < key.now.room) × (key.now.room ≤ 1024) }
        ensures { IfOk result (λ end. end.seat.me.0 ≡ newcomer key.now.room key.now.points) }
    {
        let words = vec![in alloc; 0u64; WORDS]?;
        // Each slot holds some message, which nobody reads before another is written over it.
        let none = Message {
            point: Point(0),
            value: 0,
            stamp: 0,
        };
        let slots = vec![in alloc; none; key.room as usize]?;
        let Ok((table, seat)) = Table::new(alloc, words.as_slice(), slots, key) else {
            return Err(AllocError);
        };
        let table = Arc::new(alloc, table)?;
        Ok(End { table, seat })
    }

    // Leaves this seat the pusher's, and gives the puller's.
    fn part(&mut self) -> Result<End, AllocError>
        requires both { (self.old.seat.me.0.pushes ≡ true) × (self.old.seat.me.0.pulls ≡ true) }
        requires empty { self.old.seat.me.0.out ≡ [] }
        ensures this { IfOk result (λ end. self.new.seat.me.0 ≡ pusher_of self.old.seat.me.0) }
        ensures that { IfOk result (λ end. end.seat.me.0 ≡ puller_of self.old.seat.me.0) }
        ensures ring { IfOk result (λ end. self.new.seat.table_id ≡ end.seat.table_id) }
    {
        let table = Arc::try_clone(&self.table)?;
        let seat = self.table.shared.split_seat::<Parts>(&mut self.seat);
        Ok(End { table, seat })
    }

    /// Sends the message in this slot: so many are sent now. The slot is plain memory, so this writes one word alone:
    /// each write of a word is an exchange, which waits until all that was written before is seen by all.
    pub(crate) fn send(&mut self, slot: usize, put: u64, message: Message)
        requires pushes { Pushing self.old.seat.me.0 }
        requires between { self.old.seat.me.0.out ≡ [] }
        requires passes { CanPass self.old.seat.me.0.points message }
        requires room { MayFill self.old.seat.me.0 }
        requires place { slot ≡ fill_place self.old.seat.me.0 }
        requires next { put ≡ length self.old.seat.me.0.sent + 1 }
        ensures ring { self.new.seat.table_id ≡ self.old.seat.table_id }
        ensures view { self.new.seat.me.0 ≡ published self.old.seat.me.0 (message ∷ []) }
    {
        let shared = &self.table.shared;
        shared.load::<Claims>(&mut self.seat, PUT);
        shared.exchange(&mut self.seat, slot, message);
        shared.swap::<Publishes>(&mut self.seat, PUT, put);
    }

    /// Looks how many messages were taken.
    pub(crate) fn see_got(&mut self) -> u64
        requires { Pushing self.old.seat.me.0 }
        ensures ring { self.new.seat.table_id ≡ self.old.seat.table_id }
        ensures view { self.new.seat.me.0 ≡ looked self.old.seat.me.0 result }
        ensures known { self.old.seat.me.0.known ≤ result }
        ensures some { result ≤ length self.old.seat.me.0.sent }
        ensures most { length self.old.seat.me.0.sent ≤ result + self.old.seat.me.0.room }
        ensures begins { Begins self.old.seat.me.0.taken self.old.seat.me.0.sent }
    {
        self.table.shared.load::<SeesGot>(&mut self.seat, GOT)
    }

    /// Looks how many messages were sent.
    pub(crate) fn see_put(&mut self) -> u64
        requires { Pulling self.old.seat.me.0 }
        ensures ring { self.new.seat.table_id ≡ self.old.seat.table_id }
        ensures view { self.new.seat.me.0 ≡ looked self.old.seat.me.0 result }
        ensures known { self.old.seat.me.0.known ≤ result }
        ensures all { length self.old.seat.me.0.taken ≤ result }
        ensures few { result ≤ length self.old.seat.me.0.taken + self.old.seat.me.0.room }
    {
        self.table.shared.load::<SeesPut>(&mut self.seat, PUT)
    }

    /// Takes the message of this slot, and gives the slot free: so many are taken now. This, too, writes one word
    /// alone.
    pub(crate) fn take(&mut self, slot: usize, got: u64) -> Message
        requires pulls { Pulling self.old.seat.me.0 }
        requires between { self.old.seat.me.0.out ≡ [] }
        requires more { MayRead self.old.seat.me.0 }
        requires place { slot ≡ read_place self.old.seat.me.0 }
        requires next { got ≡ length self.old.seat.me.0.taken + 1 }
        ensures ring { self.new.seat.table_id ≡ self.old.seat.table_id }
        ensures view { self.new.seat.me.0 ≡ released (holding self.old.seat.me.0 result) }
        ensures passes { CanPass self.old.seat.me.0.points result }
    {
        let shared = &self.table.shared;
        shared.load::<Lifts>(&mut self.seat, GOT);
        let message = *self.seat.slot_mut(shared, slot);
        shared.swap::<Releases>(&mut self.seat, GOT, got);
        message
    }

    /// The pusher hears what the puller took.
    pub(crate) fn hear_taken(&mut self, puller: &mut End)
        requires pushes { Pushing self.old.seat.me.0 }
        requires ring { puller.old.seat.table_id ≡ self.old.seat.table_id }
        ensures ring { self.new.seat.table_id ≡ self.old.seat.table_id }
        ensures view { self.new.seat.me.0 ≡ heard_taken self.old.seat.me.0 puller.old.seat.me.0 }
        ensures beside_ring { puller.new.seat.table_id ≡ puller.old.seat.table_id }
        ensures beside_view { puller.new.seat.me.0 ≡ puller.old.seat.me.0 }
    {
        let note = puller.note();
        self.table
            .shared
            .join_seat::<HearsTaken>(&mut self.seat, note);
    }

    /// The puller hears what the pusher sent.
    pub(crate) fn hear_sent(&mut self, pusher: &mut End)
        requires pulls { Pulling self.old.seat.me.0 }
        requires ring { pusher.old.seat.table_id ≡ self.old.seat.table_id }
        ensures ring { self.new.seat.table_id ≡ self.old.seat.table_id }
        ensures view { self.new.seat.me.0 ≡ heard_sent self.old.seat.me.0 pusher.old.seat.me.0 }
        ensures beside_ring { pusher.new.seat.table_id ≡ pusher.old.seat.table_id }
        ensures beside_view { pusher.new.seat.me.0 ≡ pusher.old.seat.me.0 }
    {
        let note = pusher.note();
        self.table
            .shared
            .join_seat::<HearsSent>(&mut self.seat, note);
    }

    // A seat that knows what this one knows, and may do nothing.
    fn note(&mut self) -> Seat<Message, View>
        ensures ring { self.new.seat.table_id ≡ self.old.seat.table_id }
        ensures view { self.new.seat.me.0 ≡ self.old.seat.me.0 }
        ensures note_ring { result.table_id ≡ self.old.seat.table_id }
        ensures note_view { result.me ≡ (note_of self.old.seat.me.0, []) }
    {
        self.table.shared.split_seat::<Notes>(&mut self.seat)
    }
}
