// Events that are told as values: the answer says how they were heard, and no text is written.

ghost use Rattle.std.specs.Prelude.{◌≡◌};
ghost use Rattle.rcv_dialogue.specs.declared.line.Line.TheVariants as line;
ghost use Rattle.rcv_guided.specs.Events.{IsToldSend, IsToldRecv, IsToldSave};
ghost use Rattle.rcv_guided.specs.Typed.{IsHeardAs, heard_of};

use crate::session::GuidedSession;
use rcv_dialogue::answer::Answer;
use rcv_dialogue::line::{ToldRecv, ToldSave, ToldSend};
use std::alloc::Global;

/// How a told event was heard.
#[derive(Clone, Copy)]
pub enum Heard {
    /// It was taken. It has this stamp; a save has none, and 0 stands here.
    Done(u64),
    /// It may not come.
    Illegal,
    /// It is old news.
    Stale,
    /// There was no memory for it.
    Memory,
}

// How an event with this answer was heard. Events have only answers of these kinds.
fn heard_of(said: &Answer<'_>) -> Heard
    ensures { result ≡ heard_of said.now }
{
    match said {
        Answer::Done => Heard::Done(0),
        Answer::Sent(stamp) => Heard::Done(*stamp),
        Answer::Received { stamp, .. } => Heard::Done(*stamp),
        Answer::Stale(_) => Heard::Stale,
        Answer::Memory => Heard::Memory,
        _ => Heard::Illegal,
    }
}

impl GuidedSession {
    /// A role sends a message, as the line `send` tells it: the session hears that line, and this says which kind of
    /// answer it has. If it isn't taken, the session is as before, except that some of what is stable may be forgotten.
    pub fn tell_send(&mut self, alloc: Global, told: &ToldSend) -> Heard
        requires { IsToldSend self.old told.now }
        ensures heard { IsHeardAs self.old (line.Send told.now) self.new result }
        ensures protocol { self.new.guide.protocol ≡ self.old.guide.protocol }
    {
        if self.make_room(alloc).is_err() {
            return Heard::Memory;
        }
        if let Some(refusal) = self.refusal_of_send(told) {
            return heard_of(&refusal);
        }
        let answer = self.take_send(told);
        heard_of(&answer)
    }

    /// A role receives a message, as the line `recv` tells it; all else is as for `tell_send`.
    pub fn tell_receipt(&mut self, alloc: Global, told: &ToldRecv) -> Heard
        requires { IsToldRecv self.old told.now }
        ensures heard { IsHeardAs self.old (line.Recv told.now) self.new result }
        ensures protocol { self.new.guide.protocol ≡ self.old.guide.protocol }
    {
        if self.make_room(alloc).is_err() {
            return Heard::Memory;
        }
        if let Some(refusal) = self.refusal_of_receipt(told) {
            return heard_of(&refusal);
        }
        let answer = self.take_receipt(told);
        heard_of(&answer)
    }

    /// A role has saved its state, as the line `save` tells it; all else is as for `tell_send`.
    pub fn tell_save(&mut self, told: &ToldSave) -> Heard
        requires { IsToldSave self.old told.now }
        ensures heard { IsHeardAs self.old (line.Save told.now) self.new result }
        ensures protocol { self.new.guide.protocol ≡ self.old.guide.protocol }
    {
        if let Some(refusal) = self.refusal_of_save(told) {
            return heard_of(&refusal);
        }
        let answer = self.take_save(told);
        heard_of(&answer)
    }
}
