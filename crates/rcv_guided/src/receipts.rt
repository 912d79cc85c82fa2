// Told receives.

ghost use Rattle.std.specs.Prelude.{◌≡◌, ◌⊎◌, ◌↔◌, [], IsTrue, MatchOption, IfSome, OnOk, slice_get};
ghost use Rattle.rcv_dialogue.specs.declared.line.Line.TheVariants as line;
ghost use Rattle.rcv_dialogue.specs.declared.answer.Answer.TheVariants as answer;
ghost use Rattle.rcv_dialogue.specs.Answers.{IsDeclared, IsNamed};
ghost use Rattle.rcv_guided.specs.Hearing.{accepted_of, IsHeard};
ghost use Rattle.rcv_guided.specs.Events.{IsToldRecv, IsOldMessage, IsNewReceipt, MayReceive, IsMistakenReceipt, IsRefusalOfReceipt, SaysFront, channel_of, stamp_told};
ghost use Rattle.rcv_guided.specs.Answers.{ComesBy, IsAnswer, Says};

use crate::hearing::refusal_of_stamp;
use crate::session::GuidedSession;
use rcv_dialogue::answer::{Answer, Cause, Stale};
use rcv_dialogue::line::ToldRecv;
use rcv_guide::cause::Cause as Obstacle;
use rcv_text::writer::Writer;
use rcv_tree::event::Message;
use std::alloc::{AllocError, Global};

impl GuidedSession {
    // The message in front of the channel from the point's sender, if there is one.
    fn front_of(&self, told: &ToldRecv) -> Option<Message>
        requires { IsToldRecv self.now told.now }
        ensures front { result ≡ slice_get (channel_of self.now told.now) 0 }
        ensures declared { IfSome result (λ front. IsDeclared (accepted_of self.now) front.point) }
    {
        self.guide.front(self.sender(told.point), told.role)
    }

    // Whether the message was received before, or its Send was taken back.
    fn is_old_message(&self, told: &ToldRecv) -> bool
        requires { IsToldRecv self.now told.now }
        ensures { IsTrue result ↔ IsOldMessage self.now told.now }
    {
        let Some(sent) = told.sent else {
            return false;
        };
        if self.receiver(told.point) != told.role {
            return false;
        }
        match self.front_of(told) {
            Some(front) => sent < front.stamp,
            None => sent <= self.guide.clock(self.sender(told.point)),
        }
    }

    // The stamp of the told message. If it isn't told, it is that of the message in front.
    fn stamp_told(&self, told: &ToldRecv) -> u64
        requires { IsToldRecv self.now told.now }
        ensures { result ≡ stamp_told told.now.sent (channel_of self.now told.now) }
    {
        match (told.sent, self.front_of(told)) {
            (Some(sent), _) => sent,
            (None, Some(front)) => front.stamp,
            (None, None) => 0,
        }
    }

    // The answer if another message is in front.
    fn other_in_front(&self, told: &ToldRecv) -> Option<Answer<'_>>
        requires { IsToldRecv self.now told.now }
        ensures why { MatchOption result (channel_of self.now told.now ≡ []) (SaysFront self.now told.now) }
        ensures named { IfSome result (IsNamed (accepted_of self.now)) }
    {
        let Some(front) = self.front_of(told) else {
            return None;
        };
        Some(Answer::Illegal(Cause::Front(front)))
    }

    // The answer if a receive of a role that is heard isn't timely, or is mistaken.
    fn mistake_in_receipt(&self, told: &ToldRecv) -> Option<Answer<'_>>
        requires told { IsToldRecv self.now told.now }
        requires new { IsNewReceipt self.now told.now }
        ensures why { MatchOption result (MayReceive self.now told.now)
            (λ said. IsMistakenReceipt self.now told.now said ⊎ (said ≡ answer.Memory)) }
        ensures named { IfSome result (IsNamed (accepted_of self.now)) }
    {
        let news = self.news(told.role, told.point, told.value);
        let sent = self.stamp_told(told);
        match self.guide.may_receive(&news, sent) {
            Ok(()) => refusal_of_stamp(told.stamp, self.guide.clock(told.role).max(sent) + 1),
            Err(Obstacle::NotNext) => Some(Answer::Illegal(Cause::Turn(self.turn(told.role)))),
            Err(Obstacle::Empty) => Some(Answer::Illegal(Cause::Empty)),
            Err(Obstacle::NotFront) => self.other_in_front(told),
            // So much was told that nothing more can be.
            Err(_) => Some(Answer::Memory),
        }
    }

    // The answer if a receive isn't taken.
    pub(crate) fn refusal_of_receipt(&self, told: &ToldRecv) -> Option<Answer<'_>>
        requires { IsToldRecv self.now told.now }
        ensures why { MatchOption result (MayReceive self.now told.now)
            (λ said. IsRefusalOfReceipt self.now told.now said ⊎ (said ≡ answer.Memory)) }
        ensures named { IfSome result (IsNamed (accepted_of self.now)) }
    {
        if let Some(unheard) = self.refusal_to_hear(told.role, told.incarnation) {
            return Some(unheard);
        }
        if self.is_old_message(told) {
            return Some(Answer::Stale(Stale::Message));
        }
        self.mistake_in_receipt(told)
    }

    // Takes a receive that may come.
    pub(crate) fn take_receipt(&mut self, told: &ToldRecv) -> Answer<'static>
        requires told { IsToldRecv self.old told.now }
        requires may { MayReceive self.old told.now }
        ensures comes { ComesBy self.old (line.Recv told.now) self.new result }
        ensures named { IsNamed (accepted_of self.new) result }
        ensures protocol { self.new.guide.protocol ≡ self.old.guide.protocol }
    {
        let news = self.news(told.role, told.point, told.value);
        let sent = self.stamp_told(told);
        match self.guide.tell_received(&news, sent) {
            Ok(stamp) => Answer::Received { stamp, sent },
            Err(_) => Answer::Memory,
        }
    }

    // A role receives a message.
    pub(crate) fn hear_receipt(
        &mut self,
        alloc: Global,
        told: &ToldRecv,
        text: &mut Writer,
    ) -> Result<(), AllocError>
        requires { IsToldRecv self.old told.now }
        ensures says { OnOk result (Says (accepted_of self.old) text.old text.new
            (IsAnswer self.old (line.Recv told.now) self.new)) }
        ensures protocol { self.new.guide.protocol ≡ self.old.guide.protocol }
    {
        if self.make_room(alloc).is_err() {
            return self.say(text, &Answer::Memory);
        }
        if let Some(refusal) = self.refusal_of_receipt(told) {
            return self.say(text, &refusal);
        }
        let answer = self.take_receipt(told);
        self.say(text, &answer)
    }
}
