// Told sends.

ghost use Rattle.std.specs.Prelude.{◌≡◌, ◌⊎◌, MatchOption, IfSome, OnOk};
ghost use Rattle.rcv_dialogue.specs.declared.line.Line.TheVariants as line;
ghost use Rattle.rcv_dialogue.specs.declared.answer.Answer.TheVariants as answer;
ghost use Rattle.rcv_dialogue.specs.Answers.{IsNamed};
ghost use Rattle.rcv_guided.specs.Hearing.{accepted_of, IsHeard};
ghost use Rattle.rcv_guided.specs.Events.{IsToldSend, MaySend, IsMistakenSend, IsRefusalOfSend};
ghost use Rattle.rcv_guided.specs.Answers.{ComesBy, IsAnswer, Says};

use crate::hearing::refusal_of_stamp;
use crate::session::GuidedSession;
use rcv_dialogue::answer::{Answer, Cause};
use rcv_dialogue::line::ToldSend;
use rcv_guide::cause::Cause as Obstacle;
use rcv_text::writer::Writer;
use std::alloc::{AllocError, Global};

impl GuidedSession {
    // The answer if a send of a role that is heard is mistaken.
    fn mistake_in_send(&self, told: &ToldSend) -> Option<Answer<'_>>
        requires told { IsToldSend self.now told.now }
        requires heard { IsHeard self.now told.now.role told.now.incarnation }
        ensures why { MatchOption result (MaySend self.now told.now)
            (λ said. IsMistakenSend self.now told.now said ⊎ (said ≡ answer.Memory)) }
        ensures named { IfSome result (IsNamed (accepted_of self.now)) }
    {
        let news = self.news(told.role, told.point, told.value);
        match self.guide.may_send(&news) {
            Ok(()) => refusal_of_stamp(told.stamp, self.guide.clock(told.role) + 1),
            Err(Obstacle::NotNext) => Some(Answer::Illegal(Cause::Turn(self.turn(told.role)))),
            // So much was told that nothing more can be.
            Err(_) => Some(Answer::Memory),
        }
    }

    // The answer if a send isn't taken.
    pub(crate) fn refusal_of_send(&self, told: &ToldSend) -> Option<Answer<'_>>
        requires { IsToldSend self.now told.now }
        ensures why { MatchOption result (MaySend self.now told.now)
            (λ said. IsRefusalOfSend self.now told.now said ⊎ (said ≡ answer.Memory)) }
        ensures named { IfSome result (IsNamed (accepted_of self.now)) }
    {
        if let Some(unheard) = self.refusal_to_hear(told.role, told.incarnation) {
            return Some(unheard);
        }
        self.mistake_in_send(told)
    }

    // Takes a send that may come.
    pub(crate) fn take_send(&mut self, told: &ToldSend) -> Answer<'static>
        requires told { IsToldSend self.old told.now }
        requires may { MaySend self.old told.now }
        ensures comes { ComesBy self.old (line.Send told.now) self.new result }
        ensures named { IsNamed (accepted_of self.new) result }
        ensures protocol { self.new.guide.protocol ≡ self.old.guide.protocol }
    {
        let news = self.news(told.role, told.point, told.value);
        match self.guide.tell_sent(&news) {
            Ok(stamp) => Answer::Sent(stamp),
            Err(_) => Answer::Memory,
        }
    }

    // A role sends a message.
    pub(crate) fn hear_send(
        &mut self,
        alloc: Global,
        told: &ToldSend,
        text: &mut Writer,
    ) -> Result<(), AllocError>
        requires { IsToldSend self.old told.now }
        ensures says { OnOk result (Says (accepted_of self.old) text.old text.new
            (IsAnswer self.old (line.Send told.now) self.new)) }
        ensures protocol { self.new.guide.protocol ≡ self.old.guide.protocol }
    {
        if self.make_room(alloc).is_err() {
            return self.say(text, &Answer::Memory);
        }
        if let Some(refusal) = self.refusal_of_send(told) {
            return self.say(text, &refusal);
        }
        let answer = self.take_send(told);
        self.say(text, &answer)
    }
}
