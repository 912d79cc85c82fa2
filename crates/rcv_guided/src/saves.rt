// Told saves.

ghost use Rattle.std.specs.Prelude.{◌≡◌, MatchOption, IfSome, OnOk};
ghost use Rattle.rcv_dialogue.specs.declared.line.Line.TheVariants as line;
ghost use Rattle.rcv_dialogue.specs.Answers.{IsNamed};
ghost use Rattle.rcv_guided.specs.Hearing.{accepted_of};
ghost use Rattle.rcv_guided.specs.Events.{IsToldSave, MaySave, IsRefusalOfSave};
ghost use Rattle.rcv_guided.specs.Answers.{ComesBy, IsAnswer, Says};

use crate::counts::made;
use crate::session::GuidedSession;
use rcv_dialogue::answer::{Answer, Cause};
use rcv_dialogue::line::ToldSave;
use rcv_text::writer::Writer;
use std::alloc::AllocError;

impl GuidedSession {
    // The answer if a save isn't taken.
    pub(crate) fn refusal_of_save(&self, told: &ToldSave) -> Option<Answer<'_>>
        requires { IsToldSave self.now told.now }
        ensures why { MatchOption result (MaySave self.now told.now) (IsRefusalOfSave self.now told.now) }
        ensures named { IfSome result (IsNamed (accepted_of self.now)) }
    {
        if let Some(unheard) = self.refusal_to_hear(told.role, told.incarnation) {
            return Some(unheard);
        }
        let made = made(&self.guide, told.role);
        if told.count > made {
            return Some(Answer::Illegal(Cause::Count(made)));
        }
        None
    }

    // Takes a save that may come. What is forgotten is saved already.
    pub(crate) fn take_save(&mut self, told: &ToldSave) -> Answer<'static>
        requires told { IsToldSave self.old told.now }
        requires may { MaySave self.old told.now }
        ensures comes { ComesBy self.old (line.Save told.now) self.new result }
        ensures named { IsNamed (accepted_of self.new) result }
        ensures protocol { self.new.guide.protocol ≡ self.old.guide.protocol }
    {
        if told.count <= self.guide.forgotten(told.role) {
            return Answer::Done;
        }
        match self.saves.save(told.role, told.count) {
            Ok(()) => Answer::Done,
            Err(_) => Answer::Memory,
        }
    }

    // A role has saved its state.
    pub(crate) fn hear_save(&mut self, told: &ToldSave, text: &mut Writer) -> Result<(), AllocError>
        requires { IsToldSave self.old told.now }
        ensures says { OnOk result (Says (accepted_of self.old) text.old text.new
            (IsAnswer self.old (line.Save told.now) self.new)) }
        ensures protocol { self.new.guide.protocol ≡ self.old.guide.protocol }
    {
        if let Some(refusal) = self.refusal_of_save(told) {
            return self.say(text, &refusal);
        }
        let answer = self.take_save(told);
        self.say(text, &answer)
    }
}
