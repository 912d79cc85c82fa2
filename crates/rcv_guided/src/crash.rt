// Told crashes.

ghost use Rattle.std.specs.Prelude.{◌≡◌, ◌<◌, OnOk};
ghost use Rattle.rcv_dialogue.specs.declared.line.Line.TheVariants as line;
ghost use Rattle.rcv_guided.specs.Session.{roles_in};
ghost use Rattle.rcv_dialogue.specs.Answers.{IsNamed};
ghost use Rattle.rcv_guided.specs.Hearing.{accepted_of};
ghost use Rattle.rcv_guided.specs.Answers.{ComesBy, IsAnswer, Says};

use crate::session::GuidedSession;
use rcv_dialogue::answer::{Answer, Cause};
use rcv_text::writer::Writer;
use rcv_tree::role::RoleId;
use std::alloc::AllocError;

impl GuidedSession {
    // Takes a crash, if it may come.
    fn take_crash(&mut self, role: RoleId) -> Answer<'static>
        requires { role < roles_in self.old }
        ensures comes { ComesBy self.old (line.Crash role) self.new result }
        ensures named { IsNamed (accepted_of self.new) result }
        ensures protocol { self.new.guide.protocol ≡ self.old.guide.protocol }
    {
        if self.guide.is_down(role) {
            return Answer::Illegal(Cause::Down);
        }
        match self.guide.tell_crash(role) {
            Ok(()) => Answer::Done,
            // So much was told that nothing more can be.
            Err(_) => Answer::Memory,
        }
    }

    // A role is down. It takes no memory except for the text.
    pub(crate) fn hear_crash(&mut self, role: RoleId, text: &mut Writer) -> Result<(), AllocError>
        requires { role < roles_in self.old }
        ensures says { OnOk result (Says (accepted_of self.old) text.old text.new
            (IsAnswer self.old (line.Crash role) self.new)) }
        ensures protocol { self.new.guide.protocol ≡ self.old.guide.protocol }
    {
        let answer = Some(self.take_crash(role));
        self.say_found(text, &answer)
    }
}
