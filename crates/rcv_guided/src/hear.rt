// Lines, heard one by one.

ghost use Rattle.std.specs.Prelude.{◌≡◌, OnOk};
ghost use Rattle.rcv_dialogue.specs.Lines.{IsLine};
ghost use Rattle.rcv_guided.specs.Hearing.{accepted_of};
ghost use Rattle.rcv_guided.specs.Answers.{IsAnswer, Says};

use crate::session::GuidedSession;
use rcv_dialogue::line::Line;
use rcv_text::writer::Writer;
use std::alloc::{AllocError, Global};

impl GuidedSession {
    /// Hears a line of the session's protocol, and the text goes on with its answer. Fails if memory runs out for
    /// that: then nothing is said of the session.
    pub fn hear(&mut self, alloc: Global, line: &Line, text: &mut Writer) -> Result<(), AllocError>
        requires { IsLine (accepted_of self.old) line.now }
        ensures says { OnOk result (Says (accepted_of self.old) text.old text.new (IsAnswer self.old line.now self.new)) }
        ensures protocol { self.new.guide.protocol ≡ self.old.guide.protocol }
    {
        match line {
            Line::Send(told) => self.hear_send(alloc, told, text),
            Line::Recv(told) => self.hear_receipt(alloc, told, text),
            Line::Save(told) => self.hear_save(told, text),
            Line::Fail(failed) => self.hear_fail(alloc, failed, text),
            Line::Crash(role) => self.hear_crash(*role, text),
            Line::Recover(told) => self.hear_recover(alloc, told, text),
            Line::Again(told) => self.hear_again(alloc, told, text),
            Line::Ask(asked) => self.hear_asked(alloc, *asked, text),
        }
    }
}
