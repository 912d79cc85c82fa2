// Lines that a session is told as text.

ghost use Rattle.std.specs.Prelude.{OnOk};
ghost use Rattle.rcv_c.specs.Status.{Ends};
ghost use Rattle.rcv_c.specs.Telling.{IsToldAs, TellsLine};

use crate::held::Held;
use crate::session::Session;
use crate::status::Status;
use rcv_talk::answers::answer_line;
use rcv_text::writer::Writer;
use std::alloc::{AllocError, Global};

// Tells a line to what is held. Fails if no memory is left for its answer.
fn answer(alloc: Global, held: &mut Held, line: &[u8]) -> Result<(), AllocError>
    ensures { OnOk result (IsToldAs line.now held.old held.new) }
{
    let mut text = Writer::new(alloc);
    answer_line(alloc, &mut held.session, line, &mut text)?;
    held.answer = text.finish();
    Ok(())
}

// Tells a line.
fn tell(alloc: Global, session: &mut Session, line: &[u8], count: &mut usize) -> Status
    ensures { TellsLine line.now session.old.handle.value session.new.handle.value count.old count.new result }
{
    let Some(mut held) = session.take(alloc) else {
        return Status::Closed;
    };
    match answer(alloc, &mut held, line) {
        Ok(()) => {
            *count = held.answer.as_slice().len();
            session.hold(held);
            Status::Done
        }
        Err(_) => Status::Memory,
    }
}

/// Tells a session any line of the dialogue, without the line feed at its end. `RCV_DONE` whatever the answer is: it
/// has `count` bytes, and `rcv_raw_answer` gives them. `RCV_CLOSED` if the session is closed. `RCV_MEMORY` if no memory
/// was left for the answer: then the session is closed.
#[unsafe(no_mangle)]
pub extern "C" fn rcv_raw_tell(
    alloc: Global,
    session: &mut Session,
    line: &[u8],
    count: &mut usize,
) -> u8
    ensures { Ends result (TellsLine line.now session.old.handle.value session.new.handle.value count.old count.new) }
{
    tell(alloc, session, line, count).number()
}
