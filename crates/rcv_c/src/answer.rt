// The last answer of a session.

ghost use Rattle.rcv_c.specs.Status.{Ends};
ghost use Rattle.rcv_c.specs.Telling.{Answers};

use crate::bytes::copy;
use crate::session::Session;
use crate::status::Status;
use std::alloc::Global;

// Gives the last answer.
fn answer(alloc: Global, session: &mut Session, out: &mut [u8], count: &mut usize) -> Status
    ensures { Answers session.old.handle.value session.new.handle.value out.old out.new count.old count.new result }
{
    let Some(held) = session.take(alloc) else {
        return Status::Closed;
    };
    let bytes = held.answer.as_slice();
    *count = bytes.len();
    if out.len() < bytes.len() {
        session.hold(held);
        return Status::Short;
    }
    copy(bytes, out);
    session.hold(held);
    Status::Done
}

/// Copies the bytes of a session's last answer to the front of `out`. Before a line was told it has none. `RCV_DONE` if
/// they fit. `RCV_SHORT` if they don't: then `out` is as before. In both cases `count` is how many they are.
/// `RCV_CLOSED` if the session is closed.
#[unsafe(no_mangle)]
pub extern "C" fn rcv_raw_answer(
    alloc: Global,
    session: &mut Session,
    out: &mut [u8],
    count: &mut usize,
) -> u8
    ensures { Ends result (Answers session.old.handle.value session.new.handle.value out.old out.new count.old count.new) }
{
    answer(alloc, session, out, count).number()
}
