// Checks a text, opens a session, and closes it.

ghost use Rattle.std.specs.Prelude.{◌≡◌, ◌≤◌, ℕ, List, length, None, MatchResult};
ghost use Rattle.rcv_input.specs.Refusals.{IsRefused};
ghost use Rattle.rcv_c.specs.Status.{Ends};
ghost use Rattle.rcv_c.specs.Opening.{Checks, Fails, IsBegun, Opens, saving_by};

use crate::held::Held;
use crate::refusal::{Refusal, refusal_for};
use crate::session::Session;
use crate::status::Status;
use rcv_guided::saving::Saving;
use rcv_guided::session::GuidedSession;
use rcv_input::{InputError, read_input};
use std::alloc::Global;

// The most bytes that a text may have.
const MOST: usize = 1048576;

/// The version of what `rcv.h` says.
#[unsafe(no_mangle)]
pub extern "C" fn rcv_raw_version() -> u32
    ensures { result ≡ 1 }
{
    1
}

// How a call ends if a text isn't taken. The refusal is written, if there is one.
fn failed(error: InputError, why: &mut Refusal) -> Status
    ensures { (text : List ℕ) → IsRefused text error → Fails text why.old why.new result }
{
    match error {
        InputError::Refused(refused) => {
            *why = refusal_for(&refused);
            Status::Refused
        }
        InputError::Memory => Status::Memory,
    }
}

// Whether a text is accepted.
fn check(alloc: Global, text: &[u8], why: &mut Refusal) -> Status
    ensures { Checks text.now why.old why.new result }
{
    if text.len() > MOST {
        return Status::Long;
    }
    match read_input(alloc, text) {
        Ok(_) => Status::Done,
        Err(error) => failed(error, why),
    }
}

/// Whether a text is an accepted protocol with scripts and a plan. `RCV_DONE` if it is. `RCV_REFUSED` if it isn't: then
/// `why` is its first refusal. `RCV_LONG` if it has more than 1,048,576 bytes. `RCV_MEMORY` if no memory was left to
/// tell.
#[unsafe(no_mangle)]
pub extern "C" fn rcv_raw_check(alloc: Global, text: &[u8], why: &mut Refusal) -> u8
    ensures { Ends result (Checks text.now why.old why.new) }
{
    check(alloc, text, why).number()
}

// What is known of saves.
fn saving_by(told: bool) -> Saving
    ensures { result ≡ saving_by told }
{
    if told { Saving::Told } else { Saving::ByPlan }
}

// The session of a text.
fn begin(alloc: Global, text: &[u8], saving: Saving) -> Result<Box<Held>, InputError>
    requires { length text.now ≤ 1048576 }
    ensures { MatchResult result (λ held. IsBegun text.now saving held.value) (IsRefused text.now) }
{
    let input = read_input(alloc, text)?;
    let session = GuidedSession::new(alloc, input.accepted, input.plan, saving)?;
    let held = Held {
        session,
        answer: Vec::new(alloc),
    };
    Ok(Box::new(alloc, held)?)
}

// Opens a session.
fn open(
    alloc: Global,
    session: &mut Session,
    text: &[u8],
    saving: Saving,
    why: &mut Refusal,
) -> Status
    ensures { Opens text.now saving session.old.handle.value session.new.handle.value why.old why.new result }
{
    if session.is_open() {
        return Status::Opened;
    }
    if text.len() > MOST {
        return Status::Long;
    }
    match begin(alloc, text, saving) {
        Ok(held) => {
            session.hold(held);
            Status::Done
        }
        Err(error) => failed(error, why),
    }
}

/// Opens a closed session on a text, as `rcv-guide` begins it, or, with `told`, as `rcv-guide --told`. `RCV_DONE` if it
/// is open now; `RCV_OPENED` if it was open before; `RCV_REFUSED`, `RCV_LONG` and `RCV_MEMORY` as `rcv_raw_check`.
/// Unless it is `RCV_DONE`, the session is as before.
#[unsafe(no_mangle)]
pub extern "C" fn rcv_raw_open(
    alloc: Global,
    session: &mut Session,
    text: &[u8],
    told: bool,
    why: &mut Refusal,
) -> u8
    ensures { Ends result (Opens text.now (saving_by told) session.old.handle.value session.new.handle.value why.old why.new) }
{
    open(alloc, session, text, saving_by(told), why).number()
}

/// Closes a session, and frees what it holds. A closed one stays closed.
#[unsafe(no_mangle)]
pub extern "C" fn rcv_raw_close(alloc: Global, session: &mut Session)
    ensures { session.new.handle.value ≡ None }
{
    let _held = session.take(alloc);
}
