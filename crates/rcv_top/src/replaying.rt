// What `replay` answers: whether the journal after a bundle is legal and whole.

ghost use Rattle.std.specs.Prelude.{◌≤◌, length, IfOk};
ghost use Rattle.rcv_top.specs.Replaying.{IsReplayAnswer, IsSaidOf};

use crate::output::Output;
use crate::status::Status;
use rcv_input::refusal_line;
use rcv_replay::lines::{legal_line, wrong_end_line, wrong_line};
use rcv_replay::replay::replay;
use rcv_replay::replayed::Replayed;
use std::alloc::{AllocError, Global};

/// The answer to an input of at most 1,048,576 bytes.
pub fn replay_answer(alloc: Global, input: &[u8]) -> Result<Output, AllocError>
    requires { length input.now ≤ 1048576 }
    ensures { IfOk result (λ output. IsReplayAnswer input.now output.status output.bytes.items) }
{
    let said = replay(alloc, input)?;
    say(alloc, &said)
}

// How that is said.
fn say(alloc: Global, said: &Replayed) -> Result<Output, AllocError>
    ensures { IfOk result (λ output. IsSaidOf said.now output.status output.bytes.items) }
{
    match said {
        Replayed::Refused(refused) => Ok(Output {
            status: Status::Refused,
            bytes: refusal_line(alloc, refused)?,
        }),
        Replayed::Legal { entries, limited } => Ok(Output {
            status: Status::Completed,
            bytes: legal_line(alloc, *entries, *limited)?,
        }),
        Replayed::WrongEntry(number) => Ok(Output {
            status: Status::Wrong,
            bytes: wrong_line(alloc, *number)?,
        }),
        Replayed::WrongEnd => Ok(Output {
            status: Status::Wrong,
            bytes: wrong_end_line(alloc)?,
        }),
    }
}
