// The answer to `replay`.

ghost use Rattle.std.specs.Prelude.{◌≡◌, ◌≤◌, length, IfOk};
ghost use Rattle.rcv_look.specs.Outcome.{IsReplayAnswer, status_of};

use crate::output::Output;
use crate::status::Status;
use rcv_diagnosis::diagnosis::{Finding, diagnose};
use std::alloc::{AllocError, Global};

/// The diagnosis of the journal that stands after the input's bundle. The input has at most 134,217,728 bytes. Fails
/// if memory runs out.
pub fn replay_answer(alloc: Global, input: &[u8]) -> Result<Output, AllocError>
    requires { length input.now ≤ 134217728 }
    ensures { IfOk result (λ output. IsReplayAnswer input.now output.status output.bytes.items) }
{
    let diagnosis = diagnose(alloc, input)?;
    Ok(Output {
        status: status_of(diagnosis.finding),
        bytes: diagnosis.bytes,
    })
}

// The status that says what was found.
fn status_of(finding: Finding) -> Status
    ensures { result ≡ status_of finding }
{
    match finding {
        Finding::Legal => Status::Drawn,
        Finding::Wrong => Status::Illegal,
        Finding::Refused => Status::Refused,
        Finding::TooLong => Status::TooLong,
    }
}
