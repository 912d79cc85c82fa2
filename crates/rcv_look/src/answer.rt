// What the commands answer, from the bytes of an input to those of an output.

ghost use Rattle.std.specs.Prelude.{◌≤◌, length, IfOk};
ghost use Rattle.rcv_look.specs.Asking.{most_for};
ghost use Rattle.rcv_look.specs.Commands.{view_of, IsWithin};
ghost use Rattle.rcv_look.specs.Outcome.{IsAnswer};

use crate::charts::{protocol_answer, role_answer, table_answer};
use crate::command::Command;
use crate::exports::{role_json_answer, table_json_answer};
use crate::failures::{Form, failures_answer};
use crate::journal::journal_answer;
use crate::output::Output;
use crate::replay::replay_answer;
use crate::session::session_answer;
use crate::texts::{explain_answer, points_answer, points_json_answer};
use crate::told::told_answer;
use std::alloc::{AllocError, Global};

/// What a command answers to its input. Fails if memory runs out.
pub fn answer(alloc: Global, command: &Command, input: &[u8]) -> Result<Output, AllocError>
    requires within { IsWithin (view_of command.now) }
    requires short { length input.now ≤ most_for (view_of command.now) }
    ensures { IfOk result (λ output. IsAnswer (view_of command.now) input.now output.status output.bytes.items) }
{
    match command {
        Command::Journal => journal_answer(alloc, input),
        Command::Session { number } => session_answer(alloc, input, *number),
        Command::Told => told_answer(alloc, input),
        Command::Replay => replay_answer(alloc, input),
        Command::Table => table_answer(alloc, input),
        Command::TableJson => table_json_answer(alloc, input),
        Command::Role { role } => role_answer(alloc, input, role.as_slice()),
        Command::RoleJson { role } => role_json_answer(alloc, input, role.as_slice()),
        Command::Protocol => protocol_answer(alloc, input),
        Command::Points => points_answer(alloc, input),
        Command::PointsJson => points_json_answer(alloc, input),
        Command::Failures => failures_answer(alloc, input, Form::Picture),
        Command::FailuresText => failures_answer(alloc, input, Form::Text),
        Command::FailuresJson => failures_answer(alloc, input, Form::Json),
        Command::Explain { code } => explain_answer(alloc, *code),
    }
}
