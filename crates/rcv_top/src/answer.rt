// What the commands answer, from the bytes of an input to those of an output.

ghost use Rattle.std.specs.Prelude.{◌≡◌, ◌≤◌, ◌↔◌, length, IfOk, IsTrue};
ghost use Rattle.rcv_input.specs.declared.refused.Refused as refusals;
ghost use Rattle.rcv_input.specs.Line.{refusal_line};
ghost use Rattle.rcv_printer.specs.CanonicalText.{canonical};
ghost use Rattle.rcv_accept.specs.Accepted.{IsAcceptedProtocol};
ghost use Rattle.rcv_words.specs.Commands.{view_of, IsWithin, Replay};
ghost use Rattle.rcv_top.specs.Outcome.{IsAnswer};
ghost use Rattle.rcv_top.specs.Projection.{IsProjection};
ghost use Rattle.rcv_top.specs.Recovering.{IsTableText};
ghost use Rattle.rcv_top.specs.Writing.{Writes};

use crate::generated::run_generated;
use crate::line::run_line;
use crate::many::run_many;
use crate::output::{Output, put};
use crate::replaying::replay_answer;
use crate::run::run;
use crate::status::Status;
use rcv_accept::accepted::Accepted;
use rcv_gate::Gate;
use rcv_input::{InputError, Refused, read_input, refusal_line};
use rcv_io::Sink;
use rcv_printer::print_protocol;
use rcv_project::project;
use rcv_project::text::print_local;
use rcv_tables::making::table;
use rcv_tables::text::print_table;
use rcv_tree::protocol::Protocol;
use rcv_tree::role::RoleId;
use rcv_words::command::Command;
use std::alloc::{AllocError, Global};
use std::thread::Threads;

/// Writes a command's answer to the text that it works on, of at most 1,048,576 bytes, and says how that ended. The
/// answer is the first refusal of the text, or what the command makes of its protocol, its scripts and its plan. With
/// `--sessions`, `run` makes the journals of several sessions of them, or refuses these if they may make too many
/// events in all. `replay` first asks where the text is cut, and says what is right or wrong in the journal after the
/// bundle.
///
/// The error comes if memory runs out; then nothing was written.
pub fn answer<R: Threads + Sync, K: Sink, G: Gate + Sync>(
    rt: &R,
    alloc: Global,
    command: &Command,
    input: &[u8],
    sink: &mut K,
    gate: &G,
) -> Result<Status, AllocError>
    requires within { IsWithin (view_of command.now) }
    requires short { length input.now ≤ 1048576 }
    ensures later { K.faults sink.old ≤ K.faults sink.new }
    ensures answers { Writes (IsAnswer (view_of command.now) input.now)
        (K.written sink.old) (K.written sink.new) (K.faults sink.old) (K.faults sink.new) result }
{
    if is_replay(command) {
        return put(sink, replay_answer(alloc, input));
    }
    match read_input(alloc, input) {
        Ok(taken) => match command {
            Command::Run { workers, json } => { run(rt, alloc, taken, *workers, *json, sink, gate) }
            Command::RunMany {
                sessions,
                workers,
                json,
            } => run_many(
                rt, alloc, input, taken, *sessions, *workers, *json, sink, gate,
            ),
            // `taken` is dropped by name: at each later exit the prover would free it field by field.
            Command::Check => {
                let made = check(alloc, taken.accepted.protocol());
                drop(taken);
                put(sink, made)
            }
            Command::Project { role } => {
                let made = project_role(alloc, &taken.accepted, role.as_slice());
                drop(taken);
                put(sink, made)
            }
            Command::Table => {
                let made = write_tables(alloc, &taken.accepted);
                drop(taken);
                put(sink, made)
            }
            Command::Gen { number } => put(sink, run_generated(alloc, taken, *number)),
            Command::Line => put(sink, run_line(alloc, taken)),
            Command::Replay => unreachable!(),
        },
        Err(error) => put(sink, refuse(alloc, error)),
    }
}

// Whether a command judges a journal.
fn is_replay(command: &Command) -> bool
    ensures { IsTrue result ↔ view_of command.now ≡ Replay }
{
    matches!(command, Command::Replay)
}

// Writes the canonical text of a protocol.
fn check(alloc: Global, protocol: &Protocol) -> Result<Output, AllocError>
    ensures { IfOk result (λ output. (output.status ≡ Status.Completed)
        × (output.bytes.items ≡ canonical protocol.now)) }
{
    Ok(Output {
        status: Status::Completed,
        bytes: print_protocol(alloc, protocol)?,
    })
}

// Writes the recovery table of a protocol.
fn write_tables(alloc: Global, accepted: &Accepted) -> Result<Output, AllocError>
    ensures { IfOk result (λ output. (output.status ≡ Status.Completed)
        × IsTableText accepted.now.protocol output.bytes.items) }
{
    let table = table(alloc, accepted)?;
    Ok(Output {
        status: Status::Completed,
        bytes: print_table(alloc, &table, accepted)?,
    })
}

// Writes what the role with this name does, if the protocol declares it.
fn project_role(alloc: Global, accepted: &Accepted, name: &[u8]) -> Result<Output, AllocError>
    ensures { IfOk result (λ output. IsProjection accepted.now.protocol name.now output.status output.bytes.items) }
{
    // Tells the proof that the place of a role fits in a byte.
    let _count = accepted.roles();
    let Some(place) = accepted.protocol().roles.place_of(name) else {
        return Ok(Output {
            status: Status::Refused,
            bytes: refusal_line(alloc, &Refused::NoRole)?,
        });
    };
    let local = project(alloc, accepted, RoleId(place as u8))?;
    Ok(Output {
        status: Status::Completed,
        bytes: print_local(alloc, &local, accepted)?,
    })
}

// Writes the line of a refusal.
fn refuse(alloc: Global, error: InputError) -> Result<Output, AllocError>
    ensures { IfOk result (λ output. (refusal : refusals.Refused) × (error ≡ InputError.Refused refusal)
        × (output.status ≡ Status.Refused) × (output.bytes.items ≡ refusal_line refusal)) }
{
    match error {
        InputError::Refused(refused) => Ok(Output {
            status: Status::Refused,
            bytes: refusal_line(alloc, &refused)?,
        }),
        InputError::Memory => Err(AllocError),
    }
}
