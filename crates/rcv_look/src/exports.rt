// The answer to `table --json` and `role --json`.

ghost use Rattle.std.specs.Prelude.{◌≡◌, ◌<◌, ◌≤◌, length, IfOk};
ghost use Rattle.rcv_accept.specs.Accepted.{roles_of};
ghost use Rattle.rcv_look.specs.Commands.{ExportTable, ExportRole};
ghost use Rattle.rcv_look.specs.Drawing.{IsTableJson, IsRoleJson, IsRoleAnswer};
ghost use Rattle.rcv_look.specs.Outcome.{IsChartAnswer};

use crate::lines::{refuse, refused};
use crate::output::Output;
use crate::status::Status;
use rcv_accept::accepted::Accepted;
use rcv_export::{role_json, table_json};
use rcv_input::{Refused, read_input};
use rcv_project::project;
use rcv_tables::making::table;
use rcv_tree::role::RoleId;
use std::alloc::{AllocError, Global};

/// The recovery table of the input's protocol as JSON, or the input's first refusal. The input has at most 1,048,576
/// bytes. Fails if memory runs out.
pub fn table_json_answer(alloc: Global, input: &[u8]) -> Result<Output, AllocError>
    requires { length input.now ≤ 1048576 }
    ensures { IfOk result (λ output. IsChartAnswer ExportTable input.now output.status output.bytes.items) }
{
    match read_input(alloc, input) {
        Ok(taken) => write_table(alloc, &taken.accepted),
        Err(error) => refuse(alloc, error),
    }
}

/// What the role with this name does, as JSON, or the line for a role that isn't declared; else as `table_json_answer`.
pub fn role_json_answer(alloc: Global, input: &[u8], name: &[u8]) -> Result<Output, AllocError>
    requires { length input.now ≤ 1048576 }
    ensures { IfOk result (λ output. IsChartAnswer (ExportRole name.now) input.now output.status output.bytes.items) }
{
    match read_input(alloc, input) {
        Ok(taken) => write_role(alloc, &taken.accepted, name),
        Err(error) => refuse(alloc, error),
    }
}

// Writes the recovery table of a protocol.
fn write_table(alloc: Global, accepted: &Accepted) -> Result<Output, AllocError>
    ensures { IfOk result (λ output. (output.status ≡ Status.Drawn)
        × IsTableJson accepted.now.protocol output.bytes.items) }
{
    let table = table(alloc, accepted)?;
    Ok(Output {
        status: Status::Drawn,
        bytes: table_json(alloc, accepted, &table)?,
    })
}

// The machine of a declared role.
fn machine_text(alloc: Global, accepted: &Accepted, role: RoleId) -> Result<Vec<u8>, AllocError>
    requires { role < roles_of accepted.now }
    ensures { IfOk result (λ text. IsRoleJson accepted.now.protocol role text.items) }
{
    let local = project(alloc, accepted, role)?;
    role_json(alloc, accepted, &local)
}

// Writes what the role with this name does, if the protocol declares it.
fn write_role(alloc: Global, accepted: &Accepted, name: &[u8]) -> Result<Output, AllocError>
    ensures { IfOk result (λ output. IsRoleAnswer (IsRoleJson accepted.now.protocol) accepted.now.protocol name.now
        output.status output.bytes.items) }
{
    // Tells the proof that the place of a role fits in a byte.
    let _count = accepted.roles();
    let Some(place) = accepted.protocol().roles.place_of(name) else {
        return refused(alloc, &Refused::NoRole);
    };
    Ok(Output {
        status: Status::Drawn,
        bytes: machine_text(alloc, accepted, RoleId(place as u8))?,
    })
}
