// The answer to `table`, `role` and `protocol`.

ghost use Rattle.std.specs.Prelude.{◌≡◌, ◌≤◌, length, IfOk};
ghost use Rattle.rcv_look.specs.Commands.{DrawTable, DrawRole, DrawProtocol};
ghost use Rattle.rcv_look.specs.Drawing.{IsProtocolDrawing, IsRoleAnswer, IsRoleDrawing, IsTableDrawing, IsTextOf};
ghost use Rattle.rcv_look.specs.Outcome.{IsChartAnswer};

use crate::lines::{refuse, refused};
use crate::output::Output;
use crate::status::Status;
use rcv_accept::accepted::Accepted;
use rcv_charts::protocol::protocol_picture;
use rcv_charts::role::role_picture;
use rcv_charts::table::table_picture;
use rcv_input::{Refused, read_input};
use rcv_module::Origins;
use rcv_picture::picture::Picture;
use rcv_picture::picture_text;
use rcv_project::project;
use rcv_tables::making::table;
use rcv_tree::protocol::Protocol;
use rcv_tree::role::RoleId;
use std::alloc::{AllocError, Global};

/// The picture of the recovery table of the input's protocol, or the input's first refusal. The input has at most
/// 1,048,576 bytes. Fails if memory runs out.
pub fn table_answer(alloc: Global, input: &[u8]) -> Result<Output, AllocError>
    requires { length input.now ≤ 1048576 }
    ensures { IfOk result (λ output. IsChartAnswer DrawTable input.now output.status output.bytes.items) }
{
    match read_input(alloc, input) {
        Ok(taken) => draw_table(alloc, &taken.accepted),
        Err(error) => refuse(alloc, error),
    }
}

/// The picture of what the role with this name does, or the line for a role that isn't declared; else as
/// `table_answer`.
pub fn role_answer(alloc: Global, input: &[u8], name: &[u8]) -> Result<Output, AllocError>
    requires { length input.now ≤ 1048576 }
    ensures { IfOk result (λ output. IsChartAnswer (DrawRole name.now) input.now output.status output.bytes.items) }
{
    match read_input(alloc, input) {
        Ok(taken) => draw_role(alloc, &taken.accepted, name),
        Err(error) => refuse(alloc, error),
    }
}

/// The picture of the protocol; else as `table_answer`.
pub fn protocol_answer(alloc: Global, input: &[u8]) -> Result<Output, AllocError>
    requires { length input.now ≤ 1048576 }
    ensures { IfOk result (λ output. IsChartAnswer DrawProtocol input.now output.status output.bytes.items) }
{
    match read_input(alloc, input) {
        Ok(taken) => {
            let depths = taken.depths.as_slice();
            draw_protocol(alloc, taken.accepted.protocol(), &taken.origins, depths)
        }
        Err(error) => refuse(alloc, error),
    }
}

// The text of a picture.
fn drawn(alloc: Global, picture: &Picture) -> Result<Output, AllocError>
    ensures status { IfOk result (λ output. output.status ≡ Status.Drawn) }
    ensures text { IfOk result (λ output. IsTextOf picture.now output.bytes.items) }
{
    Ok(Output {
        status: Status::Drawn,
        bytes: picture_text(alloc, picture)?,
    })
}

// Draws the recovery table of a protocol.
fn draw_table(alloc: Global, accepted: &Accepted) -> Result<Output, AllocError>
    ensures { IfOk result (λ output. (output.status ≡ Status.Drawn)
        × IsTableDrawing accepted.now.protocol output.bytes.items) }
{
    let table = table(alloc, accepted)?;
    let picture = table_picture(alloc, &table, accepted)?;
    drawn(alloc, &picture)
}

// Draws what the role with this name does, if the protocol declares it.
fn draw_role(alloc: Global, accepted: &Accepted, name: &[u8]) -> Result<Output, AllocError>
    ensures { IfOk result (λ output. IsRoleAnswer (IsRoleDrawing accepted.now.protocol) accepted.now.protocol name.now
        output.status output.bytes.items) }
{
    // Tells the proof that the place of a role fits in a byte.
    let _count = accepted.roles();
    let Some(place) = accepted.protocol().roles.place_of(name) else {
        return refused(alloc, &Refused::NoRole);
    };
    let local = project(alloc, accepted, RoleId(place as u8))?;
    let picture = role_picture(alloc, &local, accepted)?;
    drawn(alloc, &picture)
}

// Draws an expansion whose points came from there, and in which each call stands in so many inner blocks.
fn draw_protocol(
    alloc: Global,
    protocol: &Protocol,
    origins: &Origins,
    depths: &[u8],
) -> Result<Output, AllocError>
    ensures { IfOk result (λ output. (output.status ≡ Status.Drawn)
        × IsProtocolDrawing protocol.now output.bytes.items) }
{
    let picture = protocol_picture(alloc, protocol, origins, depths)?;
    drawn(alloc, &picture)
}
