// What the row of a start is called: the line of the table's text, without its line feed.

ghost use Rattle.std.specs.Prelude.{◌≡◌, ◌<◌, ◌≤◌, ◌++◌, IfOk, OnOk, IsTrue, length};
ghost use Rattle.rcv_accept.specs.Accepted.{roles_of};
ghost use Rattle.rcv_tables.specs.Rows.{rows_at, row_at};
ghost use Rattle.rcv_tables.specs.TableText.{points_text, role_text, concerned_text, roles_text};
ghost use Rattle.rcv_charts.specs.RowTitles.{row_title};
ghost use Rattle.rcv_charts.specs.Titles.{is_titled};

use rcv_accept::accepted::Accepted;
use rcv_tables::table::Table;
use rcv_text::writer::Writer;
use rcv_tree::point::Point;
use rcv_tree::role::RoleId;
use std::alloc::{AllocError, Global};

// Points, with commas between.
fn write_points(text: &mut Writer, points: &[Point]) -> Result<(), AllocError>
    ensures { OnOk result (text.new ≡ text.old ++ points_text points.now) }
{
    let Some((first, others)) = points.split_first() else {
        return Ok(());
    };
    text.number(first.0)?;
    for point in others {
        text.word(b",")?;
        text.number(point.0)?;
    }
    Ok(())
}

// Another role, and where it restarts if it is concerned.
fn write_concerned(
    text: &mut Writer,
    accepted: &Accepted,
    table: &Table,
    role: RoleId,
    point: Point,
    other: RoleId,
) -> Result<(), AllocError>
    requires role { role < length table.now.rows }
    requires point { point < length (rows_at table.now role) }
    requires few { other < 8 }
    requires row { length (row_at table.now role point).restarts ≡ 8 }
    ensures { OnOk result (text.new ≡ text.old
        ++ concerned_text accepted.now.protocol.roles (row_at table.now role point) other) }
{
    if !table.concerned(role, point).has(other) {
        return Ok(());
    }
    text.word(b" ")?;
    text.word(accepted.protocol().roles.name(other))?;
    text.word(b"=")?;
    write_points(text, table.restarts(role, point, other))
}

// The concerned roles, in order.
fn write_roles(
    text: &mut Writer,
    accepted: &Accepted,
    table: &Table,
    role: RoleId,
    point: Point,
) -> Result<(), AllocError>
    requires role { role < length table.now.rows }
    requires point { point < length (rows_at table.now role) }
    requires row { length (row_at table.now role point).restarts ≡ 8 }
    requires few { roles_of accepted.now ≤ 8 }
    ensures { OnOk result (text.new ≡ text.old
        ++ roles_text accepted.now.protocol.roles (row_at table.now role point)) }
{
    for number in 0..accepted.roles() {
        write_concerned(text, accepted, table, role, point, RoleId(number))?;
    }
    Ok(())
}

/// The title of the row of a start. Fails if memory runs out.
pub fn row_title(
    alloc: Global,
    accepted: &Accepted,
    table: &Table,
    role: RoleId,
    point: Point,
) -> Result<Vec<u8>, AllocError>
    requires role { role < length table.now.rows }
    requires point { point < length (rows_at table.now role) }
    requires row { length (row_at table.now role point).restarts ≡ 8 }
    requires few { roles_of accepted.now ≤ 8 }
    ensures value { IfOk result (λ title. title.items
        ≡ row_title accepted.now.protocol.roles role point (row_at table.now role point)) }
    ensures titled { IfOk result (λ title. IsTrue (is_titled title.items)) }
{
    let mut text = Writer::new(alloc);
    text.word(b"fail ")?;
    text.word(accepted.protocol().roles.name(role))?;
    text.word(b" ")?;
    text.number(point.0)?;
    text.word(b":")?;
    write_roles(&mut text, accepted, table, role, point)?;
    Ok(text.finish())
}
