// The rows of a table's picture.

ghost use Rattle.std.specs.Prelude.{◌≡◌, ◌<◌, ◌≤◌, [], ◌∷◌, ◌++◌, OnOk, length};
ghost use Rattle.rcv_points.specs.Follow.{net_in};
ghost use Rattle.rcv_accept.specs.Accepted.{roles_of};
ghost use Rattle.rcv_tables.specs.Rows.{IsTable, rows_at, row_at};
ghost use Rattle.rcv_charts.specs.Titles.{titles_in};
ghost use Rattle.rcv_charts.specs.RowTitles.{row_title, start_titles, role_titles, table_titles};

use crate::columns::{Columns, Headings};
use crate::drawing::{Drawing, titled};
use crate::row_title::row_title;
use crate::shapes::{line, middle_text, rect, text};
use crate::words::{cut, joined, label, owns, point_label};
use rcv_accept::accepted::Accepted;
use rcv_picture::look::Look;
use rcv_picture::pixels::{Pixels, place};
use rcv_picture::shape::Shape;
use rcv_points::points::Points;
use rcv_tables::table::Table;
use rcv_text::writer::Writer;
use rcv_tree::point::Point;
use rcv_tree::role::RoleId;
use std::alloc::{AllocError, Global};

/// How far the rows are from the left edge.
pub const MARGIN: Pixels = Pixels(16);

/// What a role does at a point of the text, as the row says it. Fails if memory runs out.
pub fn deed(
    alloc: Global,
    accepted: &Accepted,
    points: &Points,
    role: RoleId,
    point: Point,
) -> Result<Vec<u8>, AllocError>
    requires first { 1 ≤ point }
    requires last { point ≤ length points.now.messages }
{
    let mut words = Writer::new(alloc);
    words.number(point.0)?;
    let label = cut(alloc, label(points, point))?;
    if points.sender(point) != role {
        words.word(b" receives ")?;
        words.word(label.as_slice())?;
        return Ok(words.finish());
    }
    words.word(b" sends ")?;
    words.word(label.as_slice())?;
    if let Some(name) = accepted
        .protocol()
        .roles
        .as_slice()
        .get(points.receiver(point).0 as usize)
    {
        words.word(b" to ")?;
        words.word(cut(alloc, name.as_slice())?.as_slice())?;
    }
    Ok(words.finish())
}

// Adds the points at which a concerned role restarts. Fails if memory runs out.
fn draw_restarts(
    alloc: Global,
    shapes: &mut Vec<Shape>,
    points: &Points,
    restarts: &[Point],
    columns: Columns,
    role: RoleId,
    top: Pixels,
    fails: bool,
) -> Result<(), AllocError> {
    let (pill, look) = if fails {
        (Look::FailedPill, Look::Failed)
    } else {
        (Look::LostPill, Look::Lost)
    };
    let corner = place(columns.start(role) + Pixels(5), top + Pixels(2));
    let height = Pixels::of(restarts.len()) * 16 + Pixels(4);
    shapes.push(rect(corner, columns.width - Pixels(10), height, 7, pill))?;
    let mut y = top + Pixels(15);
    for point in restarts {
        let words = point_label(alloc, points, *point)?;
        shapes.push(middle_text(columns.middle(role), y, look, words))?;
        y = y + Pixels(16);
    }
    Ok(())
}

// The height of the row of a start.
fn row_height(table: &Table, role: RoleId, point: Point, roles: u8) -> Pixels
    requires role { role < length table.now.rows }
    requires point { point < length (rows_at table.now role) }
    requires row { length (row_at table.now role point).restarts ≡ 8 }
    requires few { roles ≤ 8 }
{
    let mut most = 1;
    for number in 0..roles {
        most = table.restarts(role, point, RoleId(number)).len().max(most);
    }
    Pixels::of(most) * 16 + Pixels(8)
}

// Adds the cells of a start: where each concerned role restarts, and a line for each that goes on. Fails if memory runs
// out.
fn draw_cells(
    alloc: Global,
    shapes: &mut Vec<Shape>,
    points: &Points,
    table: &Table,
    columns: Columns,
    roles: u8,
    role: RoleId,
    point: Point,
    top: Pixels,
    height: Pixels,
) -> Result<(), AllocError>
    requires role { role < length table.now.rows }
    requires point { point < length (rows_at table.now role) }
    requires row { length (row_at table.now role point).restarts ≡ 8 }
    requires few { roles ≤ 8 }
{
    let concerned = table.concerned(role, point);
    for number in 0..roles {
        let other = RoleId(number);
        if concerned.has(other) {
            let restarts = table.restarts(role, point, other);
            draw_restarts(
                alloc,
                shapes,
                points,
                restarts,
                columns,
                other,
                top,
                other == role,
            )?;
        } else {
            let x = columns.middle(other);
            let from = place(x, top + Pixels(3));
            let to = place(x, top + height - Pixels(3));
            shapes.push(line(from, to, Look::Life))?;
        }
    }
    Ok(())
}

// Draws the row of a start. Fails if memory runs out.
fn draw_row(
    alloc: Global,
    drawing: &mut Drawing,
    accepted: &Accepted,
    points: &Points,
    table: &Table,
    columns: Columns,
    role: RoleId,
    point: Point,
) -> Result<(), AllocError>
    requires first { 1 ≤ point }
    requires last { point ≤ length points.now.messages }
    requires role { role < length table.now.rows }
    requires declared { role < roles_of accepted.now }
    requires point { point < length (rows_at table.now role) }
    requires row { length (row_at table.now role point).restarts ≡ 8 }
    requires few { roles_of accepted.now ≤ 8 }
    ensures { OnOk result (titles_in drawing.new.groups ≡ titles_in drawing.old.groups
        ++ row_title accepted.now.protocol.roles role point (row_at table.now role point) ∷ []) }
{
    let top = drawing.down();
    let roles = accepted.roles();
    let height = row_height(table, role, point, roles);
    let mut shapes = Vec::new(alloc);
    let words = deed(alloc, accepted, points, role, point)?;
    shapes.push(text(MARGIN + Pixels(14), top + Pixels(15), Look::Plain, words))?;
    draw_cells(
        alloc,
        &mut shapes,
        points,
        table,
        columns,
        roles,
        role,
        point,
        top,
        height,
    )?;
    let title = row_title(alloc, accepted, table, role, point)?;
    drawing.put_group(titled(title, shapes))?;
    drawing.skip(height);
    Ok(())
}

// The same, if the point is the role's.
fn draw_start(
    alloc: Global,
    drawing: &mut Drawing,
    accepted: &Accepted,
    points: &Points,
    table: &Table,
    columns: Columns,
    role: RoleId,
    point: Point,
) -> Result<(), AllocError>
    requires role { role < roles_of accepted.now }
    requires few { roles_of accepted.now ≤ 8 }
    requires first { 1 ≤ point }
    requires last { point ≤ length points.now.messages }
    requires table { IsTable (net_in points.now) (roles_of accepted.now) table.now }
    ensures { OnOk result (titles_in drawing.new.groups ≡ titles_in drawing.old.groups
        ++ start_titles (net_in points.now) accepted.now.protocol.roles table.now role point) }
{
    if owns(points, role, point) {
        draw_row(
            alloc, drawing, accepted, points, table, columns, role, point,
        )
    } else {
        Ok(())
    }
}

// Draws the heading of the rows of a role: that it fails, and the names of all roles. Fails if memory runs out.
fn draw_heading(
    alloc: Global,
    drawing: &mut Drawing,
    headings: &Headings<'_>,
    columns: Columns,
    roles: u8,
    role: RoleId,
) -> Result<(), AllocError>
    ensures { OnOk result (titles_in drawing.new.groups ≡ titles_in drawing.old.groups) }
{
    drawing.skip(Pixels(8));
    let top = drawing.down();
    let right = columns.start(RoleId(roles));
    drawing.put_below(line(place(MARGIN, top), place(right, top), Look::Grid))?;
    let mut shapes = Vec::new(alloc);
    for number in 0..roles {
        let other = RoleId(number);
        let look = if other == role {
            Look::Failed
        } else {
            Look::Head
        };
        headings.draw(alloc, &mut shapes, columns, other, top + Pixels(2), look)?;
    }
    let lines = headings.lines(alloc, role)?;
    draw_name(alloc, &mut shapes, lines.as_slice(), top + Pixels(2))?;
    drawing.put_all_below(shapes)?;
    drawing.skip(headings.height + Pixels(2));
    Ok(())
}

// Adds that the role with this name fails. Fails if memory runs out.
fn draw_name(
    alloc: Global,
    shapes: &mut Vec<Shape>,
    lines: &[&[u8]],
    top: Pixels,
) -> Result<(), AllocError> {
    let mut y = top;
    let mut left = lines.len();
    for line in lines {
        y = y + Pixels(15);
        left = left.saturating_sub(1);
        let more: &[u8] = if left == 0 { b" fails at" } else { b"" };
        let words = joined(alloc, line, more)?;
        shapes.push(text(MARGIN, y, Look::Failed, words))?;
    }
    Ok(())
}

// Draws the rows of a role, by its points. Fails if memory runs out.
fn draw_starts(
    alloc: Global,
    drawing: &mut Drawing,
    accepted: &Accepted,
    points: &Points,
    table: &Table,
    columns: Columns,
    role: RoleId,
) -> Result<(), AllocError>
    requires role { role < roles_of accepted.now }
    requires few { roles_of accepted.now ≤ 8 }
    requires table { IsTable (net_in points.now) (roles_of accepted.now) table.now }
    ensures { OnOk result (titles_in drawing.new.groups ≡ titles_in drawing.old.groups
        ++ role_titles (net_in points.now) accepted.now.protocol.roles table.now role) }
{
    for before in 0..points.count() {
        draw_start(
            alloc,
            drawing,
            accepted,
            points,
            table,
            columns,
            role,
            Point(before + 1),
        )?;
    }
    Ok(())
}

// Whether the role has a point.
fn has_any(points: &Points, role: RoleId) -> bool {
    !points.of_role(role).is_empty()
}

// Draws the rows of a role, below their heading if it has any. Fails if memory runs out.
fn draw_role(
    alloc: Global,
    drawing: &mut Drawing,
    accepted: &Accepted,
    points: &Points,
    table: &Table,
    headings: &Headings<'_>,
    columns: Columns,
    role: RoleId,
) -> Result<(), AllocError>
    requires role { role < roles_of accepted.now }
    requires few { roles_of accepted.now ≤ 8 }
    requires table { IsTable (net_in points.now) (roles_of accepted.now) table.now }
    ensures { OnOk result (titles_in drawing.new.groups ≡ titles_in drawing.old.groups
        ++ role_titles (net_in points.now) accepted.now.protocol.roles table.now role) }
{
    if has_any(points, role) {
        draw_heading(alloc, drawing, headings, columns, accepted.roles(), role)?;
    }
    draw_starts(alloc, drawing, accepted, points, table, columns, role)
}

/// Draws the rows of all roles, each role's below its heading. Fails if memory runs out.
pub fn draw_rows(
    alloc: Global,
    drawing: &mut Drawing,
    accepted: &Accepted,
    points: &Points,
    table: &Table,
    headings: &Headings<'_>,
    columns: Columns,
) -> Result<(), AllocError>
    requires few { roles_of accepted.now ≤ 8 }
    requires table { IsTable (net_in points.now) (roles_of accepted.now) table.now }
    ensures { OnOk result (titles_in drawing.new.groups ≡ titles_in drawing.old.groups
        ++ table_titles (net_in points.now) accepted.now.protocol.roles table.now) }
{
    for number in 0..accepted.roles() {
        draw_role(
            alloc,
            drawing,
            accepted,
            points,
            table,
            headings,
            columns,
            RoleId(number),
        )?;
    }
    Ok(())
}
