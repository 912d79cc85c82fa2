// The picture of a recovery table.

ghost use Rattle.std.specs.Prelude.{◌≡◌, ◌≤◌, IfOk};
ghost use Rattle.rcv_points.specs.Follow.{net_in};
ghost use Rattle.rcv_accept.specs.Accepted.{roles_of, net_for};
ghost use Rattle.rcv_tables.specs.Rows.{IsTable};
ghost use Rattle.rcv_charts.specs.RowTitles.{table_titles};
ghost use Rattle.rcv_charts.specs.Titles.{titles_in, titles_of};

use crate::columns::{Columns, Headings};
use crate::drawing::Drawing;
use crate::notes::Notes;
use crate::rows::{MARGIN, deed, draw_rows};
use crate::shapes::{line, rect, text};
use crate::words::{joined, point_label};
use rcv_accept::accepted::Accepted;
use rcv_picture::letters::{Letters, width_of};
use rcv_picture::look::Look;
use rcv_picture::picture::Picture;
use rcv_picture::pixels::{Pixels, place};
use rcv_picture::shape::Shape;
use rcv_points::points::Points;
use rcv_tables::table::Table;
use rcv_tree::point::Point;
use rcv_tree::role::RoleId;
use std::alloc::{AllocError, Global};

const HINT: &[u8] =
    b"Rows: the first event that is lost. Cells: the points at which that role may restart.";

// Where the columns stand: right of what roles do, and so wide that each point has room.
fn columns_of(
    alloc: Global,
    accepted: &Accepted,
    points: &Points,
    headings: &Headings<'_>,
) -> Result<Columns, AllocError> {
    let mut deeds = headings.width + width_of(b" fails at", Letters::Head);
    let mut cells = (headings.width + Pixels(16)).max(Pixels(96));
    for before in 0..points.count() {
        let point = Point(before + 1);
        for role in [points.sender(point), points.receiver(point)] {
            let words = deed(alloc, accepted, points, role, point)?;
            deeds = deeds.max(width_of(words.as_slice(), Letters::Plain) + Pixels(14));
        }
        let words = point_label(alloc, points, point)?;
        cells = cells.max(width_of(words.as_slice(), Letters::Plain) + Pixels(26));
    }
    Ok(Columns::close(MARGIN + deeds + Pixels(20), cells))
}

// The labels that are cut elsewhere.
fn notes_of(alloc: Global, points: &Points) -> Result<Notes, AllocError> {
    let mut notes = Notes::new(alloc);
    for before in 0..points.count() {
        notes.add_cut(alloc, points, Point(before + 1))?;
    }
    Ok(notes)
}

// Adds what the cells mean. Fails if memory runs out.
fn draw_legend(alloc: Global, shapes: &mut Vec<Shape>, y: Pixels) -> Result<(), AllocError> {
    let top = y - Pixels(8);
    let base = y + Pixels(2);
    let pill = |x: u32, look: Look| rect(place(Pixels(x), top), Pixels(22), Pixels(12), 5, look);
    shapes.push(pill(16, Look::FailedPill))?;
    let fails = Vec::from_slice(alloc, b"the role that fails")?;
    shapes.push(text(Pixels(44), base, Look::Note, fails))?;
    shapes.push(pill(190, Look::LostPill))?;
    let concerned = Vec::from_slice(alloc, b"may go back")?;
    shapes.push(text(Pixels(218), base, Look::Note, concerned))?;
    let from = place(Pixels(330), top);
    let to = place(Pixels(330), y + Pixels(5));
    shapes.push(line(from, to, Look::Life))?;
    let goes_on = Vec::from_slice(alloc, b"goes on")?;
    shapes
        .push(text(Pixels(338), base, Look::Note, goes_on))
        .map_err(AllocError::from)
}

// The rows, drawn below the title. Fails if memory runs out.
fn drawn(
    alloc: Global,
    accepted: &Accepted,
    points: &Points,
    table: &Table,
    headings: &Headings<'_>,
    columns: Columns,
) -> Result<Drawing, AllocError>
    requires few { roles_of accepted.now ≤ 8 }
    requires table { IsTable (net_in points.now) (roles_of accepted.now) table.now }
    ensures { IfOk result (λ drawing. titles_in drawing.groups
        ≡ table_titles (net_in points.now) accepted.now.protocol.roles table.now) }
{
    let mut drawing = Drawing::new(alloc);
    drawing.skip(Pixels(52));
    draw_rows(
        alloc,
        &mut drawing,
        accepted,
        points,
        table,
        headings,
        columns,
    )?;
    drawing.skip(Pixels(22));
    Ok(drawing)
}

// Adds the title, what the cells mean, and the notes to the rows. Fails if memory runs out.
fn finished(
    alloc: Global,
    mut drawing: Drawing,
    name: &[u8],
    notes: &Notes,
    right: Pixels,
) -> Result<Picture, AllocError>
    ensures { IfOk result (λ picture. titles_of picture ≡ titles_in drawing.groups) }
{
    let title = joined(alloc, name, b": who goes back when a role fails")?;
    let wide = right
        .max(Pixels(380))
        .max(MARGIN + width_of(title.as_slice(), Letters::Big))
        .max(MARGIN + width_of(HINT, Letters::Small))
        .max(MARGIN + notes.width());
    let mut ground = Vec::new(alloc);
    ground.push(text(MARGIN, Pixels(26), Look::Big, title))?;
    let hint = Vec::from_slice(alloc, HINT)?;
    ground.push(text(MARGIN, Pixels(44), Look::Note, hint))?;
    draw_legend(alloc, &mut ground, drawing.down())?;
    notes.draw(alloc, &mut ground, MARGIN, drawing.down() + Pixels(8))?;
    drawing.skip(notes.height() + Pixels(20));
    let called = joined(alloc, b"Recovery table of ", name)?;
    let hint = Vec::from_slice(alloc, HINT)?;
    drawing.picture(alloc, wide + MARGIN, called, hint, ground)
}

/// The picture of the table of an accepted protocol: a row for each point of each role, with the points at which each
/// concerned role restarts. The titles of its rows are the lines of the table's text. Fails if memory runs out.
pub fn table_picture(
    alloc: Global,
    table: &Table,
    accepted: &Accepted,
) -> Result<Picture, AllocError>
    requires { IsTable (net_for accepted.now) (roles_of accepted.now) table.now }
    ensures { IfOk result (λ picture. titles_of picture
        ≡ table_titles (net_for accepted.now) accepted.now.protocol.roles table.now) }
{
    let protocol = accepted.protocol();
    let points = accepted.points();
    let headings = Headings::of(alloc, &protocol.roles)?;
    let columns = columns_of(alloc, accepted, points, &headings)?;
    let notes = notes_of(alloc, points)?;
    let drawing = drawn(alloc, accepted, points, table, &headings, columns)?;
    let right = columns.start(RoleId(accepted.roles()));
    let picture = finished(alloc, drawing, protocol.name.as_slice(), &notes, right)?;
    Ok(picture)
}
