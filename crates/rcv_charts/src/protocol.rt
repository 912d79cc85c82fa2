// The picture of a protocol.

ghost use Rattle.std.specs.Prelude.{◌≡◌, ◌≤◌, IfOk};
ghost use Rattle.rcv_model.specs.Text.{body_of};
ghost use Rattle.rcv_charts.specs.Statements.{statement_titles};
ghost use Rattle.rcv_charts.specs.Chart.{IsChart, DrawsAll};
ghost use Rattle.rcv_charts.specs.Titles.{titled_of, titles_of};

use crate::calls::Calls;
use crate::columns::{Columns, Headings};
use crate::drawing::Drawing;
use crate::extent::{Extent, INSET, Within};
use crate::frames::Chart;
use crate::sequence::draw_block;
use crate::shapes::{line, rect, text};
use crate::words::joined;
use rcv_module::Origins;
use rcv_picture::letters::{Letters, width_of};
use rcv_picture::look::Look;
use rcv_picture::picture::Picture;
use rcv_picture::pixels::{Pixels, place};
use rcv_picture::shape::Shape;
use rcv_tree::protocol::Protocol;
use rcv_tree::role::RoleId;
use std::alloc::{AllocError, Global};

// How far from the edges everything stands.
const MARGIN: Pixels = Pixels(16);

// Where the statements of the protocol's own text stand.
const EDGE: Within = Within {
    inset: MARGIN,
    calls: 0,
    blocks: 0,
};

// How far down the boxes of the roles are.
const TOP: Pixels = Pixels(42);

// What is drawn.
fn description_of(extent: &Extent) -> &[u8] {
    match (extent.has_lanes, extent.has_calls) {
        (false, false) => b"The messages in order, with choices and loops in frames.",
        (true, false) => b"The messages in order, with choices, loops and lanes in frames.",
        (false, true) => b"The messages in order, with choices, loops and calls in frames.",
        (true, true) => b"The messages in order, with choices, loops, lanes and calls in frames.",
    }
}

// Where the columns stand: right of each frame and each way back, and so wide that each label has room. A gap between lanes
// has room for the frames of both.
fn columns_of(headings: &Headings<'_>, extent: &Extent) -> Columns {
    let width = (headings.width + Pixels(20))
        .max(extent.label + Pixels(44))
        .max(Pixels(120));
    let back = extent.deepest + extent.again + Pixels(30) - width.half();
    let left = (extent.deepest + Pixels(40)).max(back);
    if !extent.gaps.contains(&true) {
        return Columns::close(left, width);
    }
    let before = (extent.deepest + extent.again + Pixels(20) - width.half()).max(Pixels(14));
    Columns {
        left: left.max(MARGIN + INSET + before),
        width: width.max(extent.tags.half()),
        gaps: extent.gaps,
        behind: (extent.deepest - MARGIN - INSET).max(Pixels(14)),
        before,
    }
}

// Adds the line of life and the box of each role. Fails if memory runs out.
fn draw_roles(
    alloc: Global,
    shapes: &mut Vec<Shape>,
    headings: &Headings<'_>,
    columns: Columns,
    roles: u8,
    end: Pixels,
) -> Result<(), AllocError> {
    let height = headings.height + Pixels(2);
    for number in 0..roles {
        let role = RoleId(number);
        let x = columns.middle(role);
        shapes.push(line(place(x, TOP + height), place(x, end), Look::Life))?;
        let corner = place(columns.start(role) + Pixels(6), TOP);
        shapes.push(rect(corner, columns.width - Pixels(12), height, 6, Look::Box))?;
        headings.draw(alloc, shapes, columns, role, TOP + Pixels(2), Look::Head)?;
    }
    Ok(())
}

// The messages and frames, drawn below the roles. Fails if memory runs out.
fn drawn(chart: &Chart<'_>, protocol: &Protocol, top: Pixels) -> Result<Drawing, AllocError>
    ensures { IfOk result (λ drawing. DrawsAll chart.now.roles.now (body_of protocol.now.body) drawing) }
{
    let mut drawing = Drawing::new(chart.alloc);
    drawing.skip(top);
    let mut loops = Vec::new(chart.alloc);
    draw_block(chart, &mut drawing, &mut loops, EDGE, &protocol.body)?;
    drawing.skip(Pixels(26));
    Ok(drawing)
}

// How wide the picture is.
fn wide_of(roles: u8, columns: Columns, extent: &Extent, title: &[u8]) -> Pixels {
    let end = columns.start(RoleId(roles)) + Pixels(24) + extent.deepest;
    end.max(extent.tags)
        .max(MARGIN * 2 + width_of(title, Letters::Big))
        .max(MARGIN * 2 + extent.notes.width())
}

// Adds the title, the notes and the name to a drawing on its ground. Fails if memory runs out.
fn finished(
    alloc: Global,
    mut drawing: Drawing,
    mut ground: Vec<Shape>,
    name: &[u8],
    extent: &Extent,
    wide: Pixels,
) -> Result<Picture, AllocError>
    ensures groups { IfOk result (λ picture. titled_of picture ≡ drawing.groups) }
    ensures height { IfOk result (λ picture. drawing.down ≤ picture.height.0) }
{
    let title = joined(alloc, b"protocol ", name)?;
    ground.push(text(MARGIN, Pixels(26), Look::Big, title))?;
    extent
        .notes
        .draw(alloc, &mut ground, MARGIN, drawing.down())?;
    drawing.skip(extent.notes.height() + Pixels(10));
    let called = joined(alloc, b"Protocol ", name)?;
    let description = Vec::from_slice(alloc, description_of(extent))?;
    drawing.picture(alloc, wide, called, description, ground)
}

/// The picture of an expansion: a column for each role, an arrow for each message, and frames. There is a frame for
/// each choice and each loop, for lanes beside each other, and for what came through a call. A way goes from each
/// `continue` back to its loop; the frame of a call has the name of the protocol that the call names. `origins` says
/// where the points come from, and `depths` how many inner blocks of its protocol's text each call stands in. Each
/// statement is drawn once, in order and in its frames, and has a title. The title of a frame says which points it
/// holds. Fails if memory runs out.
pub fn protocol_picture(
    alloc: Global,
    protocol: &Protocol,
    origins: &Origins,
    depths: &[u8],
) -> Result<Picture, AllocError>
    ensures chart { IfOk result (λ picture. IsChart protocol.now.roles (body_of protocol.now.body) picture) }
    ensures titles { IfOk result (λ picture. titles_of picture
        ≡ statement_titles protocol.now.roles (body_of protocol.now.body)) }
{
    let calls = Calls { origins, depths };
    let headings = Headings::of(alloc, &protocol.roles)?;
    let extent = Extent::of(alloc, &protocol.roles, calls, EDGE, &protocol.body)?;
    let columns = columns_of(&headings, &extent);
    let roles = u8::try_from(protocol.roles.as_slice().len()).unwrap_or(u8::MAX);
    let name = protocol.name.as_slice();
    let wide = wide_of(
        roles,
        columns,
        &extent,
        joined(alloc, b"protocol ", name)?.as_slice(),
    );
    let chart = Chart {
        alloc,
        roles: &protocol.roles,
        calls,
        columns,
        left: Pixels(0),
        right: wide,
    };
    let drawing = drawn(&chart, protocol, TOP + headings.height + Pixels(4))?;
    let mut ground = Vec::new(alloc);
    draw_roles(
        alloc,
        &mut ground,
        &headings,
        columns,
        roles,
        drawing.down(),
    )?;
    let picture = finished(alloc, drawing, ground, name, &extent, wide)?;
    Ok(picture)
}
