// The picture of the machine of a role.

ghost use Rattle.std.specs.Prelude.{◌≡◌, IfOk};
ghost use Rattle.std.specs.List.{All};
ghost use Rattle.rcv_points.specs.Follow.{net_in};
ghost use Rattle.rcv_accept.specs.Accepted.{net_for};
ghost use Rattle.rcv_project.specs.Act.{AreInText};
ghost use Rattle.rcv_project.specs.Local.{IsLocalOf};
ghost use Rattle.rcv_charts.specs.States.{StateView, next_in};
ghost use Rattle.rcv_charts.specs.Wires.{AreClosed, AreWires};
ghost use Rattle.rcv_charts.specs.Machine.{ShowsStates, IsMachine};
ghost use Rattle.rcv_charts.specs.Titles.{titled_of};

use crate::boxes::{Source, boxes_width, draw_boxes};
use crate::drawing::Drawing;
use crate::notes::Notes;
use crate::shapes::text;
use crate::stand::{Frame, frames_of};
use crate::states::{State, states_of};
use crate::ways::Ways;
use crate::wires::{Wire, wires_of};
use crate::words::joined;
use rcv_accept::accepted::Accepted;
use rcv_picture::letters::{Letters, width_of};
use rcv_picture::look::Look;
use rcv_picture::picture::Picture;
use rcv_picture::pixels::Pixels;
use rcv_points::points::Points;
use rcv_project::local::Local;
use rcv_text::writer::Writer;
use rcv_tree::point::Point;
use rcv_tree::protocol::Protocol;
use rcv_tree::role::RoleId;
use std::alloc::{AllocError, Global};

// How far from the edges everything stands.
const MARGIN: Pixels = Pixels(16);

const HINT: &[u8] = b"! sends, ? receives";

// The labels of the role's points that are cut elsewhere.
fn notes_of(alloc: Global, points: &Points, role: RoleId) -> Result<Notes, AllocError> {
    let mut notes = Notes::new(alloc);
    for before in 0..points.count() {
        let point = Point(before + 1);
        if points.sender(point) == role || points.receiver(point) == role {
            notes.add_cut(alloc, points, point)?;
        }
    }
    Ok(notes)
}

// What the picture is called: the role in its protocol.
fn title_of(alloc: Global, protocol: &Protocol, role: RoleId) -> Result<Vec<u8>, AllocError> {
    let mut title = Writer::new(alloc);
    title.word(protocol.roles.name(role))?;
    title.word(b" in ")?;
    title.word(protocol.name.as_slice())?;
    Ok(title.finish())
}

// The ways of the wires and the boxes of the states, drawn from this edge on. Fails if memory runs out.
fn drawn(
    source: &Source<'_>,
    states: &[State],
    wires: &[Wire],
    frames: &[Frame],
    ways: &Ways,
    left: Pixels,
    wide: Pixels,
) -> Result<Drawing, AllocError>
    requires in_text { All (λ (state : StateView). AreInText (net_in source.now.points.now) (next_in state.act)) states.now }
    requires wires { AreWires states.now wires.now }
    ensures { IfOk result (λ drawing. ShowsStates source.now.roles.now (net_in source.now.points.now) states.now drawing.groups) }
{
    let mut drawing = Drawing::new(source.alloc);
    ways.draw(
        source.alloc,
        &mut drawing,
        states,
        frames,
        wires,
        left,
        left + wide,
    )?;
    draw_boxes(source, &mut drawing, states, frames, left, wide)?;
    Ok(drawing)
}

// Adds the title, the notes and their shapes to the boxes. Fails if memory runs out.
fn finished(
    alloc: Global,
    mut drawing: Drawing,
    title: &[u8],
    notes: &Notes,
    wide: Pixels,
) -> Result<Picture, AllocError>
    ensures { IfOk result (λ picture. titled_of picture ≡ drawing.groups) }
{
    let mut ground = Vec::new(alloc);
    let big = Vec::from_slice(alloc, title)?;
    ground.push(text(MARGIN, Pixels(26), Look::Big, big))?;
    let hint = Vec::from_slice(alloc, HINT)?;
    ground.push(text(MARGIN, Pixels(43), Look::Note, hint))?;
    notes.draw(alloc, &mut ground, MARGIN, drawing.down() + Pixels(4))?;
    drawing.skip(notes.height() + Pixels(20));
    let wide = wide
        .max(MARGIN + width_of(title, Letters::Big))
        .max(MARGIN + notes.width());
    let whole = joined(alloc, b"Machine of ", title)?;
    let hint = Vec::from_slice(alloc, HINT)?;
    drawing.picture(alloc, wide + MARGIN, whole, hint, ground)
}

// The picture of these states. Fails if memory runs out.
fn states_picture(
    alloc: Global,
    protocol: &Protocol,
    points: &Points,
    role: RoleId,
    states: &[State],
) -> Result<Picture, AllocError>
    requires in_text { All (λ (state : StateView). AreInText (net_in points.now) (next_in state.act)) states.now }
    requires closed { AreClosed states.now }
    ensures { IfOk result (λ picture. ShowsStates protocol.now.roles (net_in points.now) states.now (titled_of picture)) }
{
    let source = Source {
        alloc,
        roles: &protocol.roles,
        points,
    };
    let wires = wires_of(alloc, states)?;
    let frames = frames_of(alloc, states, Pixels(56))?;
    let ways = Ways::of(alloc, frames.as_slice(), wires.as_slice())?;
    let wide = boxes_width(&source, states)?;
    let left = MARGIN + ways.left();
    let drawing = drawn(
        &source,
        states,
        wires.as_slice(),
        frames.as_slice(),
        &ways,
        left,
        wide,
    )?;
    let title = title_of(alloc, protocol, role)?;
    let notes = notes_of(alloc, points, role)?;
    let right = left + wide + ways.right();
    finished(alloc, drawing, title.as_slice(), &notes, right)
}

/// The picture of the machine of a declared role of an accepted protocol. It has a box for each state, with the role's
/// steps there, and a wire from each step to the state that it leads to. Two places stand in one box exactly if the
/// role does the same at both. Fails if memory runs out.
pub fn role_picture(
    alloc: Global,
    local: &Local,
    accepted: &Accepted,
) -> Result<Picture, AllocError>
    requires { IsLocalOf (net_for accepted.now) local.now.role local.now }
    ensures { IfOk result (λ picture. IsMachine accepted.now.protocol.roles
        (net_for accepted.now) local.now.role picture) }
{
    let states = states_of(alloc, local, accepted)?;
    let picture = states_picture(
        alloc,
        accepted.protocol(),
        accepted.points(),
        local.role(),
        states.as_slice(),
    )?;
    Ok(picture)
}
