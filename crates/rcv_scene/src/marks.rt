// The marks of entries that have rows of their own.

ghost use Rattle.std.specs.Prelude.{◌≡◌, [], ◌∷◌, ◌++◌, IfOk, OnOk, slice_get};
ghost use Rattle.rcv_tree.specs.declared.entry.Entry.{Entry as TheEntry};
ghost use Rattle.rcv_scene.specs.Seen.{seen, drawn_in};
ghost use Rattle.rcv_scene.specs.Grid.{grid_of, scene_of};
ghost use Rattle.rcv_scene.specs.Marks.{number_words, mark_look, point_look, event_disc, crash_cross, AddsEvent};
ghost use Rattle.rcv_scene.specs.Drawn.{AddsEntry, IsEntryDrawn};

use crate::beside::label_of;
use crate::layout::Layout;
use crate::returns::add_recover;
use crate::routes::Routes;
use crate::shapes::Shapes;
use crate::spans::{self, further};
use crate::wording::{Piece, text_of};
use rcv_picture::look::Look;
use rcv_picture::pixels::Pixels;
use rcv_picture::shape::{Anchor, Shape};
use rcv_tree::entry::Entry;
use rcv_tree::event::{Dir, Event};
use std::alloc::AllocError;

// The number of an entry, beside the columns.
fn add_number(
    shapes: &mut Shapes,
    layout: &Layout<'_>,
    at: u32,
    y: Pixels,
) -> Result<(), AllocError>
    ensures { OnOk result (drawn_in shapes.new ≡ drawn_in shapes.old ++ number_words (grid_of layout.now) at y ∷ []) }
{
    let number = text_of(layout.alloc, &[Piece::Place(at)])?;
    let end = spans::at(layout.numbers, further(y, 4));
    shapes.text(end, Anchor::End, Look::Note, number)
}

// How the disc of an event looks, and the number on it.
fn looks_of(dir: Dir, undone: bool) -> (Look, Look)
    ensures { (result.0 ≡ mark_look dir undone) × (result.1 ≡ point_look dir undone) }
{
    match (dir, undone) {
        (Dir::Sent, false) => (Look::Send, Look::PointOnSend),
        (Dir::Sent, true) => (Look::SendUndone, Look::PointOnSend),
        (Dir::Got, false) => (Look::Receive, Look::PointOnReceive),
        (Dir::Got, true) => (Look::ReceiveUndone, Look::PointUndone),
    }
}

// The disc of an event, with the number of its point.
fn add_disc(
    shapes: &mut Shapes,
    layout: &Layout<'_>,
    y: Pixels,
    event: &Event,
    dir: Dir,
    undone: bool,
) -> Result<(), AllocError>
    ensures { OnOk result (drawn_in shapes.new ≡ drawn_in shapes.old ++ event_disc (grid_of layout.now) y event.now dir undone) }
{
    let x = layout.x(event.role.0);
    let looks = looks_of(dir, undone);
    shapes.circle(spans::at(x, y), Pixels(8), looks.0)?;
    let point = text_of(layout.alloc, &[Piece::Number(u32::from(event.point.0))])?;
    shapes.text(spans::at(x, further(y, 3)), Anchor::Middle, looks.1, point)
}

// The cross of a Crash.
fn add_crash(
    shapes: &mut Shapes,
    layout: &Layout<'_>,
    y: Pixels,
    role: u8,
) -> Result<(), AllocError>
    ensures { OnOk result (drawn_in shapes.new ≡ drawn_in shapes.old ++ crash_cross (grid_of layout.now) y role) }
{
    let x = layout.x(role);
    shapes.cross(spans::at(x, y), 8)?;
    let text = spans::at(further(x, 14), further(y, 4));
    shapes.words(text, Anchor::Start, Look::Failed, b"crash")
}

// The disc of an event, and its label.
fn add_event(
    shapes: &mut Shapes,
    layout: &Layout<'_>,
    routes: &Routes,
    at: u32,
    y: Pixels,
    event: &Event,
    dir: Dir,
    undone: bool,
) -> Result<(), AllocError>
    ensures { OnOk result (AddsEvent (scene_of layout.now) at y event.now dir undone (drawn_in shapes.old) (drawn_in shapes.new)) }
{
    add_disc(shapes, layout, y, event, dir, undone)?;
    let words = label_of(layout, routes, at, y, event, dir, undone)?;
    shapes.label(words)?;
    Ok(())
}

// The mark of an entry.
fn add_entry(
    shapes: &mut Shapes,
    layout: &Layout<'_>,
    routes: &Routes,
    at: u32,
    y: Pixels,
    entry: &Entry,
    undone: bool,
) -> Result<(), AllocError>
    ensures { OnOk result (AddsEntry (scene_of layout.now) at y entry.now undone (drawn_in shapes.old) (drawn_in shapes.new)) }
{
    match entry {
        Entry::Send(event) => add_event(shapes, layout, routes, at, y, event, Dir::Sent, undone),
        Entry::Recv(event) => add_event(shapes, layout, routes, at, y, event, Dir::Got, undone),
        Entry::Crash(role) => add_crash(shapes, layout, y, role.0),
        Entry::Recover {
            role,
            concerned,
            kept,
            undone: removed,
        } => add_recover(shapes, layout, at, y, role.0, *concerned, kept, *removed),
    }
}

/// The mark of the entry at a place, and whether it is an event that isn't kept at the end. Fails if memory runs out.
pub fn mark_shapes(
    layout: &Layout<'_>,
    routes: &Routes,
    at: u32,
    undone: bool,
) -> Result<Vec<Shape>, AllocError>
    ensures { IfOk result (λ shapes. (e : TheEntry) → slice_get layout.now.entries.now at ≡ Some e
        → IsEntryDrawn (scene_of layout.now) at undone e (seen shapes.items)) }
{
    let y = layout.own_height(at)?;
    let mut shapes = Shapes::new(layout.alloc);
    add_number(&mut shapes, layout, at, y)?;
    let Some(entry) = layout.entry_at(at) else {
        return Ok(shapes.finish());
    };
    add_entry(&mut shapes, layout, routes, at, y, entry, undone)?;
    Ok(shapes.finish())
}
