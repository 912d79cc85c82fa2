// Frames: around the blocks of a choice, a loop or lanes, and around what came through a call.

ghost use Rattle.std.specs.Prelude.{◌≡◌, ◌≤◌, [], ◌∷◌, IfOk, OnOk, IsTrue};
ghost use Rattle.rcv_charts.specs.Titles.{has_title, is_titled};
ghost use Rattle.rcv_charts.specs.Chart.{IsBelow, Moves, AddsFrame, first_upper, first_lower, upper, lower};

use crate::beside::Span;
use crate::calls::Calls;
use crate::columns::Columns;
use crate::drawing::{Drawing, titled};
use crate::extent::{Within, tag_width};
use crate::shapes::{path, rect, text};
use crate::words::joined;
use rcv_module::Called;
use rcv_picture::group::Group;
use rcv_picture::look::Look;
use rcv_picture::pixels::{At, Pixels, place};
use rcv_picture::shape::Shape;
use rcv_tree::name::Names;
use std::alloc::{AllocError, Global};

/// What is the same for the whole picture, or for a lane: the roles, the calls, the columns, and the edges between
/// which frames stand.
#[derive(Clone, Copy, Drop)]
pub struct Chart<'a> {
    pub alloc: Global,
    pub roles: &'a Names,
    pub calls: Calls<'a>,
    pub columns: Columns,
    pub left: Pixels,
    pub right: Pixels,
}

impl<'a> Chart<'a> {
    /// The same for a lane beside others, which stands in its own columns.
    pub fn lane(&self, span: Span) -> Chart<'a>
        ensures { result.roles.now ≡ self.now.roles.now }
    {
        Chart {
            alloc: self.alloc,
            roles: self.roles,
            calls: self.calls,
            columns: self.columns,
            left: self.columns.start(span.first) + Pixels(4) - self.columns.before,
            right: self.columns.end(span.last) + self.columns.behind - Pixels(4),
        }
    }
}

/// How high a tag is.
pub const TAG: Pixels = Pixels(20);

/// Begins a frame: how far down its upper edge is.
pub fn open_frame(drawing: &mut Drawing) -> Pixels
    ensures moves { Moves drawing.old drawing.new }
    ensures below { IsBelow drawing.old.down drawing.new.down }
    ensures top { result.0 ≡ drawing.new.down }
{
    drawing.skip(Pixels(12));
    drawing.down()
}

// The rectangle of a frame between these heights.
fn around(chart: &Chart<'_>, inset: Pixels, top: Pixels, bottom: Pixels) -> Shape
    requires { top.0 ≤ bottom.0 }
    ensures upper { first_upper (result ∷ []) ≡ top.0 }
    ensures lower { first_lower (result ∷ []) ≡ bottom.0 }
{
    let left = chart.left + inset;
    let width = chart.right - inset - left;
    let height = Pixels(bottom.0 - top.0);
    rect(At { x: left, y: top }, width, height, 4, Look::Grid)
}

// The tag of a frame, at its upper left corner: its ground, and its words. Fails if memory runs out.
fn tag_of(
    chart: &Chart<'_>,
    inset: Pixels,
    top: Pixels,
    tag: Vec<u8>,
) -> Result<(Shape, Shape), AllocError> {
    let left = chart.left + inset;
    let right = left + tag_width(tag.as_slice());
    let corners = [
        place(left, top),
        place(right, top),
        place(right, top + Pixels(12)),
        place(right - Pixels(8), top + TAG),
        place(left, top + TAG),
        place(left, top),
    ];
    let ground = path(chart.alloc, &corners, Look::Tag)?;
    Ok((
        ground,
        text(left + Pixels(7), top + Pixels(14), Look::Bold, tag),
    ))
}

// A frame between these heights, with its tag. Fails if memory runs out.
fn group_of(
    chart: &Chart<'_>,
    inset: Pixels,
    top: Pixels,
    bottom: Pixels,
    title: Vec<u8>,
    tag: Vec<u8>,
) -> Result<Group, AllocError>
    requires titled { IsTrue (is_titled title.items) }
    requires down { top.0 ≤ bottom.0 }
    ensures title { IfOk result (λ group. group.title.items ≡ title.items) }
    ensures upper { IfOk result (λ group. upper group ≡ top.0) }
    ensures lower { IfOk result (λ group. lower group ≡ bottom.0) }
    ensures titled { IfOk result (λ group. IsTrue (has_title group)) }
{
    let (ground, words) = tag_of(chart, inset, top, tag)?;
    let mut shapes = Vec::new(chart.alloc);
    shapes.push(around(chart, inset, top, bottom))?;
    shapes.push(ground)?;
    shapes.push(words)?;
    Ok(titled(title, shapes))
}

/// Draws a frame that begins as far down as the drawing has come, around what was drawn inside, with its tag. Fails if
/// memory runs out.
pub fn put_frame(
    chart: &Chart<'_>,
    drawing: &mut Drawing,
    mut inner: Drawing,
    inset: Pixels,
    title: Vec<u8>,
    tag: Vec<u8>,
) -> Result<(), AllocError>
    requires titled { IsTrue (is_titled title.items) }
    requires down { drawing.old.down ≤ inner.down }
    ensures { OnOk result (AddsFrame title.items inner drawing.old drawing.new) }
{
    inner.skip(Pixels(16));
    let top = drawing.down();
    let bottom = inner.down();
    let group = group_of(chart, inset, top, bottom, title, tag)?;
    drawing.put_group(group)?;
    drawing.put_inner(inner, bottom)
}

// Ends a frame of a call that began here, and draws it with its tag. Fails if memory runs out.
fn close_frame(
    chart: &Chart<'_>,
    drawing: &mut Drawing,
    inset: Pixels,
    top: Pixels,
    tag: Vec<u8>,
) -> Result<(), AllocError>
    ensures { OnOk result (Moves drawing.old drawing.new) }
{
    drawing.skip(Pixels(16));
    let left = chart.left + inset;
    let height = drawing.down() - top;
    let width = chart.right - inset - left;
    let (ground, words) = tag_of(chart, inset, top, tag)?;
    drawing.put_below(rect(place(left, top), width, height, 4, Look::Grid))?;
    drawing.put_above(ground)?;
    drawing.put_above(words)
}

/// The frame of a call that has begun: how far in it stands, and how far down its upper edge is.
#[derive(Clone, Copy, Drop)]
pub struct CallFrame {
    call: Called,
    inset: Pixels,
    top: Pixels,
}

// How many of the frames, from the outermost on, are those of these calls.
fn common(frames: &[CallFrame], calls: &[Called]) -> usize {
    for (depth, frame) in frames.iter().enumerate() {
        if calls.get(depth) != Some(&frame.call) {
            return depth;
        }
    }
    frames.len()
}

// Ends frames, the innermost first, until so many are left. Fails if memory runs out.
fn close_calls(
    chart: &Chart<'_>,
    drawing: &mut Drawing,
    frames: &mut Vec<CallFrame>,
    left: usize,
) -> Result<(), AllocError>
    ensures { OnOk result (Moves drawing.old drawing.new) }
{
    for _ in left..frames.len() {
        if let Some(frame) = frames.pop() {
            let tag = joined(chart.alloc, b"do ", chart.calls.name(frame.call))?;
            close_frame(chart, drawing, frame.inset, frame.top, tag)?;
        }
    }
    Ok(())
}

/// Goes from these frames of calls, which stand in a block, to what came into the block through these calls. It ends
/// the frames that this isn't in, and begins those of its other calls. Answers where it stands. Fails if memory runs
/// out.
pub fn go_into(
    chart: &Chart<'_>,
    drawing: &mut Drawing,
    frames: &mut Vec<CallFrame>,
    within: Within,
    calls: &[Called],
) -> Result<Within, AllocError>
    ensures { OnOk result (Moves drawing.old drawing.new) }
{
    close_calls(chart, drawing, frames, common(frames.as_slice(), calls))?;
    let mut framed = within;
    for (depth, call) in calls.iter().enumerate() {
        if frames.len() <= depth {
            let top = open_frame(drawing);
            drawing.skip(Pixels(14));
            frames.push(CallFrame {
                call: *call,
                inset: framed.inset,
                top,
            })?;
        }
        framed = framed.in_call();
    }
    Ok(framed)
}
