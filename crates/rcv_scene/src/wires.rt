// The wires: the way of each message, as it is drawn.

ghost use Rattle.std.specs.Prelude.{◌≡◌, ◌≤◌, ℕ, [], ◌∷◌, ◌++◌, IfOk, OnOk};
ghost use Rattle.rcv_scene.specs.Seen.{Way, seen, drawn_in};
ghost use Rattle.rcv_scene.specs.Grid.{StandsAt, scene_of};
ghost use Rattle.rcv_scene.specs.Wires.{wire_look, AreClose, Begins, Ends, IsWireOf, IsWireDrawn};
ghost use Rattle.rcv_scene.specs.Drawn.{IsArrowDrawn};

use crate::layout::{Layout, Stand};
use crate::routes::{Fate, Route, Side};
use crate::shapes::Shapes;
use crate::spans::{at, back, further};
use crate::wording::{Piece, text_of};
use rcv_picture::look::Look;
use rcv_picture::pixels::{At, Pixels, place};
use rcv_picture::shape::Shape;
use rcv_tree::entry::Entry;
use std::alloc::{AllocError, Global};

// How far from the middle of a mark a wire begins, and how far from it one ends.
const BEGINS: u32 = 9;

const ENDS: u32 = 10;

// How the wire of a message looks if the message isn't kept, or if it is received again.
fn look_of(undone: bool, again: bool) -> Look
    ensures { result ≡ wire_look undone again }
{
    match (undone, again) {
        (true, _) => Look::WireUndone,
        (false, true) => Look::WireAgain,
        (false, false) => Look::Wire,
    }
}

// By how many pixels, at most ten, a straight wire goes down on so much of a way so wide and so high.
fn lower(far: u32, wide: Pixels, high: Pixels) -> u32
    ensures { result ≤ 10 }
{
    (far.saturating_mul(high.0) / wide.0.max(1)).min(10)
}

// Where a wire begins if its Send stands there: beside the Send's mark in the column of this role, so much lower; or
// under the fold, at this x.
fn begin(layout: &Layout<'_>, role: u8, stand: Stand, side: Side, lane: Pixels, lower: u32) -> At
    requires { lower ≤ 10 }
    ensures { (send : ℕ) → StandsAt (scene_of layout.now) send stand → Begins (scene_of layout.now) send role result }
{
    match stand {
        Stand::Own(y) => at(beside(side, layout.x(role), BEGINS), lowered(y, lower)),
        Stand::Folded(row) => at(lane, back(row.bottom, 4)),
    }
}

// Where a wire ends if its Recv stands there: beside the Recv's mark, so much higher; or over the fold.
fn end(layout: &Layout<'_>, role: u8, stand: Stand, side: Side, lane: Pixels, higher: u32) -> At
    requires { higher ≤ 10 }
    ensures { (receive : ℕ) → StandsAt (scene_of layout.now) receive stand → Ends (scene_of layout.now) receive role result }
{
    match stand {
        Stand::Own(y) => at(beside(side, layout.x(role), ENDS), raised(y, higher)),
        Stand::Folded(row) => at(lane, further(row.top, 4)),
    }
}

// So much lower, or higher.
fn lowered(y: Pixels, by: u32) -> Pixels
    requires { by ≤ 10 }
    ensures { AreClose y result }
{
    further(y, by)
}

fn raised(y: Pixels, by: u32) -> Pixels
    requires { by ≤ 10 }
    ensures { AreClose y result }
{
    back(y, by)
}

// Beside the middle of a mark, at this side.
fn beside(side: Side, x: Pixels, far: u32) -> Pixels
    requires { far ≤ 10 }
    ensures { AreClose x result }
{
    match side {
        Side::Left => back(x, far),
        Side::Right => further(x, far),
    }
}

// The turns of a wire between its beginning and its end, in this lane.
fn turns_between(
    alloc: Global,
    from: At,
    to: At,
    lane: Pixels,
    begins: Stand,
    ends: Stand,
) -> Result<Vec<At>, AllocError> {
    let mut turns = Vec::new(alloc);
    if let Stand::Own(_) = begins {
        turns.push(place(lane, from.y))?;
    }
    if let Stand::Own(_) = ends {
        turns.push(place(lane, to.y))?;
    }
    Ok(turns)
}

// A wire from one place to another, by these turns.
fn add_turning(
    shapes: &mut Shapes,
    alloc: Global,
    from: At,
    turns: &[At],
    to: At,
    look: Look,
) -> Result<(), AllocError>
    ensures { OnOk result (drawn_in shapes.new ≡ drawn_in shapes.old ++ Way (from ∷ turns.now ++ to ∷ []) look ∷ []) }
{
    let mut places = Vec::new(alloc);
    places.push(from)?;
    places.extend_from_slice(turns)?;
    places.push(to)?;
    shapes.path(places, look)
}

// The turns of the wire of a message that isn't received: from its Send, if that is shown, to its lane, and down to this height.
fn turns_of(layout: &Layout<'_>, route: &Route, down: Pixels) -> Result<Vec<At>, AllocError> {
    let mut turns = Vec::new(layout.alloc);
    let lane = route.side.beside(layout.x(route.receiver), route.lane);
    if layout.is_shown(route.send) {
        let start = route
            .side
            .other()
            .beside(layout.x(route.sender), Pixels(BEGINS));
        turns.push(place(start, route.from))?;
    }
    turns.push(place(lane, route.from))?;
    turns.push(place(lane, down))?;
    Ok(turns)
}

// A straight wire from one row to the next.
fn straight_shapes(layout: &Layout<'_>, wire: &Wire, undone: bool) -> Result<Vec<Shape>, AllocError>
    ensures { IfOk result (λ shapes. (send : ℕ) → StandsAt (scene_of layout.now) send wire.now.from
        → StandsAt (scene_of layout.now) wire.now.receive wire.now.to
        → IsWireDrawn (scene_of layout.now) send wire.now.receive wire.now.sender wire.now.receiver undone (seen shapes.items)) }
{
    let x_from = layout.x(wire.sender);
    let x_to = layout.x(wire.receiver);
    let wide = if x_from < x_to {
        x_to - x_from
    } else {
        x_from - x_to
    };
    let below = lower(BEGINS, wide, wire.high);
    let above = lower(ENDS, wide, wire.high);
    let from = begin(
        layout,
        wire.sender,
        wire.from,
        wire.side.other(),
        wire.lane,
        below,
    );
    let to = end(layout, wire.receiver, wire.to, wire.side, wire.lane, above);
    let mut shapes = Shapes::new(layout.alloc);
    shapes.line(from, to, look_of(undone, layout.is_again(wire.receive)))?;
    Ok(shapes.finish())
}

// A wire with turns.
fn turning_shapes(layout: &Layout<'_>, wire: &Wire, undone: bool) -> Result<Vec<Shape>, AllocError>
    ensures { IfOk result (λ shapes. (send : ℕ) → StandsAt (scene_of layout.now) send wire.now.from
        → StandsAt (scene_of layout.now) wire.now.receive wire.now.to
        → IsWireDrawn (scene_of layout.now) send wire.now.receive wire.now.sender wire.now.receiver undone (seen shapes.items)) }
{
    let from = begin(
        layout,
        wire.sender,
        wire.from,
        wire.side.other(),
        wire.lane,
        0,
    );
    let to = end(layout, wire.receiver, wire.to, wire.side, wire.lane, 0);
    let turns = turns_between(layout.alloc, from, to, wire.lane, wire.from, wire.to)?;
    let mut shapes = Shapes::new(layout.alloc);
    let look = look_of(undone, layout.is_again(wire.receive));
    add_turning(&mut shapes, layout.alloc, from, turns.as_slice(), to, look)?;
    Ok(shapes.finish())
}

// A wire to draw: between which roles, where its ends stand, which Recv it goes to, at which side of the receiver's
// column it comes, where its lane is, and how high it is if it goes straight.
#[derive(Clone, Copy)]
struct Wire {
    receive: u32,
    sender: u8,
    receiver: u8,
    from: Stand,
    to: Stand,
    side: Side,
    lane: Pixels,
    high: Pixels,
    straight: bool,
}

// The wire between two events.
fn wire_of(
    layout: &Layout<'_>,
    send: u32,
    receive: u32,
    sender: u8,
    receiver: u8,
    lane: Pixels,
) -> Result<Wire, AllocError>
    ensures { IfOk result (λ wire. IsWireOf (scene_of layout.now) send receive sender receiver wire) }
{
    let side = Side::towards(layout.x(receiver), layout.x(sender));
    Ok(Wire {
        receive,
        sender,
        receiver,
        from: layout.stand(send)?,
        to: layout.stand(receive)?,
        side,
        lane: side.beside(layout.x(receiver), lane),
        high: layout.y(receive) - layout.y(send),
        straight: layout.are_neighbours(send, receive),
    })
}

// The wire between two events, as it is drawn.
fn shapes_between(
    layout: &Layout<'_>,
    send: u32,
    receive: u32,
    sender: u8,
    receiver: u8,
    lane: Pixels,
    undone: bool,
) -> Result<Vec<Shape>, AllocError>
    ensures { IfOk result (λ shapes. IsWireDrawn (scene_of layout.now) send receive sender receiver undone (seen shapes.items)) }
{
    let wire = wire_of(layout, send, receive, sender, receiver, lane)?;
    if wire.straight {
        straight_shapes(layout, &wire, undone)
    } else {
        turning_shapes(layout, &wire, undone)
    }
}

/// The wire of a message that is received, in this lane, and whether the message isn't kept at the end. Fails if memory
/// runs out.
pub fn wire_shapes(
    layout: &Layout<'_>,
    send: u32,
    receive: u32,
    lane: Pixels,
    undone: bool,
) -> Result<Vec<Shape>, AllocError>
    ensures { IfOk result (λ shapes. IsArrowDrawn (scene_of layout.now) send receive undone (seen shapes.items)) }
{
    let Some(Entry::Send(sent)) = layout.entry_at(send) else {
        return Ok(Vec::new(layout.alloc));
    };
    let Some(Entry::Recv(got)) = layout.entry_at(receive) else {
        return Ok(Vec::new(layout.alloc));
    };
    shapes_between(layout, send, receive, sent.role.0, got.role.0, lane, undone)
}

/// What a viewer is told of a wire. Fails if memory runs out.
pub fn wire_title(alloc: Global, send: u32, receive: u32) -> Result<Vec<u8>, AllocError> {
    text_of(
        alloc,
        &[
            Piece::Word(b"sent by entry "),
            Piece::Number(send.saturating_add(1)),
            Piece::Word(b", received by entry "),
            Piece::Number(receive.saturating_add(1)),
        ],
    )
}

/// What a viewer is told of a message that isn't received. Fails if memory runs out.
pub fn loose_title(alloc: Global, route: &Route) -> Result<Vec<u8>, AllocError> {
    let send = Piece::Number(route.send.saturating_add(1));
    match route.fate {
        Fate::Received(receive) => wire_title(alloc, route.send, receive),
        Fate::Dropped(recover) => text_of(
            alloc,
            &[
                Piece::Word(b"sent by entry "),
                send,
                Piece::Word(b", dropped by entry "),
                Piece::Number(recover.saturating_add(1)),
            ],
        ),
        Fate::Waits => text_of(
            alloc,
            &[
                Piece::Word(b"sent by entry "),
                send,
                Piece::Word(b", not received"),
            ],
        ),
    }
}

/// The wire of a message that isn't received. If the message was dropped, the wire goes to a cross; the cross says so
/// if it is the first of its recovery. If the message waits at the end, the wire goes to a ring. Fails if memory runs
/// out.
pub fn loose_shapes(
    layout: &Layout<'_>,
    route: &Route,
    first: bool,
) -> Result<Vec<Shape>, AllocError> {
    let mut shapes = Shapes::new(layout.alloc);
    let lane = route.side.beside(layout.x(route.receiver), route.lane);
    match route.fate {
        Fate::Received(_) => {}
        Fate::Dropped(_) => {
            shapes.path(turns_of(layout, route, route.to)?, Look::Gone)?;
            shapes.cross(place(lane, route.to), 5)?;
            if first {
                let at = place(route.side.beside(lane, Pixels(8)), route.to - Pixels(2));
                shapes.words(at, route.side.anchor(), Look::NoteFailed, b"dropped")?;
            }
        }
        Fate::Waits => {
            let end = place(lane, route.to - Pixels(5));
            shapes.path(
                turns_of(layout, route, route.to - Pixels(5))?,
                Look::WirePlain,
            )?;
            shapes.circle(end, Pixels(4), Look::Waiting)?;
        }
    }
    Ok(shapes.finish())
}
