// What stands beside the mark of an event: the label of its message.

ghost use Rattle.std.specs.Prelude.{◌≡◌, ◌≤◌, ◌++◌, true, false, IfOk, OnOk};
ghost use Rattle.rcv_scene.specs.Seen.{further, back, strike_seen, label_seen, labels_seen};
ghost use Rattle.rcv_scene.specs.Grid.{column, grid_of, scene_of};
ghost use Rattle.rcv_scene.specs.Marks.{IsLabel};
ghost use Rattle.rcv_scene.specs.Labels.{again_words, send_label_look, recv_label_look, IsBeside, IsStrike, IsTextBeside, IsSendLabel, IsNote, IsRecvLabel};

use crate::label_text::text_of_label;
use crate::layout::{ENTRY_ROW, Layout};
use crate::routes::{Routes, Side};
use crate::shapes::Label;
use crate::spans::{at, back, further};
use rcv_picture::letters::{Letters, width_of};
use rcv_picture::look::Look;
use rcv_picture::pixels::{At, Pixels};
use rcv_picture::shape::Anchor;
use rcv_tree::event::{Dir, Event};
use std::alloc::AllocError;

// A message that goes over so many rows is labelled at its Recv too.
const LONG: u32 = 8;

// A text is at least so far from the middle of a mark that it stands beside.
const NEAR: u32 = 14;

// Where a text stands: beside this middle of a column, at this side of it, and so far from it.
#[derive(Clone, Copy)]
struct Spot {
    x: Pixels,
    side: Side,
    far: u32,
}

// How the label of a Send looks.
fn send_look(undone: bool) -> Look
    ensures { result ≡ send_label_look undone }
{
    if undone {
        Look::LabelUndone
    } else {
        Look::Label
    }
}

// How the label of a Recv looks if its message is received again, or isn't.
fn recv_look(undone: bool, again: bool) -> Look
    ensures { result ≡ recv_label_look undone again }
{
    match (undone, again) {
        (true, _) => Look::NoteUndone,
        (false, true) => Look::NoteAgain,
        (false, false) => Look::Note,
    }
}

// So far, and at least so far that a text doesn't stand on a mark.
fn apart(far: u32) -> u32
    ensures { 14 ≤ result }
{
    far.max(NEAR)
}

// Where a text at a spot begins or ends, and which part of it stands there.
fn start_of(spot: Spot) -> (Pixels, Anchor)
    ensures { IsBeside spot.x result.0 result.1 }
{
    let far = apart(spot.far);
    match spot.side {
        Side::Left => (back(spot.x, far), Anchor::End),
        Side::Right => (further(spot.x, far), Anchor::Start),
    }
}

// The line through a text so wide that begins or ends here, if its event is undone.
#[tactic(auto, using(crate::proofs::Labelling::is_struck, crate::proofs::Labelling::is_not_struck))]
fn line_through(undone: bool, side: Side, x: Pixels, width: Pixels, y: Pixels) -> Option<(At, At)>
    ensures { IsStrike undone x y (strike_seen result) }
{
    if undone {
        return Some((at(x, y), at(side.beside(x, width), y)));
    }
    None
}

// A label at a spot, so high; if its event is undone, with a line through it at the other height.
#[tactic(auto, using(crate::proofs::Labelling::text_is_beside))]
fn label_at_spot(
    spot: Spot,
    y: Pixels,
    line: Pixels,
    look: Look,
    text: Vec<u8>,
    width: Pixels,
    undone: bool,
) -> Label
    ensures { IsTextBeside spot.x y line look text.items undone (label_seen result) }
{
    let start = start_of(spot);
    let strike = line_through(undone, spot.side, start.0, width, line);
    Label {
        place: at(start.0, y),
        anchor: start.1,
        look,
        text,
        strike,
    }
}

// The side of an event's column at which the other end of its message stands.
fn side_of(layout: &Layout<'_>, event: &Event) -> Side {
    let message = layout.cast.message(event.point);
    let other = match event.dir {
        Dir::Sent => message.receiver,
        Dir::Got => message.sender,
    };
    Side::towards(layout.x(event.role.0), layout.x(other))
}

// Where a text so high stands at this side of an event's column: no lane crosses it.
fn spot_of(layout: &Layout<'_>, routes: &Routes, y: Pixels, event: &Event, side: Side) -> Spot
    ensures { result.x ≡ column (grid_of layout.now) event.now.role }
{
    Spot {
        x: layout.x(event.role.0),
        side,
        far: routes.text_from(event.role.0, side, y).0,
    }
}

// The label of a Send, at the receiver's side, beside its mark at this height.
fn label_of_send(
    layout: &Layout<'_>,
    routes: &Routes,
    y: Pixels,
    event: &Event,
    undone: bool,
) -> Result<Label, AllocError>
    ensures { IfOk result (λ label. IsSendLabel (scene_of layout.now) y event.now undone (label_seen label)) }
{
    let spot = spot_of(layout, routes, y, event, side_of(layout, event));
    let text = text_of_label(layout.alloc, layout.cast.points, event)?;
    let width = width_of(text.as_slice(), Letters::Plain);
    let look = send_look(undone);
    let label = label_at_spot(spot, back(y, 3), back(y, 7), look, text, width, undone);
    Ok(label)
}

// Whether the Recv at a place is far from its Send, or its Send is folded.
fn is_far(layout: &Layout<'_>, place: u32) -> bool {
    match layout.story.send_of(place) {
        Some(send) => {
            !layout.is_shown(send) || layout.y(place) - layout.y(send) > ENTRY_ROW * LONG
        }
        None => false,
    }
}

// Whether a Recv has no label: its message is received for the first time, and not far from its Send.
fn is_bare(layout: &Layout<'_>, place: u32, again: bool) -> bool
    ensures { result ≡ true → again ≡ false }
{
    !again && !is_far(layout, place)
}

// Puts ` again` at the end of the label of a message that is received again.
fn add_again(text: &mut Vec<u8>, again: bool) -> Result<(), AllocError>
    ensures { OnOk result (text.new.items ≡ text.old.items ++ again_words again) }
{
    if again {
        text.extend_from_slice(b" again")?;
    }
    Ok(())
}

// The label of a Recv, away from the sender, beside its mark at this height.
fn note_of(
    layout: &Layout<'_>,
    routes: &Routes,
    y: Pixels,
    event: &Event,
    undone: bool,
    again: bool,
) -> Result<Label, AllocError>
    ensures { IfOk result (λ label. IsNote (scene_of layout.now) y event.now undone again (label_seen label)) }
{
    let spot = spot_of(layout, routes, y, event, side_of(layout, event).other());
    let mut text = text_of_label(layout.alloc, layout.cast.points, event)?;
    add_again(&mut text, again)?;
    let width = width_of(text.as_slice(), Letters::Small);
    let look = recv_look(undone, again);
    let label = label_at_spot(
        spot,
        further(y, 4),
        further(y, 1),
        look,
        text,
        width,
        undone,
    );
    Ok(label)
}

// The label of the Recv at a place, beside its mark at this height, if the message was received before or is far from
// its Send.
#[tactic(auto, using(crate::proofs::Labelling::is_labelled, crate::proofs::Labelling::is_unlabelled))]
fn label_of_recv(
    layout: &Layout<'_>,
    routes: &Routes,
    place: u32,
    y: Pixels,
    event: &Event,
    undone: bool,
) -> Result<Option<Label>, AllocError>
    ensures { IfOk result (λ label. IsRecvLabel (scene_of layout.now) place y event.now undone (labels_seen label)) }
{
    let again = layout.is_again(place);
    if is_bare(layout, place, again) {
        return Ok(None);
    }
    let label = note_of(layout, routes, y, event, undone, again)?;
    Ok(Some(label))
}

/// What stands beside the mark of the event at a place, at this height: the label of a Send; that of a Recv, if it has one.
/// Fails if memory runs out.
pub fn label_of(
    layout: &Layout<'_>,
    routes: &Routes,
    place: u32,
    y: Pixels,
    event: &Event,
    dir: Dir,
    undone: bool,
) -> Result<Option<Label>, AllocError>
    ensures { IfOk result (λ label. IsLabel (scene_of layout.now) place y event.now dir undone (labels_seen label)) }
{
    match dir {
        Dir::Sent => {
            let label = label_of_send(layout, routes, y, event, undone)?;
            Ok(Some(label))
        }
        Dir::Got => label_of_recv(layout, routes, place, y, event, undone),
    }
}
