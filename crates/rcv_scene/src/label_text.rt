// The texts of labels: the label of an event's message, with its value.

ghost use Rattle.std.specs.Prelude.{◌≡◌, ◌≤◌, ◌++◌, length, codes, IfOk, IfSome, IfNone};
ghost use Rattle.std.specs.Fmt.{signed_decimal};
ghost use Rattle.rcv_points.specs.Follow.{message_at, no_message};
ghost use Rattle.rcv_scene.specs.Labels.{IsLabelText};

use crate::wording::{Piece, text_of};
use rcv_picture::short_name::{LABEL, shortened};
use rcv_points::points::Points;
use rcv_tree::event::Event;
use rcv_tree::point::Point;
use std::alloc::{AllocError, Global};

// The point, if the text has it.
#[tactic(auto, using(crate::proofs::Labelling::none_at_start, crate::proofs::Labelling::none_past_end))]
fn declared(points: &Points, point: Point) -> Option<Point>
    ensures none { IfNone result (message_at points.now point ≡ no_message) }
    ensures same { IfSome result (λ found. found ≡ point) }
    ensures first { IfSome result (λ found. 1 ≤ found) }
    ensures last { IfSome result (λ found. found ≤ length points.now.messages) }
{
    if point.0 == 0 {
        return None;
    }
    if point.0 > points.count() {
        return None;
    }
    Some(point)
}

// The label of the message of a point; empty if the text has no such point.
fn label_at(points: &Points, point: Point) -> &[u8]
    ensures { result.now ≡ (message_at points.now point).label }
{
    match declared(points, point) {
        Some(point) => points.label(point),
        None => b"",
    }
}

// Whether the message of a point has sorts, so that its value is shown.
fn has_value(points: &Points, point: Point) -> bool
    ensures { result ≡ (message_at points.now point).payload }
{
    match declared(points, point) {
        Some(point) => points.has_payload(point),
        None => false,
    }
}

// A label and a value.
fn with_value(alloc: Global, label: &[u8], value: i64) -> Result<Vec<u8>, AllocError>
    ensures { IfOk result (λ text. text.items ≡ label.now ++ (codes " " ++ signed_decimal value)) }
{
    text_of(
        alloc,
        &[Piece::Word(label), Piece::Word(b" "), Piece::Value(value)],
    )
}

/// The label of an event's message, made to fit, and its value if it has one. Fails if memory runs out.
#[tactic(auto, using(crate::proofs::Labelling::text_alone, crate::proofs::Labelling::text_with_value))]
pub fn text_of_label(alloc: Global, points: &Points, event: &Event) -> Result<Vec<u8>, AllocError>
    ensures { IfOk result (λ text. IsLabelText points.now event.now text.items) }
{
    let label = shortened(alloc, label_at(points, event.point), LABEL)?;
    if !has_value(points, event.point) {
        return Ok(label);
    }
    let text = with_value(alloc, label.as_slice(), event.value)?;
    Ok(text)
}
