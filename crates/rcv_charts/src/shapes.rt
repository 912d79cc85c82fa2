// Shapes, in short.

ghost use Rattle.std.specs.Prelude.{◌≡◌, IfOk};
ghost use Rattle.rcv_charts.specs.Titles.{IsWay};

use rcv_picture::look::Look;
use rcv_picture::pixels::{At, Pixels};
use rcv_picture::shape::{Anchor, Shape};
use std::alloc::{AllocError, Global};

/// A text that starts here.
pub fn text(x: Pixels, y: Pixels, look: Look, text: Vec<u8>) -> Shape
    ensures { result ≡ Shape.Text (record { x = x; y = y }) Anchor.Start look text }
{
    Shape::Text {
        place: At { x, y },
        anchor: Anchor::Start,
        look,
        text,
    }
}

/// A text whose middle is here.
pub fn middle_text(x: Pixels, y: Pixels, look: Look, text: Vec<u8>) -> Shape
    ensures { result ≡ Shape.Text (record { x = x; y = y }) Anchor.Middle look text }
{
    Shape::Text {
        place: At { x, y },
        anchor: Anchor::Middle,
        look,
        text,
    }
}

/// A text that ends here.
pub fn end_text(x: Pixels, y: Pixels, look: Look, text: Vec<u8>) -> Shape
    ensures { result ≡ Shape.Text (record { x = x; y = y }) Anchor.End look text }
{
    Shape::Text {
        place: At { x, y },
        anchor: Anchor::End,
        look,
        text,
    }
}

/// A line from place to place.
pub fn line(from: At, to: At, look: Look) -> Shape
    ensures { result ≡ Shape.Line from to look }
{
    Shape::Line { from, to, look }
}

/// A rectangle by its upper left corner.
pub fn rect(corner: At, width: Pixels, height: Pixels, round: u32, look: Look) -> Shape
    ensures { result ≡ Shape.Rect corner width height (record { 0 = round }) look }
{
    Shape::Rect {
        corner,
        width,
        height,
        round: Pixels(round),
        look,
    }
}

/// A circle.
pub fn circle(center: At, radius: u32, look: Look) -> Shape
    ensures { result ≡ Shape.Circle center (record { 0 = radius }) look }
{
    Shape::Circle {
        center,
        radius: Pixels(radius),
        look,
    }
}

/// Lines along these places. Fails if memory runs out.
pub fn path(alloc: Global, places: &[At], look: Look) -> Result<Shape, AllocError>
    ensures { IfOk result (λ shape. IsWay places.now shape) }
{
    Ok(Shape::Path {
        places: Vec::from_slice(alloc, places)?,
        look,
    })
}
