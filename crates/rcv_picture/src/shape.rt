// Shapes.

use crate::look::Look;
use crate::pixels::{At, Pixels};

/// Which part of a text stands at its place.
#[derive(Clone, Copy, Debug, PartialEq, Eq)]
pub enum Anchor {
    Start,
    Middle,
    End,
}

/// A shape, with its look.
#[derive(Drop)]
pub enum Shape {
    /// A straight line.
    Line {
        from: At,
        to: At,
        look: Look,
    },
    /// A rectangle, by its upper left corner, with corners so round.
    Rect {
        corner: At,
        width: Pixels,
        height: Pixels,
        round: Pixels,
        look: Look,
    },
    Circle {
        center: At,
        radius: Pixels,
        look: Look,
    },
    /// Straight lines from place to place.
    Path {
        places: Vec<At>,
        look: Look,
    },
    /// A text in one line, whose baseline is at its place.
    Text {
        place: At,
        anchor: Anchor,
        look: Look,
        text: Vec<u8>,
    },
}
