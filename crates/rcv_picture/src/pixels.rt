// Lengths in a picture, and places in it.

ghost use Rattle.std.specs.Prelude.{⊤};

use std::ops::{Add, Mul, Sub};

/// A whole number of pixels. A sum or a product stops at the greatest number that fits, and a difference at 0.
#[derive(Clone, Copy, Debug, PartialEq, Eq, PartialOrd, Ord)]
pub struct Pixels(pub u32);

impl Add for Pixels {
    type Output = Pixels;

    ghost can_add = { λ _ _. ⊤ };

    fn add(self, other: Pixels) -> Pixels {
        Pixels(self.0.saturating_add(other.0))
    }
}

impl Sub for Pixels {
    type Output = Pixels;

    ghost can_sub = { λ _ _. ⊤ };

    fn sub(self, other: Pixels) -> Pixels {
        Pixels(self.0.saturating_sub(other.0))
    }
}

impl Mul<u32> for Pixels {
    type Output = Pixels;

    ghost can_mul = { λ _ _. ⊤ };

    fn mul(self, times: u32) -> Pixels {
        Pixels(self.0.saturating_mul(times))
    }
}

impl Pixels {
    /// So many pixels, or as many as fit.
    pub fn of(count: usize) -> Pixels {
        Pixels(u32::try_from(count).unwrap_or(u32::MAX))
    }

    /// Half of it, rounded down.
    pub fn half(self) -> Pixels {
        Pixels(self.0 / 2)
    }
}

/// A place: how far from the left edge, and how far from the upper one.
#[derive(Clone, Copy, Debug, PartialEq, Eq)]
pub struct At {
    pub x: Pixels,
    pub y: Pixels,
}

/// The place at these distances from the left and the upper edge.
pub fn place(x: Pixels, y: Pixels) -> At {
    At { x, y }
}
