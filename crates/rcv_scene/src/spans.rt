// Lengths and places whose values contracts know.

ghost use Rattle.std.specs.Prelude.{◌≡◌};
ghost use Rattle.rcv_scene.specs.Seen.{further, back, at};
ghost use Rattle.rcv_scene.specs.Wires.{AreClose};

use rcv_picture::pixels::{At, Pixels};

/// The length with so many pixels more; at most the greatest that fits.
pub fn further(length: Pixels, by: u32) -> Pixels
    ensures { result ≡ further length by }
{
    Pixels(length.0.saturating_add(by))
}

/// The length with so many pixels less; at least 0.
pub fn back(length: Pixels, by: u32) -> Pixels
    ensures { result ≡ back length by }
{
    Pixels(length.0.saturating_sub(by))
}

/// The place at these distances from the left and the upper edge.
pub fn at(x: Pixels, y: Pixels) -> At
    ensures { result ≡ at x y }
{
    At { x, y }
}
