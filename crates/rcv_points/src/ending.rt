// The points after which a lane can be brought to its end.

ghost use Rattle.std.specs.Prelude.{◌≡◌, ◌≤◌, ◌↔◌, ℕ, true, length};
ghost use Rattle.rcv_tree.specs.Bits.{has_point};
ghost use Rattle.rcv_model.specs.Next.{CanEnd};
ghost use Rattle.rcv_points.specs.Follow.{net_in};
ghost use Rattle.rcv_points.specs.Found.{Adds, IsEndPoint, LeadsTo};

use crate::places::Places;
use crate::points::Points;
use rcv_tree::point::{Point, PointSet};

/// The points of the text after which the lane can be brought to its end, found from the ends of lanes backwards. Each
/// is visited once. It takes no memory.
pub fn can_end(points: &Points) -> PointSet
    ensures { (p : ℕ) → 1 ≤ p → p ≤ length points.now.messages
        → (has_point result.0 p ≡ true) ↔ CanEnd (net_in points.now) p }
{
    // The points keep within the text.
    points.count();
    let mut places = Places::new();
    add_ends(points, &mut places);
    let mut done = 0;
    while done < places.as_slice().len() {
        let at = places.as_slice()[done];
        add_leading(points, Point(at), &mut places);
        done += 1;
    }
    places.points()
}

// Adds the points after which nothing is offered.
fn add_ends(points: &Points, places: &mut Places)
    ensures { Adds (IsEndPoint (net_in points.now)) places.old places.new }
{
    for before in 0..points.count() {
        let place = before + 1;
        if points.offered(place).is_empty() {
            places.add(place);
        }
    }
}

// Adds the points after which this one is offered.
fn add_leading(points: &Points, point: Point, places: &mut Places)
    requires first { 1 ≤ point }
    requires last { point ≤ length points.now.messages }
    ensures { Adds (LeadsTo (net_in points.now) point) places.old places.new }
{
    for before in 0..points.count() {
        let place = before + 1;
        if points.offered_set(place).has(point) {
            places.add(place);
        }
    }
}
