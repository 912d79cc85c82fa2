// The rule on lanes that a later stage follows: each can be brought to its end.

ghost use Rattle.std.specs.Prelude.{◌↔◌, ℕ, IsTrue};
ghost use Rattle.rcv_model.specs.Text.{Body};
ghost use Rattle.rcv_model.specs.Next.{HasLater, CanEnd};
ghost use Rattle.rcv_points.specs.Follow.{net_in};
ghost use Rattle.rcv_accept.specs.Lists.{IsInText};
ghost use Rattle.rcv_accept.specs.Faults.{AreOf, IsFirst, FailsAtEnd, IsFirstUnending};

use crate::fault::{Fault, earlier};
use crate::rule::Rule;
use rcv_points::ending::can_end;
use rcv_points::points::Points;
use rcv_tree::point::Point;

// Whether some later stage than that of the point has a point: points stand in the order of their stages.
fn has_later(points: &Points, point: Point) -> bool
    requires { IsInText (net_in points.now) point }
    ensures { IsTrue result ↔ HasLater (net_in points.now) point }
{
    // The points keep within the text.
    points.lanes();
    let stage = points.stage_of(points.lane_of(point.0));
    stage < points.stage_of(points.lane_of(points.count()))
}

// The fault at a point, if the lane can't be brought to its end after it, and a later stage follows.
fn unending(points: &Points, point: Point, ends: bool) -> Option<Fault>
    requires text { IsInText (net_in points.now) point }
    requires told { IsTrue ends ↔ CanEnd (net_in points.now) point }
    ensures { (body : Body) (roles : ℕ) → AreOf body roles points.now → IsFirst (FailsAtEnd body roles point) result }
{
    if ends {
        return None;
    }
    if !has_later(points, point) {
        return None;
    }
    Some(Fault {
        rule: Rule::LaneEnd,
        role: points.sender(point),
        number: point.0,
    })
}

/// The first point after which a lane can't be brought to its end, though a later stage follows, by its sender.
pub fn first_unending(points: &Points) -> Option<Fault>
    ensures { IsFirstUnending points.now result }
{
    // Nothing follows a single lane.
    if points.lanes() == 1 {
        return None;
    }
    let ends = can_end(points);
    let mut first = None;
    for place in 0..points.count() {
        let point = Point(place + 1);
        first = earlier(first, unending(points, point, ends.has(point)));
    }
    first
}
