// What a role meets at a place, along its own lanes.

ghost use Rattle.std.specs.Prelude.{◌≡◌, ◌≤◌, ◌↔◌, IsTrue, length};
ghost use Rattle.rcv_model.specs.Next.{IsOf, met_by, next_begins, points_in};
ghost use Rattle.rcv_points.specs.Follow.{net_in};
ghost use Rattle.rcv_points.specs.Met.{HasOwn, IsNextLane, next_stage};

use crate::points::Points;
use rcv_tree::point::Point;
use rcv_tree::role::RoleId;

/// What the role meets at a place. The caller says whether the place's lane has a point of it. It takes no memory.
pub fn met_at<'a>(points: &'a Points, role: RoleId, place: u16, owned: bool) -> &'a [Point]
    requires last { place ≤ length points.now.messages }
    requires told { 1 ≤ place → (IsTrue owned ↔ HasOwn (net_in points.now) role ((net_in points.now).lane place)) }
    ensures { result.now ≡ met_by (net_in points.now) role place }
{
    if place > 0 && owned {
        let here = points.offered(place);
        if !here.is_empty() {
            return here;
        }
    }
    next_start(points, role, place)
}

/// Whether the lane of a place after a point has a point of the role. It takes no memory.
pub fn owns(points: &Points, role: RoleId, place: u16) -> bool
    requires { place ≤ length points.now.messages }
    ensures { 1 ≤ place → (IsTrue result ↔ HasOwn (net_in points.now) role ((net_in points.now).lane place)) }
{
    if place == 0 {
        return false;
    }
    // This holds for most places.
    if points.is_of(Point(place), role) {
        return true;
    }
    let lane = points.lane_of(place);
    for before in 0..points.count() {
        if is_own_in(points, role, Point(before + 1), lane) {
            return true;
        }
    }
    false
}

// Whether a point is one of the role in this lane.
fn is_own_in(points: &Points, role: RoleId, point: Point, lane: u16) -> bool
    requires first { 1 ≤ point }
    requires last { point ≤ length points.now.messages }
    ensures { IsTrue result ↔ (IsOf (net_in points.now) role point × ((net_in points.now).lane point ≡ lane)) }
{
    points.is_of(point, role) && points.lane_of(point.0) == lane
}

// What the role's next lane after a place begins with: points after it in the text stand in later stages, or in its
// own.
fn next_start<'a>(points: &'a Points, role: RoleId, place: u16) -> &'a [Point]
    requires { place ≤ length points.now.messages }
    ensures { result.now ≡ next_begins (net_in points.now) role (next_stage (net_in points.now) place) (points_in (net_in points.now)) }
{
    for before in place..points.count() {
        let point = Point(before + 1);
        if is_next_lane(points, role, place, point) {
            return points.lane_start(points.lane_of(point.0)).as_slice();
        }
    }
    &[]
}

// Whether the role's next lane after a place may be that of the point.
fn is_next_lane(points: &Points, role: RoleId, place: u16, point: Point) -> bool
    requires last { place ≤ length points.now.messages }
    requires first { 1 ≤ point }
    requires text { point ≤ length points.now.messages }
    ensures { IsTrue result ↔ IsNextLane (net_in points.now) role place point }
{
    if !points.is_of(point, role) {
        return false;
    }
    // The points keep within the text.
    points.lanes();
    let lane = points.lane_of(point.0);
    if place > 0 && points.stage_of(lane) <= points.stage_of(points.lane_of(place)) {
        return false;
    }
    !points.lane_start(lane).as_slice().is_empty()
}
