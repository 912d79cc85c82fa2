// What can come from a place on while a role has nothing to do, lane by lane.

ghost use Rattle.std.specs.Prelude.{◌≡◌, ◌<◌, ◌≤◌, ◌+◌, ◌⊎◌, ◌↔◌, ℕ, true, IsTrue, length};
ghost use Rattle.rcv_tree.specs.Bits.{members};
ghost use Rattle.rcv_model.specs.Net.{IsIn};
ghost use Rattle.rcv_points.specs.Follow.{IsSetOfRole, net_in};
ghost use Rattle.rcv_points.specs.Ahead.{IsReach, IsLaneReach};
ghost use Rattle.rcv_points.specs.Found.{AreInText, IsOfferedBy, HasEnd};
ghost use Rattle.rcv_points.specs.LaneSearch.{ReachedSoFar};

use crate::offered::Offered;
use crate::places::Places;
use crate::points::Points;
use crate::search::places_from;
use rcv_tree::point::PointSet;
use rcv_tree::role::RoleId;

/// What can come before the role has something to do.
#[derive(Clone, Copy)]
pub struct Reach {
    /// The points, the role's own among them.
    pub come: PointSet,
    /// A walk may end before one of the role's own.
    pub ends: bool,
}

// What can come along the first lanes.
#[derive(Clone, Copy)]
struct SoFar {
    reach: Reach,
    // If the walk may not end: the stage of the first lane that can't.
    last_stage: u16,
}

/// What can come from a place on, if these are the role's own points. Each place is visited once. It takes no memory.
pub fn reach_from(points: &Points, role: RoleId, own: PointSet, place: u16) -> Reach
    requires own { IsSetOfRole (net_in points.now) role (members own.0) }
    requires last { place ≤ length points.now.messages }
    ensures { IsReach (net_in points.now) role place (members result.come.0) result.ends }
{
    // The points keep within the text.
    points.lanes();
    let own_lane = points.lane_of(place);
    let mut so_far = SoFar {
        reach: lane_reach(points, role, own, points.place(place)),
        last_stage: points.stage_of(own_lane),
    };
    for lane in own_lane + 1..points.lanes() {
        so_far = with_lane(points, role, own, place, lane, so_far);
    }
    so_far.reach
}

// The same with one lane more.
fn with_lane(
    points: &Points,
    role: RoleId,
    own: PointSet,
    place: u16,
    lane: u16,
    so_far: SoFar,
) -> SoFar
    requires own { IsSetOfRole (net_in points.now) role (members own.0) }
    requires last { place ≤ length points.now.messages }
    requires behind { (net_in points.now).lane place < lane }
    requires text { lane < length points.now.lanes }
    requires so_far { ReachedSoFar (net_in points.now) role place lane (members so_far.reach.come.0) so_far.reach.ends
        so_far.last_stage }
    ensures { ReachedSoFar (net_in points.now) role place (lane + 1) (members result.reach.come.0) result.reach.ends
        result.last_stage }
{
    // The points keep within the text.
    points.lanes();
    let stage = points.stage_of(lane);
    // The other lanes of the place's own stage are shut.
    if stage <= points.stage_of(points.lane_of(place)) {
        return so_far;
    }
    // What comes after a lane that can't end isn't reached.
    if !is_open(so_far, stage) {
        return so_far;
    }
    let next = lane_reach(points, role, own, points.lane_start(lane));
    let come = so_far.reach.come.union(next.come);
    if so_far.reach.ends {
        SoFar {
            reach: Reach {
                come,
                ends: next.ends,
            },
            last_stage: stage,
        }
    } else {
        SoFar {
            reach: Reach { come, ends: false },
            last_stage: so_far.last_stage,
        }
    }
}

// Whether a stage comes after lanes that end, or beside the first that can't.
fn is_open(so_far: SoFar, stage: u16) -> bool
    ensures { IsTrue result ↔ ((so_far.reach.ends ≡ true) ⊎ (stage ≤ so_far.last_stage)) }
{
    so_far.reach.ends || stage <= so_far.last_stage
}

// The same along one lane, if these points are offered first.
fn lane_reach(points: &Points, role: RoleId, own: PointSet, first: &Offered) -> Reach
    requires own { IsSetOfRole (net_in points.now) role (members own.0) }
    requires text { AreInText (net_in points.now) first.now }
    ensures { IsLaneReach (net_in points.now) role first.now (members result.come.0) result.ends }
{
    let places = places_from(points, role, own, first);
    let come = first.as_set().union(offered_by(points, &places));
    let ends = first.as_slice().is_empty() || some_ends(points, &places);
    Reach { come, ends }
}

// The points that these places offer.
fn offered_by(points: &Points, places: &Places) -> PointSet
    requires { (j : ℕ) → IsIn j places.now → j ≤ length points.now.messages }
    ensures { (z : ℕ) → IsIn z (members result.0) ↔ IsOfferedBy (net_in points.now) places.now z }
{
    let mut offered = PointSet::none();
    for place in places.as_slice() {
        offered = offered.union(points.offered_set(*place));
    }
    offered
}

// Whether one of these places offers nothing.
fn some_ends(points: &Points, places: &Places) -> bool
    requires { (j : ℕ) → IsIn j places.now → j ≤ length points.now.messages }
    ensures { IsTrue result ↔ HasEnd (net_in points.now) places.now }
{
    for place in places.as_slice() {
        if points.offered(*place).is_empty() {
            return true;
        }
    }
    false
}
