// The choice that stands in the way of a role's next send.

ghost use Rattle.std.specs.Prelude.{◌≡◌, ℕ, ◌≤◌, ◌<◌, length, IfSome, MatchOption};
ghost use Rattle.rcv_points.specs.Follow.{net_in};
ghost use Rattle.rcv_accept.specs.Lists.{AreInText, IsInText};
ghost use Rattle.rcv_listing.specs.Way.{IsInTheWay, IsForkOf};

use rcv_points::chain::chain_meets;
use rcv_points::points::Points;
use rcv_tree::point::Point;
use rcv_tree::role::RoleId;

// The first of these points, if they are two at least and the role meets just them on its chain from the place.
#[tactic(auto, using(crate::proofs::Forking::too_few))]
fn fork_of(points: &Points, role: RoleId, place: u16, offered: &[Point]) -> Option<Point>
    requires last { place ≤ length points.now.messages }
    requires text { AreInText (net_in points.now) offered.now }
    ensures fork { MatchOption result ((p : ℕ) → IsForkOf (net_in points.now) role place offered.now p → ⊥)
        (IsForkOf (net_in points.now) role place offered.now) }
    ensures text { IfSome result (IsInText (net_in points.now)) }
{
    if offered.len() < 2 {
        return None;
    }
    if chain_meets(points, role, place, offered) {
        Some(offered[0])
    } else {
        None
    }
}

// The first point of the fork among what places offer.
fn fork_at_places(points: &Points, role: RoleId, place: u16) -> Option<Point>
    requires { place ≤ length points.now.messages }
    ensures text { IfSome result (IsInText (net_in points.now)) }
    ensures fork { MatchOption result
        ((k p : ℕ) → k ≤ length points.now.messages → IsForkOf (net_in points.now) role place ((net_in points.now).offers k) p → ⊥)
        (IsInTheWay (net_in points.now) role place) }
{
    for at in 0..points.count() + 1 {
        if let Some(point) = fork_of(points, role, place, points.offered(at)) {
            return Some(point);
        }
    }
    None
}

// The first point of the fork among what lanes begin with.
fn fork_at_lanes(points: &Points, role: RoleId, place: u16) -> Option<Point>
    requires { place ≤ length points.now.messages }
    ensures text { IfSome result (IsInText (net_in points.now)) }
    ensures fork { MatchOption result
        ((l p : ℕ) → l < length points.now.lanes → IsForkOf (net_in points.now) role place ((net_in points.now).begins l) p → ⊥)
        (IsInTheWay (net_in points.now) role place) }
{
    for lane in 0..points.lanes() {
        if let Some(point) = fork_of(points, role, place, points.lane_start(lane).as_slice()) {
            return Some(point);
        }
    }
    None
}

/// The first message of the choice at which a role's chain from a place ends. The chain goes on if the role meets one
/// point that isn't its own, and comes to a choice if it meets two or more. None if it comes to no choice.
pub fn choice_in_way(points: &Points, role: RoleId, place: u16) -> Option<Point>
    requires { place ≤ length points.now.messages }
    ensures text { IfSome result (IsInText (net_in points.now)) }
    ensures way { MatchOption result ((p : ℕ) → IsInTheWay (net_in points.now) role place p → ⊥)
        (IsInTheWay (net_in points.now) role place) }
{
    // The points keep within the text.
    points.count();
    match fork_at_places(points, role, place) {
        Some(point) => Some(point),
        None => fork_at_lanes(points, role, place),
    }
}
