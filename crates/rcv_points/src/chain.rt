// The chain of places that a role is led along while it has nothing to choose.

ghost use Rattle.std.specs.Prelude.{◌≡◌, ◌≤◌, ◌↔◌, ℕ, IsTrue, MatchOption, length};
ghost use Rattle.rcv_points.specs.Follow.{net_in};
ghost use Rattle.rcv_points.specs.Ahead.{IsMetBy};
ghost use Rattle.rcv_points.specs.Found.{AreInText, IsForced};

use crate::met::{met_at, owns};
use crate::places::Places;
use crate::points::Points;
use rcv_tree::point::Point;
use rcv_tree::role::RoleId;

/// Whether at some place of the chain from this place on the role meets just these points. The chain goes on if the
/// role meets one point, which isn't its own, and ends if it comes back to a place. It takes no memory.
pub fn chain_meets(points: &Points, role: RoleId, place: u16, wanted: &[Point]) -> bool
    requires { place ≤ length points.now.messages }
    ensures { IsTrue result ↔ IsMetBy (net_in points.now) role place wanted.now }
{
    // The points keep within the text.
    points.count();
    let mut met = Places::new();
    let mut at = place;
    // The role meets points of its own lanes alone. Only at the first place it isn't known yet whether the lane has
    // one.
    let mut owned = owns(points, role, place);
    while !met.has(at) {
        met.add(at);
        let ahead = met_at(points, role, at, owned);
        if are_same(ahead, wanted) {
            return true;
        }
        match forced(points, role, ahead) {
            Some(point) => at = point.0,
            None => return false,
        }
        owned = true;
    }
    false
}

// Whether the points are the same.
fn are_same(left: &[Point], right: &[Point]) -> bool
    ensures { IsTrue result ↔ (left.now ≡ right.now) }
{
    left == right
}

// The only one of these points, if it isn't the role's.
fn forced(points: &Points, role: RoleId, ahead: &[Point]) -> Option<Point>
    requires { AreInText (net_in points.now) ahead.now }
    ensures { MatchOption result ((p : ℕ) → IsForced (net_in points.now) role ahead.now p → ⊥)
        (λ p. IsForced (net_in points.now) role ahead.now p) }
{
    match ahead {
        [point] if !points.is_of(*point, role) => Some(*point),
        _ => None,
    }
}
