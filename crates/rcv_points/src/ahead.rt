// The points that a role can come to next from a place.

ghost use Rattle.std.specs.Prelude.{◌≤◌, IfOk, length};
ghost use Rattle.rcv_tree.specs.Bits.{members};
ghost use Rattle.rcv_points.specs.Follow.{IsSetOfRole, net_in};
ghost use Rattle.rcv_points.specs.Ahead.{IsAhead};

use crate::points::Points;
use crate::reach::reach_from;
use rcv_tree::point::{Point, PointSet};
use rcv_tree::role::RoleId;
use std::alloc::{AllocError, Global};

/// What lies ahead of a role at a place.
#[derive(Drop)]
pub struct Ahead {
    /// The role's next points, ascending: those that it can come to with no point of its own before them.
    pub next: Vec<Point>,
    /// A walk from the place may end with no point of the role.
    pub may_end: bool,
}

/// What lies ahead of a role at a place of the text, which is 0 for the start, or a point for the place after it. No
/// way is walked twice: each place is visited once. Only the answer takes memory. Fails if memory runs out.
pub fn look_ahead(
    alloc: Global,
    points: &Points,
    role: RoleId,
    place: u16,
) -> Result<Ahead, AllocError>
    requires { place ≤ length points.now.messages }
    ensures { IfOk result (λ a. IsAhead (net_in points.now) role place a.next.items a.may_end) }
{
    look_ahead_past(alloc, points, role, points.of_role(role), place)
}

/// The same, if these are the role's own points. Finding them goes through all points, so that is done once for all
/// places of a role.
pub fn look_ahead_past(
    alloc: Global,
    points: &Points,
    role: RoleId,
    own: PointSet,
    place: u16,
) -> Result<Ahead, AllocError>
    requires own { IsSetOfRole (net_in points.now) role (members own.0) }
    requires last { place ≤ length points.now.messages }
    ensures { IfOk result (λ a. IsAhead (net_in points.now) role place a.next.items a.may_end) }
{
    // The points keep within the text.
    points.count();
    let ahead = reach_from(points, role, own, place);
    let next = ahead.come.intersection(own).list(alloc)?;
    Ok(Ahead {
        next,
        may_end: ahead.ends,
    })
}
