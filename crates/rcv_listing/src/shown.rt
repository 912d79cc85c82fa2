// The points that are shown where a rule fails.

ghost use Rattle.std.specs.Prelude.{◌≡◌, IfOk};
ghost use Rattle.rcv_points.specs.Follow.{net_in};
ghost use Rattle.rcv_accept.specs.Lists.{AreInText};
ghost use Rattle.rcv_listing.specs.Lines.{is_at_place, AreShown, IsNumberIn};

use rcv_points::ahead::look_ahead;
use rcv_points::points::Points;
use rcv_tree::point::Point;
use rcv_tree::role::RoleId;
use std::alloc::{AllocError, Global};

/// Whether a refusal with this code stands at a place of its role, and not at a point.
pub fn is_at_place(code: u8) -> bool
    ensures { result ≡ is_at_place code }
{
    21 <= code && code <= 25
}

/// The next points of the role at the place where the rule with this code fails, or the point that is wrong. Fails
/// if memory runs out.
pub fn shown(
    alloc: Global,
    points: &Points,
    code: u8,
    role: RoleId,
    number: u16,
) -> Result<Vec<Point>, AllocError>
    requires { IsNumberIn (net_in points.now) code number }
    ensures shown { IfOk result (λ shown. AreShown (net_in points.now) code role number shown.items) }
    ensures text { IfOk result (λ shown. AreInText (net_in points.now) shown.items) }
{
    // Tells the proof that next points stand in the text.
    let _count = points.count();
    if is_at_place(code) {
        return Ok(look_ahead(alloc, points, role, number)?.next);
    }
    let mut one = Vec::new(alloc);
    one.push(Point(number))?;
    Ok(one)
}
