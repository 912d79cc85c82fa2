// The points of a text that some walk from its start holds.

ghost use Rattle.std.specs.Prelude.{IfOk};
ghost use Rattle.rcv_points.specs.Follow.{net_in};
ghost use Rattle.rcv_points.specs.Reached.{AreReached};

use crate::points::Points;
use crate::reach::reach_from;
use rcv_tree::point::Point;
use rcv_tree::role::RoleId;
use std::alloc::{AllocError, Global};

// Roles are below 8, so this one has no point.
const NOBODY: RoleId = RoleId(8);

/// For each point of the text, in order, whether a walk from the start holds it. Fails if memory runs out.
pub fn reached(alloc: Global, points: &Points) -> Result<Vec<bool>, AllocError>
    ensures { IfOk result (λ flags. AreReached (net_in points.now) flags.items) }
{
    let come = reach_from(points, NOBODY, points.of_role(NOBODY), 0).come;
    let mut flags = Vec::new(alloc);
    for before in 0..points.count() {
        flags.push(come.has(Point(before + 1)))?;
    }
    Ok(flags)
}
