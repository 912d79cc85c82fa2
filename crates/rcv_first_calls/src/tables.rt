// Looks into the recovery table of a protocol.

ghost use Rattle.std.specs.Prelude.{◌≡◌, ◌<◌, ◌≤◌, ◌↔◌, ℕ, true, length, IsTrue, IfOk, MatchOption};
ghost use Rattle.rcv_tree.specs.Bits.{has_bit};
ghost use Rattle.rcv_model.specs.Table.{IsConcerned};
ghost use Rattle.rcv_accept.specs.Accepted.{roles_of, net_for};
ghost use Rattle.rcv_tables.specs.Starts.{IsOwnPoint};

use rcv_accept::accepted::Accepted;
use rcv_points::points::Points;
use rcv_tables::making::table;
use rcv_tree::point::Point;
use rcv_tree::role::{RoleId, RoleSet};
use std::alloc::{AllocError, Global};

/// Who is concerned if a role loses its events from one of its points on, the role itself among them; none if the role
/// neither sends nor receives at this point. Fails if memory runs out.
pub fn concerned(
    alloc: Global,
    accepted: &Accepted,
    role: RoleId,
    point: Point,
) -> Result<Option<RoleSet>, AllocError>
    ensures { IfOk result (λ answer. MatchOption answer
        (IsOwnPoint (net_for accepted.now) role point → ⊥)
        (λ set. (q : ℕ) → q < 8 → (has_bit set.0 q ≡ true) ↔ IsConcerned (net_for accepted.now) role point q)) }
{
    if !has_point(accepted, role, point) {
        return Ok(None);
    }
    let table = table(alloc, accepted)?;
    Ok(Some(table.concerned(role, point)))
}

// Whether the role sends or receives at the point. If it does, the protocol declares it.
fn has_point(accepted: &Accepted, role: RoleId, point: Point) -> bool
    ensures own { IsTrue result ↔ IsOwnPoint (net_for accepted.now) role point }
    ensures declared { IsTrue result → role < roles_of accepted.now }
{
    // Tells the proof that the protocol is accepted.
    let _protocol = accepted.protocol();
    let points = accepted.points();
    if !is_within(points, point) {
        return false;
    }
    points.is_of(point, role)
}

// Whether the text has the point.
fn is_within(points: &Points, point: Point) -> bool
    ensures { IsTrue result ↔ ((1 ≤ point) × (point ≤ length points.now.messages)) }
{
    point.0 != 0 && point.0 <= points.count()
}
