// The places of a lane that can come while a role has nothing to do, each visited once.

ghost use Rattle.std.specs.Prelude.{◌≤◌, ℕ, length};
ghost use Rattle.rcv_model.specs.Net.{IsIn};
ghost use Rattle.rcv_tree.specs.Bits.{members};
ghost use Rattle.rcv_points.specs.Follow.{IsSetOfRole, net_in};
ghost use Rattle.rcv_points.specs.Found.{Adds, AreInText, ArePlacesFrom, IsOther};

use crate::offered::Offered;
use crate::places::Places;
use crate::points::Points;
use rcv_tree::point::PointSet;
use rcv_tree::role::RoleId;

// So many points are walked as fast as they are compared as sets.
const FEW: usize = 4;

/// The places that can come with no point of the role before them, if these points are offered first, and these are the
/// role's own points. It takes no memory.
pub fn places_from(points: &Points, role: RoleId, own: PointSet, first: &Offered) -> Places
    requires own { IsSetOfRole (net_in points.now) role (members own.0) }
    requires text { AreInText (net_in points.now) first.now }
    ensures all { ArePlacesFrom (net_in points.now) role first.now result }
    ensures within { (j : ℕ) → IsIn j result → j ≤ length points.now.messages }
{
    // The points keep within the text.
    points.count();
    let mut places = Places::new();
    add_others(points, role, own, first, &mut places);
    let mut done = 0;
    while done < places.as_slice().len() {
        let at = places.as_slice()[done];
        add_others(points, role, own, points.place(at), &mut places);
        done += 1;
    }
    places
}

// Adds those of the offered points that aren't the role's.
fn add_others(points: &Points, role: RoleId, own: PointSet, offered: &Offered, places: &mut Places)
    requires own { IsSetOfRole (net_in points.now) role (members own.0) }
    requires text { AreInText (net_in points.now) offered.now }
    ensures { Adds (IsOther (net_in points.now) role offered.now) places.old places.new }
{
    // The points keep within the text.
    points.count();
    // Most places that offer many points offer nothing new: then their lists aren't walked.
    if offered.as_slice().len() > FEW {
        let others = offered.as_set().difference(own);
        let fresh = others.difference(places.points());
        if fresh.is_empty() {
            return;
        }
    }
    for point in offered.as_slice() {
        if !points.is_of(*point, role) {
            places.add(point.0);
        }
    }
}
