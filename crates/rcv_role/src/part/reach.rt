// Whom a failure reaches.

ghost use Rattle.std.specs.Prelude.{◌<◌, ◌↔◌, IsTrue};
ghost use Rattle.rcv_tree.specs.Bits.{IsPoint};
ghost use Rattle.rcv_tables.specs.Starts.{IsOwnPoint};
ghost use Rattle.rcv_model.specs.Table.{IsConcerned};
ghost use Rattle.rcv_session.specs.Session.{net_for};
ghost use Rattle.rcv_role.specs.Part.{ReachesRole};

use crate::part::Part;
use rcv_tree::point::Point;
use rcv_tree::role::RoleId;

impl<'a> Part<'a> {
    /// Whether a failure of a role, below 8, that goes back to a point reaches this role.
    pub fn is_reached(&self, role: RoleId, point: Point) -> bool
        requires role { role < 8 }
        requires point { IsPoint point }
        ensures { IsTrue result ↔ ReachesRole self.now.setup role point self.now.role }
    {
        if self.setup.plan().group(role).has(self.role) {
            return true;
        }
        self.is_concerned(role, point)
    }

    // Whether it is a point of the role, and concerns this role.
    fn is_concerned(&self, role: RoleId, point: Point) -> bool
        requires role { role < 8 }
        requires point { IsPoint point }
        ensures { IsTrue result ↔ (IsOwnPoint (net_for self.now.setup) role point
            × IsConcerned (net_for self.now.setup) role point self.now.role) }
    {
        if !self.is_own_point(role, point) {
            return false;
        }
        self.setup.table().concerned(role, point).has(self.role)
    }

    // Whether the text has the point, and the role sends or receives there.
    fn is_own_point(&self, role: RoleId, point: Point) -> bool
        requires { IsPoint point }
        ensures { IsTrue result ↔ IsOwnPoint (net_for self.now.setup) role point }
    {
        let points = self.setup.points();
        if point.0 > points.count() {
            return false;
        }
        points.is_of(point, role)
    }
}
