// The ends of points.

ghost use Rattle.std.specs.Prelude.{◌≡◌, ◌<◌};
ghost use Rattle.rcv_guide.specs.Guide.{net_for};
ghost use Rattle.rcv_dialogue.specs.Answers.{IsDeclared};
ghost use Rattle.rcv_guided.specs.Session.{roles_in};
ghost use Rattle.rcv_guided.specs.Hearing.{accepted_of};

use crate::session::GuidedSession;
use rcv_tree::point::Point;
use rcv_tree::role::RoleId;

impl GuidedSession {
    // The role that sends at a point of the text.
    pub(crate) fn sender(&self, point: Point) -> RoleId
        requires { IsDeclared (accepted_of self.now) point }
        ensures value { result ≡ (net_for self.now.guide).sender point }
        ensures declared { result < roles_in self.now }
    {
        let accepted = self.accepted();
        // Tells the proof that the protocol is accepted.
        let _protocol = accepted.protocol();
        accepted.points().sender(point)
    }

    // The role that receives at a point of the text.
    pub(crate) fn receiver(&self, point: Point) -> RoleId
        requires { IsDeclared (accepted_of self.now) point }
        ensures value { result ≡ (net_for self.now.guide).receiver point }
        ensures declared { result < roles_in self.now }
    {
        let accepted = self.accepted();
        // Tells the proof that the protocol is accepted.
        let _protocol = accepted.protocol();
        accepted.points().receiver(point)
    }
}
