// What is next for a role.

ghost use Rattle.std.specs.Prelude.{◌<◌};
ghost use Rattle.rcv_guided.specs.Session.{roles_in};
ghost use Rattle.rcv_guided.specs.Turns.{IsTurnOf};

use crate::session::GuidedSession;
use rcv_dialogue::answer::Turn;
use rcv_tree::role::RoleId;

impl GuidedSession {
    // What is next for a declared role.
    pub(crate) fn turn(&self, role: RoleId) -> Turn<'_>
        requires { role < roles_in self.now }
        ensures { IsTurnOf self.now role result }
    {
        // Tells the proof that the protocol is accepted.
        let _protocol = self.guide.accepted().protocol();
        let next = self.guide.next(role);
        let Some(first) = next.first() else {
            return Turn::Over;
        };
        if self.sender(*first) == role {
            Turn::Sends(next)
        } else {
            Turn::Receives(next)
        }
    }
}
