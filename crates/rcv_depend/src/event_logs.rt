// What a cut reads: the ends of the roles' logs, and how much lies on each channel.

ghost use Rattle.std.specs.Prelude.{◌≡◌, ◌<◌, List, length};
ghost use Rattle.rcv_tree.specs.declared.event.Event.{Event};
ghost use Rattle.rcv_model.specs.Net.{Net};
ghost use Rattle.rcv_model.specs.Run.{put, taken};
ghost use Rattle.rcv_points.specs.Follow.{net_in};
ghost use Rattle.rcv_depend.specs.Logs.{log_at, HasMark, AreSound};

use crate::mark::Mark;
use rcv_points::points::Points;
use rcv_tree::role::RoleId;

/// The logs of roles, however they are kept: what each role did, and what that put on the channels.
pub trait EventLogs {
    /// For each role, in order of declaration, what it did.
    ghost logs: { Self → List (List Event) };

    /// They are of this protocol: each event stands at one of its points, and what was counted of channels is so.
    ghost are_of: { Self → Net → Type 0 };

    /// How many roles have a log. It takes no memory.
    fn roles(&self) -> usize
        ensures { result ≡ length (logs self.now) };

    /// How many events a role with a log has. It takes no memory.
    fn made(&self, role: RoleId) -> usize
        requires { role < length (logs self.now) }
        ensures { result ≡ length (log_at (logs self.now) role) };

    /// The mark of the event with this number, from 0, of a role with a log. It takes no memory.
    fn mark(&self, role: RoleId, number: usize) -> Mark
        requires role { role < length (logs self.now) }
        requires number { number < length (log_at (logs self.now) role) }
        ensures { HasMark (logs self.now) role number result };

    /// How much one role's events put on its channel to another one, and how much the other one's took from it. Both
    /// have logs. It takes no memory.
    fn counts(&self, points: &Points, from: RoleId, to: RoleId) -> (usize, usize)
        requires protocol { are_of self.now (net_in points.now) }
        requires roles { (from < length (logs self.now)) × (to < length (logs self.now)) }
        ensures put { result.0 ≡ length (put (net_in points.now) from to (log_at (logs self.now) from)) }
        ensures taken { result.1 ≡ length (taken (net_in points.now) from to (log_at (logs self.now) to)) };

    /// In logs of a protocol each event stands in its role's log, at a point between two of eight roles.
    ghost sound: { (x : Self) (net : Net) → are_of x net → AreSound net (logs x) };
}
