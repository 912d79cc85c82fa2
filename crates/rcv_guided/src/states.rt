// Where the roles are.

ghost use Rattle.std.specs.Prelude.{◌≡◌, ◌<◌, ◌≤◌, length, slice_index, take};
ghost use Rattle.std.specs.List.{range_with_len};
ghost use Rattle.rcv_guided.specs.Session.{roles_in};
ghost use Rattle.rcv_guided.specs.Counts.{with_counts};
ghost use Rattle.rcv_guided.specs.Questions.{AreStates, IsState, IsStateOf};

use crate::counts::made;
use crate::session::GuidedSession;
use rcv_dialogue::answer::{RoleState, State};
use rcv_dialogue::few::Kept;
use rcv_tree::role::RoleId;

// What stands after the declared roles.
const NO_COUNT: Kept = Kept {
    role: RoleId(0),
    count: 0,
};

const NO_STATE: RoleState = RoleState {
    role: RoleId(0),
    kept: 0,
    raw: 0,
    state: State::Waits,
};

/// Each of so many roles with its count.
pub fn listed(counts: &[u64; 8], roles: u8) -> [Kept; 8]
    requires { roles ≤ 8 }
    ensures { take roles result ≡ with_counts (slice_index counts.now) (range_with_len 0 roles) }
{
    let mut all = [NO_COUNT; 8];
    for role in 0..roles {
        all[role as usize] = Kept {
            role: RoleId(role),
            count: counts[role as usize],
        };
    }
    all
}

impl GuidedSession {
    // Whether a declared role is at its end, waits, or is down.
    fn state(&self, role: RoleId) -> State
        requires { role < roles_in self.now }
        ensures { IsState self.now role result }
    {
        if self.guide.is_down(role) {
            State::Down
        } else if self.guide.is_over(role) {
            State::Done
        } else {
            State::Waits
        }
    }

    // Where a declared role is.
    pub(crate) fn role_state(&self, role: RoleId) -> RoleState
        requires { role < roles_in self.now }
        ensures { IsStateOf self.now role result }
    {
        RoleState {
            role,
            kept: made(&self.guide, role),
            raw: self.guide.raw(role),
            state: self.state(role),
        }
    }

    // Where each role is.
    pub(crate) fn states(&self) -> [RoleState; 8]
        ensures { AreStates self.now (take (roles_in self.now) result) }
    {
        let mut states = [NO_STATE; 8];
        for role in 0..self.guide.roles() {
            states[role as usize] = self.role_state(RoleId(role));
        }
        states
    }
}
