// Where each channel stands among those of eight roles.

ghost use Rattle.std.specs.Prelude.{◌≡◌, ◌<◌};
ghost use Rattle.rcv_depend.specs.Logs.{between};

use rcv_tree::role::RoleId;

/// There are at most so many roles.
pub const ROLES: usize = 8;

/// One channel from each of them to each.
pub const CHANNELS: usize = ROLES * ROLES;

/// Where the channel from one of eight roles to one of them stands among all.
pub fn place_of(from: RoleId, to: RoleId) -> usize
    requires { (from < 8) × (to < 8) }
    ensures place { result ≡ between from to }
    ensures within { result < 64 }
{
    from.0 as usize * ROLES + to.0 as usize
}
