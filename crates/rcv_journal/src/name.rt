// The name of a role.

ghost use Rattle.std.specs.Prelude.{◌≡◌};
ghost use Rattle.rcv_journal.specs.JournalText.{name_of};

use rcv_core::setup::Setup;
use rcv_tree::role::RoleId;

/// The name of a role; empty if it isn't declared.
#[inline(always)]
pub fn name_of(setup: &Setup, role: RoleId) -> &[u8]
    ensures { result.now ≡ name_of setup.now role }
{
    setup.protocol().roles.name(role)
}
