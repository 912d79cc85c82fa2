// Entries, events, lines of roles and lists of roles compared.

ghost use Rattle.std.specs.Prelude.{◌≡◌, ◌↔◌, IsTrue};

use rcv_journal::line::RoleLine;
use rcv_tree::entry::Entry;
use rcv_tree::event::Event;
use rcv_tree::role::RoleId;

/// Whether two entries are the same.
#[inline(always)]
pub fn is_same(one: &Entry, other: &Entry) -> bool
    ensures { IsTrue result ↔ one.now ≡ other.now }
{
    one == other
}

/// Whether two lines of roles are the same.
pub fn is_same_line(one: &RoleLine, other: &RoleLine) -> bool
    ensures { IsTrue result ↔ one.now ≡ other.now }
{
    one == other
}

/// Whether two lists of roles are the same.
pub fn are_same_roles(one: &[RoleId], other: &[RoleId]) -> bool
    ensures { IsTrue result ↔ one.now ≡ other.now }
{
    one == other
}

/// Whether two events are the same.
#[inline(always)]
pub fn is_same_event(one: &Event, other: &Event) -> bool
    ensures { IsTrue result ↔ one.now ≡ other.now }
{
    one == other
}
