// The names of roles and the labels of points as text.

ghost use Rattle.std.specs.Prelude.{◌≡◌, ◌<◌, ◌≤◌};
ghost use Rattle.std.specs.Str.{IsUtf8};
ghost use Rattle.rcv_session.specs.Session.{roles_of, net_for};
ghost use Rattle.rcv_journal.specs.JournalText.{name_of};

use rcv_core::setup::Setup;
use rcv_journal::name::name_of;
use rcv_tree::point::Point;
use rcv_tree::role::RoleId;
use std::str::from_utf8;

// The bytes as text, which they are.
fn text_of(bytes: &[u8]) -> &str
    requires { IsUtf8 bytes.now }
    ensures { result.now ≡ bytes.now }
{
    from_utf8(bytes).unwrap()
}

/// The name of a declared role.
pub fn role_text(setup: &Setup, role: RoleId) -> &str
    requires { role < roles_of setup.now }
    ensures { result.now ≡ name_of setup.now role }
{
    // Tells the proof that the protocol is accepted, and so its names are words.
    let _protocol = setup.protocol();
    text_of(name_of(setup, role))
}

/// The label of a point of the text.
pub fn label_text(setup: &Setup, point: Point) -> &str
    requires first { 1 ≤ point }
    requires last { point ≤ (net_for setup.now).count }
    ensures { result.now ≡ (net_for setup.now).label point }
{
    // Tells the proof that the protocol is accepted, and so its labels are words.
    let _protocol = setup.protocol();
    text_of(setup.label(point))
}
