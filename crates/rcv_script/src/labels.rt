// What the protocol and the lines of a role say of a label.

ghost use Rattle.std.specs.List.{list_any};
ghost use Rattle.std.specs.Prelude.{◌≡◌, map};
ghost use Rattle.rcv_points.specs.Follow.{message_at};
ghost use Rattle.rcv_script.specs.Lines.{line_of};
ghost use Rattle.rcv_script.specs.Scripts.{HasPoint};
ghost use Rattle.rcv_script.specs.Labels.{is_end, is_meant};
ghost use Rattle.rcv_script.specs.Machine.{has_send};

use crate::line::Line;
use rcv_lexer::is;
use rcv_points::points::Points;
use rcv_tree::point::Point;

/// Whether the role sends a message with this label, or receives it if that counts too. `bare` asks for one without
/// sorts.
pub fn has_message(points: &Points, role: usize, label: &[u8], received: bool, bare: bool) -> bool
    ensures { result ≡ list_any (is_meant role label.now received bare) points.now.messages }
{
    for number in 0..points.count() {
        let point = Point(number + 1);
        let meant = is_end(points, point, role, received) && is(points.label(point), label);
        if meant && !(bare && points.has_payload(point)) {
            return true;
        }
    }
    false
}

fn is_end(points: &Points, point: Point, role: usize, received: bool) -> bool
    requires { HasPoint points.now.messages point }
    ensures { result ≡ is_end role received (message_at points.now point) }
{
    points.sender(point).0 as usize == role || received && points.receiver(point).0 as usize == role
}

/// Whether one of these lines sends with this label.
pub fn has_send(label: &[u8], lines: &[Line]) -> bool
    ensures { result ≡ has_send label.now (map line_of lines.now) }
{
    for line in lines {
        if let Line::Send { label: other, .. } = line {
            if is(other.as_slice(), label) {
                return true;
            }
        }
    }
    false
}
