// What the JSON says of a protocol's text: its points, their labels and ends.

ghost use Rattle.std.specs.Prelude.{◌≡◌, ◌≤◌, length};
ghost use Rattle.rcv_points.specs.Follow.{net_in};
ghost use Rattle.rcv_accept.specs.Accepted.{net_for};
ghost use Rattle.rcv_tables.specs.TableText.{is_own};
ghost use Rattle.rcv_export.specs.RoleJson.{peer_of};

use rcv_accept::accepted::Accepted;
use rcv_points::points::Points;
use rcv_tree::event::Dir;
use rcv_tree::point::Point;
use rcv_tree::role::RoleId;

/// How many points the text has.
pub fn count(accepted: &Accepted) -> u16
    ensures { result ≡ (net_for accepted.now).count }
{
    // Tells the proof that the protocol is accepted.
    let _protocol = accepted.protocol();
    accepted.points().count()
}

// Whether the role sends or receives one of these points.
fn owns_one(points: &Points, role: RoleId, point: Point) -> bool
    requires first { 1 ≤ point }
    requires last { point ≤ length points.now.messages }
    ensures { result ≡ is_own (net_in points.now) role point }
{
    points.sender(point) == role || points.receiver(point) == role
}

/// Whether the role sends or receives a point of the text.
pub fn owns(accepted: &Accepted, role: RoleId, point: Point) -> bool
    requires first { 1 ≤ point }
    requires last { point ≤ (net_for accepted.now).count }
    ensures { result ≡ is_own (net_for accepted.now) role point }
{
    // Tells the proof that the protocol is accepted.
    let _protocol = accepted.protocol();
    owns_one(accepted.points(), role, point)
}

/// The label of a point of the text.
pub fn label(accepted: &Accepted, point: Point) -> &[u8]
    requires first { 1 ≤ point }
    requires last { point ≤ (net_for accepted.now).count }
    ensures { result.now ≡ (net_for accepted.now).label point }
{
    // Tells the proof that the protocol is accepted.
    let _protocol = accepted.protocol();
    accepted.points().label(point)
}

// The role that sends a point of the text.
fn sender(accepted: &Accepted, point: Point) -> RoleId
    requires first { 1 ≤ point }
    requires last { point ≤ (net_for accepted.now).count }
    ensures { result ≡ (net_for accepted.now).sender point }
{
    // Tells the proof that the protocol is accepted.
    let _protocol = accepted.protocol();
    accepted.points().sender(point)
}

// The role that receives a point of the text.
fn receiver(accepted: &Accepted, point: Point) -> RoleId
    requires first { 1 ≤ point }
    requires last { point ≤ (net_for accepted.now).count }
    ensures { result ≡ (net_for accepted.now).receiver point }
{
    // Tells the proof that the protocol is accepted.
    let _protocol = accepted.protocol();
    accepted.points().receiver(point)
}

/// The role at the other end of a point of the text: its receiver if it is sent, else its sender.
pub fn peer(accepted: &Accepted, dir: Dir, point: Point) -> RoleId
    requires first { 1 ≤ point }
    requires last { point ≤ (net_for accepted.now).count }
    ensures { result ≡ peer_of (net_for accepted.now) dir point }
{
    match dir {
        Dir::Sent => receiver(accepted, point),
        Dir::Got => sender(accepted, point),
    }
}
