// What is told of an event.

use rcv_tree::point::Point;
use rcv_tree::role::RoleId;

/// An event as its role tells it: in which of its attempts, at which point, and with which number.
#[derive(Clone, Copy, Debug, PartialEq, Eq)]
pub struct News {
    pub role: RoleId,
    pub attempt: u64,
    pub point: Point,
    pub value: i64,
}
