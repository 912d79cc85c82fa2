// Where the points of an expansion come from.

use rcv_tree::name::Names;
use rcv_tree::point::Point;

/// A call through which a point came: the number of its word `do`, counted from 0 through the module's text, and the
/// place of the protocol that it names, counted from 0 in text order.
#[derive(Clone, Copy, Debug, PartialEq, Eq)]
pub struct Called {
    pub number: usize,
    pub protocol: usize,
}

/// Where a point of the expansion comes from.
#[derive(Drop)]
pub struct Origin {
    /// The place of the protocol whose text has its message, counted from 0 in text order.
    pub protocol: usize,
    /// The point of that message in the text of that protocol.
    pub point: Point,
    /// The calls through which it came, the outermost first.
    pub calls: Vec<Called>,
}

/// Where each point of the expansion comes from, in order, and the names of the protocols, in text order.
#[derive(Drop)]
pub struct Origins {
    pub names: Names,
    pub points: Vec<Origin>,
}
