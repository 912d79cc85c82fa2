// The calls through which the statements of a protocol came.

use crate::extent::Within;
use rcv_module::{Called, Origins};
use rcv_tree::point::Point;
use rcv_tree::statement::{Block, Blocks, Stmt};

// The first point of a statement, if it has one.
#[cycle(first)]
fn first_point(stmt: &Stmt) -> Option<Point> {
    match stmt {
        Stmt::Message { point, .. } => Some(*point),
        Stmt::Choice { branches, .. } => first_point_of_blocks(branches),
        Stmt::Rec { body, .. } => first_point_of_block(body),
        Stmt::Par { blocks } => first_point_of_blocks(blocks),
        Stmt::Continue { .. } => None,
        Stmt::Do { .. } => None,
    }
}

// The same of a block.
#[cycle(first)]
fn first_point_of_block(block: &Block) -> Option<Point> {
    for stmt in block.as_slice() {
        if let Some(point) = first_point(stmt) {
            return Some(point);
        }
    }
    None
}

// The same of blocks.
#[cycle(first)]
fn first_point_of_blocks(blocks: &Blocks) -> Option<Point> {
    for block in blocks.as_slice() {
        if let Some(point) = first_point_of_block(block) {
            return Some(point);
        }
    }
    None
}

/// The calls of a module: where each point came from, and how many inner blocks of its protocol's text each call stands
/// in.
#[derive(Clone, Copy, Drop)]
pub struct Calls<'a> {
    pub origins: &'a Origins,
    pub depths: &'a [u8],
}

impl<'a> Calls<'a> {
    // The calls through which a point came, the outermost first.
    fn of_point(self, point: Point) -> &'a [Called] {
        match self
            .origins
            .points
            .get((point.0 as usize).saturating_sub(1))
        {
            Some(origin) => origin.calls.as_slice(),
            None => &[],
        }
    }

    // Whether a call stands in so many inner blocks of its protocol's text.
    fn stands_in(self, call: Called, blocks: u8) -> bool {
        self.depths.get(call.number) == Some(&blocks)
    }

    /// The calls through which a statement came into the block that is drawn there, the outermost first. A statement
    /// that has no point, such as a `continue`, came through none: the statements of a called text have points, except
    /// for some in its inner blocks.
    pub fn into_block(self, within: Within, stmt: &Stmt) -> &'a [Called] {
        let Some(point) = first_point(stmt) else {
            return &[];
        };
        let calls = self.of_point(point).get(within.calls..).unwrap_or(&[]);
        let mut blocks = within.blocks;
        for (count, call) in calls.iter().enumerate() {
            if !self.stands_in(*call, blocks) {
                return calls.get(..count).unwrap_or(&[]);
            }
            blocks = 0;
        }
        calls
    }

    /// The name of the protocol that a call names.
    pub fn name(self, call: Called) -> &'a [u8] {
        match self.origins.names.as_slice().get(call.protocol) {
            Some(name) => name.as_slice(),
            None => &[],
        }
    }
}
