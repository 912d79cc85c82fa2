// Lanes of a protocol beside each other: which columns each one has.

use crate::columns::ROLES;
use rcv_tree::role::RoleId;
use rcv_tree::statement::{Block, Blocks, Stmt};

/// The columns from that of one role to that of another: none if the first comes after the last.
#[derive(Clone, Copy, Drop)]
pub struct Span {
    pub first: RoleId,
    pub last: RoleId,
}

impl Span {
    /// The columns from the first role to the last one that a block names.
    pub fn of(block: &Block) -> Span {
        let nobody = Span {
            first: RoleId(u8::MAX),
            last: RoleId(0),
        };
        nobody.with_block(block)
    }

    // The columns up to that of a role, too.
    fn with(self, role: RoleId) -> Span {
        Span {
            first: self.first.min(role),
            last: self.last.max(role),
        }
    }

    // Those up to all roles of a block, too.
    #[cycle(span)]
    fn with_block(self, block: &Block) -> Span {
        let mut span = self;
        for stmt in block.as_slice() {
            span = span.with_stmt(stmt);
        }
        span
    }

    // The same of blocks.
    #[cycle(span)]
    fn with_blocks(self, blocks: &Blocks) -> Span {
        let mut span = self;
        for block in blocks.as_slice() {
            span = span.with_block(block);
        }
        span
    }

    // The same of a statement.
    #[cycle(span)]
    fn with_stmt(self, stmt: &Stmt) -> Span {
        match stmt {
            Stmt::Message {
                sender,
                receiver,
                ..
            } => self.with(*sender).with(*receiver),
            Stmt::Choice { subject, branches } => self.with(*subject).with_blocks(branches),
            Stmt::Rec { body, .. } => self.with_block(body),
            Stmt::Par { blocks } => self.with_blocks(blocks),
            Stmt::Continue { .. } => self,
            Stmt::Do { .. } => self,
        }
    }

    // Whether a column is one of these.
    fn has(self, column: usize) -> bool {
        self.first.0 as usize <= column && column <= self.last.0 as usize
    }
}

// Takes these columns. Whether all of them were free.
fn take(taken: &mut [bool; ROLES], span: Span) -> bool {
    let mut free = true;
    for column in 0..ROLES {
        let is_own = span.has(column);
        free &= !(is_own && taken[column]);
        taken[column] |= is_own;
    }
    free
}

/// Whether no column is one of two of these blocks, so that they have room beside each other.
pub fn are_apart(blocks: &Blocks) -> bool {
    let mut taken = [false; ROLES];
    let mut apart = true;
    for block in blocks.as_slice() {
        apart &= take(&mut taken, Span::of(block));
    }
    apart
}
