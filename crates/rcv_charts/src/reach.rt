// From which point to which point statements reach.

ghost use Rattle.std.specs.Prelude.{◌≡◌, ◌++◌, OnOk};
ghost use Rattle.rcv_model.specs.Text.{Body, body_of, bodies_of, stmt_body};
ghost use Rattle.rcv_charts.specs.Statements.{points_of, points_beside, reach_text, reached, with_point};

use rcv_text::writer::Writer;
use rcv_tree::point::Point;
use rcv_tree::statement::{Block, Blocks, Stmt};
use std::alloc::AllocError;

/// The first and the last point of some statements.
#[derive(Clone, Copy, Debug, PartialEq, Eq)]
pub enum Reach {
    /// They have no point.
    Nothing,
    From { first: Point, last: Point },
}

impl Reach {
    /// That of a block.
    pub fn of(block: &Block) -> Reach
        ensures { result ≡ reached Reach.Nothing (points_of (body_of block.now)) }
    {
        Reach::Nothing.with_block(block)
    }

    /// That of blocks.
    pub fn of_blocks(blocks: &Blocks) -> Reach
        ensures { result ≡ reached Reach.Nothing (points_beside (bodies_of blocks.now)) }
    {
        Reach::Nothing.with_blocks(blocks)
    }

    // With one more point after them.
    fn with_point(self, point: Point) -> Reach
        ensures { result ≡ with_point self point }
    {
        match self {
            Reach::Nothing => Reach::From {
                first: point,
                last: point,
            },
            Reach::From { first, .. } => Reach::From { first, last: point },
        }
    }

    // With the points of a block after them.
    #[cycle(reach)]
    fn with_block(self, block: &Block) -> Reach
        ensures { result ≡ reached self (points_of (body_of block.now)) }
    {
        let mut reach = self;
        for stmt in block.as_slice() {
            reach = reach.with_stmt(stmt);
        }
        reach
    }

    // With those of blocks.
    #[cycle(reach)]
    fn with_blocks(self, blocks: &Blocks) -> Reach
        ensures { result ≡ reached self (points_beside (bodies_of blocks.now)) }
    {
        let mut reach = self;
        for block in blocks.as_slice() {
            reach = reach.with_block(block);
        }
        reach
    }

    // With those of a statement.
    #[cycle(reach)]
    fn with_stmt(self, stmt: &Stmt) -> Reach
        ensures { (rest : Body) → reached result (points_of rest) ≡ reached self (points_of (stmt_body stmt.now rest)) }
    {
        match stmt {
            Stmt::Message { point, .. } => self.with_point(*point),
            Stmt::Choice { branches, .. } => self.with_blocks(branches),
            Stmt::Rec { body, .. } => self.with_block(body),
            Stmt::Continue { .. } => self,
            Stmt::Par { blocks } => self.with_blocks(blocks),
            // An expansion has no calls left.
            Stmt::Do { .. } => self,
        }
    }

    /// Writes it: `points 2 to 5`, `point 3` or `no point`.
    pub fn write(self, text: &mut Writer) -> Result<(), AllocError>
        ensures { OnOk result (text.new ≡ text.old ++ reach_text self) }
    {
        match self {
            Reach::Nothing => text.word(b"no point"),
            Reach::From { first, last } => {
                if first == last {
                    text.word(b"point ")?;
                    text.number(first.0)
                } else {
                    text.word(b"points ")?;
                    text.number(first.0)?;
                    text.word(b" to ")?;
                    text.number(last.0)
                }
            }
        }
    }
}
