// The lanes of a text, before its places are known.

ghost use Rattle.std.specs.Prelude.{◌≡◌, ◌≤◌, ◌++◌, length, map, IfOk, OnOk, MatchOption};
ghost use Rattle.rcv_model.specs.Places.{lanes_of, beside};
ghost use Rattle.rcv_model.specs.Text.{Body, Parallel, body_of, bodies_of, stmt_body};
ghost use Rattle.rcv_points.specs.Lanes.{lane_text, StaysInRun};

use rcv_tree::statement::{Block, Blocks, Stmt};
use std::alloc::{AllocError, Global};

/// The statements of a lane, and the number of its stage.
#[derive(Drop)]
pub struct LaneText<'a> {
    pub stage: u16,
    pub stmts: &'a [Stmt],
}

/// The lanes of a text, in order: what stands before the first par, the blocks of a par beside each other, what stands
/// after them, and so on. Fails if memory runs out.
pub fn lanes_of<'a>(alloc: Global, body: &'a Block) -> Result<Vec<LaneText<'a>>, AllocError>
    requires { length (lanes_of (body_of body.now)) ≤ 513 }
    ensures { IfOk result (λ lanes. map lane_text lanes.items ≡ lanes_of (body_of body.now)) }
{
    let stmts = body.as_slice();
    let mut lanes = Vec::new(alloc);
    let mut stage = 0;
    // Where the run begins that isn't listed yet.
    let mut from = 0;
    for index in 0..stmts.len() {
        if let Some(blocks) = blocks_of(&stmts[index]) {
            lanes.push(LaneText {
                stage,
                stmts: &stmts[from..index],
            })?;
            add_blocks(&mut lanes, blocks, stage + 1)?;
            stage += 2;
            from = index + 1;
        }
    }
    lanes.push(LaneText {
        stage,
        stmts: &stmts[from..],
    })?;
    Ok(lanes)
}

// The blocks of a par; none for another statement.
fn blocks_of(stmt: &Stmt) -> Option<&Blocks>
    ensures { MatchOption result (StaysInRun stmt.now)
        (λ blocks. (rest : Body) → stmt_body stmt.now rest ≡ Parallel (bodies_of blocks.now) rest) }
{
    match stmt {
        Stmt::Par { blocks } => Some(blocks),
        Stmt::Message { .. } => None,
        Stmt::Choice { .. } => None,
        Stmt::Rec { .. } => None,
        Stmt::Continue { .. } => None,
        Stmt::Do { .. } => None,
    }
}

// Adds blocks as lanes of one stage.
fn add_blocks<'a>(
    lanes: &mut Vec<LaneText<'a>>,
    blocks: &'a Blocks,
    stage: u16,
) -> Result<(), AllocError>
    ensures { OnOk result (map lane_text lanes.new.items
        ≡ map lane_text lanes.old.items ++ beside stage (bodies_of blocks.now)) }
{
    for block in blocks.as_slice() {
        lanes.push(LaneText {
            stage,
            stmts: block.as_slice(),
        })?;
    }
    Ok(())
}
